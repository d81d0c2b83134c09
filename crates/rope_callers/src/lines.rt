//! The lines of a rope, forward and backward.
ghost use Rattle.std.specs.Prelude.{◌≡◌, ◌≤◌, ◌<◌, ◌↔◌, length, All, Contains, IsTrue, IfNone, IfSome};
ghost use Rattle.rope_text.specs.LineParts.{lines_of};
ghost use Rattle.rope_text.specs.Lines.{line_count};
ghost use Rattle.rope_slice.specs.Slice.{content_of};
ghost use Rattle.ropey.specs.View.{content};
ghost use Rattle.rope_callers.specs.LinesBefore.{lines_before};

use ropey::{Rope, RopeSlice};

/// Returns whether every line has at most `most` characters.
pub fn all_fit(rope: &Rope, most: usize) -> bool
    ensures { IsTrue result ↔ All (λ line. length line.text ≤ most) (lines_of (content rope.now)) }
{
    rope.lines().all(|line| line.len_chars() <= most)
}

/// Searches backward from the line `line_idx` for a line with at least `least` characters.
pub fn long_line_before(rope: &Rope, line_idx: usize, least: usize) -> Option<RopeSlice<'_>>
    requires { line_idx ≤ line_count rope.now.breaks rope.now.text }
    ensures none { IfNone result
        (All (λ line. length line.text < least) (lines_before rope.now line_idx)) }
    ensures one { IfSome result
        (λ line. Contains (lines_before rope.now line_idx) (content_of line)) }
    ensures found { IfSome result (λ line. least ≤ length (content_of line).text) }
{
    rope.lines_at(line_idx)
        .reversed()
        .find(|line| line.len_chars() >= least)
}
