//! A checked call, which asks nothing of its caller.
ghost use Rattle.std.specs.Prelude.{◌≡◌, ◌≤◌, length, MatchOption};
ghost use Rattle.rope_text.specs.Lines.{line, line_count};

use ropey::Rope;

/// Returns the length of a line in characters, with its line break, or `None` past the last line.
pub fn line_length(rope: &Rope, line_idx: usize) -> Option<usize>
    ensures { MatchOption result (line_count rope.now.breaks rope.now.text ≤ line_idx)
        (λ len. len ≡ length (line rope.now.breaks rope.now.text line_idx)) }
{
    let line = rope.get_line(line_idx)?;
    Some(line.len_chars())
}
