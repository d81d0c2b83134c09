//! The example of the README, on a text in memory.
ghost use Rattle.std.specs.Prelude.{◌≡◌, ◌<◌, OnOk, None, Some, codes, length};
ghost use Rattle.rope_text.specs.declared.line_breaks.LineBreaks.TheVariants.{Unicode};
ghost use Rattle.rope_text.specs.Edit.{char_range_error};
ghost use Rattle.rope_text.specs.Lines.{line_count};

use rope_plain::failure::{Failure, expect_same};
use rope_plain::same;
use ropey::Rope;
use std::alloc::Global;

/// Fails unless line 1 and the starts of lines are those of the text that was read.
fn expect_lines(rope: &Rope) -> Result<(), Failure>
    requires { 2 < line_count rope.now.breaks rope.now.text }
{
    same!(rope.line(1).as_str(), Some("two\n"));
    let starts = [rope.line_to_char(1), rope.line_to_char(2)];
    expect_same("the starts of lines", &starts, &[4, 8])
}

/// Replaces line 1 of the text that was read.
fn replace_line(rope: &mut Rope) -> ropey::Result<()>
    requires { rope.old.text ≡ codes "one\ntwo\nthree\n" }
    ensures { OnOk result (char_range_error (Some 0) (Some 12) (length rope.new.text) ≡ None) }
{
    rope.remove(4..8)?;
    rope.insert(4, "flowers\n")?;
    Ok(())
}

/// Fails unless the first lines are those after the edits.
fn expect_first_lines(rope: &Rope) -> Result<(), Failure>
    requires { char_range_error (Some 0) (Some 12) (length rope.now.text) ≡ None }
{
    let found = rope.slice(0..12).as_str();
    expect_same("the first lines", &found, &Some("one\nflowers\n"))
}

/// Fails unless the text after the edits is written.
fn expect_written(alloc: Global, rope: &Rope) -> Result<(), Failure> {
    let mut written = Vec::new(alloc);
    rope.write_to(&mut written)?;
    let text = b"one\nflowers\nthree\n".as_slice();
    expect_same("written", &written.as_slice(), &text)
}

/// Fails unless the text that was read has its lines, is edited, and is written.
fn expect_edited(alloc: Global, rope: &mut Rope) -> Result<(), Failure>
    requires text { rope.old.text ≡ codes "one\ntwo\nthree\n" }
    requires breaks { rope.old.breaks ≡ Unicode }
{
    expect_lines(rope)?;
    replace_line(rope)?;
    expect_first_lines(rope)?;
    expect_written(alloc, rope)
}

#[test]
fn a_text_is_read_edited_and_written(rt: HostRuntime) -> Result<(), Failure> {
    let mut rope = Rope::from_reader(rt.alloc(), b"one\ntwo\nthree\n".as_slice())?;
    expect_edited(rt.alloc(), &mut rope)
}
