//! Cursors over short ropes and slices.
use rope_plain::failure::{Failure, expect_same};
use rope_plain::{same, some};
use ropey::Rope;
use ropey::iter::Chars;

fn expect_chars_back(from_third: Option<Chars<'_>>) -> Result<(), Failure> {
    let cursor = some!(from_third);
    let mut chars = cursor.reversed();
    same!(chars.size_hint(), (2, Some(2)));
    same!(chars.len(), 2);
    let steps = [chars.next(), chars.next(), chars.next(), chars.prev()];
    let expected = [Some('b'), Some('a'), None, Some('a')];
    expect_same("steps", &steps, &expected)
}

#[test]
fn characters_are_returned_backward_by_a_reversed_cursor(rt: HostRuntime) -> Result<(), Failure> {
    let rope = Rope::from_str(rt.alloc(), "ab\ncd")?;
    expect_chars_back(rope.get_chars_at(2))
}

fn expect_clone_steps(rope: &Rope) -> Result<(), Failure> {
    let mut chars = rope.chars();
    let mut copied = chars.clone()?;
    let steps = [chars.next(), chars.next(), copied.next(), chars.next()];
    let expected = [Some('a'), Some('b'), Some('a'), Some('\n')];
    expect_same("steps", &steps, &expected)
}

#[test]
fn clones_step_independently(rt: HostRuntime) -> Result<(), Failure> {
    let rope = Rope::from_str(rt.alloc(), "ab\ncd")?;
    expect_clone_steps(&rope)
}
