//! Ropes of texts that are owned, borrowed, or yielded by an iterator.
use rope_plain::compare::{expect_few_chunks, expect_plain_unicode, lens};
use rope_plain::failure::Failure;
use rope_plain::same;
use rope_plain::texts::repeated;
use ropey::{CowStr, Rope};
use std::alloc::Global;
use std::process::Abort;

fn owned(rt: &impl Abort, alloc: Global, text: &str) -> String {
    String::from_str(alloc, text).expect(rt, "there is memory")
}

/// Fails unless a rope of the text `ab` was made.
fn expect_ab(rt: &impl Abort, made: ropey::Result<Rope>) -> Result<(), Failure> {
    let rope = made.expect(rt, "there is memory");
    expect_plain_unicode(&rope, &['a', 'b'])
}

#[test]
fn a_rope_is_made_of_one_text_borrowed_or_owned(rt: HostRuntime) -> Result<(), Failure> {
    let alloc = rt.alloc();
    expect_ab(&rt, Rope::from_string(alloc, owned(&rt, rt.alloc(), "ab")))?;
    expect_ab(&rt, Rope::from_cow(alloc, CowStr::Borrowed("ab")))?;
    expect_ab(
        &rt,
        Rope::from_cow(alloc, CowStr::Owned(owned(&rt, rt.alloc(), "ab"))),
    )
}

#[test]
fn a_rope_is_made_of_several_texts(rt: HostRuntime) -> Result<(), Failure> {
    expect_ab(&rt, Rope::from_str_iter(rt.alloc(), ["a", "b"]))
}

fn rope_of_two_owned_texts(rt: &impl Abort, alloc: Global) -> ropey::Result<Rope> {
    Rope::from_string_iter(alloc, [owned(rt, alloc, "a"), owned(rt, alloc, "b")])
}

fn rope_of_two_cows(rt: &impl Abort, alloc: Global) -> ropey::Result<Rope> {
    let cows = [CowStr::Borrowed("a"), CowStr::Owned(owned(rt, alloc, "b"))];
    Rope::from_cow_iter(alloc, cows)
}

#[test]
fn a_rope_is_made_of_texts_borrowed_or_owned(rt: HostRuntime) -> Result<(), Failure> {
    expect_ab(&rt, rope_of_two_owned_texts(&rt, rt.alloc()))?;
    expect_ab(&rt, rope_of_two_cows(&rt, rt.alloc()))
}

fn expect_thousand_lines(rope: &Rope) -> Result<(), Failure> {
    same!(lens(rope), [5_000, 5_000, 1_001, 5_000]);
    expect_few_chunks(rope)
}

fn expect_rope_of_lines(rt: &impl Abort, alloc: Global, text: &str) -> Result<(), Failure> {
    let made = Rope::from_str_iter(alloc, text.split_inclusive('\r'));
    let rope = made.expect(rt, "there is memory");
    expect_thousand_lines(&rope)
}

#[test]
fn a_rope_is_made_of_the_lines_of_a_text(rt: HostRuntime) -> Result<(), Failure> {
    let text = repeated(rt.alloc(), "one\r\n", 1_000).expect(&rt, "there is memory");
    expect_rope_of_lines(&rt, rt.alloc(), text.as_str())
}
