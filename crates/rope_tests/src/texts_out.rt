//! Texts copied, shown and borrowed from ropes and slices.
use crate::ropes::rope_of;
use rope_plain::failure::{Failure, expect_same};
use rope_plain::some;
use rope_plain::texts::{expect_shown, repeated};
use ropey::{CowStr, Rope, RopeBuilder, RopeSlice};
use std::alloc::{AllocError, Global};
use std::process::Abort;

/// Fails unless this text of a rope or slice was borrowed.
fn expect_borrowed(lent: ropey::Result<CowStr<'_>>, text: &str) -> Result<(), Failure> {
    match lent {
        Ok(CowStr::Borrowed(lent)) => expect_same("lent", &lent, &text),
        Ok(CowStr::Owned(_)) | Err(_) => Err(Failure::new("not borrowed")),
    }
}

/// Fails unless this text of a rope or slice was copied, where it might have been borrowed.
fn expect_owned(copied: ropey::Result<CowStr<'_>>, text: &str) -> Result<(), Failure> {
    match copied {
        Ok(CowStr::Owned(copy)) => expect_same("copy", &copy.as_str(), &text),
        Ok(CowStr::Borrowed(_)) | Err(_) => Err(Failure::new("not copied")),
    }
}

/// Fails unless this text was copied.
fn expect_copy(copied: ropey::Result<String>, text: &str) -> Result<(), Failure> {
    let copy = copied?;
    expect_same("copy", &copy.as_str(), &text)
}

fn expect_part_borrowed(alloc: Global, slice: Option<RopeSlice<'_>>) -> Result<(), Failure> {
    let slice = some!(slice);
    expect_borrowed(slice.try_to_cow(alloc), "ello!")
}

/// Fails unless a clone of the rope can be turned into its text.
fn expect_converted_into_text(rope: &Rope) -> Result<(), Failure> {
    let clone = rope.clone()?;
    expect_owned(clone.try_into_cow(), "Hello!")
}

fn expect_one_chunk_borrowed(alloc: Global, rope: &Rope) -> Result<(), Failure> {
    expect_borrowed(rope.try_to_cow(alloc), "Hello!")?;
    expect_part_borrowed(alloc, rope.get_slice(1..))?;
    expect_copy(rope.try_to_string(alloc), "Hello!")?;
    expect_converted_into_text(rope)
}

#[test]
fn the_empty_text_is_borrowed(rt: HostRuntime) -> Result<(), Failure> {
    let empty = Rope::new(rt.alloc()).expect(&rt, "there is memory");
    expect_borrowed(empty.try_to_cow(rt.alloc()), "")
}

#[test]
fn a_text_of_one_chunk_is_borrowed(rt: HostRuntime) -> Result<(), Failure> {
    let rope = rope_of(&rt, rt.alloc(), "Hello!");
    expect_one_chunk_borrowed(rt.alloc(), &rope).expect(&rt, "it is borrowed");
    expect_copy(rope.try_into_string(), "Hello!")
}

/// Fails unless a rope of several chunks is copied by each call.
fn expect_chunks_copied(alloc: Global, rope: &Rope, text: &str) -> Result<(), Failure> {
    expect_owned(rope.try_to_cow(alloc), text)?;
    expect_owned(rope.slice(..).try_to_cow(alloc), text)?;
    expect_copy(rope.slice(..).try_to_string(alloc), text)?;
    expect_shown(format!(in alloc; "{rope}"), text)
}

fn expect_two_chunks_copied(rt: &impl Abort, alloc: Global, text: &str) -> Result<(), Failure> {
    let rope = rope_of(rt, alloc, text);
    expect_chunks_copied(alloc, &rope, text).expect(rt, "it is copied");
    expect_copy(rope.try_into_string(), text)
}

#[test]
fn a_text_of_two_chunks_is_copied(rt: HostRuntime) -> Result<(), Failure> {
    let text = repeated(rt.alloc(), "a", 985).expect(&rt, "there is memory");
    expect_two_chunks_copied(&rt, rt.alloc(), text.as_str())
}

fn expect_no_chunks_shown(alloc: Global, slice: Option<RopeSlice<'_>>) -> Result<(), Failure> {
    let slice = some!(slice);
    expect_shown(format!(in alloc; "{slice:?}"), "[]")
}

/// Fails unless a rope is shown without padding, and its chunks one by one.
fn expect_rope_shown(alloc: Global, rope: &Rope) -> Result<(), Failure> {
    expect_shown(format!(in alloc; "{rope:>10}"), "ab")?;
    expect_shown(format!(in alloc; "{:.1}", rope.slice(..)), "ab")?;
    expect_shown(format!(in alloc; "{rope:?}"), "[\"ab\"]")?;
    expect_no_chunks_shown(alloc, rope.get_slice(2..))
}

#[test]
fn a_rope_is_shown_as_its_text(rt: HostRuntime) -> Result<(), Failure> {
    let rope = rope_of(&rt, rt.alloc(), "ab");
    expect_rope_shown(rt.alloc(), &rope)
}

fn expect_builder_shown(alloc: Global, builder: &mut RopeBuilder) -> Result<(), Failure> {
    builder.append("abc")?;
    expect_shown(
        format!(in alloc; "{builder:?}"),
        "RopeBuilder { len_bytes: 3, failed: None }",
    )
}

#[test]
fn a_builder_is_shown(rt: HostRuntime) -> Result<(), Failure> {
    let mut builder = RopeBuilder::new(rt.alloc()).expect(&rt, "there is memory");
    expect_builder_shown(rt.alloc(), &mut builder)
}

fn expect_chars_and_bytes_shown(alloc: Global, rope: &Rope) -> Result<(), Failure> {
    expect_shown(
        format!(in alloc; "{:?}", rope.chars()),
        "Chars { passed: 0, total: 3, is_backward: false, .. }",
    )?;
    expect_shown(
        format!(in alloc; "{:?}", rope.bytes()),
        "Bytes { before: 0, at: 0, total: 4, is_backward: false, .. }",
    )
}

fn expect_lines_and_chunks_shown(alloc: Global, rope: &Rope) -> Result<(), Failure> {
    expect_shown(
        format!(in alloc; "{:?}", rope.lines().reversed()),
        "Lines { line: 0, total: 2, is_backward: true, .. }",
    )?;
    expect_shown(
        format!(in alloc; "{:?}", rope.chunks()),
        "Chunks { is_empty: false, is_past: false, is_backward: false, .. }",
    )
}

fn expect_cursors_shown(alloc: Global, rope: &Rope) -> Result<(), Failure> {
    expect_chars_and_bytes_shown(alloc, rope)?;
    expect_lines_and_chunks_shown(alloc, rope)
}

#[test]
fn cursors_are_shown(rt: HostRuntime) -> Result<(), Failure> {
    let rope = rope_of(&rt, rt.alloc(), "é\nb");
    expect_cursors_shown(rt.alloc(), &rope)
}
