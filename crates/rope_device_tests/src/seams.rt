//! Texts with long characters and breaks at the cut of a leaf, read and written one byte at a time.
use crate::devices::{NEVER, Narrow, Parts, SINGLY};
use rope_plain::compare::{expect_few_chunks, expect_plain_unicode};
use rope_plain::failure::{Failure, at, expect_same};
use rope_plain::sums::plus;
use rope_plain::texts::{chars_of, repeated};
use ropey::Rope;
use ropey::io::ReadError;
use std::alloc::{AllocError, Global};

/// Line breaks of two and three bytes, and characters of two to four.
const LETTERS: [&str; 7] = ["\r\n", "\u{85}", "\u{2028}", "\u{2029}", "é", "こ", "🐸"];

/// Returns a letter twice between two texts.
fn text_between(
    alloc: Global,
    front: &str,
    letter: &str,
    back: &str,
) -> Result<String, AllocError> {
    [front, letter, letter, back].concat(alloc)
}

/// Returns a number of letters before a letter twice, and letters that fill a leaf.
fn text_around(alloc: Global, before: usize, letter: &str) -> Result<String, AllocError> {
    let front = repeated(alloc, "a", before)?;
    let back = repeated(alloc, "b", 984)?;
    text_between(alloc, front.as_str(), letter, back.as_str())
}

/// Fails unless a rope is this text, in few chunks.
fn expect_text_in_few_chunks(alloc: Global, rope: &Rope, text: &str) -> Result<(), Failure> {
    let plain = chars_of(alloc, text)?;
    expect_plain_unicode(rope, &plain)?;
    expect_few_chunks(rope)
}

/// Returns the number of bytes of the text that a read returned, or none for `InvalidData`.
fn len_read(answer: Result<Rope, ReadError>) -> Result<Option<usize>, ReadError> {
    match answer {
        Ok(rope) => Ok(Some(rope.len_bytes())),
        Err(ReadError::InvalidData) => Ok(None),
        Err(error) => Err(error),
    }
}

/// Fails unless a read of the first bytes returns them if they are complete characters, and is
/// `InvalidData` elsewhere.
fn expect_front_read(alloc: Global, text: &str, len: usize) -> Result<(), Failure> {
    let (front, _) = text.as_bytes().split_at(len.min(text.len()));
    let found = len_read(Rope::from_reader(alloc, Parts::new(front, SINGLY, NEVER)))?;
    let wanted = if text.is_char_boundary(len) {
        Some(len)
    } else {
        None
    };
    expect_same("the number of bytes read", &found, &wanted)
}

/// Fails unless reads end correctly after each of the bytes from one on.
fn expect_ends(alloc: Global, text: &str, before: usize) -> Result<(), Failure> {
    for more in 0..10usize {
        let len = plus(before, more);
        at("byte", len, expect_front_read(alloc, text, len))?;
    }
    Ok(())
}

/// Fails unless a writer that keeps one byte a write has the text.
fn expect_written(rt: &HostRuntime, rope: &Rope, text: &str) -> Result<(), Failure> {
    let mut writer = Narrow::new(rt, 1, text.len());
    rope.write_to(&mut writer)?;
    expect_same("writer.kept", &writer.kept.as_slice(), &text.as_bytes())
}

/// Fails unless a text read one byte a read is complete, and is written.
fn expect_read_and_written(rt: &HostRuntime, text: &str) -> Result<(), Failure> {
    let parts = Parts::new(text.as_bytes(), SINGLY, NEVER);
    let rope = Rope::from_reader(rt.alloc(), parts)?;
    expect_text_in_few_chunks(rt.alloc(), &rope, text)?;
    expect_written(rt, &rope, text)
}

/// Fails unless a text with a letter after `before` others is read and written correctly.
fn expect_copied(rt: &HostRuntime, before: usize, letter: &str) -> Result<(), Failure> {
    let text = text_around(rt.alloc(), before, letter)?;
    expect_ends(rt.alloc(), text.as_str(), before)?;
    expect_read_and_written(rt, text.as_str())
}

/// Fails unless such texts are read and written correctly for each position of the letter near the
/// end of a leaf.
fn expect_copied_near_a_seam(rt: &HostRuntime, letter: &str) -> Result<(), Failure> {
    for before in 976..=986usize {
        at("before", before, expect_copied(rt, before, letter))?;
    }
    Ok(())
}

#[test]
fn texts_cut_at_a_seam_are_read_and_written_by_one_byte(rt: HostRuntime) -> Result<(), Failure> {
    for (row, letter) in LETTERS.iter().enumerate() {
        at("row", row, expect_copied_near_a_seam(&rt, letter))?;
    }
    Ok(())
}
