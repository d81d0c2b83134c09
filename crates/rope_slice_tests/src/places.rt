//! The lookups of a rope at one index, compared with those of a list of characters, and the
//! conversions that the tests of slices share.
use crate::{conversions_at, conversions_inside};
use rope_plain::compare::chunk_of;
use rope_plain::failure::{Failure, at, expect_same};
use rope_plain::plain_text::{Place, place_of};
use rope_plain::sums::{minus, plus};
use rope_plain::{holds, same, some};
use ropey::{Error, Rope};

/// The conversions of a rope or a slice at indices in each unit.
#[macro_export]
macro_rules! conversions_at {
    ($text:expr, $char_idx:expr, $byte_idx:expr, $unit_idx:expr, $line_idx:expr $(,)?) => {
        [
            $text.try_char_to_byte($char_idx),
            $text.try_char_to_line($char_idx),
            $text.try_char_to_utf16_cu($char_idx),
            $text.try_byte_to_char($byte_idx),
            $text.try_byte_to_line($byte_idx),
            $text.try_utf16_cu_to_char($unit_idx),
            $text.try_line_to_char($line_idx),
            $text.try_line_to_byte($line_idx),
        ]
    };
}

/// The conversions of a rope or a slice from a byte and a code unit inside a character.
#[macro_export]
macro_rules! conversions_inside {
    ($text:expr, $byte_idx:expr, $unit_idx:expr $(,)?) => {
        [
            $text.try_byte_to_char($byte_idx),
            $text.try_byte_to_line($byte_idx),
            $text.try_utf16_cu_to_char($unit_idx),
        ]
    };
}

/// Returns the results of `conversions_at` at a position before a character or at the end.
pub fn expected_conversions(char_idx: usize, place: Place) -> [ropey::Result<usize>; 8] {
    [
        Ok(place.byte),
        Ok(place.line),
        Ok(place.unit),
        Ok(char_idx),
        Ok(place.line),
        Ok(char_idx),
        Ok(place.line_start_char),
        Ok(place.line_start_byte),
    ]
}

/// Returns the errors of `conversions_at` at indices past the ends of a text: bytes, characters,
/// lines and code units, as `lens` returns them.
pub fn conversion_errors(past: [usize; 4], lens: [usize; 4]) -> [ropey::Result<usize>; 8] {
    let [byte, char_idx, line, unit] = past;
    let [bytes, chars, lines, units] = lens;
    let past_byte = Err(Error::ByteIndexOutOfBounds(byte, bytes));
    let past_char = Err(Error::CharIndexOutOfBounds(char_idx, chars));
    let past_line = Err(Error::LineIndexOutOfBounds(line, lines));
    let past_unit = Err(Error::Utf16IndexOutOfBounds(unit, units));
    [
        past_char, past_char, past_char, past_byte, past_byte, past_unit, past_line, past_line,
    ]
}

/// The conversions of `conversions_at`, in its order.
const CONVERSIONS: [&str; 8] = [
    "try_char_to_byte",
    "try_char_to_line",
    "try_char_to_utf16_cu",
    "try_byte_to_char",
    "try_byte_to_line",
    "try_utf16_cu_to_char",
    "try_line_to_char",
    "try_line_to_byte",
];

/// Fails unless the conversions of `conversions_at` have the expected results.
pub fn expect_same_conversions(
    found: [ropey::Result<usize>; 8],
    wanted: [ropey::Result<usize>; 8],
) -> Result<(), Failure> {
    for (i, name) in CONVERSIONS.iter().enumerate() {
        let found = some!(found.get(i));
        let wanted = some!(wanted.get(i));
        expect_same(name, found, wanted)?;
    }
    Ok(())
}

/// Returns the last byte and the last code unit of a character at a position.
pub fn last_indices(place: Place, c: char) -> (usize, usize) {
    let last_byte = minus(plus(place.byte, c.len_utf8()), 1);
    let last_unit = minus(plus(place.unit, c.len_utf16()), 1);
    (last_byte, last_unit)
}

/// Returns the first byte of a character.
pub fn first_byte(c: char) -> Option<u8> {
    let mut bytes = [0; 4];
    c.encode_utf8(&mut bytes).as_bytes().first().copied()
}

/// Fails unless all lookups at a character or at the end are right.
pub fn expect_lookups_at(rope: &Rope, text: &[char], char_idx: usize) -> Result<(), Failure> {
    let outcome = expect_all_lookups_at(rope, text, char_idx);
    at("at character", char_idx, outcome)
}

fn expect_all_lookups_at(rope: &Rope, text: &[char], char_idx: usize) -> Result<(), Failure> {
    let place = place_of(text, char_idx, rope.line_breaks());
    expect_conversions(rope, char_idx, place)?;
    if let Some(c) = text.get(char_idx) {
        expect_char(rope, char_idx, place, *c)?;
    }
    expect_chunks_at(rope, text, char_idx, place.byte)?;
    expect_chunk_at_break(rope, text, place.line)
}

/// Fails unless the conversions from and to an index are right.
fn expect_conversions(rope: &Rope, char_idx: usize, place: Place) -> Result<(), Failure> {
    let conversions = conversions_at!(rope, char_idx, place.byte, place.unit, place.line);
    expect_same_conversions(conversions, expected_conversions(char_idx, place))
}

/// Fails unless the character at an index, its first byte, and the indices inside it are right.
fn expect_char(rope: &Rope, char_idx: usize, place: Place, c: char) -> Result<(), Failure> {
    same!(rope.get_char(char_idx), Some(c));
    same!(rope.get_byte(place.byte), first_byte(c));
    let (last_byte, last_unit) = last_indices(place, c);
    let inside = conversions_inside!(rope, last_byte, last_unit);
    let expected = [Ok(char_idx), Ok(place.line), Ok(char_idx)];
    expect_same("conversions inside", &inside, &expected)
}

/// Fails unless the chunk at a character and at its first byte is right.
fn expect_chunks_at(
    rope: &Rope,
    text: &[char],
    char_idx: usize,
    byte: usize,
) -> Result<(), Failure> {
    let (expected, start) = chunk_of(rope, char_idx);
    let before = place_of(text, start, rope.line_breaks());
    let chunk = Some((expected, before.byte, start, before.line));
    let found = [
        rope.get_chunk_at_char(char_idx),
        rope.get_chunk_at_byte(byte),
    ];
    expect_same("the chunks found", &found, &[chunk; 2])
}

/// Fails unless the chunk at a line break is right: the first that ends after `line` breaks, or the
/// last one.
fn expect_chunk_at_break(rope: &Rope, text: &[char], line: usize) -> Result<(), Failure> {
    let breaks = rope.line_breaks();
    let (chunk, bytes, start, break_count) = some!(rope.get_chunk_at_line_break(line));
    let before = place_of(text, start, breaks);
    let end = plus(start, chunk.chars().count());
    same!((chunk, start), chunk_of(rope, start));
    same!((bytes, break_count), (before.byte, before.line));
    holds!(start == 0 || break_count < line);
    holds!(end == text.len() || place_of(text, end, breaks).line >= line);
    Ok(())
}
