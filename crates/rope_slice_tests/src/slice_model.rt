//! Slices compared with the model.
use crate::cuts::lens;
use crate::places::{
    conversion_errors, expect_same_conversions, expected_conversions, first_byte, last_indices,
};
use crate::plain_slice::PlainSlice;
use crate::{conversions_at, conversions_inside};
use rope_plain::failure::{Failure, at, expect_same};
use rope_plain::plain_text::{Place, place_of};
use rope_plain::sums::{minus, plus};
use rope_plain::texts::expect_chars;
use rope_plain::{same, some};
use ropey::RopeSlice;

/// Fails unless the lengths, the set of line breaks, the text if it is one chunk, and the indices
/// past the end are right.
pub fn expect_whole(slice: &RopeSlice<'_>, plain: &PlainSlice<'_>) -> Result<(), Failure> {
    same!(slice.line_breaks(), plain.breaks);
    expect_lengths(slice, plain)?;
    expect_as_str(slice, plain)?;
    expect_refused_past_the_end(slice)
}

fn expect_lengths(slice: &RopeSlice<'_>, plain: &PlainSlice<'_>) -> Result<(), Failure> {
    let chars = plain.text.len();
    let end = place_of(plain.text, chars, plain.breaks);
    let lines = plus(end.line, 1);
    let expected = [end.byte, chars, lines, end.unit];
    expect_same("lens(slice)", &lens(slice), &expected)
}

/// Fails unless `as_str` returns the text if it is one chunk or none, and else `None`.
fn expect_as_str(slice: &RopeSlice<'_>, plain: &PlainSlice<'_>) -> Result<(), Failure> {
    let (_, end) = plain.chunk_at(0);
    same!(slice.as_str().is_some(), end == plain.text.len());
    if let Some(text) = slice.as_str() {
        expect_chars(text, plain.text)?;
    }
    Ok(())
}

/// Fails unless the first index past the end is refused.
fn expect_refused_past_the_end(slice: &RopeSlice<'_>) -> Result<(), Failure> {
    let lens = lens(slice);
    let [bytes, chars, lines, units] = lens;
    let past = [
        plus(bytes, 1),
        plus(chars, 1),
        plus(lines, 1),
        plus(units, 1),
    ];
    let [byte, char_idx, line, unit] = past;
    let conversions = conversions_at!(slice, char_idx, byte, unit, line);
    expect_same_conversions(conversions, conversion_errors(past, lens))
}

/// Fails unless all lookups at a character or at the end are right.
pub fn expect_lookups_at(
    slice: &RopeSlice<'_>,
    plain: &PlainSlice<'_>,
    char_idx: usize,
) -> Result<(), Failure> {
    let outcome = expect_all_lookups_at(slice, plain, char_idx);
    at("at character", char_idx, outcome)
}

fn expect_all_lookups_at(
    slice: &RopeSlice<'_>,
    plain: &PlainSlice<'_>,
    char_idx: usize,
) -> Result<(), Failure> {
    let place = place_of(plain.text, char_idx, plain.breaks);
    expect_conversions(slice, char_idx, place)?;
    match plain.text.get(char_idx) {
        Some(c) => expect_char(slice, char_idx, place, *c)?,
        None => expect_end(slice, char_idx, place)?,
    }
    expect_chunks_at(slice, plain, char_idx, place.byte)?;
    expect_chunk_at_break(slice, plain, place.line)
}

/// Fails unless the conversions from and to an index are right.
fn expect_conversions(slice: &RopeSlice<'_>, char_idx: usize, place: Place) -> Result<(), Failure> {
    let conversions = conversions_at!(slice, char_idx, place.byte, place.unit, place.line);
    expect_same_conversions(conversions, expected_conversions(char_idx, place))
}

/// Fails unless the character at an index, its first byte, and the indices inside it are right.
fn expect_char(
    slice: &RopeSlice<'_>,
    char_idx: usize,
    place: Place,
    c: char,
) -> Result<(), Failure> {
    same!(slice.get_char(char_idx), Some(c));
    same!(slice.get_byte(place.byte), first_byte(c));
    let (last_byte, last_unit) = last_indices(place, c);
    let inside = conversions_inside!(slice, last_byte, last_unit);
    let expected = [Ok(char_idx), Ok(place.line), Ok(char_idx)];
    expect_same("conversions inside", &inside, &expected)
}

/// Fails unless there is no character and no byte at the end.
fn expect_end(slice: &RopeSlice<'_>, char_idx: usize, place: Place) -> Result<(), Failure> {
    same!(slice.get_char(char_idx), None);
    let byte = slice.get_byte(place.byte);
    expect_same("the byte at the end", &byte, &None)
}

/// A chunk, and the bytes, characters and line breaks before it.
type Found<'a> = Option<(&'a str, usize, usize, usize)>;

/// Fails unless a chunk was found, with these characters, and with these counts before it.
fn expect_chunk(
    found: Found<'_>,
    chars: &[char],
    counts: (usize, usize, usize),
) -> Result<(), Failure> {
    let (chunk, bytes, before, break_count) = some!(found);
    same!((bytes, before, break_count), counts);
    expect_chars(chunk, chars)
}

/// Fails unless the chunk at a character and at its first byte is right.
fn expect_chunks_at(
    slice: &RopeSlice<'_>,
    plain: &PlainSlice<'_>,
    char_idx: usize,
    byte: usize,
) -> Result<(), Failure> {
    let (start, end) = plain.chunk_at(char_idx);
    let chars = plain.part(start, end).text;
    let counts = plain.counts_before(start);
    expect_chunk(slice.get_chunk_at_char(char_idx), chars, counts)?;
    expect_chunk(slice.try_chunk_at_byte(byte).ok(), chars, counts)
}

/// Fails unless the chunk at a line break is right.
fn expect_chunk_at_break(
    slice: &RopeSlice<'_>,
    plain: &PlainSlice<'_>,
    line: usize,
) -> Result<(), Failure> {
    let (start, end) = plain.chunk_at_line_break(line);
    let chars = plain.part(start, end).text;
    let found = slice.get_chunk_at_line_break(line);
    let outcome = expect_chunk(found, chars, plain.counts_before(start));
    at("line break", line, outcome)
}
