//! Ropes compared with lists of characters.

use crate::failure::Failure;
use crate::sums::plus;
use crate::texts::chars_of;
use crate::{plain_text, same};
use ropey::{LineBreaks, MAX_BYTES, Rope};
use std::alloc::Global;

/// Each set of line breaks.
pub const SETS: [LineBreaks; 3] = [LineBreaks::Lf, LineBreaks::CrLf, LineBreaks::Unicode];

/// The minimum number of bytes of each chunk but the last in a rope that was made of a text.
const FRESH_BYTES: usize = 981;

/// The minimum number of bytes of two adjacent chunks in any rope.
const PAIR_BYTES: usize = 492;

/// The minimum mean number of bytes of a chunk: half of that of two adjacent ones.
const MEAN_BYTES: usize = 246;

/// Returns a rope's bytes, characters, lines and code units.
pub fn lens(rope: &Rope) -> [usize; 4] {
    [
        rope.len_bytes(),
        rope.len_chars(),
        rope.len_lines(),
        rope.len_utf16_cu(),
    ]
}

/// Fails unless the rope has the text, its lengths by the set of line breaks, and valid chunks.
pub fn expect_plain(rope: &Rope, text: &[char], breaks: LineBreaks) -> Result<(), Failure> {
    expect_lengths(rope, text, breaks)?;
    expect_valid_chunks(rope)?;
    expect_chunks_of(rope, text)
}

/// Fails unless the rope has Unicode's line breaks, the text, and valid chunks.
pub fn expect_plain_unicode(rope: &Rope, text: &[char]) -> Result<(), Failure> {
    expect_plain(rope, text, LineBreaks::Unicode)
}

/// Fails unless the rope has the set of line breaks and the lengths.
fn expect_lengths(rope: &Rope, text: &[char], breaks: LineBreaks) -> Result<(), Failure> {
    let end = plain_text::place_of(text, text.len(), breaks);
    same!(rope.line_breaks(), breaks);
    let lines = plus(end.line, 1);
    same!(lens(rope), [end.byte, text.len(), lines, end.unit]);
    Ok(())
}

/// Fails unless each chunk has 1 to `MAX_BYTES` bytes, and none ends in a CR whose LF begins the
/// next.
fn expect_valid_chunks(rope: &Rope) -> Result<(), Failure> {
    let mut after_cr = false;
    for (i, chunk) in rope.chunks().enumerate() {
        if chunk.is_empty() || chunk.len() > MAX_BYTES {
            let len = chunk.len();
            return Err(Failure::new(format_args!("chunk {i} has {len} bytes")));
        }
        if after_cr && chunk.starts_with('\n') {
            return Err(Failure::new(format_args!("chunk {i} begins with the LF of a CR")));
        }
        after_cr = chunk.ends_with('\r');
    }
    Ok(())
}

/// Fails unless the chunks are the text.
fn expect_chunks_of(rope: &Rope, text: &[char]) -> Result<(), Failure> {
    let mut place: usize = 0;
    for chunk in rope.chunks() {
        for c in chunk.chars() {
            if text.get(place) != Some(&c) {
                return Err(other_char(place, c, text));
            }
            place = plus(place, 1);
        }
    }
    if place != text.len() {
        let len = text.len();
        return Err(Failure::new(format_args!("the chunks have {place} characters, not {len}")));
    }
    Ok(())
}

/// Returns the failure of a character that differs from the text's.
fn other_char(place: usize, c: char, text: &[char]) -> Failure {
    match text.get(place) {
        Some(wanted) => Failure::new(format_args!("character {place} is {c:?}, not {wanted:?}")),
        None => Failure::new(format_args!("character {place} is {c:?}, past the end")),
    }
}

/// Fails unless a rope made of a text has at most one chunk for each `FRESH_BYTES` bytes, and one
/// for the rest.
pub fn expect_few_chunks(rope: &Rope) -> Result<(), Failure> {
    let bytes = rope.len_bytes();
    let chunks = rope.chunks().count();
    if chunks > bytes.div_ceil(FRESH_BYTES) {
        return Err(Failure::new(format_args!("{bytes} bytes in {chunks} chunks")));
    }
    Ok(())
}

/// Fails unless the rope has at most one chunk for each `MEAN_BYTES` bytes and one for the rest,
/// and no two adjacent ones with fewer than `PAIR_BYTES`.
pub fn expect_no_short_chunks(rope: &Rope) -> Result<(), Failure> {
    let mut before = PAIR_BYTES;
    for chunk in rope.chunks() {
        let both = plus(before, chunk.len());
        if both < PAIR_BYTES {
            return Err(Failure::new(format_args!("{both} bytes in two chunks")));
        }
        before = chunk.len();
    }
    let bytes = rope.len_bytes();
    let chunks = rope.chunks().count();
    if chunks > bytes.div_ceil(MEAN_BYTES) {
        return Err(Failure::new(format_args!("{bytes} bytes in {chunks} chunks")));
    }
    Ok(())
}

/// Fails unless a character and the next one are in one chunk.
pub fn expect_together(rope: &Rope, first: usize) -> Result<(), Failure> {
    let (chunk, start) = chunk_of(rope, first);
    if plus(first, 1) < plus(start, chunk.chars().count()) {
        return Ok(());
    }
    Err(Failure::new(format_args!("a chunk ends after character {first}")))
}

/// Fails unless the rope has Unicode's line breaks and this text, in valid chunks.
pub fn expect_text(alloc: Global, rope: &Rope, text: &str) -> Result<(), Failure> {
    let plain = chars_of(alloc, text)?;
    expect_plain_unicode(rope, &plain)
}

/// Returns the chunk of a character, or the last one, and the number of characters before it.
pub fn chunk_of(rope: &Rope, char_idx: usize) -> (&str, usize) {
    let mut found = ("", 0);
    let mut start: usize = 0;
    for chunk in rope.chunks() {
        found = (chunk, start);
        start = plus(start, chunk.chars().count());
        if char_idx < start {
            break;
        }
    }
    found
}
