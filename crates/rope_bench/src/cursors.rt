//! Cursors over a rope: their starts, and all their steps in each direction.
use crate::fault::Fault;
use crate::lookups::{byte_of, sum_of};
use crate::measure::{Outcome, mix, now};
use crate::numbers::Numbers;
use crate::sample::Sample;
use ropey::Rope;
use ropey::iter::{Bytes, Chars, Chunks, Lines};
use std::time::CpuClock;

/// The number of items read at each index.
const STEPS: usize = 10;

/// A walk over a rope.
#[derive(Clone, Copy)]
pub enum Walk {
    Bytes,
    BytesBack,
    BytesReversed,
    Chars,
    CharsBack,
    CharsReversed,
    Lines,
    LinesBack,
    LinesReversed,
    Chunks,
    ChunksBack,
    ChunksReversed,
    BytesAtAnd10,
    CharsAtAnd10,
    ChunksAtByteAnd3,
    ChunksAtCharAnd3,
    ChunksAtBreakAnd3,
    NextPrev,
    Zigzag,
    CloneChars,
    CloneLines,
    BytesAt,
    CharsAt,
    ChunksAtByte,
    LinesAt,
    LinesAtBack,
}

impl Walk {
    /// Returns the name of the workload.
    pub fn name(self) -> &'static str {
        match self {
            Walk::Bytes => "iter_bytes",
            Walk::BytesBack => "iter_bytes_back",
            Walk::BytesReversed => "iter_bytes_reversed",
            Walk::Chars => "iter_chars",
            Walk::CharsBack => "iter_chars_back",
            Walk::CharsReversed => "iter_chars_reversed",
            Walk::Lines => "iter_lines",
            Walk::LinesBack => "iter_lines_back",
            Walk::LinesReversed => "iter_lines_reversed",
            Walk::Chunks => "iter_chunks_per_byte",
            Walk::ChunksBack => "iter_chunks_back_per_byte",
            Walk::ChunksReversed => "iter_chunks_reversed_per_byte",
            Walk::BytesAtAnd10 => "bytes_at_and_10",
            Walk::CharsAtAnd10 => "chars_at_and_10",
            Walk::ChunksAtByteAnd3 => "chunks_at_byte_and_3",
            Walk::ChunksAtCharAnd3 => "chunks_at_char_and_3",
            Walk::ChunksAtBreakAnd3 => "chunks_at_line_break_and_3",
            Walk::NextPrev => "chars_next_prev",
            Walk::Zigzag => "chars_zigzag",
            Walk::CloneChars => "clone_chars",
            Walk::CloneLines => "clone_lines",
            Walk::BytesAt => "bytes_at",
            Walk::CharsAt => "chars_at",
            Walk::ChunksAtByte => "chunks_at_byte",
            Walk::LinesAt => "lines_at",
            Walk::LinesAtBack => "lines_at_back",
        }
    }

    /// Returns the number of operations: the items, or the indices.
    fn operations(self, sample: &Sample) -> usize {
        match self {
            Walk::Bytes | Walk::BytesBack | Walk::BytesReversed => sample.rope.len_bytes(),
            Walk::Chunks | Walk::ChunksBack | Walk::ChunksReversed => sample.rope.len_bytes(),
            Walk::Chars | Walk::CharsBack | Walk::CharsReversed => sample.rope.len_chars(),
            Walk::Lines | Walk::LinesBack | Walk::LinesReversed => sample.rope.len_lines(),
            Walk::BytesAtAnd10
            | Walk::CharsAtAnd10
            | Walk::ChunksAtByteAnd3
            | Walk::ChunksAtCharAnd3
            | Walk::ChunksAtBreakAnd3
            | Walk::BytesAt
            | Walk::CharsAt
            | Walk::ChunksAtByte => sample.operations(100_000),
            Walk::LinesAt | Walk::LinesAtBack => lines_to_visit(sample),
            Walk::NextPrev | Walk::Zigzag | Walk::CloneChars => sample.operations(1_000_000),
            Walk::CloneLines => sample.operations(50_000),
        }
    }

    /// Returns the items read, in one number.
    fn sum(self, rope: &Rope, count: usize) -> Result<u64, Fault> {
        Ok(match self {
            Walk::Bytes => sum_of_bytes(rope.bytes()),
            Walk::BytesBack => bytes_back(rope),
            Walk::BytesReversed => sum_of_bytes(rope.bytes_at(rope.len_bytes()).reversed()),
            Walk::Chars => sum_of_chars(rope.chars()),
            Walk::CharsBack => chars_back(rope),
            Walk::CharsReversed => sum_of_chars(rope.chars_at(rope.len_chars()).reversed()),
            Walk::Lines => mix_of_lines(0, rope.lines()),
            Walk::LinesBack => lines_back(rope),
            Walk::LinesReversed => mix_of_lines(0, rope.lines_at(rope.len_lines()).reversed()),
            Walk::Chunks => len_of_chunks(rope.chunks()),
            Walk::ChunksBack => chunks_back(rope),
            Walk::ChunksReversed => chunks_reversed(rope),
            Walk::BytesAtAnd10 => bytes_at(rope, count),
            Walk::CharsAtAnd10 => chars_at(rope, count),
            Walk::ChunksAtByteAnd3 => chunks_at_byte(rope, count),
            Walk::ChunksAtCharAnd3 => chunks_at_char(rope, count),
            Walk::ChunksAtBreakAnd3 => chunks_at_line_break(rope, count),
            Walk::NextPrev => next_prev(rope, count),
            Walk::Zigzag => zigzag(rope, count),
            Walk::CloneChars => clone_chars(rope, count)?,
            Walk::CloneLines => clone_lines(rope, count)?,
            Walk::BytesAt => first_bytes(rope, count),
            Walk::CharsAt => first_chars(rope, count),
            Walk::ChunksAtByte => first_chunks(rope, count),
            Walk::LinesAt => first_lines(rope, count),
            Walk::LinesAtBack => first_lines_back(rope, count),
        })
    }
}

/// Walks over the rope once, or to many indices.
pub fn go_over<C: CpuClock>(clock: &C, sample: &Sample, what: Walk) -> Result<Outcome, Fault> {
    let operations = what.operations(sample);
    let start = now(clock);
    let checksum = what.sum(&sample.rope, operations)?;
    let end = now(clock);
    Outcome::new(operations, start, end, checksum)
}

/// Returns the sum of the bytes ahead.
pub fn sum_of_bytes(bytes: Bytes<'_>) -> u64 {
    let mut sum: u64 = 0;
    for byte in bytes {
        sum = sum.wrapping_add(u64::from(byte));
    }
    sum
}

/// Returns the sum of the scalar values of the characters ahead.
pub fn sum_of_chars(chars: Chars<'_>) -> u64 {
    let mut sum: u64 = 0;
    for c in chars {
        sum = sum.wrapping_add(u64::from(u32::from(c)));
    }
    sum
}

/// Returns the sum of the lengths of the chunks ahead.
pub fn len_of_chunks(chunks: Chunks<'_>) -> u64 {
    let mut sum: u64 = 0;
    for chunk in chunks {
        sum = sum.wrapping_add(chunk.len() as u64);
    }
    sum
}

/// Mixes the lengths of the lines ahead into a number.
pub fn mix_of_lines(before: u64, lines: Lines<'_>) -> u64 {
    let mut sum = before;
    for line in lines {
        sum = mix(sum, line.len_chars());
    }
    sum
}

fn bytes_back(rope: &Rope) -> u64 {
    let mut sum: u64 = 0;
    let mut bytes = rope.bytes_at(rope.len_bytes());
    while let Some(byte) = bytes.prev() {
        sum = sum.wrapping_add(u64::from(byte));
    }
    sum
}

fn chars_back(rope: &Rope) -> u64 {
    let mut sum: u64 = 0;
    let mut chars = rope.chars_at(rope.len_chars());
    while let Some(c) = chars.prev() {
        sum = sum.wrapping_add(u64::from(u32::from(c)));
    }
    sum
}

fn lines_back(rope: &Rope) -> u64 {
    let mut sum: u64 = 0;
    let mut lines = rope.lines_at(rope.len_lines());
    while let Some(line) = lines.prev() {
        sum = mix(sum, line.len_chars());
    }
    sum
}

fn chunks_back(rope: &Rope) -> u64 {
    let mut sum: u64 = 0;
    let (mut chunks, _, _, _) = rope.chunks_at_byte(rope.len_bytes());
    while let Some(chunk) = chunks.prev() {
        sum = sum.wrapping_add(chunk.len() as u64);
    }
    sum
}

fn chunks_reversed(rope: &Rope) -> u64 {
    let (chunks, _, _, _) = rope.chunks_at_byte(rope.len_bytes());
    len_of_chunks(chunks.reversed())
}

fn bytes_at(rope: &Rope, count: usize) -> u64 {
    let mut numbers = Numbers::new();
    let most = rope.len_bytes().saturating_sub(STEPS.saturating_add(1));
    let mut sum: u64 = 0;
    for _ in 0..count {
        let mut bytes = rope.bytes_at(numbers.up_to(most));
        for _ in 0..STEPS {
            if let Some(byte) = bytes.next() {
                sum = sum.wrapping_add(u64::from(byte));
            }
        }
    }
    sum
}

fn chars_at(rope: &Rope, count: usize) -> u64 {
    let mut numbers = Numbers::new();
    let most = rope.len_chars().saturating_sub(STEPS.saturating_add(1));
    let mut sum: u64 = 0;
    for _ in 0..count {
        let mut chars = rope.chars_at(numbers.up_to(most));
        for _ in 0..STEPS {
            if let Some(c) = chars.next() {
                sum = sum.wrapping_add(u64::from(u32::from(c)));
            }
        }
    }
    sum
}

/// Mixes into a number whether two chunks ahead have text.
fn mix_of_two(before: u64, chunks: &mut Chunks<'_>) -> u64 {
    let mut sum = before;
    for _ in 0..2 {
        if let Some(chunk) = chunks.next() {
            sum = mix(sum, usize::from(!chunk.is_empty()));
        }
    }
    sum
}

/// Reads the bytes at random indices, and two chunks after each.
fn chunks_at_byte(rope: &Rope, count: usize) -> u64 {
    let mut numbers = Numbers::new();
    let most = rope.len_bytes().saturating_sub(5_001);
    let mut sum: u64 = 0;
    for _ in 0..count {
        let place = numbers.up_to(most);
        let (mut chunks, before, _, _) = rope.chunks_at_byte(place);
        if let Some(chunk) = chunks.next() {
            sum = mix(sum, usize::from(byte_of(chunk, place.wrapping_sub(before))));
        }
        sum = mix_of_two(sum, &mut chunks);
    }
    sum
}

/// Tests that chunks begin at the requested character, or before it; and reads two chunks after
/// each.
fn chunks_at_char(rope: &Rope, count: usize) -> u64 {
    let mut numbers = Numbers::new();
    let most = rope.len_chars().saturating_sub(5_001);
    let mut sum: u64 = 0;
    for _ in 0..count {
        let place = numbers.up_to(most);
        let (mut chunks, _, before, _) = rope.chunks_at_char(place);
        let _ = chunks.next();
        sum = mix_of_two(mix(sum, usize::from(before <= place)), &mut chunks);
    }
    sum
}

/// Tests that chunks have at most the requested number of line breaks before them; and reads two
/// chunks after each.
fn chunks_at_line_break(rope: &Rope, count: usize) -> u64 {
    let mut numbers = Numbers::new();
    let most = rope.len_lines().saturating_sub(501);
    let mut sum: u64 = 0;
    for _ in 0..count {
        let place = numbers.up_to(most);
        let (mut chunks, _, _, before) = rope.chunks_at_line_break(place);
        let _ = chunks.next();
        sum = mix_of_two(mix(sum, usize::from(before <= place)), &mut chunks);
    }
    sum
}

fn next_prev(rope: &Rope, count: usize) -> u64 {
    let mut sum: u64 = 0;
    let mut chars = rope.chars_at(rope.len_chars() / 2);
    for _ in 0..count {
        if let Some(c) = chars.next() {
            sum = sum.wrapping_add(u64::from(u32::from(c)));
        }
        if let Some(c) = chars.prev() {
            sum = mix(sum, u32::from(c) as usize);
        }
    }
    sum
}

fn zigzag(rope: &Rope, count: usize) -> u64 {
    let mut sum: u64 = 0;
    let mut chars = rope.chars_at(rope.len_chars() / 2);
    for _ in 0..count {
        if let Some(c) = chars.next() {
            sum = sum.wrapping_add(u64::from(u32::from(c)));
        }
        if let Some(c) = chars.next() {
            sum = sum.wrapping_add(u64::from(u32::from(c)));
        }
        if let Some(c) = chars.prev() {
            sum = mix(sum, u32::from(c) as usize);
        }
    }
    sum
}

fn clone_chars(rope: &Rope, count: usize) -> Result<u64, Fault> {
    let mut sum: u64 = 0;
    let mut chars = rope.chars_at(rope.len_chars() / 2);
    for _ in 0..count {
        let _ = chars.next();
        let mut copy = chars.clone()?;
        if let Some(c) = copy.next() {
            sum = sum.wrapping_add(u64::from(u32::from(c)));
        }
    }
    Ok(sum)
}

fn clone_lines(rope: &Rope, count: usize) -> Result<u64, Fault> {
    let mut sum: u64 = 0;
    let mut lines = rope.lines_at(rope.len_lines() / 2);
    for _ in 0..count {
        let _ = lines.next();
        let mut copy = lines.clone()?;
        if let Some(line) = copy.next() {
            sum = mix(sum, line.len_chars());
        }
    }
    Ok(sum)
}

/// Returns the number of lines to visit: about those of 20,000,000 bytes, at least 100.
fn lines_to_visit(sample: &Sample) -> usize {
    let lines = sample
        .rope
        .len_lines()
        .saturating_mul(sample.operations(20_000_000));
    let lines = lines.checked_div(sample.text.len()).unwrap_or(0);
    lines.min(sample.operations(20_000)).max(100)
}

/// Returns the sum of the first bytes of cursors at random indices.
fn first_bytes(rope: &Rope, count: usize) -> u64 {
    sum_of(count, rope.len_bytes(), |i| match rope.bytes_at(i).next() {
        Some(byte) => usize::from(byte),
        None => 0,
    })
}

/// Returns the sum of the first scalar values of cursors at random indices.
fn first_chars(rope: &Rope, count: usize) -> u64 {
    sum_of(count, rope.len_chars(), |i| match rope.chars_at(i).next() {
        Some(c) => u32::from(c) as usize,
        None => 0,
    })
}

/// Returns the sum of the bytes at random indices, each read from the first chunk of a cursor.
fn first_chunks(rope: &Rope, count: usize) -> u64 {
    sum_of(count, rope.len_bytes().saturating_sub(1), |i| {
        let (mut chunks, before, _, _) = rope.chunks_at_byte(i);
        match chunks.next() {
            Some(chunk) => usize::from(byte_of(chunk, i.wrapping_sub(before))),
            None => 0,
        }
    })
}

/// Returns the sum of the characters of the first lines of cursors at random lines.
fn first_lines(rope: &Rope, count: usize) -> u64 {
    sum_of(
        count,
        rope.len_lines().saturating_sub(1),
        |i| match rope.lines_at(i).next() {
            Some(line) => line.len_chars(),
            None => 0,
        },
    )
}

/// Returns the sum of the characters of the lines before cursors at random lines.
fn first_lines_back(rope: &Rope, count: usize) -> u64 {
    sum_of(count, rope.len_lines(), |i| match rope.lines_at(i).prev() {
        Some(line) => line.len_chars(),
        None => 0,
    })
}
