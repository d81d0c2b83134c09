//! Lookups at random indices of a rope.
ghost use Rattle.std.specs.Prelude.{ℕ, ◌≤◌};

use crate::fault::Fault;
use crate::measure::{Outcome, mix, now};
use crate::numbers::Numbers;
use crate::sample::Sample;
use rope_position::{Position, Positions};
use ropey::Rope;
use std::time::CpuClock;

/// A lookup.
#[derive(Clone, Copy)]
pub enum LookUp {
    CharToByte,
    CharToLine,
    CharToUtf16,
    ByteToChar,
    ByteToLine,
    LineToChar,
    LineToByte,
    Utf16ToChar,
    CharToPosition,
    PositionToChar,
    Byte,
    Char,
    Line,
    ChunkAtByte,
    ChunkAtChar,
    ChunkAtLineBreak,
}

impl LookUp {
    /// Returns the name of the workload.
    pub fn name(self) -> &'static str {
        match self {
            LookUp::CharToByte => "char_to_byte",
            LookUp::CharToLine => "char_to_line",
            LookUp::CharToUtf16 => "char_to_utf16_cu",
            LookUp::ByteToChar => "byte_to_char",
            LookUp::ByteToLine => "byte_to_line",
            LookUp::LineToChar => "line_to_char",
            LookUp::LineToByte => "line_to_byte",
            LookUp::Utf16ToChar => "utf16_cu_to_char",
            LookUp::CharToPosition => "char_to_position",
            LookUp::PositionToChar => "position_to_char",
            LookUp::Byte => "byte",
            LookUp::Char => "char",
            LookUp::Line => "line",
            LookUp::ChunkAtByte => "chunk_at_byte",
            LookUp::ChunkAtChar => "chunk_at_char",
            LookUp::ChunkAtLineBreak => "chunk_at_line_break",
        }
    }

    /// Returns the number of lookups, in full.
    fn times(self) -> usize {
        match self {
            LookUp::Line => 100_000,
            _ => 1_000_000,
        }
    }

    /// Returns the results at `count` indices, in one number.
    fn answers(self, rope: &Rope, count: usize) -> u64 {
        let bytes = rope.len_bytes();
        let chars = rope.len_chars();
        let lines = rope.len_lines();
        let units = rope.len_utf16_cu();
        match self {
            LookUp::CharToByte => sum_of(count, chars, |i| rope.char_to_byte(i)),
            LookUp::CharToLine => sum_of(count, chars, |i| rope.char_to_line(i)),
            LookUp::CharToUtf16 => sum_of(count, chars, |i| rope.char_to_utf16_cu(i)),
            LookUp::ByteToChar => sum_of(count, bytes, |i| rope.byte_to_char(i)),
            LookUp::ByteToLine => sum_of(count, bytes, |i| rope.byte_to_line(i)),
            LookUp::LineToChar => sum_of(count, lines, |i| rope.line_to_char(i)),
            LookUp::LineToByte => sum_of(count, lines, |i| rope.line_to_byte(i)),
            LookUp::Utf16ToChar => sum_of(count, units, |i| rope.utf16_cu_to_char(i)),
            LookUp::CharToPosition | LookUp::PositionToChar => mix_of_positions(rope, count),
            LookUp::Byte => sum_of_bytes(rope, count),
            LookUp::Char => sum_of_chars(rope, count),
            LookUp::Line => mix_of_lines(rope, count),
            LookUp::ChunkAtByte => sum_of_bytes_in_chunks(rope, count),
            LookUp::ChunkAtChar => chunks_at_chars(rope, count),
            LookUp::ChunkAtLineBreak => chunks_at_line_breaks(rope, count),
        }
    }
}

/// Runs many lookups of one kind.
pub fn look_up<C: CpuClock>(clock: &C, sample: &Sample, what: LookUp) -> Result<Outcome, Fault> {
    let count = sample.operations(what.times());
    match what {
        LookUp::PositionToChar => positions_to_chars(clock, sample, count),
        _ => ask(clock, sample, what, count),
    }
}

fn ask<C: CpuClock>(
    clock: &C,
    sample: &Sample,
    what: LookUp,
    count: usize,
) -> Result<Outcome, Fault> {
    let start = now(clock);
    let checksum = what.answers(&sample.rope, count);
    let end = now(clock);
    Outcome::new(count, start, end, checksum)
}

/// Returns the sum of the results at random indices from 0 to `most`.
pub fn sum_of<F: Fn(usize) -> usize>(count: usize, most: usize, answer: F) -> u64
    requires { (i : ℕ) → i ≤ most → F.pre answer i }
{
    let mut numbers = Numbers::new();
    let mut sum: u64 = 0;
    for _ in 0..count {
        let place = numbers.up_to(most);
        sum = sum.wrapping_add(answer(place) as u64);
    }
    sum
}

/// Returns the sum of the bytes at random indices before the end.
fn sum_of_bytes(rope: &Rope, count: usize) -> u64 {
    match rope.len_bytes().checked_sub(1) {
        Some(last) => sum_of(count, last, |i| usize::from(rope.byte(i))),
        None => 0,
    }
}

/// Returns the sum of the scalar values of the characters at random indices before the end.
fn sum_of_chars(rope: &Rope, count: usize) -> u64 {
    match rope.len_chars().checked_sub(1) {
        Some(last) => sum_of(count, last, |i| u32::from(rope.char(i)) as usize),
        None => 0,
    }
}

/// Returns the sum of the bytes at random indices before the end, each read from its chunk.
fn sum_of_bytes_in_chunks(rope: &Rope, count: usize) -> u64 {
    match rope.len_bytes().checked_sub(1) {
        Some(last) => sum_of(count, last, |i| {
            let (chunk, before, _, _) = rope.chunk_at_byte(i);
            usize::from(byte_of(chunk, i.wrapping_sub(before)))
        }),
        None => 0,
    }
}

/// Returns the byte of a chunk at an index, or 0.
pub fn byte_of(chunk: &str, place: usize) -> u8 {
    chunk.as_bytes().get(place).copied().unwrap_or(0)
}

/// Returns the number of chunks that begin at the requested character, or before it: all of them.
fn chunks_at_chars(rope: &Rope, count: usize) -> u64 {
    sum_of(count, rope.len_chars(), |i| {
        let (_, _, before, _) = rope.chunk_at_char(i);
        usize::from(before <= i)
    })
}

/// Returns the number of chunks with at most the requested number of line breaks before them: all
/// of them.
fn chunks_at_line_breaks(rope: &Rope, count: usize) -> u64 {
    sum_of(count, rope.len_lines().saturating_sub(1), |i| {
        let (_, _, _, before) = rope.chunk_at_line_break(i);
        usize::from(before <= i)
    })
}

/// Mixes the lengths of random lines.
fn mix_of_lines(rope: &Rope, count: usize) -> u64 {
    let mut numbers = Numbers::new();
    let last = rope.len_lines().saturating_sub(1);
    let mut sum: u64 = 0;
    for _ in 0..count {
        sum = mix(sum, rope.line(numbers.up_to(last)).len_chars());
    }
    sum
}

/// Mixes the positions of random characters.
fn mix_of_positions(rope: &Rope, count: usize) -> u64 {
    let mut numbers = Numbers::new();
    let most = rope.len_chars();
    let mut sum: u64 = 0;
    for _ in 0..count {
        let position = rope.char_to_position(numbers.up_to(most));
        sum = mix(mix(sum, position.line), position.column);
    }
    sum
}

/// Converts positions, looked up before, to characters.
fn positions_to_chars<C: CpuClock>(
    clock: &C,
    sample: &Sample,
    count: usize,
) -> Result<Outcome, Fault> {
    let positions = positions_of(sample, count)?;
    let start = now(clock);
    let checksum = mix_of_places(&sample.rope, positions.as_slice());
    let end = now(clock);
    Outcome::new(count, start, end, checksum)
}

fn positions_of(sample: &Sample, count: usize) -> Result<Vec<Position>, Fault> {
    let mut numbers = Numbers::new();
    let most = sample.rope.len_chars();
    let mut positions = Vec::new(sample.alloc);
    for _ in 0..count {
        positions.push(sample.rope.char_to_position(numbers.up_to(most)))?;
    }
    Ok(positions)
}

fn mix_of_places(rope: &Rope, positions: &[Position]) -> u64 {
    let mut sum: u64 = 0;
    for position in positions {
        if let Ok(place) = rope.try_position_to_char(*position) {
            sum = mix(sum, place);
        }
    }
    sum
}
