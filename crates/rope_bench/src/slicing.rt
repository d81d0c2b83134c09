//! Slices of a thousand characters at random indices.
use crate::cursors::{mix_of_lines, sum_of_bytes, sum_of_chars};
use crate::fault::Fault;
use crate::measure::{Outcome, mix, now};
use crate::numbers::Numbers;
use crate::sample::Sample;
use ropey::{Rope, RopeSlice};
use std::alloc::Global;
use std::time::CpuClock;

/// The number of slices, in full.
const SLICES: usize = 100_000;

/// The number of characters of a slice.
const CHARS: usize = 1_000;

/// A workload with slices.
#[derive(Clone, Copy)]
pub enum Slicing {
    /// The length of a line of each.
    Line,
    /// Three lookups in each: from characters to bytes and code units, from bytes to lines.
    LookUps,
    /// The five other conversions in each.
    Conversions,
    /// A byte and a character of each.
    Items,
    /// The chunks of a byte, a character and a line break of each.
    ChunksAt,
    /// The items after a byte, a character and a line of each.
    CursorsAt,
    /// The sum of its characters.
    Chars,
    /// The sum of its bytes.
    Bytes,
    /// The lengths of its lines.
    Lines,
    /// The length of a slice of each.
    OfSlice,
    /// The slice by the bytes at which it starts and ends.
    OfBytes,
    /// A string of each, as `to_string` of the Rust crate makes it.
    ToString,
    /// A string of each, as `String::from` of the Rust crate makes it.
    IntoString,
    /// A string of each, or the text itself if it is one piece.
    ToCow,
}

impl Slicing {
    /// Returns the name of the workload.
    pub fn name(self) -> &'static str {
        match self {
            Slicing::Line => "slice_and_line",
            Slicing::LookUps => "slice_lookups",
            Slicing::Conversions => "slice_conversions",
            Slicing::Items => "slice_byte_and_char",
            Slicing::ChunksAt => "slice_chunk_at",
            Slicing::CursorsAt => "slice_cursors_at",
            Slicing::Chars => "slice_chars_sum",
            Slicing::Bytes => "slice_bytes_sum",
            Slicing::Lines => "slice_lines",
            Slicing::OfSlice => "slice_of_slice",
            Slicing::OfBytes => "byte_slice",
            Slicing::ToString => "slice_to_string",
            Slicing::IntoString => "slice_into_string",
            Slicing::ToCow => "slice_to_cow",
        }
    }

    /// Appends the values read from a slice to those of others.
    fn add(self, sum: u64, slice: RopeSlice<'_>, numbers: &mut Numbers) -> u64 {
        match self {
            Slicing::Line => line(sum, slice, numbers),
            Slicing::LookUps => look_ups(sum, slice, numbers),
            Slicing::Conversions => conversions(sum, slice, numbers),
            Slicing::Items => byte_and_char(sum, slice, numbers),
            Slicing::ChunksAt => chunks_at(sum, slice, numbers),
            Slicing::CursorsAt => cursors_at(sum, slice, numbers),
            Slicing::Chars => sum.wrapping_add(sum_of_chars(slice.chars())),
            Slicing::Bytes => sum.wrapping_add(sum_of_bytes(slice.bytes())),
            Slicing::Lines => mix_of_lines(sum, slice.lines()),
            _ => part(sum, slice, numbers),
        }
    }
}

/// Takes many slices.
pub fn slice<C: CpuClock>(clock: &C, sample: &Sample, what: Slicing) -> Result<Outcome, Fault> {
    let count = sample.operations(SLICES);
    match what {
        Slicing::OfBytes => byte_slices(clock, sample, count),
        Slicing::ToString | Slicing::IntoString => strings(clock, sample, count),
        Slicing::ToCow => texts(clock, sample, count),
        _ => read(clock, sample, what, count),
    }
}

fn read<C: CpuClock>(
    clock: &C,
    sample: &Sample,
    what: Slicing,
    count: usize,
) -> Result<Outcome, Fault> {
    let start = now(clock);
    let checksum = sum_of_slices(&sample.rope, what, count);
    let end = now(clock);
    Outcome::new(count, start, end, checksum)
}

/// Returns the last index at which a slice begins.
fn most_of(rope: &Rope) -> usize {
    rope.len_chars().saturating_sub(CHARS.saturating_add(1))
}

/// Returns a slice from a random index on.
fn slice_at<'a>(rope: &'a Rope, numbers: &mut Numbers, most: usize) -> Option<RopeSlice<'a>> {
    let start = numbers.up_to(most);
    rope.get_slice(start..start.saturating_add(CHARS))
}

fn sum_of_slices(rope: &Rope, what: Slicing, count: usize) -> u64 {
    let mut numbers = Numbers::new();
    let most = most_of(rope);
    let mut sum: u64 = 0;
    for _ in 0..count {
        if let Some(slice) = slice_at(rope, &mut numbers, most) {
            sum = what.add(sum, slice, &mut numbers);
        }
    }
    sum
}

fn line(sum: u64, slice: RopeSlice<'_>, numbers: &mut Numbers) -> u64 {
    let last = slice.len_lines().saturating_sub(1);
    mix(sum, slice.line(numbers.up_to(last)).len_chars())
}

fn look_ups(sum: u64, slice: RopeSlice<'_>, numbers: &mut Numbers) -> u64 {
    let first = slice.char_to_byte(numbers.up_to(slice.len_chars()));
    let second = slice.byte_to_line(numbers.up_to(slice.len_bytes()));
    let third = slice.char_to_utf16_cu(numbers.up_to(slice.len_chars()));
    mix(mix(mix(sum, first), second), third)
}

fn conversions(sum: u64, slice: RopeSlice<'_>, numbers: &mut Numbers) -> u64 {
    let first = slice.byte_to_char(numbers.up_to(slice.len_bytes()));
    let second = slice.char_to_line(numbers.up_to(slice.len_chars()));
    let third = slice.line_to_char(numbers.up_to(slice.len_lines()));
    let fourth = slice.line_to_byte(numbers.up_to(slice.len_lines()));
    let fifth = slice.utf16_cu_to_char(numbers.up_to(slice.len_utf16_cu()));
    mix(mix(mix(mix(mix(sum, first), second), third), fourth), fifth)
}

fn byte_and_char(sum: u64, slice: RopeSlice<'_>, numbers: &mut Numbers) -> u64 {
    let byte = slice.get_byte(numbers.up_to(CHARS.saturating_sub(1)));
    let c = slice.get_char(numbers.up_to(CHARS.saturating_sub(1)));
    let number = u32::from(c.unwrap_or('\0')) as usize;
    mix(mix(sum, usize::from(byte.unwrap_or(0))), number)
}

/// Tests that each chunk begins at the requested index, or before it: which chunk it is depends on
/// the cuts.
fn chunks_at(sum: u64, slice: RopeSlice<'_>, numbers: &mut Numbers) -> u64 {
    let byte = numbers.up_to(slice.len_bytes());
    let (_, bytes, _, _) = slice.chunk_at_byte(byte);
    let char_idx = numbers.up_to(slice.len_chars());
    let (_, _, chars, _) = slice.chunk_at_char(char_idx);
    let line = numbers.up_to(slice.len_lines());
    let (_, _, _, breaks) = slice.chunk_at_line_break(line);
    let are_before = bytes <= byte && chars <= char_idx && breaks <= line;
    mix(sum, usize::from(are_before))
}

fn cursors_at(sum: u64, slice: RopeSlice<'_>, numbers: &mut Numbers) -> u64 {
    let mut bytes = slice.bytes_at(numbers.up_to(slice.len_bytes()));
    let mut chars = slice.chars_at(numbers.up_to(slice.len_chars()));
    let mut lines = slice.lines_at(numbers.up_to(slice.len_lines()));
    let byte = usize::from(bytes.next().unwrap_or(0));
    let number = u32::from(chars.next().unwrap_or('\0')) as usize;
    let length = match lines.next() {
        Some(line) => line.len_chars(),
        None => 0,
    };
    mix(mix(mix(sum, byte), number), length)
}

/// Returns the length of a slice of the slice.
fn part(sum: u64, slice: RopeSlice<'_>, numbers: &mut Numbers) -> u64 {
    let start = numbers.up_to(500);
    match slice.get_slice(start..start.saturating_add(400)) {
        Some(part) => mix(sum, part.len_bytes()),
        None => sum,
    }
}

/// Takes slices by bytes, whose offsets were looked up before.
fn byte_slices<C: CpuClock>(clock: &C, sample: &Sample, count: usize) -> Result<Outcome, Fault> {
    let ranges = byte_ranges(sample, count)?;
    let start = now(clock);
    let checksum = mix_of_ranges(&sample.rope, ranges.as_slice());
    let end = now(clock);
    Outcome::new(count, start, end, checksum)
}

/// Returns the byte offsets of the start and end of a slice.
fn byte_range(rope: &Rope, start: usize) -> (usize, usize) {
    let to = start.saturating_add(CHARS).min(rope.len_chars());
    let from = start.min(to);
    (rope.char_to_byte(from), rope.char_to_byte(to))
}

fn byte_ranges(sample: &Sample, count: usize) -> Result<Vec<(usize, usize)>, Fault> {
    let mut numbers = Numbers::new();
    let most = most_of(&sample.rope);
    let mut ranges = Vec::new(sample.alloc);
    for _ in 0..count {
        ranges.push(byte_range(&sample.rope, numbers.up_to(most)))?;
    }
    Ok(ranges)
}

fn mix_of_ranges(rope: &Rope, ranges: &[(usize, usize)]) -> u64 {
    let mut sum: u64 = 0;
    for (from, to) in ranges {
        if let Some(slice) = rope.get_byte_slice(*from..*to) {
            sum = mix(sum, slice.len_chars());
        }
    }
    sum
}

/// Makes strings of slices.
fn strings<C: CpuClock>(clock: &C, sample: &Sample, count: usize) -> Result<Outcome, Fault> {
    let start = now(clock);
    let checksum = mix_of_strings(sample.alloc, &sample.rope, count)?;
    let end = now(clock);
    Outcome::new(count, start, end, checksum)
}

fn mix_of_strings(alloc: Global, rope: &Rope, count: usize) -> Result<u64, Fault> {
    let mut numbers = Numbers::new();
    let most = most_of(rope);
    let mut sum: u64 = 0;
    for _ in 0..count {
        if let Some(slice) = slice_at(rope, &mut numbers, most) {
            let text = slice.try_to_string(alloc)?;
            sum = mix_of_text(sum, text.as_str());
        }
    }
    Ok(sum)
}

/// Makes strings of slices, only if a slice has several pieces.
fn texts<C: CpuClock>(clock: &C, sample: &Sample, count: usize) -> Result<Outcome, Fault> {
    let start = now(clock);
    let checksum = mix_of_texts(sample.alloc, &sample.rope, count)?;
    let end = now(clock);
    Outcome::new(count, start, end, checksum)
}

fn mix_of_texts(alloc: Global, rope: &Rope, count: usize) -> Result<u64, Fault> {
    let mut numbers = Numbers::new();
    let most = most_of(rope);
    let mut sum: u64 = 0;
    for _ in 0..count {
        if let Some(slice) = slice_at(rope, &mut numbers, most) {
            let text = slice.try_to_cow(alloc)?;
            sum = mix_of_text(sum, text.as_str());
        }
    }
    Ok(sum)
}

/// Mixes the length of a text and its last byte.
fn mix_of_text(sum: u64, text: &str) -> u64 {
    let last = text.as_bytes().last().copied().unwrap_or(0);
    mix(mix(sum, text.len()), usize::from(last))
}
