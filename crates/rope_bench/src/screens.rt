//! Fifty lines from a random one on, as a screen shows them.
use crate::cursors::{len_of_chunks, sum_of_chars};
use crate::fault::Fault;
use crate::measure::{Outcome, now};
use crate::numbers::Numbers;
use crate::sample::Sample;
use ropey::iter::Lines;
use ropey::{Rope, RopeSlice};
use std::marker::PhantomData;
use std::time::CpuClock;

/// The number of screens, in full.
const SCREENS: usize = 10_000;

/// The number of lines of a screen.
const LINES: usize = 50;

/// A workload that draws screens.
#[derive(Clone, Copy)]
pub enum Screen {
    /// Reads the bytes of its chunks.
    Bytes,
    /// Reads the bytes of its chunks, from line to line backward.
    BytesBack,
    /// Reads the lengths of its chunks.
    Lengths,
    /// Reads its characters.
    Chars,
    /// Reads its text, at once if it is one piece.
    AsStr,
}

impl Screen {
    /// Returns the name of the workload.
    pub fn name(self) -> &'static str {
        match self {
            Screen::Bytes => "redraw_50_lines",
            Screen::BytesBack => "redraw_50_lines_back",
            Screen::Lengths => "redraw_50_lines_lens",
            Screen::Chars => "redraw_50_lines_chars",
            Screen::AsStr => "redraw_50_lines_as_str",
        }
    }

    // Each kind has a loop of its own.
    fn sum(self, rope: &Rope, count: usize) -> u64 {
        match self {
            Screen::Bytes => screens::<Forward<OfBytes>>(rope, count),
            Screen::BytesBack => screens::<Backward>(rope, count),
            Screen::Lengths => screens::<Forward<OfLengths>>(rope, count),
            Screen::Chars => screens::<Forward<OfChars>>(rope, count),
            Screen::AsStr => screens::<Forward<OfText>>(rope, count),
        }
    }
}

/// Draws many screens.
pub fn draw<C: CpuClock>(clock: &C, sample: &Sample, what: Screen) -> Result<Outcome, Fault> {
    let count = sample.operations(SCREENS);
    let start = now(clock);
    let checksum = what.sum(&sample.rope, count);
    let end = now(clock);
    Outcome::new(count, start, end, checksum)
}

fn screens<D: Drawing>(rope: &Rope, count: usize) -> u64 {
    let mut numbers = Numbers::new();
    let last = rope.len_lines().saturating_sub(1);
    let mut sum: u64 = 0;
    for _ in 0..count {
        let mut lines = rope.lines_at(numbers.up_to(last));
        sum = sum.wrapping_add(D::lines(&mut lines));
    }
    sum
}

/// The lines of a screen, in one number.
trait Drawing {
    fn lines(lines: &mut Lines<'_>) -> u64;
}

/// The reading of a line, in one number.
trait Reading {
    fn line(line: RopeSlice<'_>) -> u64;
}

struct Forward<R> {
    reading: PhantomData<R>,
}

impl<R: Reading> Drawing for Forward<R> {
    fn lines(lines: &mut Lines<'_>) -> u64 {
        let mut sum: u64 = 0;
        for _ in 0..LINES {
            if let Some(line) = lines.next() {
                sum = sum.wrapping_add(R::line(line));
            }
        }
        sum
    }
}

struct Backward {}

impl Drawing for Backward {
    fn lines(lines: &mut Lines<'_>) -> u64 {
        let mut sum: u64 = 0;
        for _ in 0..LINES {
            if let Some(line) = lines.prev() {
                sum = sum.wrapping_add(bytes_of_line(line));
            }
        }
        sum
    }
}

struct OfBytes {}

impl Reading for OfBytes {
    fn line(line: RopeSlice<'_>) -> u64 {
        bytes_of_line(line)
    }
}

struct OfLengths {}

impl Reading for OfLengths {
    fn line(line: RopeSlice<'_>) -> u64 {
        len_of_chunks(line.chunks())
    }
}

struct OfChars {}

impl Reading for OfChars {
    fn line(line: RopeSlice<'_>) -> u64 {
        sum_of_chars(line.chars())
    }
}

struct OfText {}

impl Reading for OfText {
    fn line(line: RopeSlice<'_>) -> u64 {
        match line.as_str() {
            Some(text) => bytes_of_text(text),
            None => bytes_of_line(line),
        }
    }
}

/// Returns the sum of the bytes of a text.
fn bytes_of_text(text: &str) -> u64 {
    let mut sum: u64 = 0;
    for byte in text.bytes() {
        sum = sum.wrapping_add(u64::from(byte));
    }
    sum
}

/// Returns the sum of the bytes of a line, chunk by chunk.
fn bytes_of_line(line: RopeSlice<'_>) -> u64 {
    let mut sum: u64 = 0;
    for chunk in line.chunks() {
        sum = sum.wrapping_add(bytes_of_text(chunk));
    }
    sum
}
