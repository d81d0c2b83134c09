//! Ropes that are made of texts and of slices.
use crate::fault::Fault;
use crate::measure::{Outcome, lens, mix, now};
use crate::numbers::Numbers;
use crate::sample::Sample;
use crate::texts::{lines_of, pieces_of};
use ropey::{Rope, RopeBuilder};
use std::alloc::Global;
use std::time::CpuClock;

/// A workload that makes ropes.
#[derive(Clone, Copy)]
pub enum Making {
    /// Of the whole text.
    FromStr,
    /// Of the whole text, line by line with a builder.
    BuilderByLines,
    /// Of the whole text, line by line from an iterator.
    FromIter,
    /// Of each of the first lines.
    FromStrSmall,
    /// Of each piece of about two thousand bytes.
    FromStrPieces,
    /// Of slices of a thousand characters.
    FromSlice,
    /// Of slices of about a hundred thousand bytes.
    FromLongSlice,
}

impl Making {
    /// Returns the name of the workload.
    pub fn name(self) -> &'static str {
        match self {
            Making::FromStr => "from_str",
            Making::BuilderByLines => "builder_by_lines",
            Making::FromIter => "from_iter_by_lines",
            Making::FromStrSmall => "from_str_small",
            Making::FromStrPieces => "from_str_2KB",
            Making::FromSlice => "from_slice_1000",
            Making::FromLongSlice => "from_slice_100KB",
        }
    }
}

/// Makes ropes.
pub fn make<C: CpuClock>(clock: &C, sample: &Sample, what: Making) -> Result<Outcome, Fault> {
    match what {
        Making::FromStr => from_str(clock, sample),
        Making::BuilderByLines => builder_by_lines(clock, sample),
        Making::FromIter => from_iter(clock, sample),
        Making::FromStrSmall => from_lines(clock, sample),
        Making::FromStrPieces => from_pieces(clock, sample),
        Making::FromSlice => from_slices(clock, sample, 1_000, sample.operations(100_000)),
        Making::FromLongSlice => {
            let chars = sample.chars_of_bytes(sample.operations(100_000));
            from_slices(clock, sample, chars, sample.operations(1_000))
        }
    }
}

fn from_str<C: CpuClock>(clock: &C, sample: &Sample) -> Result<Outcome, Fault> {
    let start = now(clock);
    let rope = Rope::from_str(sample.alloc, sample.text.as_str())?;
    let end = now(clock);
    Outcome::new(1, start, end, lens(&rope))
}

fn builder_by_lines<C: CpuClock>(clock: &C, sample: &Sample) -> Result<Outcome, Fault> {
    let lines = lines_of(sample.alloc, sample.text.as_str(), sample.text.len())?;
    build(clock, sample.alloc, lines.as_slice())
}

/// Makes one rope of the lines.
fn build<C: CpuClock>(clock: &C, alloc: Global, lines: &[&str]) -> Result<Outcome, Fault> {
    let start = now(clock);
    let mut builder = RopeBuilder::new(alloc)?;
    for line in lines.iter() {
        builder.append(line)?;
    }
    let rope = builder.finish()?;
    let end = now(clock);
    Outcome::new(lines.len(), start, end, lens(&rope))
}

fn from_iter<C: CpuClock>(clock: &C, sample: &Sample) -> Result<Outcome, Fault> {
    let lines = lines_of(sample.alloc, sample.text.as_str(), sample.text.len())?;
    let operations = lines.len();
    let start = now(clock);
    let rope = Rope::from_str_iter(sample.alloc, lines)?;
    let end = now(clock);
    Outcome::new(operations, start, end, lens(&rope))
}

fn from_lines<C: CpuClock>(clock: &C, sample: &Sample) -> Result<Outcome, Fault> {
    let count = sample.operations(100_000);
    let lines = lines_of(sample.alloc, sample.text.as_str(), count)?;
    make_each_line(clock, sample.alloc, lines.as_slice())
}

/// Makes a rope of each line.
fn make_each_line<C: CpuClock>(clock: &C, alloc: Global, lines: &[&str]) -> Result<Outcome, Fault> {
    let mut checksum: u64 = 0;
    let start = now(clock);
    for line in lines.iter() {
        let rope = Rope::from_str(alloc, line)?;
        checksum = checksum.wrapping_add(rope.len_chars() as u64);
    }
    let end = now(clock);
    Outcome::new(lines.len(), start, end, checksum)
}

fn from_pieces<C: CpuClock>(clock: &C, sample: &Sample) -> Result<Outcome, Fault> {
    let pieces = pieces_of(sample.alloc, sample.text.as_str(), 2_048)?;
    make_each_piece(clock, sample.alloc, pieces.as_slice())
}

/// Makes a rope of each piece.
fn make_each_piece<C: CpuClock>(
    clock: &C,
    alloc: Global,
    pieces: &[String],
) -> Result<Outcome, Fault> {
    let mut checksum: u64 = 0;
    let start = now(clock);
    for piece in pieces.iter() {
        let rope = Rope::from_str(alloc, piece.as_str())?;
        checksum = checksum.wrapping_add(rope.len_chars() as u64);
    }
    let end = now(clock);
    Outcome::new(pieces.len(), start, end, checksum)
}

/// Makes ropes of slices of a number of characters.
fn from_slices<C: CpuClock>(
    clock: &C,
    sample: &Sample,
    chars: usize,
    count: usize,
) -> Result<Outcome, Fault> {
    let start = now(clock);
    let checksum = mix_of_ropes(sample, chars, count)?;
    let end = now(clock);
    Outcome::new(count, start, end, checksum)
}

fn mix_of_ropes(sample: &Sample, chars: usize, count: usize) -> Result<u64, Fault> {
    let mut numbers = Numbers::new();
    let most = sample.rope.len_chars().saturating_sub(chars);
    let mut sum: u64 = 0;
    for _ in 0..count {
        let start = numbers.up_to(most);
        if let Some(slice) = sample.rope.get_slice(start..start.saturating_add(chars)) {
            let part = Rope::from_slice(sample.alloc, slice)?;
            sum = mix(sum, part.len_bytes());
        }
    }
    Ok(sum)
}
