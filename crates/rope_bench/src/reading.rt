//! Ropes that are read from readers, and written to writers and strings.
use crate::fault::Fault;
use crate::measure::{Outcome, lens, now};
use crate::numbers::Fnv;
use crate::sample::Sample;
use crate::texts::{pieces_of, repeated};
use ropey::Rope;
use std::alloc::Global;
use std::time::CpuClock;

/// A workload that reads or writes.
#[derive(Clone, Copy)]
pub enum Reading {
    /// Reads the text.
    Text,
    /// Reads the text ten times over.
    LongText,
    /// Reads each piece of about two thousand bytes.
    Pieces,
    /// Writes the rope to a vector of bytes.
    WriteTo,
    /// Copies the rope to a string, as `to_string` of the Rust crate does.
    ToString,
    /// Copies the rope to a string, as `String::from` of the Rust crate does.
    IntoString,
}

impl Reading {
    /// Returns the name of the workload.
    pub fn name(self) -> &'static str {
        match self {
            Reading::Text => "from_reader_10MB",
            Reading::LongText => "from_reader_100MB",
            Reading::Pieces => "from_reader_2KB",
            Reading::WriteTo => "write_to_vec",
            Reading::ToString => "to_string",
            Reading::IntoString => "into_string",
        }
    }
}

/// Reads or writes.
pub fn read<C: CpuClock>(clock: &C, sample: &Sample, what: Reading) -> Result<Outcome, Fault> {
    match what {
        Reading::Text => from_reader(clock, sample, sample.text.as_str()),
        Reading::LongText => {
            let text = repeated(sample.alloc, sample.text.as_str(), 10)?;
            from_reader(clock, sample, text.as_str())
        }
        Reading::Pieces => read_pieces(clock, sample),
        Reading::WriteTo => write_to(clock, sample),
        Reading::ToString | Reading::IntoString => to_string(clock, sample),
    }
}

fn from_reader<C: CpuClock>(clock: &C, sample: &Sample, text: &str) -> Result<Outcome, Fault> {
    let start = now(clock);
    let rope = Rope::from_reader(sample.alloc, text.as_bytes())?;
    let end = now(clock);
    Outcome::new(1, start, end, lens(&rope))
}

fn read_pieces<C: CpuClock>(clock: &C, sample: &Sample) -> Result<Outcome, Fault> {
    let pieces = pieces_of(sample.alloc, sample.text.as_str(), 2_048)?;
    read_each(clock, sample.alloc, pieces.as_slice())
}

fn read_each<C: CpuClock>(clock: &C, alloc: Global, pieces: &[String]) -> Result<Outcome, Fault> {
    let mut checksum: u64 = 0;
    let start = now(clock);
    for piece in pieces.iter() {
        let rope = Rope::from_reader(alloc, piece.as_str().as_bytes())?;
        checksum = checksum.wrapping_add(rope.len_chars() as u64);
    }
    let end = now(clock);
    Outcome::new(pieces.len(), start, end, checksum)
}

fn write_to<C: CpuClock>(clock: &C, sample: &Sample) -> Result<Outcome, Fault> {
    let mut bytes = Vec::with_capacity(sample.alloc, sample.rope.len_bytes())?;
    write_into(clock, &sample.rope, &mut bytes)
}

fn write_into<C: CpuClock>(clock: &C, rope: &Rope, bytes: &mut Vec<u8>) -> Result<Outcome, Fault> {
    let start = now(clock);
    rope.write_to(&mut *bytes)?;
    let end = now(clock);
    Outcome::new(1, start, end, Fnv::of(bytes.as_slice()))
}

fn to_string<C: CpuClock>(clock: &C, sample: &Sample) -> Result<Outcome, Fault> {
    let start = now(clock);
    let text = sample.rope.try_to_string(sample.alloc)?;
    let end = now(clock);
    Outcome::new(1, start, end, Fnv::of(text.as_str().as_bytes()))
}
