//! Clones that are edited, and clones that are kept for undo.
use crate::fault::Fault;
use crate::measure::{Outcome, mix, now, whole};
use crate::numbers::Numbers;
use crate::sample::Sample;
use ropey::Rope;
use std::alloc::Global;
use std::time::CpuClock;

/// The number of clones, in full.
const CLONES: usize = 10_000;

/// A workload with clones.
#[derive(Clone, Copy)]
pub enum Keeping {
    /// Edits and drops each.
    CloneAndInsert,
    /// Keeps each, and edits the rope.
    Undo,
    /// Drops all that were kept.
    UndoDrop,
}

impl Keeping {
    /// Returns the name of the workload.
    pub fn name(self) -> &'static str {
        match self {
            Keeping::CloneAndInsert => "clone_and_insert",
            Keeping::Undo => "undo_10000",
            Keeping::UndoDrop => "undo_drop",
        }
    }
}

/// Makes clones, or drops them.
pub fn keep<C: CpuClock>(clock: &C, sample: &Sample, what: Keeping) -> Result<Outcome, Fault> {
    let count = sample.operations(CLONES);
    match what {
        Keeping::CloneAndInsert => clone_and_insert(clock, sample, count),
        Keeping::Undo => undo(clock, sample, count),
        Keeping::UndoDrop => undo_drop(clock, sample, count),
    }
}

fn clone_and_insert<C: CpuClock>(
    clock: &C,
    sample: &Sample,
    count: usize,
) -> Result<Outcome, Fault> {
    let mut numbers = Numbers::new();
    let mut checksum: u64 = 0;
    let start = now(clock);
    for _ in 0..count {
        let mut copy = sample.rope.clone()?;
        let place = numbers.up_to(copy.len_chars());
        copy.insert_char(place, 'x')?;
        checksum = checksum.wrapping_add(copy.len_bytes() as u64);
    }
    let end = now(clock);
    Outcome::new(count, start, end, checksum)
}

/// Inserts characters at random indices, and returns each earlier rope.
pub fn edit_and_keep(alloc: Global, rope: &mut Rope, count: usize) -> Result<Vec<Rope>, Fault> {
    let mut numbers = Numbers::new();
    let mut kept = Vec::new(alloc);
    for _ in 0..count {
        kept.push(rope.clone()?)?;
        let place = numbers.up_to(rope.len_chars());
        rope.insert_char(place, 'x')?;
    }
    Ok(kept)
}

fn undo<C: CpuClock>(clock: &C, sample: &Sample, count: usize) -> Result<Outcome, Fault> {
    let mut rope = sample.fresh()?;
    keep_all(clock, sample.alloc, &mut rope, count)
}

fn keep_all<C: CpuClock>(
    clock: &C,
    alloc: Global,
    rope: &mut Rope,
    count: usize,
) -> Result<Outcome, Fault> {
    let start = now(clock);
    let kept = edit_and_keep(alloc, rope, count)?;
    let end = now(clock);
    Outcome::new(count, start, end, mix(whole(rope), kept.len()))
}

fn undo_drop<C: CpuClock>(clock: &C, sample: &Sample, count: usize) -> Result<Outcome, Fault> {
    let mut rope = sample.fresh()?;
    let kept = edit_and_keep(sample.alloc, &mut rope, count)?;
    let start = now(clock);
    drop(kept);
    let end = now(clock);
    Outcome::new(count, start, end, whole(&rope))
}
