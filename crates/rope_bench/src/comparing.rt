//! Ropes and slices compared and hashed.
ghost use Rattle.std.specs.Prelude.{◌+◌, ◌%◌, ◌^◌, length};

use crate::edits::cut_otherwise;
use crate::fault::Fault;
use crate::measure::{Outcome, now};
use crate::numbers::{Fnv, Numbers};
use crate::sample::Sample;
use ropey::Rope;
use std::cell::Cell;
use std::cmp::Ordering;
use std::hash::{Hash, Hasher};
use std::time::CpuClock;

/// The number of characters inserted and removed again to move a rope's cuts, in full.
const CUTS: usize = 20_000;

/// The number of characters of a slice.
const CHARS: usize = 1_000;

/// The number of times that lengths are hashed: once takes less than half a millisecond.
const PASSES: usize = 20;

/// A comparison or a hash.
#[derive(Clone, Copy)]
pub enum Comparing {
    /// Tests the equality of the rope and one of the same text with other chunks.
    Equal,
    /// Orders the rope and one of the same text with other chunks.
    Order,
    /// Compares slices of those two.
    Slices,
    /// Compares the rope and its text.
    Text,
    /// Hashes the rope by its bytes.
    HashFnv,
    /// Hashes the rope by the lengths of the hasher's writes.
    HashLens,
}

impl Comparing {
    /// Returns the name of the workload.
    pub fn name(self) -> &'static str {
        match self {
            Comparing::Equal => "eq_other_cutting",
            Comparing::Order => "cmp_other_cutting",
            Comparing::Slices => "eq_slices_1000",
            Comparing::Text => "eq_str",
            Comparing::HashFnv => "hash_fnv",
            Comparing::HashLens => "hash_lens",
        }
    }

    /// Returns the number of operations.
    fn operations(self, sample: &Sample) -> usize {
        match self {
            Comparing::Slices => sample.operations(100_000),
            Comparing::HashLens => PASSES,
            _ => 1,
        }
    }

    /// Returns the rope that the sample's is compared with.
    fn other(self, sample: &Sample) -> Result<Rope, Fault> {
        match self {
            Comparing::Equal | Comparing::Order | Comparing::Slices => {
                let mut rope = sample.fresh()?;
                cut_otherwise(&mut rope, sample.operations(CUTS))?;
                Ok(rope)
            }
            _ => Ok(Rope::new(sample.alloc)?),
        }
    }

    /// Returns the results, in one number.
    fn answer(self, sample: &Sample, other: &Rope, count: usize) -> u64 {
        match self {
            Comparing::Equal => u64::from(sample.rope == *other),
            Comparing::Order => number_of(sample.rope.cmp(other)),
            Comparing::Slices => count_equal(&sample.rope, other, count),
            Comparing::Text => u64::from(sample.rope.eq_str(sample.text.as_str())),
            Comparing::HashFnv => hash_fnv(&sample.rope),
            Comparing::HashLens => hash_lens(&sample.rope, count),
        }
    }
}

/// Compares or hashes.
pub fn compare<C: CpuClock>(clock: &C, sample: &Sample, what: Comparing) -> Result<Outcome, Fault> {
    let operations = what.operations(sample);
    let other = what.other(sample)?;
    let start = now(clock);
    let checksum = what.answer(sample, &other, operations);
    let end = now(clock);
    Outcome::new(operations, start, end, checksum)
}

fn number_of(order: Ordering) -> u64 {
    match order {
        Ordering::Less => 0,
        Ordering::Equal => 1,
        Ordering::Greater => 2,
    }
}

fn count_equal(rope: &Rope, other: &Rope, count: usize) -> u64 {
    let mut numbers = Numbers::new();
    let most = rope.len_chars().saturating_sub(CHARS.saturating_add(1));
    let mut sum: u64 = 0;
    for _ in 0..count {
        let start = numbers.up_to(most);
        if are_equal(rope, other, start, start.saturating_add(CHARS)) {
            sum = sum.wrapping_add(1);
        }
    }
    sum
}

fn are_equal(rope: &Rope, other: &Rope, start: usize, end: usize) -> bool {
    match (rope.get_slice(start..end), other.get_slice(start..end)) {
        (Some(one), Some(two)) => one == two,
        _ => false,
    }
}

/// A hasher by FNV-1a, with its sum in a cell, so that no clause mentions it.
#[derive(Drop)]
struct FnvHasher {
    sum: Cell<Fnv>,
}

impl Hasher for FnvHasher {
    ghost write = { λ s _. s };

    ghost finish = { λ _. 0 };

    fn finish(&self) -> u64 {
        0
    }

    fn write(&mut self, bytes: &[u8]) {
        let mut sum = self.sum.get();
        sum.add(bytes);
        self.sum.set(sum);
    }
}

fn hash_fnv(rope: &Rope) -> u64 {
    let mut hasher = FnvHasher {
        sum: Cell::new(Fnv::new()),
    };
    rope.hash(&mut hasher);
    hasher.sum.get().sum()
}

/// A hasher that counts bytes.
#[derive(Drop)]
struct LensHasher {
    total: u64,
}

impl Hasher for LensHasher {
    ghost write = { λ s bytes. record { total = (s.total + length bytes) % 2 ^ 64 } };

    ghost finish = { λ s. s.total };

    fn finish(&self) -> u64 {
        self.total
    }

    fn write(&mut self, bytes: &[u8]) {
        self.total = self.total.wrapping_add(bytes.len() as u64);
    }
}

fn hash_lens(rope: &Rope, count: usize) -> u64 {
    let mut hasher = LensHasher { total: 0 };
    for _ in 0..count {
        rope.hash(&mut hasher);
    }
    hasher.total
}
