//! Pseudorandom numbers, and checksums.
ghost use Rattle.std.specs.Prelude.{◌≡◌, ◌≤◌, ◌+◌, ◌%◌};

use rope_plain::numbers;

/// The sequence of numbers that all workloads draw from, each from its start.
#[derive(Drop)]
pub struct Numbers {
    row: numbers::Numbers,
}

impl Numbers {
    /// Returns the start of the sequence.
    pub fn new() -> Numbers {
        let row = numbers::Numbers::new(0x9E37_79B9_7F4A_7C15);
        Numbers { row }
    }

    /// Returns the next number, reduced to the range from 0 to `most` by its remainder.
    pub fn up_to(&mut self, most: usize) -> usize
        ensures within { result ≤ most }
        ensures drawn { result ≡ self.new.row.state % (most + 1) }
    {
        let number = self.row.draw() as usize;
        match most.checked_add(1) {
            Some(count) => number % count,
            None => number,
        }
    }
}

/// A sum over bytes in their order, by FNV-1a.
#[derive(Clone, Copy)]
pub struct Fnv {
    sum: u64,
}

impl Fnv {
    /// Returns the sum of no bytes.
    pub fn new() -> Fnv {
        Fnv {
            sum: 0xCBF2_9CE4_8422_2325,
        }
    }

    /// Returns the sum of these bytes.
    pub fn of(bytes: &[u8]) -> u64 {
        let mut sum = Fnv::new();
        sum.add(bytes);
        sum.sum()
    }

    /// Adds bytes to the sum.
    pub fn add(&mut self, bytes: &[u8]) {
        for byte in bytes {
            self.sum = (self.sum ^ u64::from(*byte)).wrapping_mul(0x0100_0000_01B3);
        }
    }

    /// Returns the sum.
    pub fn sum(self) -> u64 {
        self.sum
    }
}
