//! Measurements of a workload.
use crate::fault::Fault;
use crate::numbers::Fnv;
use ropey::Rope;
use std::io;
use std::time::CpuClock;

/// The cost and result of a run of a workload.
#[derive(Clone, Copy)]
pub struct Outcome {
    /// The number of operations.
    pub operations: usize,
    /// The processor time of all of them, in nanoseconds.
    pub nanos: u64,
    /// The values read or made, in one number.
    pub checksum: u64,
}

impl Outcome {
    /// Returns the outcome of a run between two readings of the clock, or the error of the clock.
    ///
    /// A workload passes the readings as they are: a `?` between them would drop its ropes there,
    /// too, and each such return takes the prover seconds.
    pub fn new(
        operations: usize,
        start: io::Result<u64>,
        end: io::Result<u64>,
        checksum: u64,
    ) -> Result<Outcome, Fault> {
        let start = start?;
        Ok(Outcome {
            operations,
            nanos: end?.wrapping_sub(start),
            checksum,
        })
    }
}

/// Returns the processor time that this thread has used, in nanoseconds.
pub fn now<C: CpuClock>(clock: &C) -> io::Result<u64> {
    let time = clock.thread_cpu_time()?;
    let nanos = u64::from(time.subsec_nanos());
    Ok(
        time.as_secs()
            .wrapping_mul(1_000_000_000)
            .wrapping_add(nanos),
    )
}

/// Returns the four lengths of a rope in one number.
pub fn lens(rope: &Rope) -> u64 {
    let bytes = rope.len_bytes() as u64;
    let chars = rope.len_chars() as u64;
    let lines = rope.len_lines() as u64;
    let units = rope.len_utf16_cu() as u64;
    bytes ^ (chars << 1) ^ (lines << 2) ^ (units << 3)
}

/// Returns the bytes of a rope in one number.
fn bytes_sum(rope: &Rope) -> u64 {
    let mut sum = Fnv::new();
    for chunk in rope.chunks() {
        sum.add(chunk.as_bytes());
    }
    sum.sum()
}

/// Returns the bytes and the lengths of a rope in one number.
pub fn whole(rope: &Rope) -> u64 {
    bytes_sum(rope) ^ lens(rope)
}

/// Appends a number to the sum of others.
pub fn mix(sum: u64, number: usize) -> u64 {
    sum.wrapping_mul(31).wrapping_add(number as u64)
}
