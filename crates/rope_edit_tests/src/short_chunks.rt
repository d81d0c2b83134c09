//! Removals that leave little of each chunk: the rest is in few chunks.
use crate::texts::chunk_count;
use rope_plain::compare::{expect_no_short_chunks, expect_text};
use rope_plain::failure::{Failure, at, expect_same, within};
use rope_plain::numbers::Numbers;
use rope_plain::same;
use rope_plain::sums::{minus, plus};
use rope_plain::texts::{padded, repeated, rope_of};
use ropey::{Error, Rope};
use std::alloc::Global;

/// The number of full chunks at first, and the number of letters of each.
const CHUNKS: usize = 400;

const FULL: usize = 984;

/// Returns a text of full chunks, with an x first and a y last in each.
fn full_chunks(alloc: Global) -> Result<Rope, Error> {
    let chunk = padded(alloc, "x", FULL, "y")?;
    rope_of(alloc, chunk.as_str(), CHUNKS)
}

/// Fails unless the x and the y of each chunk remain, in at most four chunks: 800 bytes.
fn expect_only_ends(alloc: Global, rope: &Rope) -> Result<(), Failure> {
    let ends = repeated(alloc, "xy", CHUNKS)?;
    expect_text(alloc, rope, ends.as_str())?;
    expect_no_short_chunks(rope)
}

/// Fails unless the middle of the chunk that starts at `start` is removed.
fn expect_emptied(rope: &mut Rope, start: usize) -> Result<(), Failure> {
    let first = plus(start, 1);
    rope.try_remove(first..plus(first, FULL - 2))?;
    expect_no_short_chunks(rope)
}

/// Fails unless a chunk is emptied after others of these lengths; its new length is noted.
fn expect_emptied_after(rope: &mut Rope, lens: &mut [usize], chunk: usize) -> Result<(), Failure> {
    let mut start: usize = 0;
    for len in lens.iter().take(chunk) {
        start = plus(start, *len);
    }
    if let Some(len) = lens.get_mut(chunk) {
        *len = 2;
    }
    expect_emptied(rope, start)
}

/// Fails unless all chunks are emptied. 173 is coprime to their number, so each has its turn once.
fn expect_all_emptied(rope: &mut Rope) -> Result<(), Failure> {
    let mut lens = [FULL; CHUNKS];
    for turn in 0..CHUNKS {
        let chunk = turn.saturating_mul(173) % CHUNKS;
        at("turn", turn, expect_emptied_after(rope, &mut lens, chunk))?;
    }
    Ok(())
}

fn expect_ends_left(alloc: Global, rope: &mut Rope) -> Result<(), Failure> {
    same!(chunk_count(rope), CHUNKS);
    expect_all_emptied(rope)?;
    expect_only_ends(alloc, rope)
}

#[test]
fn chunks_emptied_in_jumps_are_joined(rt: HostRuntime) -> Result<(), Failure> {
    let mut rope = full_chunks(rt.alloc())?;
    expect_ends_left(rt.alloc(), &mut rope)
}

/// The start of the random sequence of indices.
const SEED: u64 = 0x9E37_79B9_7F4A_7C15;

/// Fails unless a thousand letters are removed, each at a random index.
fn expect_thousand_removed(rope: &mut Rope, numbers: &mut Numbers) -> Result<(), Failure> {
    for _ in 0..1_000usize {
        let at = numbers.up_to(minus(rope.len_chars(), 1));
        rope.try_remove(at..=at)?;
    }
    expect_no_short_chunks(rope)
}

fn expect_million_removed(rope: &mut Rope) -> Result<(), Failure> {
    let mut numbers = Numbers::new(SEED);
    for round in 0..1_000usize {
        at("round", round, expect_thousand_removed(rope, &mut numbers))?;
    }
    let left = [rope.len_bytes(), chunk_count(rope)];
    expect_same("bytes and chunks left", &left, &[0, 0])
}

#[test]
fn a_million_letters_removed_at_random_leave_none(rt: HostRuntime) -> Result<(), Failure> {
    let mut rope = rope_of(rt.alloc(), "a", 1_000_000)?;
    let outcome = expect_million_removed(&mut rope);
    within(format_args!("seed {SEED:#x}"), outcome)
}
