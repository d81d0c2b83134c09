//! The writes of ropes and slices to a hasher.
ghost use Rattle.std.specs.Prelude.{◌+◌, ◌*◌, ◌%◌, ◌^◌, length};
ghost use Rattle.rope_tests.specs.Writes.{first_or};

use crate::ropes::{rope_of, rope_of_repeated};
use rope_plain::failure::{Failure, expect_same};
use rope_plain::same;
use ropey::{Rope, RopeSlice};
use std::alloc::Global;
use std::cmp::Ordering;
use std::hash::{Hash, Hasher};
use std::process::Abort;

/// A hasher that keeps the lengths of its writes, as the digits of a number by the base 1,000, and
/// the first byte of the last.
#[derive(Drop)]
struct Writes {
    lens: u64,
    last: u8,
}

impl Hasher for Writes {
    ghost write = { λ s bytes. record {
      lens = (s.lens * 1000 + length bytes) % 2 ^ 64;
      last = first_or s.last bytes;
    } };

    ghost finish = { λ s. s.lens };

    fn finish(&self) -> u64 {
        self.lens
    }

    fn write(&mut self, bytes: &[u8]) {
        self.lens = self
            .lens
            .wrapping_mul(1_000)
            .wrapping_add(bytes.len() as u64);
        if let Some(first) = bytes.first() {
            self.last = *first;
        }
    }
}

/// Returns the lengths of the writes, and the first byte of the last one.
fn writes_of<T: Hash>(value: &T) -> (u64, u8) {
    let mut writes = Writes { lens: 0, last: 0 };
    value.hash(&mut writes);
    (writes.lens, writes.last)
}

fn expect_hashed_as_empty(rope: &Rope) -> Result<(), Failure> {
    let found = [writes_of(rope), writes_of(&RopeSlice::from(""))];
    expect_same("the writes", &found, &[(1, 0xff); 2])
}

#[test]
fn the_empty_rope_writes_only_its_end(rt: HostRuntime) -> Result<(), Failure> {
    let rope = Rope::new(rt.alloc()).expect(&rt, "there is memory");
    expect_hashed_as_empty(&rope)
}

fn type_letters(rope: &mut Rope) -> Result<(), Failure> {
    for i in 0..257 {
        rope.try_insert_char(i, 'a')?;
    }
    Ok(())
}

fn expect_all_hashed_alike(made: &Rope, typed: &Rope) -> Result<(), Failure> {
    same!(*made, *typed);
    same!(made.cmp(typed), Ordering::Equal);
    let found = [writes_of(made), writes_of(typed)];
    expect_same("the writes", &found, &[(256_001_001, 0xff); 2])
}

/// Fails unless a typed text is hashed as one that was made at once, and without its first letter
/// as one block.
fn expect_hashed_alike(made: &Rope, typed: &mut Rope) -> Result<(), Failure> {
    type_letters(typed)?;
    expect_all_hashed_alike(made, typed)?;
    typed.try_remove(..1)?;
    expect_same("writes_of(typed)", &writes_of(typed), &(256_001, 0xff))
}

fn expect_hashed_as_typed(rt: &impl Abort, alloc: Global, made: &Rope) -> Result<(), Failure> {
    let mut typed = rope_of(rt, alloc, "");
    expect_hashed_alike(made, &mut typed)
}

#[test]
fn a_hash_is_written_in_blocks_whatever_the_chunks(rt: HostRuntime) -> Result<(), Failure> {
    let made = rope_of_repeated(&rt, rt.alloc(), "a", 257);
    expect_hashed_as_typed(&rt, rt.alloc(), &made)
}
