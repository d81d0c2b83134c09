//! The writes of a text to a hasher, independent of its chunks. No call takes memory.
ghost use Rattle.std.specs.Prelude.{◌≡◌, ℕ, ◌+◌, ◌<◌, ◌≤◌, List, ◌++◌, length, take, fold};
ghost use Rattle.std.proofs.Common.{rules};
ghost use Rattle.rope_text.specs.Compare.{blocks};

use crate::path::Heads;
use crate::pieces::Pieces;
use crate::slice::RopeSlice;
use std::hash::{Hash, Hasher};

// The number of bytes of a write.
const BLOCK_BYTES: usize = 256;

// Appends bytes to the held ones of the block, writes each full block to the hasher, and returns
// the number of bytes held. If none is held, whole blocks are written without a copy.
fn feed_piece<H: Hasher>(state: &mut H, block: &mut [u8], held: usize, bytes: &[u8]) -> usize
    requires size { length block.old ≡ 256 }
    requires room { held < 256 }
    ensures size { length block.new ≡ 256 }
    ensures room { result < 256 }
    ensures writes { (rest : List ℕ)
        → fold H.write state.new (blocks (take result block.new ++ rest))
        ≡ fold H.write state.old (blocks (take held block.old ++ (bytes.now ++ rest))) }
{
    let mut rest = bytes;
    if held > 0 {
        let count = bytes.len().min(BLOCK_BYTES - held);
        let (front, back) = bytes.split_at(count);
        put(block, held, front);
        if held + count < BLOCK_BYTES {
            return held + count;
        }
        state.write(block);
        rest = back;
    }
    while rest.len() >= BLOCK_BYTES {
        let (front, back) = rest.split_at(BLOCK_BYTES);
        state.write(front);
        rest = back;
    }
    put(block, 0, rest);
    rest.len()
}

// Copies bytes to the block after the first `held` ones.
fn put(block: &mut [u8], held: usize, bytes: &[u8])
    requires { held + length bytes.now ≤ length block.old }
    ensures size { length block.new ≡ length block.old }
    ensures bytes { take (held + length bytes.now) block.new ≡ take held block.old ++ bytes.now }
{
    block[held..held + bytes.len()].copy_from_slice(bytes);
}

/// Writes the bytes of the text in blocks of 256, the last one possibly shorter, and then 0xff,
/// independent of the chunks.
impl<'a> Hash for RopeSlice<'a> {
    ghost use Rattle.std.specs.Cmp.Rules.{hashing};
    ghost use Rattle.rope_slice.specs.Slice.{writes_of};

    ghost hash_input = { writes_of };

    ghost respects_eq = { Prim.search (hashing, rules) };

    fn hash<H: Hasher>(&self, state: &mut H) {
        let mut block = [0u8; BLOCK_BYTES];
        let mut held = 0;
        let (mut piece, mut pieces) = Pieces::of(self);
        while !piece.is_empty() {
            held = feed_piece(state, &mut block, held, piece);
            piece = pieces.next_piece(Heads::Touched);
        }
        if held > 0 {
            state.write(&block[..held]);
        }
        state.write_u8(0xff);
    }
}
