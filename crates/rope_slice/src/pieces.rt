//! The bytes of a slice, in pieces. No step takes memory.
ghost use Rattle.std.specs.Prelude.{◌≡◌, ◌++◌, [], length};
ghost use Rattle.std.specs.Str.{chars, encode_utf8_all};
ghost use Rattle.rope_slice.specs.Slice.{text_of};

use crate::path::{Heads, Path};
use crate::slice::RopeSlice;
use rope_tree::Unit;
use std::marker::Model;

/// The bytes of a slice from a position on, in pieces as the leaves hold them, forward only. No
/// byte is read before the next piece is requested.
#[derive(Drop)]
pub(crate) struct Pieces<'a> {
    // none for a plain text
    descent: Option<Path<'a>>,
    // the number of bytes of the slice in the leaves ahead
    left: usize,
}

impl<'a> Model for Pieces<'a> {
    ghost use Rattle.std.specs.Prelude.{ℕ, List, ◌<◌, length, take, All};
    ghost use Rattle.std.specs.List.{concat};
    ghost use Rattle.std.specs.Str.{encode_utf8_all};
    ghost use Rattle.rope_slice.specs.Pieces.{after_descent};

    ghost Value = { List ℕ };

    ghost view = { λ a. take a.left (encode_utf8_all (concat (after_descent a.descent))) };

    ghost invariant = { λ a. All (λ leaf. 0 < length leaf) (after_descent a.descent) };
}

impl<'a> Pieces<'a> {
    /// Returns the first piece of a slice's bytes, and the pieces after it. The first one is empty
    /// only if the slice is.
    pub(crate) fn of(slice: &RopeSlice<'a>) -> (&'a [u8], Pieces<'a>)
        ensures bytes { result.0.now ++ result.1 ≡ encode_utf8_all (text_of slice.now) }
        ensures some { length result.0.now ≡ 0 → result.1 ≡ [] }
    {
        match slice {
            RopeSlice::InTree(excerpt) => {
                let start = excerpt.start.bytes;
                let size = excerpt.end.bytes - start;
                let (path, found) = Path::at(excerpt.node, Unit::Byte, start);
                let (_, front) = path.leaf().as_bytes().split_at(start - found.before.bytes);
                let count = front.len().min(size);
                let (piece, _) = front.split_at(count);
                let (descent, left) = (Some(path), size - count);
                (piece, Pieces { descent, left })
            }
            RopeSlice::Alone(plain) => Pieces::of_text(plain.text),
        }
    }

    /// Returns a plain text as the first piece, with none after it.
    pub(crate) fn of_text(text: &'a str) -> (&'a [u8], Pieces<'a>)
        ensures bytes { result.0.now ++ result.1 ≡ encode_utf8_all (chars text.now) }
        ensures some { length result.0.now ≡ 0 → result.1 ≡ [] }
    {
        let (descent, left) = (None, 0);
        (text.as_bytes(), Pieces { descent, left })
    }

    /// Returns the next piece, or an empty one at the end.
    pub(crate) fn next_piece(&mut self, heads: Heads) -> &'a [u8]
        ensures bytes { result.now ++ self.new ≡ self.old }
        ensures some { length result.now ≡ 0 → self.new ≡ [] }
    {
        if self.left == 0 {
            return &[];
        }
        let Some(path) = &mut self.descent else {
            return &[];
        };
        if !path.step_on(heads) {
            return &[];
        }
        let bytes = path.leaf().as_bytes();
        let count = bytes.len().min(self.left);
        self.left -= count;
        &bytes[..count]
    }
}
