//! Laws: equality, order and hash of slices in terms of their texts; each cursor steps through the
//! list of its items.
ghost use Rattle.std.specs.Prelude.{◌≡◌, IsTrue, ◌↔◌, ℕ, List};
ghost use Rattle.std.specs.Cmp.{IsTotalOrder};
ghost use Rattle.std.specs.declared.cmp.Ordering.TheVariants.{Equal};
ghost use Rattle.rope_slice.specs.declared.slice.RopeSlice.{RopeSlice};
ghost use Rattle.rope_slice.specs.Slice.{content_of, text_of};
ghost use Rattle.std.specs.Borrow.{Bor};
ghost use Rattle.std.specs.Str.{chars};
ghost use Rattle.rope_text.specs.Content.{Content};
ghost use Rattle.rope_text.specs.Laws.{StepsUndo, StepsAreCursors, StartsCount};

use crate::slice::RopeSlice;
use std::hash::Hash;

/// Does nothing; the contract is the law. Two slices are equal exactly if their texts are,
/// independent of their chunks; their order is total, and only equal slices tie; equal slices give
/// any hasher the same writes.
pub fn texts_are_compared()
    ensures equal { (a b : RopeSlice) →
        (IsTrue (⟦<RopeSlice<'static> as PartialEq>⟧.eq a b) ↔ (text_of a ≡ text_of b)) }
    ensures total { IsTotalOrder ⟦<RopeSlice<'static> as Ord>⟧.cmp }
    ensures ties { (a b : RopeSlice) →
        ((⟦<RopeSlice<'static> as Ord>⟧.cmp a b ≡ Equal)
        ↔ IsTrue (⟦<RopeSlice<'static> as PartialEq>⟧.eq a b)) }
    ensures hash { (a b : RopeSlice) → IsTrue (⟦<RopeSlice<'static> as PartialEq>⟧.eq a b) →
        ⟦<RopeSlice<'static> as Hash>⟧.hash_input a ≡ ⟦<RopeSlice<'static> as Hash>⟧.hash_input b }
{}

/// Does nothing; the contract is the law. A step back undoes a step, the two sides are a cursor,
/// and the number of items ahead is the number left. `Bytes` and `Chars` are cursors over the lists
/// of the slice's bytes and characters. `Chunks` is a cursor over the texts of its chunks, and
/// `Lines` one over the contents of its lines.
pub fn steps_are_of_cursors()
    ensures undo { StepsUndo ℕ }
    ensures steps { StepsAreCursors (λ (x : ℕ). x) }
    ensures starts { StartsCount ℕ }
    ensures chunks_undo { StepsUndo (List ℕ) }
    ensures chunks_step { StepsAreCursors (λ (x : Bor (List ℕ)). chars x.now) }
    ensures chunks_start { StartsCount (List ℕ) }
    ensures lines_undo { StepsUndo Content }
    ensures lines_step { StepsAreCursors (λ (x : RopeSlice). content_of x) }
    ensures lines_start { StartsCount Content }
{}
