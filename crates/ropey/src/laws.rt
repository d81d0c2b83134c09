//! Laws: equality, order and hash of ropes in terms of their texts.
ghost use Rattle.std.specs.Prelude.{◌≡◌, IsTrue, ◌↔◌};
ghost use Rattle.std.specs.Cmp.{IsTotalOrder};
ghost use Rattle.std.specs.declared.cmp.Ordering.TheVariants.{Equal};
ghost use Rattle.ropey.specs.View.{RopeView};

use crate::rope::Rope;
use std::hash::Hash;

/// Does nothing; its contract is the law. Two ropes are equal exactly if their texts are,
/// independent of their chunks; their order is total, and only equal ropes tie; equal ropes give
/// any hasher the same writes.
pub fn texts_are_compared()
    ensures equal { (a b : RopeView) → (IsTrue (⟦<Rope as PartialEq>⟧.eq a b) ↔ (a.text ≡ b.text)) }
    ensures total { IsTotalOrder ⟦<Rope as Ord>⟧.cmp }
    ensures ties { (a b : RopeView) →
        ((⟦<Rope as Ord>⟧.cmp a b ≡ Equal) ↔ IsTrue (⟦<Rope as PartialEq>⟧.eq a b)) }
    ensures hash { (a b : RopeView) → IsTrue (⟦<Rope as PartialEq>⟧.eq a b) →
        ⟦<Rope as Hash>⟧.hash_input a ≡ ⟦<Rope as Hash>⟧.hash_input b }
{}
