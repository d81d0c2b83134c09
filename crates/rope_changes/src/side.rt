//! The sides of inserted text.
ghost use Rattle.std.specs.Prelude.{◌≡◌, ◌⊎◌, ◌+◌, ℕ, List, true, false, length};
ghost use Rattle.rope_changes.specs.Ops.{Op};
ghost use Rattle.rope_changes.specs.Change.{inserting};
ghost use Rattle.rope_changes.specs.Moved.{moved};
ghost use Rattle.rope_changes.specs.declared.side.Side.TheVariants.{Before, After};

/// On which side of text that is inserted at its index a position stays.
#[derive(Clone, Copy, Debug, PartialEq, Eq)]
pub enum Side {
    /// Before the inserted text.
    Before,
    /// After the inserted text.
    After,
}

impl Side {
    /// Returns whether a position `left` characters after an insert stays before its text, as it
    /// does at the insert itself, on this side.
    pub(crate) fn stays(self, left: usize) -> bool
        ensures stays { result ≡ true → (ops : List Op) → moved self ops left ≡ 0 }
        ensures passes { result ≡ false → (text : List ℕ) (ops : List Op)
            → moved self (inserting text ops) left ≡ length text + moved self ops left }
    {
        match self {
            Side::Before => left == 0,
            Side::After => false,
        }
    }

    /// Returns whether a text on this side comes before what another change inserts at its index,
    /// where `other` says whether that change inserts there.
    pub(crate) fn is_first(self, other: bool) -> bool
        ensures first { result ≡ true → (self ≡ Before) ⊎ (other ≡ false) }
        ensures second { result ≡ false → (self ≡ After) × (other ≡ true) }
    {
        match self {
            Side::Before => true,
            Side::After => !other,
        }
    }
}
