//! Ropes compared and hashed by their texts, independent of their chunks. No call takes memory.
//!
//! A rope of `"ab"` made at once equals one made of `"a"` and then `"b"`, and is less than one of
//! `"b"`.
ghost use Rattle.std.proofs.Common.{rules};
ghost use Rattle.std.specs.Cmp.Rules.{comparing};
ghost use Rattle.std.specs.Ordering.{on};
ghost use Rattle.rope_text.specs.Compare.{text_cmp};
ghost use Rattle.ropey.specs.View.{text_of};

use crate::rope::Rope;
use std::cmp::Ordering;
use std::hash::{Hash, Hasher};

impl Rope {
    ghost use Rattle.std.specs.Prelude.{◌≡◌, IsTrue, ◌↔◌};
    ghost use Rattle.std.specs.Str.{chars};

    /// Returns whether the text equals `other`. Reads both texts up to the first difference.
    ///
    /// With the text `"ab"`, `eq_str("ab")` is true.
    pub fn eq_str(&self, other: &str) -> bool
        ensures { IsTrue result ↔ (self.now.text ≡ chars other.now) }
    {
        self.whole().eq_str(other)
    }
}

/// Ropes are equal exactly if their texts are, independent of their chunks and sets of line breaks.
/// Reads both texts up to the first difference.
impl PartialEq for Rope {
    ghost use Rattle.std.specs.Prelude.{◌==◌};
    ghost use lib.Pointwise.{pointwise};
    ghost use Rattle.ropey.specs.Compared.{bytes_of};

    ghost eq = { on bytes_of (pointwise ◌==◌) };

    ghost laws = { Prim.search (comparing, rules) };

    fn eq(&self, other: &Rope) -> bool {
        self.whole() == other.whole()
    }
}

impl Eq for Rope {
    ghost laws = { Prim.search (comparing, rules) };
}

/// The lexicographic order of the bytes of the texts, independent of their chunks. Reads both texts
/// up to the first difference.
impl Ord for Rope {
    ghost cmp = { on text_of text_cmp };

    ghost total = { Prim.search (comparing, rules) };

    ghost matches_partial_cmp = { Prim.search (comparing, rules) };

    ghost matches_eq = { Prim.search (comparing, rules) };

    fn cmp(&self, other: &Rope) -> Ordering {
        self.whole().cmp(&other.whole())
    }
}

impl PartialOrd for Rope {
    ghost use Rattle.std.specs.Cmp.{partial_order_from_own_ties};
    ghost use Rattle.std.specs.Ordering.{as_partial_cmp};

    ghost partial_cmp = { as_partial_cmp (on text_of text_cmp) };

    ghost laws = { partial_order_from_own_ties
        (Prim.search (comparing, rules)) (Prim.search (comparing, rules)) };

    fn partial_cmp(&self, other: &Rope) -> Option<Ordering> {
        Some(self.cmp(other))
    }
}

/// Writes the bytes of the text in blocks of 256, the last one possibly shorter, and then 0xff,
/// independent of the chunks.
impl Hash for Rope {
    ghost use Rattle.std.specs.Cmp.Rules.{hashing};
    ghost use Rattle.ropey.specs.Compared.{writes_of};

    ghost hash_input = { writes_of };

    ghost respects_eq = { Prim.search (hashing, rules) };

    fn hash<H: Hasher>(&self, state: &mut H) {
        self.whole().hash(state);
    }
}
