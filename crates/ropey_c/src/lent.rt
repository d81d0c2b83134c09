//! A rope that a program in C lends to lookups.
ghost use Rattle.std.specs.Prelude.{◌≡◌, Option, None, Some, MatchOption};
ghost use Rattle.std.specs.Coded.{coded_option};
ghost use Rattle.ropey.specs.View.{RopeView, IsRope};
ghost use Rattle.ropey_c.specs.Handles.{rope_code};

use ropey::Rope;
use std::marker::Model;

/// The handle of a rope as lookups see it: C passes a pointer to `const`. Any number of lookups may
/// use it at once.
#[repr(C)]
pub struct Lent {
    ptr: *mut u8,
    ghost rope: { Option RopeView } by { coded_option rope_code },
}

impl Model for Lent {
    ghost use Rattle.ropey_c.specs.Handles.{rope_lent};

    ghost also_owns = { λ l. rope_lent l.ptr l.rope };
}

impl Lent {
    // Returns the rope at the pointer, for as long as the handle is lent.
    fn at_pointer<'a>(&'a self) -> Option<&'a Rope>
        ensures { MatchOption result (self.now.rope ≡ None)
            (λ rope. self.now.rope ≡ Some rope.now) }
    {
        let at = self.ptr;
        if at.is_null() {
            return None;
        }
        Some(unsafe { &*at.cast() })
    }

    // Returns the rope, if there is one.
    pub(crate) fn held<'a>(&'a self) -> Option<&'a Rope>
        ensures found { MatchOption result (self.now.rope ≡ None)
            (λ rope. self.now.rope ≡ Some rope.now) }
        ensures kept { MatchOption result (self.now.rope ≡ None) (λ rope. IsRope rope.now) }
    {
        let rope = self.at_pointer()?;
        // For the proof: a length opens what every rope keeps.
        let _ = rope.len_bytes();
        Some(rope)
    }
}
