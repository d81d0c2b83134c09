//! Changes that a program in C lends to calls that read them.
ghost use Rattle.std.specs.Prelude.{◌≡◌, Option, None, Some, MatchOption};
ghost use Rattle.std.specs.Coded.{coded_option};
ghost use Rattle.rope_changes.specs.Change.{Change};
ghost use Rattle.ropey_c.specs.ChangeHandles.{changes_code};

use rope_changes::ChangeSet;
use std::marker::Model;

/// The handle of changes as calls that only read them see it: C passes a pointer to `const`. Any
/// number of such calls may use it at once.
#[repr(C)]
pub struct LentChanges {
    ptr: *mut u8,
    ghost held: { Option Change } by { coded_option changes_code },
}

impl Model for LentChanges {
    ghost use Rattle.ropey_c.specs.ChangeHandles.{changes_lent};

    ghost also_owns = { λ l. changes_lent l.ptr l.held };
}

impl LentChanges {
    // Returns the changes, if there are any, for as long as the handle is lent.
    pub(crate) fn changes<'a>(&'a self) -> Option<&'a ChangeSet>
        ensures { MatchOption result (self.now.held ≡ None)
            (λ changes. self.now.held ≡ Some changes.now) }
    {
        let at = self.ptr;
        if at.is_null() {
            return None;
        }
        Some(unsafe { &*at.cast() })
    }
}
