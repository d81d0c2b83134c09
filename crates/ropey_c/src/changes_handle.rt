//! The handle by which a program in C holds changes.
ghost use Rattle.std.specs.Prelude.{◌≡◌, Option, None, Some, MatchOption};
ghost use Rattle.std.specs.Coded.{coded_option};
ghost use Rattle.rope_changes.specs.Change.{Change};
ghost use Rattle.ropey_c.specs.ChangeHandles.{changes_code};

use crate::held::Held;
use rope_changes::ChangeSet;
use std::alloc::Global;
use std::marker::Model;
use std::mem::replace;

/// A pointer to a change set on the heap, or null if there is none. C sees a struct of one
/// pointer, which begins as null and is changed by the library alone.
#[repr(C)]
pub struct ChangesHandle {
    ptr: *mut u8,
    alloc: Global,
    ghost held: { Option Change } by { coded_option changes_code },
}

impl Model for ChangesHandle {
    ghost use Rattle.ropey_c.specs.ChangeHandles.{changes_at};

    ghost also_owns = { λ h. changes_at h.alloc h.ptr h.held };
}

impl ChangesHandle {
    fn of(held: Held<ChangeSet>) -> ChangesHandle
        ensures { result.held ≡ held.value }
    {
        let Held { at, alloc } = held;
        ChangesHandle {
            ptr: at.cast(),
            alloc,
        }
    }

    fn into_held(self) -> Held<ChangeSet>
        ensures { result.value ≡ self.held }
    {
        let ChangesHandle { ptr, alloc } = self;
        Held {
            at: ptr.cast(),
            alloc,
        }
    }

    // Takes the changes out, if there are any.
    pub(crate) fn take(&mut self, alloc: Global) -> Option<Box<ChangeSet>>
        ensures taken { MatchOption result (self.old.held ≡ None)
            (λ held. self.old.held ≡ Some held.value) }
        ensures left { self.new.held ≡ None }
    {
        let before = replace(self, ChangesHandle::of(Held::none(alloc)));
        before.into_held().into_box()
    }

    // Puts changes in, and drops those before, as `bindings/c/leaks.c` tests.
    pub(crate) fn put(&mut self, held: Box<ChangeSet>)
        ensures { self.new.held ≡ Some held.value }
    {
        let before = replace(self, ChangesHandle::of(Held::of(held)));
        drop(before.into_held().into_box());
    }
}
