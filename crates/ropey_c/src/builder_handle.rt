//! The handle by which a program in C holds a builder.
ghost use Rattle.std.specs.Prelude.{◌≡◌, Option, None, Some, MatchOption};
ghost use Rattle.std.specs.Coded.{coded_option};
ghost use Rattle.ropey_c.specs.Intake.{Taking};
ghost use Rattle.ropey_c.specs.Builders.{intake_code};

use crate::held::Held;
use crate::intake::Intake;
use std::alloc::Global;
use std::marker::Model;
use std::mem::replace;

/// A pointer to a builder on the heap, or null, where there is none. C sees a struct of one
/// pointer, which begins as null and is changed by the library alone.
#[repr(C)]
pub struct BuilderHandle {
    ptr: *mut u8,
    alloc: Global,
    ghost held: { Option Taking } by { coded_option intake_code },
}

impl Model for BuilderHandle {
    ghost use Rattle.ropey_c.specs.Builders.{intake_at};

    ghost also_owns = { λ h. intake_at h.alloc h.ptr h.held };
}

impl BuilderHandle {
    fn of(held: Held<Intake>) -> BuilderHandle
        ensures { result.held ≡ held.value }
    {
        let Held { at, alloc } = held;
        BuilderHandle {
            ptr: at.cast(),
            alloc,
        }
    }

    fn into_held(self) -> Held<Intake>
        ensures { result.value ≡ self.held }
    {
        let BuilderHandle { ptr, alloc } = self;
        Held {
            at: ptr.cast(),
            alloc,
        }
    }

    // Takes the builder out, if there is one.
    pub(crate) fn take(&mut self, alloc: Global) -> Option<Box<Intake>>
        ensures taken { MatchOption result (self.old.held ≡ None)
            (λ held. self.old.held ≡ Some held.value) }
        ensures left { self.new.held ≡ None }
    {
        let before = replace(self, BuilderHandle::of(Held::none(alloc)));
        before.into_held().into_box()
    }

    // Puts a builder in, and drops the one before, as `bindings/c/leaks.c` tests.
    pub(crate) fn put(&mut self, held: Box<Intake>)
        ensures { self.new.held ≡ Some held.value }
    {
        let before = replace(self, BuilderHandle::of(Held::of(held)));
        drop(before.into_held().into_box());
    }
}
