//! The handle by which a program in C holds a rope.
ghost use Rattle.std.specs.Prelude.{◌≡◌, Option, None, Some, MatchOption};
ghost use Rattle.std.specs.Coded.{coded_option};
ghost use Rattle.ropey.specs.View.{RopeView};
ghost use Rattle.ropey_c.specs.Handles.{rope_code, HoldsRope};

use crate::held::Held;
use ropey::Rope;
use std::alloc::Global;
use std::marker::Model;
use std::mem::replace;

/// A pointer to a rope on the heap, or null, where there is none. C sees a struct of one pointer,
/// which begins as null and is changed by the library alone.
#[repr(C)]
pub struct Handle {
    ptr: *mut u8,
    alloc: Global,
    ghost rope: { Option RopeView } by { coded_option rope_code },
}

impl Model for Handle {
    ghost use Rattle.ropey_c.specs.Handles.{rope_at};

    ghost also_owns = { λ h. rope_at h.alloc h.ptr h.rope };
}

impl Handle {
    fn of(held: Held<Rope>) -> Handle
        ensures { result.rope ≡ held.value }
    {
        let Held { at, alloc } = held;
        Handle {
            ptr: at.cast(),
            alloc,
        }
    }

    fn into_held(self) -> Held<Rope>
        ensures { result.value ≡ self.rope }
    {
        let Handle { ptr, alloc } = self;
        Held {
            at: ptr.cast(),
            alloc,
        }
    }

    // Takes the rope out, if there is one.
    pub(crate) fn take(&mut self, alloc: Global) -> Option<Box<Rope>>
        ensures taken { MatchOption result (self.old.rope ≡ None)
            (λ rope. self.old.rope ≡ Some rope.value) }
        ensures left { self.new.rope ≡ None }
        ensures kept { HoldsRope self.old.rope }
    {
        let before = replace(self, Handle::of(Held::none(alloc)));
        let rope = before.into_held().into_box()?;
        // For the proof: a length opens what every rope keeps.
        let _ = rope.len_bytes();
        Some(rope)
    }

    // Puts a rope in, and drops the one before, as `bindings/c/leaks.c` tests.
    pub(crate) fn put(&mut self, rope: Box<Rope>)
        ensures { self.new.rope ≡ Some rope.value }
    {
        let before = replace(self, Handle::of(Held::of(rope)));
        drop(before.into_held().into_box());
    }
}
