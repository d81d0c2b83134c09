//! What a handle of any type holds: a box taken apart, or nothing.
ghost use Rattle.std.specs.Prelude.{◌≡◌, Option, None, Some, MatchOption};
ghost use Rattle.std.specs.Coded.{coded_option};

use std::alloc::Global;
use std::marker::Model;
use std::ptr::null_mut;

// The pointer and the allocator of a box, or null and an allocator. A handle moves its fields here
// to take its value out, and gets them from here, so the unsafe code stands once.
pub(crate) struct Held<T> {
    pub(crate) at: *mut T,
    pub(crate) alloc: Global,
    pub(crate) ghost value: { Option T } by { coded_option T.code },
}

impl<T> Model for Held<T> {
    ghost use Rattle.ropey_c.specs.Handles.{held_at};

    ghost also_owns = { λ h. held_at T.row h.alloc h.at h.value };
}

impl<T> Held<T> {
    pub(crate) fn none(alloc: Global) -> Held<T>
        ensures { result.value ≡ None }
    {
        Held {
            at: null_mut(),
            alloc,
        }
    }

    pub(crate) fn into_box(self) -> Option<Box<T>>
        ensures { MatchOption result (self.value ≡ None) (λ value. self.value ≡ Some value.value) }
    {
        let Held { at, alloc } = self;
        if at.is_null() {
            return None;
        }
        Some(unsafe { Box::from_raw(alloc, at) })
    }
}

impl<T: Drop> Held<T> {
    pub(crate) fn of(value: Box<T>) -> Held<T>
        ensures { result.value ≡ Some value.value }
    {
        let (at, alloc) = Box::into_raw_with_allocator(value);
        Held { at, alloc }
    }
}
