//! The only owner of a value, in one thread.
ghost use Rattle.std.specs.Prelude.{◌≡◌, IfOk, IfErr, MatchResult};
ghost use Rattle.rope_shared.specs.Local.Owning.{sole_memory, sole_lent};

mod lends;

use std::alloc::{AllocFailed, Global};
use std::marker::Model;
use std::ops::Deref;
use std::ptr::null_mut;
use std::rc::Rc;

// The block of an `Rc`.
#[derive(Drop)]
pub(crate) struct Inner<T> {
    pub(crate) strong: usize,
    pub(crate) weak: usize,
    pub(crate) alloc: Global,
    pub(crate) value: T,
}

// An `Rc`'s pointer, in the same memory as the `Rc`.
#[derive(Clone, Copy)]
struct Word {
    ptr: *mut u8,
}

// A `Box`'s pointer and allocator, in the same memory as the `Box`.
#[derive(Clone, Copy)]
struct Parts {
    ptr: *mut u8,
    alloc: Global,
}

/// The only owner of a value on the heap, in one thread.
pub struct Sole<T> {
    ptr: *mut Inner<T>,
    pub ghost value: { T },
}

impl<T> Model for Sole<T> {
    ghost also_owns = { λ s. sole_memory T.row s.ptr s.value };

    ghost also_shares = { λ s _ κ. sole_lent T.row s.ptr s.value κ };
}

impl<T> Sole<T> {
    /// Makes this the first owner of an `Rc`. Takes no memory, and moves nothing.
    pub fn into_rc(self) -> Rc<T, Global>
        ensures { result.value ≡ self.value }
    {
        let Sole { ptr } = self;
        let word = Word { ptr: ptr.cast() };
        unsafe { (&raw const word).cast::<Rc<T, Global>>().read() }
    }

    /// Returns the only owner, if the `Rc` is that and has no `Weak`, and the `Rc` otherwise. Moves
    /// nothing.
    pub fn claim(rc: Rc<T, Global>) -> Result<Sole<T>, Rc<T, Global>>
        ensures { MatchResult result (λ s. s.value ≡ rc.value) (λ c. c.value ≡ rc.value) }
    {
        let mut word = Word { ptr: null_mut() };
        unsafe { (&raw mut word).cast::<Rc<T, Global>>().write(rc) };
        let ptr = word.ptr.cast::<Inner<T>>();
        let is_only = unsafe { ((*ptr).strong == 1) & ((*ptr).weak == 1) };
        if is_only {
            return Ok(Sole { ptr });
        }
        Err(unsafe { (&raw const word).cast::<Rc<T, Global>>().read() })
    }

    /// Allocates a block for the value.
    pub fn new(alloc: Global, value: T) -> Result<Sole<T>, AllocFailed<T>>
        ensures ok { IfOk result (λ s. s.value ≡ value) }
        ensures value_returned { IfErr result (λ e. e.value ≡ value) }
    {
        let inner = Inner {
            strong: 1,
            weak: 1,
            alloc,
            value,
        };
        match Box::new(alloc, inner) {
            Ok(inner) => Ok(Sole::from_box(alloc, inner)),
            Err(failed) => {
                let AllocFailed { value: inner } = failed;
                let Inner {
                    strong: _,
                    weak: _,
                    alloc: _,
                    value,
                } = inner;
                Err(AllocFailed { value })
            }
        }
    }

    /// Returns the value, and frees its block.
    pub fn into_inner(self) -> T
        ensures { result ≡ self.value }
    {
        let Inner {
            strong: _,
            weak: _,
            alloc: _,
            value,
        } = Box::into_inner(self.into_box());
        value
    }

    /// Returns a borrow of the value.
    pub fn as_ref(&self) -> &T
        ensures { result.now ≡ self.now.value }
    {
        unsafe { &(*self.ptr).value }
    }

    fn from_box(alloc: Global, inner: Box<Inner<T>>) -> Sole<T>
        requires strong { inner.value.strong ≡ 1 }
        requires weak { inner.value.weak ≡ 1 }
        ensures { result.value ≡ inner.value.value }
    {
        let mut parts = Parts {
            ptr: null_mut(),
            alloc,
        };
        unsafe { (&raw mut parts).cast::<Box<Inner<T>>>().write(inner) };
        let ptr = parts.ptr.cast::<Inner<T>>();
        Sole { ptr }
    }

    fn into_box(self) -> Box<Inner<T>>
        ensures { result.value.value ≡ self.value }
    {
        let Sole { ptr } = self;
        unsafe {
            let alloc = (&raw const (*ptr).alloc).read();
            let value = (&raw const (*ptr).value).read();
            ptr.write(Inner {
                strong: 1,
                weak: 1,
                alloc,
                value,
            });
            let parts = Parts {
                ptr: ptr.cast(),
                alloc,
            };
            (&raw const parts).cast::<Box<Inner<T>>>().read()
        }
    }
}

impl<T: Drop> Drop for Sole<T> {
    fn drop(self) {
        drop(self.into_inner());
    }
}

impl<T> Deref for Sole<T> {
    type Target = T;

    ghost deref_gives = { λ s x. x ≡ s.value };

    fn deref(&self) -> &T {
        self.as_ref()
    }
}
