//! The only owner of a value.
ghost use Rattle.std.specs.Prelude.{◌≡◌, IfOk, IfErr, IfSome, MatchResult};
ghost use Rattle.rope_shared.specs.Owning.{sole_memory, sole_lent};

mod lends;

use std::alloc::{AllocFailed, Global};
use std::marker::{Brand, Model, Send, Sync};
use std::ops::Deref;
use std::ptr::null_mut;
use std::sync::Arc;
use std::sync::atomic::Ordering::SeqCst;
use std::sync::atomic::raw;

// The block of an `Arc`.
#[derive(Drop)]
pub(crate) struct Inner<T> {
    pub(crate) count: u64,
    pub(crate) alloc: Global,
    pub(crate) value: T,
}

// An `Arc`'s pointer, in the same memory as the `Arc`.
#[derive(Clone, Copy)]
struct Word {
    ptr: *mut u8,
}

// A `Box`'s pointer and allocator, in the same memory as the `Box`.
#[derive(Clone, Copy)]
struct Parts {
    ptr: *mut u8,
    alloc: Global,
}

/// The only owner of a value on the heap.
pub struct Sole<T> {
    ptr: *mut Inner<T>,
    pub ghost value: { T },
}

impl<T> Model for Sole<T> {
    ghost also_owns = { λ s. sole_memory T.row s.ptr s.value };

    ghost also_shares = { λ s _ κ. sole_lent T.row s.ptr s.value κ };
}

impl<T> Sole<T> {
    /// Makes this the first owner of an `Arc`. Takes no memory, and moves nothing.
    pub fn into_arc(self) -> Arc<T, Global>
        ensures { result.value ≡ self.value }
    {
        let Sole { ptr } = self;
        let word = Word { ptr: ptr.cast() };
        unsafe { (&raw const word).cast::<Arc<T, Global>>().read() }
    }

    /// Returns the only owner, if the `Arc` is that, and the `Arc` otherwise. Moves nothing.
    pub fn claim(arc: Arc<T, Global>) -> Result<Sole<T>, Arc<T, Global>>
        ensures { MatchResult result (λ s. s.value ≡ arc.value) (λ c. c.value ≡ arc.value) }
    {
        let mut word = Word { ptr: null_mut() };
        unsafe { (&raw mut word).cast::<Arc<T, Global>>().write(arc) };
        let ptr = word.ptr.cast::<Inner<T>>();
        let n = unsafe { raw::load::<Brand>(&raw const (*ptr).count, SeqCst) };
        if n == 1 {
            return Ok(Sole { ptr });
        }
        Err(unsafe { (&raw const word).cast::<Arc<T, Global>>().read() })
    }

    // Lowers the count. The last owner gets the block.
    pub(crate) fn release(arc: Arc<T, Global>) -> Option<Sole<T>>
        ensures { IfSome result (λ s. s.value ≡ arc.value) }
    {
        let mut word = Word { ptr: null_mut() };
        unsafe { (&raw mut word).cast::<Arc<T, Global>>().write(arc) };
        let ptr = word.ptr.cast::<Inner<T>>();
        let n = unsafe { raw::fetch_sub::<Brand>(&raw const (*ptr).count, 1, SeqCst) };
        if n != 1 {
            return None;
        }
        unsafe { (*ptr).count = 1 };
        Some(Sole { ptr })
    }

    /// Allocates a block for the value.
    pub fn new(alloc: Global, value: T) -> Result<Sole<T>, AllocFailed<T>>
        ensures ok { IfOk result (λ s. s.value ≡ value) }
        ensures value_returned { IfErr result (λ e. e.value ≡ value) }
    {
        let inner = Inner {
            count: 1,
            alloc,
            value,
        };
        match Box::new(alloc, inner) {
            Ok(inner) => Ok(Sole::from_box(alloc, inner)),
            Err(failed) => {
                let AllocFailed { value: inner } = failed;
                let Inner {
                    count: _,
                    alloc: _,
                    value,
                } = inner;
                Err(AllocFailed { value })
            }
        }
    }

    /// Returns the value, and frees its block.
    pub fn into_inner(self) -> T
        ensures { result ≡ self.value }
    {
        let Inner {
            count: _,
            alloc: _,
            value,
        } = Box::into_inner(self.into_box());
        value
    }

    /// Returns a borrow of the value.
    pub fn as_ref(&self) -> &T
        ensures { result.now ≡ self.now.value }
    {
        unsafe { &(*self.ptr).value }
    }

    fn from_box(alloc: Global, inner: Box<Inner<T>>) -> Sole<T>
        requires { inner.value.count ≡ 1 }
        ensures { result.value ≡ inner.value.value }
    {
        let mut parts = Parts {
            ptr: null_mut(),
            alloc,
        };
        unsafe { (&raw mut parts).cast::<Box<Inner<T>>>().write(inner) };
        let ptr = parts.ptr.cast::<Inner<T>>();
        Sole { ptr }
    }

    fn into_box(self) -> Box<Inner<T>>
        ensures { result.value.value ≡ self.value }
    {
        let Sole { ptr } = self;
        unsafe {
            let alloc = (&raw const (*ptr).alloc).read();
            let value = (&raw const (*ptr).value).read();
            ptr.write(Inner {
                count: 1,
                alloc,
                value,
            });
            let parts = Parts {
                ptr: ptr.cast(),
                alloc,
            };
            (&raw const parts).cast::<Box<Inner<T>>>().read()
        }
    }
}

impl<T: Drop> Drop for Sole<T> {
    fn drop(self) {
        drop(self.into_inner());
    }
}

impl<T> Deref for Sole<T> {
    type Target = T;

    ghost deref_gives = { λ s x. x ≡ s.value };

    fn deref(&self) -> &T {
        self.as_ref()
    }
}

unsafe impl<T: Send> Send for Sole<T> {}

unsafe impl<T: Sync> Sync for Sole<T> {}
