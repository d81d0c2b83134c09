//! One of several owners of a value, in one thread.
ghost use Rattle.std.specs.Prelude.{◌≡◌, ◌<◌, IfOk, IfErr, IfSome, MatchResult};
ghost use Rattle.std.specs.Borrow.{sem};
ghost use Rattle.rope_shared.specs.Local.Shared.{shared_value, LendsValue, HoldsValue};

use super::sole::Sole;
use std::alloc::{AllocError, AllocFailed, Global};
use std::ops::Deref;
use std::rc::Rc;

/// One of several owners of a value on the heap, all in one thread.
pub struct Shared<T> {
    rc: Rc<T, Global>,
}

impl<T> Sole<T> {
    /// Makes this the first of several owners. Takes no memory, and moves nothing.
    pub fn share(self) -> Shared<T>
        ensures { shared_value result ≡ self.value }
    {
        let rc = self.into_rc();
        Shared { rc }
    }
}

impl<T> Shared<T> {
    /// Allocates a block for the value, whose first owner this is.
    pub fn new(alloc: Global, value: T) -> Result<Shared<T>, AllocFailed<T>>
        ensures ok { IfOk result (λ s. shared_value s ≡ value) }
        ensures value_returned { IfErr result (λ e. e.value ≡ value) }
    {
        let sole = Sole::new(alloc, value)?;
        Ok(sole.share())
    }

    /// Returns the number of owners.
    pub fn strong_count(&self) -> usize
        ensures { 0 < result }
    {
        Rc::strong_count(&self.rc)
    }

    /// Returns the only owner, if there is one, and this owner otherwise. Moves nothing.
    pub fn into_sole(self) -> Result<Sole<T>, Shared<T>>
        ensures { MatchResult result (λ s. s.value ≡ shared_value self)
            (λ c. shared_value c ≡ shared_value self) }
    {
        let Shared { rc } = self;
        match Sole::claim(rc) {
            Ok(sole) => Ok(sole),
            Err(rc) => Err(Shared { rc }),
        }
    }

    /// Returns a mutable borrow of the value, if this is its only owner.
    pub fn get_mut(&mut self) -> Option<&mut T>
        ensures* writes_back { sem 𝓛 (LendsValue T.row self.entry result) }
        ensures value { IfSome result (λ x. x.now ≡ shared_value self.old) }
    {
        Rc::get_mut(&mut self.rc)
    }

    /// Returns a borrow of the value.
    pub fn as_ref(&self) -> &T
        ensures { result.now ≡ shared_value self.now }
    {
        self.rc.deref()
    }
}

impl<T: Drop> Shared<T> {
    /// Adds an owner. Takes no memory, and fails only where the count is full.
    pub fn try_clone(&self) -> Result<Shared<T>, AllocError>
        ensures { IfOk result (λ c. shared_value c ≡ shared_value self.now) }
    {
        let rc = self.rc.clone()?;
        Ok(Shared { rc })
    }
}

impl<T: Drop> Shared<T> {
    /// Makes this the first owner of the value of `sole`, and returns a mutable borrow of it.
    pub fn reset(&mut self, sole: Sole<T>) -> &mut T
        ensures* writes_back { sem 𝓛 (HoldsValue T.row self.entry sole result) }
        ensures value { result.now ≡ sole.value }
    {
        Sole::reset(&mut self.rc, sole)
    }
}

// The drop of an `Rc` is inlined, but for what the last owner does.
impl<T: Drop> Drop for Shared<T> {
    #[inline]
    fn drop(self) {
        let Shared { rc } = self;
        drop(rc);
    }
}

impl<T: Drop> Clone for Shared<T> {
    ghost is_clone = { λ s copy. shared_value copy ≡ shared_value s };

    fn clone(&self) -> Result<Shared<T>, AllocError> {
        self.try_clone()
    }
}

impl<T> Deref for Shared<T> {
    type Target = T;

    ghost deref_gives = { λ s x. x ≡ shared_value s };

    fn deref(&self) -> &T {
        self.as_ref()
    }
}
