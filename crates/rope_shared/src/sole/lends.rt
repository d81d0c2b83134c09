// Mutable borrows of the value. Their contracts cite `specs/Sole.antt`, which the struct's own file
// can't import.
ghost use Rattle.std.specs.Prelude.{◌≡◌, Some, IsNone};
ghost use Rattle.rope_shared.specs.Sole.{sole_follows, arc_holds};
ghost use types.Logic.{sem};

use super::{Sole, Word};
use std::alloc::Global;
use std::ops::DerefMut;
use std::sync::Arc;

impl<T> Sole<T> {
    /// Returns a mutable borrow of the value.
    pub fn as_mut(&mut self) -> &mut T
        ensures* writes_back { sem 𝓛 (sole_follows T.row self.entry result) }
        ensures value { result.now ≡ self.old.value }
    {
        unsafe { &mut (*self.ptr).value }
    }
}

impl<T> DerefMut for Sole<T> {
    ghost deref_mut_gives = { λ s x. x ≡ s.value };

    fn deref_mut(&mut self) -> &mut T
        ensures* writes_back { sem 𝓛 (sole_follows T.row self.entry result) }
        ensures value { result.now ≡ self.old.value }
    {
        self.as_mut()
    }
}

impl<T> Sole<T> {
    // Puts the block into the place of an `Arc`, which moves to `old`. Returns the value.
    pub(crate) fn put<'a>(
        place: &'a mut Arc<T, Global>,
        sole: Sole<T>,
        old: &mut Option<Arc<T, Global>>,
    ) -> &'a mut T
        requires { IsNone old.old }
        ensures* writes_back { sem 𝓛 (arc_holds T.row sole place.entry result) }
        ensures moved { old.new ≡ Some place.old }
        ensures value { result.now ≡ sole.value }
    {
        let Sole { ptr } = sole;
        let word = Word { ptr: ptr.cast() };
        unsafe {
            (&raw mut *old).write(Some((&raw const *place).read()));
            (&raw mut *place).write((&raw const word).cast::<Arc<T, Global>>().read());
            &mut (*ptr).value
        }
    }
}

impl<T: Drop> Sole<T> {
    /// Makes the `Arc` the first owner of the value of `sole`, and returns a mutable borrow of it.
    pub fn reset(arc: &mut Arc<T, Global>, sole: Sole<T>) -> &mut T
        ensures* writes_back { sem 𝓛 (arc_holds T.row sole arc.entry result) }
        ensures value { result.now ≡ sole.value }
    {
        let mut old = None;
        let value = Sole::put(arc, sole, &mut old);
        drop(old);
        value
    }
}
