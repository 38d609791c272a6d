//! A `Box` as the pointer and the allocator that it is made of.
ghost use Rattle.std.specs.Prelude.{◌≡◌};
ghost use Rattle.std.specs.Box.Ownership.{box_owns};

use std::alloc::Allocator;
use std::marker::Model;

/// The parts of a `Box`, which own what the `Box` did.
pub struct RawBox<T, A: Allocator> {
    pub(super) pointer: *mut T,
    pub(super) alloc: A,
    pub ghost value: { T },
}

impl<T, A: Allocator> Model for RawBox<T, A> {
    ghost also_owns = { λ raw. box_owns (A.dealloc_token raw.alloc) T.row raw.pointer raw.value };
}

impl<T, A: Allocator> RawBox<T, A> {
    /// Takes a `Box` apart.
    pub fn of(boxed: Box<T, A>) -> RawBox<T, A>
    where
        T: Drop,
        ensures { result.value ≡ boxed.value }
    {
        let (pointer, alloc) = Box::into_raw_with_allocator(boxed);
        RawBox { pointer, alloc }
    }

    /// Puts the `Box` together again.
    pub(crate) fn into_box(self) -> Box<T, A>
        ensures { result.value ≡ self.value }
    {
        let RawBox { pointer, alloc } = self;
        unsafe { Box::from_raw(alloc, pointer) }
    }
}
