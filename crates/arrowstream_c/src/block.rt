//! A value in a block of memory of its own, whose pointer C holds.
ghost use Rattle.std.specs.Prelude.{◌≡◌};
ghost use Rattle.std.specs.Box.Ownership.{box_owns};

use std::alloc::Allocator;
use std::marker::Model;

/// What a box owns: the block, with the value in it, and the allocator that frees it.
pub(crate) struct Block<T, A: Allocator> {
    pub(crate) ptr: *mut T,
    pub(crate) alloc: A,
    pub(crate) ghost value: { T },
}

impl<T, A: Allocator> Model for Block<T, A> {
    ghost also_owns = { λ b. box_owns (A.dealloc_token b.alloc) T.row b.ptr b.value };
}

impl<T, A: Allocator> Block<T, A> {
    /// Takes the block out of a box. It is freed only if it is made a box again.
    pub(crate) fn out_of(whole: Box<T, A>) -> Block<T, A>
    where
        T: Drop,
        ensures { result.value ≡ whole.value }
    {
        let (ptr, alloc) = Box::into_raw_with_allocator(whole);
        Block { ptr, alloc }
    }

    /// Makes the block a box again.
    pub(crate) fn into_box(self) -> Box<T, A>
        ensures { result.value ≡ self.value }
    {
        let Block { ptr, alloc } = self;
        unsafe { Box::from_raw(alloc, ptr) }
    }
}
