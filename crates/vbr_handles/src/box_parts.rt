// A `Box` with its fields in sight of the module above.
ghost use Rattle.std.specs.Prelude.{◌≡◌};
ghost use Rattle.std.specs.Box.Ownership.{box_owns};

use std::alloc::Allocator;
use std::marker::Model;
use std_alloc::room::Vacant;

pub struct Parts<T, A: Allocator> {
    pub(crate) ptr: *mut T,
    pub(crate) alloc: A,
    pub ghost value: { T },
}

impl<T, A: Allocator> Model for Parts<T, A> {
    ghost also_owns = { λ p. box_owns (A.dealloc_token p.alloc) T.row p.ptr p.value };
}

impl<T, A: Allocator> Parts<T, A> {
    pub fn of(b: Box<T, A>) -> Parts<T, A>
    where
        T: Drop,
        ensures { result.value ≡ b.value }
    {
        let (ptr, alloc) = Box::into_raw_with_allocator(b);
        Parts { ptr, alloc }
    }

    pub fn into_box(self) -> Box<T, A>
        ensures { result.value ≡ self.value }
    {
        let Parts { ptr, alloc } = self;
        unsafe { Box::from_raw(alloc, ptr) }
    }
}

impl<T, A: Allocator> Parts<T, A> {
    /// Moves the value out, and keeps the block.
    pub fn take_value(self) -> (T, Vacant<T, A>)
        ensures { result.0 ≡ self.value }
    {
        let Parts { ptr, alloc } = self;
        let x = unsafe { ptr.read() };
        (x, Vacant { ptr, alloc })
    }

    /// Moves a value into a block.
    pub fn write_into(room: Vacant<T, A>, x: T) -> Parts<T, A>
        ensures { result.value ≡ x }
    {
        let Vacant { ptr, alloc } = room;
        unsafe {
            ptr.write(x);
        }
        Parts { ptr, alloc }
    }
}
