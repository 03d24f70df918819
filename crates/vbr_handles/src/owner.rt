//! A boxed member as one pointer.
ghost use Rattle.std.specs.Prelude.{◌≡◌, Option, None, Some, IfSome, IsSome};
ghost use Rattle.std.specs.Coded.{coded_option};
ghost use Rattle.vbr_handles.specs.Owners.{owner_owns};

use crate::box_parts::Parts;
use std::alloc::Global;
use std::marker::Model;
use std::mem::replace;
use std::ptr::null_mut;
use std_alloc::room::Vacant;

/// Owns a `Box<M, Global>`, or nothing if the pointer is null. C sees one pointer, and never copies it.
#[repr(C)]
pub struct Owner<M> {
    pub(crate) ptr: *mut M,
    pub(crate) alloc: Global,
    pub ghost member: { Option M } by { coded_option M.code },
}

impl<M> Model for Owner<M> {
    ghost also_owns = { λ h. owner_owns M.row h.alloc h.ptr h.member };
}

impl<M> Owner<M> {
    /// One that owns no member.
    pub fn empty(alloc: Global) -> Owner<M>
        ensures { result.member ≡ None }
    {
        Owner {
            ptr: null_mut(),
            alloc,
        }
    }

    /// The owner of a member.
    pub fn of(member: Box<M, Global>) -> Owner<M>
    where
        M: Drop,
        ensures { result.member ≡ Some member.value }
    {
        Owner::of_parts(Parts::of(member))
    }

    /// The member, if there is one.
    pub fn into_box(self) -> Option<Box<M, Global>>
        ensures is { IfSome result (λ b. self.member ≡ Some b.value) }
        ensures there { IsSome self.member → IsSome result }
    {
        match self.into_parts() {
            Some(parts) => Some(parts.into_box()),
            None => None,
        }
    }

    fn of_parts(parts: Parts<M, Global>) -> Owner<M>
        ensures { result.member ≡ Some parts.value }
    {
        let Parts { ptr, alloc } = parts;
        Owner { ptr, alloc }
    }

    fn into_parts(self) -> Option<Parts<M, Global>>
        ensures { IfSome result (λ p. self.member ≡ Some p.value)
            × (IsSome self.member → IsSome result) }
    {
        let Owner { ptr, alloc } = self;
        if ptr.is_null() {
            None
        } else {
            Some(Parts { ptr, alloc })
        }
    }

    /// Moves the member out, with the block that it lay in, and leaves nothing.
    pub fn take_out(&mut self, alloc: Global) -> Option<(M, Vacant<M, Global>)>
        ensures is { IfSome result (λ r. self.old.member ≡ Some r.0) }
        ensures there { IsSome self.old.member → IsSome result }
        ensures left { self.new.member ≡ None }
    {
        match replace(self, Owner::empty(alloc)).into_parts() {
            Some(parts) => Some(parts.take_value()),
            None => None,
        }
    }

    /// Moves a member into a block, which needs no memory. What was there before is dropped.
    pub fn put_back(&mut self, member: M, block: Vacant<M, Global>)
    where
        M: Drop,
        ensures { self.new.member ≡ Some member }
    {
        *self = Owner::of_parts(Parts::write_into(block, member));
    }
}

impl<M: Drop> Drop for Owner<M> {
    fn drop(self) {
        drop(self.into_box());
    }
}

unsafe impl<M: Send> Send for Owner<M> {}
