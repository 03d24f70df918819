//! A handle as C has it: the owner of a member, which C never copies, and the budget of its calls.
ghost use Rattle.std.specs.Prelude.{Option};
ghost use Rattle.vbr_set.specs.calls.Members.{MemberView as Member};
ghost use Rattle.vbr_handles.specs.MemberRows.{map_member_coded, map_row, member_coded, set_row};
ghost use Rattle.vbr_handles.specs.Owners.{owner_owns};

use std::alloc::Global;
use std::marker::Model;

/// An owner (`Owner`) of a member of a set: one pointer, which is null if there is none. What crosses
/// to C has no type parameters, so it is a type of its own.
#[repr(C)]
pub struct SetOwner {
    pub(crate) ptr: *mut u8,
    pub(crate) alloc: Global,
    pub ghost member: { Option Member } by { member_coded },
}

impl Model for SetOwner {
    ghost also_owns = { λ h. owner_owns set_row h.alloc h.ptr h.member };
}

unsafe impl Send for SetOwner {}

/// An owner (`Owner`) of a member of a map.
#[repr(C)]
pub struct MapOwner {
    pub(crate) ptr: *mut u8,
    pub(crate) alloc: Global,
    pub ghost member: { Option Member } by { map_member_coded },
}

impl Model for MapOwner {
    ghost also_owns = { λ h. owner_owns map_row h.alloc h.ptr h.member };
}

unsafe impl Send for MapOwner {}

/// A handle to a set.
#[repr(C)]
pub struct Handle {
    /// The owner of its member.
    pub owned: SetOwner,
    /// The budget of calls that are given none, or 0 for the ample one. It belongs to the caller: no
    /// call here reads or writes it.
    pub steps: u32,
    /// The mark that a process has a call under way. It belongs to the caller as well.
    pub in_call: u32,
    /// Which opening it is of: 0 before the first, and another number after each opening and each
    /// renewal ([`crate::openings`]). A close and a drop leave it.
    pub opening: u32,
}

/// A handle to a map.
#[repr(C)]
pub struct MapHandle {
    /// The owner of its member.
    pub owned: MapOwner,
    /// The budget of calls that are given none, as in a [`Handle`].
    pub steps: u32,
    /// The mark that a process has a call under way, as in a [`Handle`].
    pub in_call: u32,
    /// Which opening it is of, as in a [`Handle`].
    pub opening: u32,
}
