//! The owner of a member of any type, lent by the owner in a handle.
ghost use Rattle.std.specs.Prelude.{◌≡◌};
ghost use types.Logic.{sem};
ghost use Rattle.vbr_handles.specs.Handles.{map_owner_follows, owner_of_map, owner_of_set, set_owner_follows};

use crate::handle::{MapOwner, SetOwner};
use crate::owner::Owner;
use vbr_set::{MapMember, Member};

impl SetOwner {
    /// The same owner, of a member of any type.
    #[inline]
    pub fn owner_mut(&mut self) -> &mut Owner<Member>
        ensures* writes_back { sem 𝓛 (set_owner_follows self.entry result) }
        ensures value { result.now ≡ owner_of_set self.old }
    {
        unsafe { &mut *(self as *mut SetOwner as *mut Owner<Member>) }
    }
}

impl MapOwner {
    /// The same owner, of a member of any type.
    #[inline]
    pub fn owner_mut(&mut self) -> &mut Owner<MapMember>
        ensures* writes_back { sem 𝓛 (map_owner_follows self.entry result) }
        ensures value { result.now ≡ owner_of_map self.old }
    {
        unsafe { &mut *(self as *mut MapOwner as *mut Owner<MapMember>) }
    }
}
