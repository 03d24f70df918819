//! A member that is lent out of its owner.
ghost use Rattle.std.specs.Prelude.{◌≡◌, true, false, None, Some, IsSome};
ghost use types.Logic.{sem};
ghost use Rattle.vbr_handles.specs.Lent.{owner_follows};
ghost use Rattle.vbr_handles.specs.EachOnce.{number_shown};
ghost use Rattle.vbr_handles.specs.Passes.{IsPassCount};
ghost use Rattle.vbr_handles.specs.Shown.{balance_shown};

use crate::owner::Owner;
use vbr_set::member::Member;
use vbr_words::Nodes;

/// Lets the function in which it stands return this, if the owner owns no member.
macro_rules! return_if_empty {
    ($owner:expr, $none:expr) => {
        if $owner.is_empty() {
            return $none;
        }
    };
}

pub(crate) use return_if_empty;

impl<M> Owner<M> {
    /// Whether it owns no member.
    pub fn is_empty(&mut self) -> bool
        ensures { (result ≡ false → IsSome self.old.member)
            × (result ≡ true → self.old.member ≡ None) × (self.new ≡ self.old) }
    {
        self.ptr.is_null()
    }

    /// The member, which stays where it is.
    pub fn member_mut(&mut self) -> &mut M
        requires { IsSome self.old.member }
        ensures* writes_back { sem 𝓛 (owner_follows M.row self.entry result) }
        ensures value { self.old.member ≡ Some result.now }
    {
        unsafe { &mut *self.ptr }
    }
}

impl<N: Nodes> Owner<Member<N>> {
    /// The number of passes that the set of its member was opened with ([`Member::passes`]).
    pub fn passes(&mut self) -> u32
        requires { IsSome self.old.member }
        ensures { IsPassCount self.old.member result × (self.new ≡ self.old) }
    {
        self.member_mut().passes()
    }

    /// The number of the pass of its member (`Pass::who`).
    pub fn number(&mut self) -> u32
        requires { IsSome self.old.member }
        ensures { (result ≡ number_shown self.old.member) × (self.new ≡ self.old) }
    {
        self.member_mut().pass().who()
    }

    /// The balance of its member ([`Member::balance`]).
    pub fn balance(&mut self) -> i64
        requires { IsSome self.old.member }
        ensures { (result ≡ balance_shown self.old.member) × (self.new ≡ self.old) }
    {
        self.member_mut().balance()
    }

    /// Whether the members of two owners have their shares of one set in memory ([`Member::is_beside`]).
    pub fn is_beside(&mut self, other: &mut Owner<Member<N>>) -> bool
        requires one { IsSome self.old.member }
        requires other { IsSome other.old.member }
        ensures { (self.new ≡ self.old) × (other.new ≡ other.old) }
    {
        self.member_mut().is_beside(other.member_mut())
    }
}
