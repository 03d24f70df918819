//! What a handle does, whether it is one of a set or of a map.
ghost use Rattle.std.specs.Prelude.{◌≡◌, true, false, ℕ, Option, None, IsSome};
ghost use Rattle.vbr_set.specs.calls.Members.{MemberView};
ghost use Rattle.vbr_handles.specs.Passes.{IsPassCount};
ghost use Rattle.vbr_handles.specs.EachOnce.{number_shown};
ghost use Rattle.vbr_handles.specs.Shown.{balance_shown};

use crate::handle::{Handle, MapHandle};
use crate::owner::Owner;
use std::mem::swap;
use vbr_set::member::Member;
use vbr_words::{Entries, Keys, Nodes};

/// A handle to a table whose nodes are of a kind: to a set, or to a map.
pub trait HandleOf<N: Nodes>: Sized {
    ghost member: { Self → Option MemberView };

    ghost steps: { Self → ℕ };

    ghost opening: { Self → ℕ };

    /// Whether it is empty. It stays as it is.
    fn is_empty(&mut self) -> bool
        ensures { (result ≡ false → IsSome (member self.old))
            × (result ≡ true → member self.old ≡ None) × (self.new ≡ self.old) };

    /// The number of passes that the set of its member was opened with. It stays as it is.
    fn passes(&mut self) -> u32
        requires { IsSome (member self.old) }
        ensures { IsPassCount (member self.old) result × (self.new ≡ self.old) };

    /// The number of the pass of its member. It stays as it is.
    fn number(&mut self) -> u32
        requires { IsSome (member self.old) }
        ensures { (result ≡ number_shown (member self.old)) × (self.new ≡ self.old) };

    /// The balance of its member ([`Member::balance`]). It stays as it is.
    fn balance(&mut self) -> i64
        requires { IsSome (member self.old) }
        ensures { (result ≡ balance_shown (member self.old)) × (self.new ≡ self.old) };

    /// Whether its member is beside the other's, by [`Member::is_beside`]. Both stay as they are.
    fn is_beside(&mut self, other: &mut Self) -> bool
        requires one { IsSome (member self.old) }
        requires other { IsSome (member other.old) }
        ensures { (self.new ≡ self.old) × (other.new ≡ other.old) };

    /// Gives its member to an owner, and takes over what this has. Its budget and its opening stay.
    fn swap(&mut self, owner: &mut Owner<Member<N>>)
        ensures given { owner.new.member ≡ member self.old }
        ensures taken { member self.new ≡ owner.old.member }
        ensures steps { steps self.new ≡ steps self.old }
        ensures opening { opening self.new ≡ opening self.old };

    /// The number of its opening. It stays as it is.
    fn opening_number(&mut self) -> u32
        ensures { (result ≡ opening self.old) × (self.new ≡ self.old) };

    /// Gives it the number of an opening. Its member and its budget stay.
    fn set_opening(&mut self, number: u32)
        ensures opening { opening self.new ≡ number }
        ensures member { member self.new ≡ member self.old }
        ensures steps { steps self.new ≡ steps self.old };
}

impl HandleOf<Keys> for Handle {
    ghost member = { λ h. h.owned.member };

    ghost steps = { λ h. h.steps };

    ghost opening = { λ h. h.opening };

    fn is_empty(&mut self) -> bool {
        self.owned.owner_mut().is_empty()
    }

    fn passes(&mut self) -> u32 {
        self.owned.owner_mut().passes()
    }

    fn number(&mut self) -> u32 {
        self.owned.owner_mut().number()
    }

    fn balance(&mut self) -> i64 {
        self.owned.owner_mut().balance()
    }

    fn is_beside(&mut self, other: &mut Handle) -> bool {
        let one = self.owned.owner_mut();
        one.is_beside(other.owned.owner_mut())
    }

    fn swap(&mut self, owner: &mut Owner<Member<Keys>>) {
        swap(self.owned.owner_mut(), owner);
    }

    fn opening_number(&mut self) -> u32 {
        self.opening
    }

    fn set_opening(&mut self, number: u32) {
        self.opening = number;
    }
}

impl HandleOf<Entries> for MapHandle {
    ghost member = { λ h. h.owned.member };

    ghost steps = { λ h. h.steps };

    ghost opening = { λ h. h.opening };

    fn is_empty(&mut self) -> bool {
        self.owned.owner_mut().is_empty()
    }

    fn passes(&mut self) -> u32 {
        self.owned.owner_mut().passes()
    }

    fn number(&mut self) -> u32 {
        self.owned.owner_mut().number()
    }

    fn balance(&mut self) -> i64 {
        self.owned.owner_mut().balance()
    }

    fn is_beside(&mut self, other: &mut MapHandle) -> bool {
        let one = self.owned.owner_mut();
        one.is_beside(other.owned.owner_mut())
    }

    fn swap(&mut self, owner: &mut Owner<Member<Entries>>) {
        swap(self.owned.owner_mut(), owner);
    }

    fn opening_number(&mut self) -> u32 {
        self.opening
    }

    fn set_opening(&mut self, number: u32) {
        self.opening = number;
    }
}
