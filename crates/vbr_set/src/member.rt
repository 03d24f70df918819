//! A member of a set, or of a map.
pub mod batches;
pub mod calls;
pub mod closing;
pub mod closing_all;
mod common;
pub mod counting;
pub mod giving_slots_back;
pub mod iterating;
mod mailbox;
pub mod map_calls;
pub mod meeting;
pub mod opening;
pub mod records;
pub mod renewing_all;
pub mod renewing_slots;
pub mod reporting_slots;
pub mod reserving;
mod share;
mod sharing;
mod stake;
pub mod tokens;

ghost use Rattle.std.specs.Prelude.{◌≡◌};
ghost use Rattle.vbr_set.specs.members.Sharing.{IsStake, member_with};

use crate::member::closing::leave;
use crate::member::share::Share;
use crate::member::stake::Stake;
use std::marker::Model;
use vbr_at_table::Aside;
use vbr_slots::Pass;
use vbr_words::{Keys, Nodes};

/// One of the passes of a set, with a share of the set: all that a thread needs to make calls.
///
/// Its calls ask nothing of their caller. It may go from thread to thread; one thread at a time has it.
/// [`Member::open`] makes the members of a set, and [`Member::close`] takes them back, or
/// [`Member::close_all`] all at once. A dropped member gives its pass back, as a close does, and the
/// memory of a set is freed with its last member.
///
/// A member may hold one slot between its calls ([`Member::hold`]), for a program that keeps a record of its
/// own beside each slot. A close and a drop let it go.
///
/// A member has lines of the cache of its own, so that no two threads write to one line.
#[repr(C)]
pub struct Member<N: Nodes = Keys> {
    pub(crate) before: [u64; 16],
    pub(crate) share: Share<N>,
    pub(crate) pass: Pass,
    pub(crate) balance: i64,
    pub(crate) aside: Option<Aside>,
    pub(crate) after: [u64; 16],
}

impl<N: Nodes> Model for Member<N> {
    ghost use Rattle.vbr_set.specs.calls.Members.{MemberView};

    ghost Value = { MemberView };

    ghost use Rattle.vbr_set.specs.members.MemberView.{member_view, IsMember};

    ghost view = { member_view };

    ghost invariant = { IsMember };
}

impl<N: Nodes> Member<N> {
    // Its share of the set, its balance and its pass.
    pub(crate) fn into_parts(self) -> (Stake<N>, Pass)
        ensures is { member_with result.0 result.1 ≡ self }
        ensures stake { IsStake result.0 result.1 }
    {
        let Member {
            before: _,
            share,
            pass,
            balance,
            aside,
            after: _,
        } = self;
        let stake = Stake {
            share,
            balance,
            aside,
        };
        (stake, pass)
    }
}

/// A dropped member gives its slots and its pass back as [`Member::close`] does, but gets nothing. So
/// the last one that is closed still gets a report. It needs no memory.
impl<N: Nodes> Drop for Member<N> {
    fn drop(self) {
        let mut member = self;
        member.let_go();
        let (stake, mut pass) = member.into_parts();
        if let Share::Among(common, seat) = stake.share {
            common.set.give_slots_back(&mut pass);
            drop(leave(common, seat, pass));
        }
    }
}
