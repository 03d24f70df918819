//! Renewing a set or a map by all its members.
ghost use Rattle.std.specs.Prelude.{◌≡◌, None, length, IfErr, IfOk, IfSome, OnOk};
ghost use Rattle.vbr_set.specs.members.AllMembers.{AreOfOneSet};
ghost use Rattle.vbr_set.specs.members.BalanceSums.{added_balances};
ghost use Rattle.vbr_set.specs.renewals.RenewingAll.{AreNotAll, IsWhyUnrenewed, RenewsAllBy};

use crate::close_all_error::CloseAllError;
use crate::kind::Kind;
use crate::member::Member;
use crate::renew_all_error::RenewAllError;
use std::alloc::Global;
use vbr_words::{Nodes, Shape};

impl<N: Kind> Member<N> {
    /// Moves all members of a set or a map, given in any order, to a fresh one of this shape with the
    /// keys or the entries that were in it. Returns as many fresh members, which have seen nothing, in
    /// the order of their numbers. The epoch is 1 again, and the first member's balance is the number
    /// of keys. It is for a set or a map whose epoch nears its last one, or which has become too small.
    ///
    /// It makes no call on the set, and finds what is in it as [`Member::report_all`] does. The fresh
    /// set is opened while the old one is there, so it takes the memory of a report and of
    /// [`Member::open_many`]; then the memory of the old set is freed.
    ///
    /// # Errors
    ///
    /// Tested in this order; the members come back as they were.
    ///
    /// - Missing: there are not as many members as were opened with the set.
    /// - Room: there are more keys than slots of this shape. The keys are counted by the report or, if
    ///   there is no memory for one, by the sum of the members' balances.
    /// - Memory: there are no more keys than slots, and no memory for the report or for the fresh set.
    ///
    /// # Example
    ///
    /// ```rattle file=crates/vbr_set_tests/src/balances.rt
    /// match Member::renew_all(alloc, members, shape) {
    /// ```
    pub fn renew_all(
        alloc: Global,
        members: Vec<Member<N>>,
        shape: Shape,
    ) -> Result<Vec<Member<N>>, RenewAllError<Member<N>>>
        requires { AreOfOneSet members.items }
        ensures renewed { IfOk result
            (λ fresh. RenewsAllBy N.kind members.items shape fresh.items) }
        ensures all { OnOk result (¬ (AreNotAll members.items)) }
        ensures not { IfErr result (IsWhyUnrenewed N.kind members.items shape) }
    {
        let Some(passes) = count_if_all(&members) else {
            return Err(RenewAllError::Missing(members));
        };
        let (report, members) = match Member::<N>::report_all(alloc, members) {
            Ok(told) => told,
            Err(CloseAllError::Missing(members)) => return Err(RenewAllError::Missing(members)),
            Err(CloseAllError::Memory(members)) => return Err(without_report(members, shape)),
        };
        let items = N::items(&report);
        if items.len() > shape.slots() as usize {
            return Err(RenewAllError::Room(members));
        }
        match Member::<N>::open_many(alloc, shape, passes, items) {
            Ok(fresh) => Ok(fresh),
            Err(_) => Err(RenewAllError::Memory(members)),
        }
    }
}

// The error if there is no memory for a report: the balances then decide whether there is room.
pub(crate) fn without_report<N: Kind>(
    members: Vec<Member<N>>,
    shape: Shape,
) -> RenewAllError<Member<N>>
    requires { ¬ (AreNotAll members.items) }
    ensures { IsWhyUnrenewed N.kind members.items shape result }
{
    if added_balances(&members) > i64::from(shape.slots()) {
        RenewAllError::Room(members)
    } else {
        RenewAllError::Memory(members)
    }
}

// The balances of members, added up.
fn added_balances<N: Nodes>(members: &[Member<N>]) -> i64
    ensures { result ≡ added_balances members.now }
{
    let mut sum = 0i64;
    for i in (0..members.len()).rev() {
        sum = sum.wrapping_add(members[i].balance());
    }
    sum
}

// The number of members, if they are as many as were opened with their set.
pub(crate) fn count_if_all<N: Nodes>(members: &[Member<N>]) -> Option<u32>
    ensures all { IfSome result (λ count. (count ≡ length members.now)
        × ¬ (AreNotAll members.now)) }
    ensures missing { result ≡ None → AreNotAll members.now }
{
    let count = members.first()?.share.set().count;
    if members.len() == count as usize {
        Some(count)
    } else {
        None
    }
}
