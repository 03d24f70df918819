//! All members of a set or of a map at once.
ghost use Rattle.std.specs.Prelude.{◌≡◌, ◌≤◌, ◌↔◌, [], true, false, length, IfErr, IfOk, OnOk};
ghost use Rattle.std.specs.Vec.{vec_capacity};
ghost use Rattle.vbr_set.specs.members.AllMembers.{AreOfOneSet, AreTooFew, HasBack, LacksMembers, ReportsAllBy};
ghost use Rattle.vbr_set.specs.members.Apart.{AreParts, members_of};
ghost use Rattle.vbr_set.specs.reports.Closing.{ClosesBy};

use crate::close_all_error::CloseAllError;
use crate::kind::Kind;
use crate::member::Member;
use crate::member::share::Share;
use crate::member::stake::Stake;
use std::alloc::{AllocError, Global};
use std::sync::Arc;
use vbr_slots::Pass;
use vbr_words::Nodes;

// What members report by a function of their parts: they are taken apart for it, and put together again.
macro_rules! report_by_parts {
    ($alloc:expr, $members:expr, $report_apart:ident) => {{
        let members = $members;
        if are_too_few(&members) {
            return Err(CloseAllError::Missing(members));
        }
        let count = members.len();
        let Ok(mut stakes) = Vec::with_capacity($alloc, count) else {
            return Err(CloseAllError::Memory(members));
        };
        let Ok(mut passes) = Vec::with_capacity($alloc, count) else {
            return Err(CloseAllError::Memory(members));
        };
        let Ok(back) = Vec::with_capacity($alloc, count) else {
            return Err(CloseAllError::Memory(members));
        };
        take_apart(members, &mut stakes, &mut passes);
        let told = $report_apart($alloc, &stakes, &mut passes);
        let members = put_together(stakes, passes, back);
        match told {
            Ok(report) => Ok((report, members)),
            Err(_) => Err(CloseAllError::Memory(members)),
        }
    }};
}

pub(crate) use report_by_parts;

impl<N: Kind> Member<N> {
    /// Ends a set or a map by all its members at once, in any order, and reports what is in it: the
    /// keys, or the entries, that all their calls leave of what it opened with. These calls form one
    /// legal history, which begins with what each member has seen and has exactly the calls that each
    /// has made.
    ///
    /// It makes no call on the set. It takes 9 bytes for each slot of a set and 17 of a map, and the
    /// words once more while it runs. A member that was given back by [`Member::close`] is missing, so
    /// the others must be closed in that way too.
    ///
    /// # Errors
    ///
    /// Tested in this order; the members come back as they were.
    ///
    /// - Missing: there are fewer members than were opened with the set, or none.
    /// - Memory: there is no room for the report.
    ///
    /// # Example
    ///
    /// ```rattle file=crates/vbr_set_tests/src/reports.rt
    /// let report = Member::close_all(alloc, members)?;
    /// ```
    pub fn close_all(
        alloc: Global,
        members: Vec<Member<N>>,
    ) -> Result<N::Report, CloseAllError<Member<N>>>
        requires { AreOfOneSet members.items }
        ensures report { IfOk result (ReportsAllBy (ClosesBy N.kind) members.items) }
        ensures back { IfErr result (HasBack members.items) }
        ensures missing { IfErr result (λ error. LacksMembers error ↔ AreTooFew members.items) }
        ensures enough { OnOk result (¬ (AreTooFew members.items)) }
    {
        let (report, all) = Member::<N>::report_all(alloc, members)?;
        drop(all);
        Ok(report)
    }

    /// Reports what is in a set or a map by all its members, as [`Member::close_all`] does, but it
    /// stays open: the members come back with the report, as they were, and can make calls.
    ///
    /// Memory and errors are as for [`Member::close_all`].
    pub fn report_all(
        alloc: Global,
        members: Vec<Member<N>>,
    ) -> Result<(N::Report, Vec<Member<N>>), CloseAllError<Member<N>>>
        requires { AreOfOneSet members.items }
        ensures report { IfOk result (λ told. ReportsAllBy (ClosesBy N.kind) members.items told.0) }
        ensures same { IfOk result (λ told. told.1.items ≡ members.items) }
        ensures back { IfErr result (HasBack members.items) }
        ensures missing { IfErr result (λ error. LacksMembers error ↔ AreTooFew members.items) }
        ensures enough { OnOk result (¬ (AreTooFew members.items)) }
    {
        report_by_parts!(alloc, members, report_apart)
    }
}

impl<N: Nodes> Member<N> {
    /// Whether the other member has its share of the same set in memory. It is a probe, for callers
    /// that can't know otherwise: it checks whether one more owner of the one is one more of the other.
    /// No contract says what it returns; if no member of either set comes or goes meanwhile, it is
    /// right. It returns no for a member that is the last of its set.
    pub fn is_beside(&self, other: &Member<N>) -> bool {
        match (&self.share, &other.share) {
            (Share::Among(common, _), Share::Among(theirs, _)) => {
                let before = Arc::strong_count(theirs);
                let one_more = Arc::try_clone(common);
                let with_it = Arc::strong_count(theirs);
                drop(one_more);
                with_it > before
            }
            _ => false,
        }
    }
}

// Whether there are fewer members than were opened with their set, or none.
pub(crate) fn are_too_few<N: Nodes>(members: &[Member<N>]) -> bool
    ensures yes { result ≡ true → AreTooFew members.now }
    ensures no { result ≡ false → ¬ (AreTooFew members.now) }
{
    let Some(first) = members.first() else {
        return true;
    };
    let set = first.share.set();
    members.len() < set.count as usize
}

// Reports what is in the set of these parts.
fn report_apart<N: Kind>(
    alloc: Global,
    stakes: &[Stake<N>],
    passes: &mut Vec<Pass>,
) -> Result<N::Report, AllocError>
    requires parts { AreParts stakes.now passes.old.items }
    requires one_set { AreOfOneSet (members_of stakes.now passes.old.items) }
    requires enough { ¬ (AreTooFew (members_of stakes.now passes.old.items)) }
    ensures same { passes.new.items ≡ passes.old.items }
    ensures report { IfOk result
        (ReportsAllBy (ClosesBy N.kind) (members_of stakes.now passes.old.items)) }
{
    let Some(first) = stakes.first() else {
        unreachable!()
    };
    first.share.set().report(alloc, passes)
}

// Takes members apart, in their order.
pub(crate) fn take_apart<N: Nodes>(
    members: Vec<Member<N>>,
    stakes: &mut Vec<Stake<N>>,
    passes: &mut Vec<Pass>,
)
    requires stakes { (stakes.old.items ≡ []) × (length members.items ≤ vec_capacity stakes.old) }
    requires passes { (passes.old.items ≡ []) × (length members.items ≤ vec_capacity passes.old) }
    ensures parts { AreParts stakes.new.items passes.new.items }
    ensures members { members_of stakes.new.items passes.new.items ≡ members.items }
{
    for member in members {
        let (stake, pass) = member.into_parts();
        let (Ok(()), Ok(())) = (stakes.push(stake), passes.push(pass)) else {
            unreachable!()
        };
    }
}

// Makes the members again, in their order.
pub(crate) fn put_together<N: Nodes>(
    stakes: Vec<Stake<N>>,
    passes: Vec<Pass>,
    mut members: Vec<Member<N>>,
) -> Vec<Member<N>>
    requires members { (members.items ≡ []) × (length passes.items ≤ vec_capacity members) }
    requires parts { AreParts stakes.items passes.items }
    ensures { result.items ≡ members_of stakes.items passes.items }
{
    let mut stakes = stakes.into_iter();
    for pass in passes {
        let Some(stake) = stakes.next() else {
            unreachable!()
        };
        let Ok(()) = members.push(Member::of(stake, pass)) else {
            unreachable!()
        };
    }
    members
}
