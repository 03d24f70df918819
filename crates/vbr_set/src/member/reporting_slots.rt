//! The slots of what is in a set or a map, by all its members at once.
ghost use Rattle.std.specs.Prelude.{◌≡◌, ◌↔◌, IfErr, IfOk, OnOk};
ghost use Rattle.vbr_set.specs.members.AllMembers.{AreOfOneSet, AreTooFew, HasBack, LacksMembers, ReportsAllBy};
ghost use Rattle.vbr_set.specs.members.Apart.{AreParts, members_of};
ghost use Rattle.vbr_set.specs.reports.EntrySlots.{ClosesWithSlots};

use crate::close_all_error::CloseAllError;
use crate::kind::Kind;
use crate::member::Member;
use crate::member::closing_all::{are_too_few, put_together, report_by_parts, take_apart};
use crate::member::stake::Stake;
use crate::report_with_slots::ReportWithSlots;
use std::alloc::{AllocError, Global};
use vbr_slots::Pass;

impl<N: Kind> Member<N> {
    /// Reports what is in a set or a map by all its members, as [`Member::report_all`] does, with the
    /// slot of each key or entry: slot number i belongs to item number i of the report. The members
    /// come back as they were.
    ///
    /// It takes the memory of [`Member::report_all`], and while it runs 20 bytes more for each slot, 4
    /// of them for the slots that it returns. Errors are as for [`Member::report_all`].
    pub fn report_all_with_slots(
        alloc: Global,
        members: Vec<Member<N>>,
    ) -> Result<(ReportWithSlots<N::Report>, Vec<Member<N>>), CloseAllError<Member<N>>>
        requires { AreOfOneSet members.items }
        ensures report { IfOk result
            (λ told. ReportsAllBy (ClosesWithSlots N.kind) members.items told.0) }
        ensures same { IfOk result (λ told. told.1.items ≡ members.items) }
        ensures back { IfErr result (HasBack members.items) }
        ensures missing { IfErr result (λ error. LacksMembers error ↔ AreTooFew members.items) }
        ensures enough { OnOk result (¬ (AreTooFew members.items)) }
    {
        report_by_parts!(alloc, members, report_apart_with_slots)
    }
}

// Reports what is in the set of these parts, and in which slots.
fn report_apart_with_slots<N: Kind>(
    alloc: Global,
    stakes: &[Stake<N>],
    passes: &mut Vec<Pass>,
) -> Result<ReportWithSlots<N::Report>, AllocError>
    requires parts { AreParts stakes.now passes.old.items }
    requires one_set { AreOfOneSet (members_of stakes.now passes.old.items) }
    requires enough { ¬ (AreTooFew (members_of stakes.now passes.old.items)) }
    ensures same { passes.new.items ≡ passes.old.items }
    ensures report { IfOk result
        (ReportsAllBy (ClosesWithSlots N.kind) (members_of stakes.now passes.old.items)) }
{
    let Some(first) = stakes.first() else {
        unreachable!()
    };
    first.share.set().report_with_slots(alloc, passes)
}
