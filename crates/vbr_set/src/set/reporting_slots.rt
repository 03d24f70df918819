//! Reporting what is in a set or a map that stays open, and in which slots.
ghost use Rattle.std.specs.Prelude.{◌≡◌, ◌≤◌, length, IfOk};
ghost use Rattle.vbr_slots.specs.runs.Closing.{AllOf};
ghost use Rattle.vbr_set.specs.reports.EntrySlots.{ClosesWithSlots, TellsEndWithSlots};

use crate::contents::Contents;
use crate::entry_slots::contents_with_slots;
use crate::kind::Kind;
use crate::report_with_slots::ReportWithSlots;
use crate::set::VbrSet;
use std::alloc::{AllocError, Global};
use vbr_slots::Pass;

impl<N: Kind> VbrSet<N> {
    /// Reports what is in the set or the map, as [`VbrSet::report`] does, with the slot of each key or
    /// entry: slot number i belongs to item number i of the report. It is for a program that keeps a
    /// record beside each slot, and carries the records over when it opens a set or a map with what is
    /// listed: there key number i stands in slot i ([`keys_open_in_slots_of_their_numbers`]).
    ///
    /// While it runs it takes 20 bytes for each slot more than [`VbrSet::report`], 4 of them for the
    /// slots that it returns. It also goes over the slots once more and sorts them. It fails as that
    /// does, and then has changed nothing.
    ///
    /// [`keys_open_in_slots_of_their_numbers`]: vbr_machine::record_laws::keys_open_in_slots_of_their_numbers
    pub fn report_with_slots(
        &self,
        alloc: Global,
        passes: &mut Vec<Pass>,
    ) -> Result<ReportWithSlots<N::Report>, AllocError>
        requires of_set { AllOf self.now passes.old.items }
        requires all { self.now.passes ≤ length passes.old.items }
        ensures same { passes.new.items ≡ passes.old.items }
        ensures report { IfOk result (ClosesWithSlots N.kind self.now passes.old.items) }
    {
        self.slots.kind();
        let (told, slots) = self.look_with_slots(alloc, passes)?;
        let report = N::report(told);
        Ok(ReportWithSlots { report, slots })
    }

    // Reports what its words say, with the slots; it stays open, as with [`VbrSet::report_with_slots`].
    fn look_with_slots(
        &self,
        alloc: Global,
        passes: &mut Vec<Pass>,
    ) -> Result<(Contents<N::Item>, Vec<u32>), AllocError>
        requires of_set { AllOf self.now passes.old.items }
        requires all { self.now.passes ≤ length passes.old.items }
        ensures same { passes.new.items ≡ passes.old.items }
        ensures told { IfOk result
            (λ r. TellsEndWithSlots N.shown self.now passes.old.items r.0 r.1.items) }
    {
        let shape = self.slots.shape();
        let count = shape.slots() as usize;
        let listed = Vec::with_capacity(alloc, count)?;
        let keyed = Vec::with_capacity(alloc, count)?;
        let slots = Vec::with_capacity(alloc, count)?;
        let notes = vec![in alloc; false; count]?;
        let words = self.slots.snapshot(alloc, passes)?;
        Ok(contents_with_slots::<N>(&shape, &words, notes, listed, keyed, slots))
    }
}
