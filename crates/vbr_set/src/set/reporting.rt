//! Reporting what is in a set or a map that stays open.
ghost use Rattle.std.specs.Prelude.{◌≡◌, ◌≤◌, length, IfOk};
ghost use Rattle.vbr_slots.specs.runs.Closing.{AllOf};
ghost use Rattle.vbr_set.specs.reports.Closing.{ClosesBy};
ghost use Rattle.vbr_set.specs.reports.Contents.{TellsEnd};

use crate::contents::{Contents, contents_of};
use crate::kind::Kind;
use crate::set::VbrSet;
use std::alloc::{AllocError, Global};
use vbr_slots::Pass;

impl<N: Kind> VbrSet<N> {
    /// Reports what is in the set or the map, as [`VbrSet::close`] does, but it stays open. The report
    /// has the keys, or the entries, that the calls of all passes leave of what it opened with. These
    /// calls form one legal history, which begins with what each pass has seen and has exactly the
    /// calls that each has made. The passes stay as they were in any case: it makes no step.
    ///
    /// It has all passes, so no other call runs. It goes once over the words, once over the buckets and
    /// once over the slots, and twice over the passes. It takes 9 bytes for each slot of a set and 17
    /// of a map, 8 for each word and 616 for each pass, all of it before it looks at any. It fails only
    /// if there is no memory for these.
    ///
    /// # Example
    ///
    /// ```rattle file=crates/vbr_set_tests/src/refusals/set.rt
    /// match set.report(alloc, passes) {
    ///     Ok(report) => Some((report, false)),
    /// ```
    pub fn report(&self, alloc: Global, passes: &mut Vec<Pass>) -> Result<N::Report, AllocError>
        requires of_set { AllOf self.now passes.old.items }
        requires all { self.now.passes ≤ length passes.old.items }
        ensures same { passes.new.items ≡ passes.old.items }
        ensures report { IfOk result (ClosesBy N.kind self.now passes.old.items) }
    {
        self.slots.kind();
        let told = self.look(alloc, passes)?;
        Ok(N::report(told))
    }

    // Reports what its words say; it stays open, as with [`VbrSet::report`].
    fn look(&self, alloc: Global, passes: &mut Vec<Pass>) -> Result<Contents<N::Item>, AllocError>
        requires of_set { AllOf self.now passes.old.items }
        requires all { self.now.passes ≤ length passes.old.items }
        ensures same { passes.new.items ≡ passes.old.items }
        ensures told { IfOk result (TellsEnd N.shown self.now passes.old.items) }
    {
        let shape = self.slots.shape();
        let listed = Vec::with_capacity(alloc, shape.slots() as usize)?;
        let notes = vec![in alloc; false; shape.slots() as usize]?;
        let words = self.slots.snapshot(alloc, passes)?;
        Ok(contents_of::<N>(&shape, &words, notes, listed))
    }
}
