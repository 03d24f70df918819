//! Closing a set or a map.
ghost use Rattle.std.specs.Prelude.{◌<◌, ◌≤◌, ◌↔◌, length, IfOk, IfErr, OnOk};
ghost use Rattle.vbr_slots.specs.runs.Closing.{AllOf, HandsBack, IsMissing};
ghost use Rattle.vbr_set.specs.reports.Closing.{ClosesBy};
ghost use Rattle.vbr_set.specs.reports.Contents.{TellsEnd};

use crate::contents::{Contents, contents_of};
use crate::kind::Kind;
use crate::set::VbrSet;
use std::alloc::Global;
use vbr_slots::{CloseError, Pass};

impl<N: Kind> VbrSet<N> {
    /// Ends the set or the map and reports what is in it: the keys, or the entries, that the calls of
    /// all passes leave of what it opened with. These calls form one legal history, which begins with
    /// what each pass has seen and has exactly the calls that each has made.
    ///
    /// It goes once over the buckets and once over the slots. It takes 9 bytes for each slot of a set
    /// and 17 of a map, and the words once more while it runs. It has all passes, so no other call
    /// runs, and it has no budget. The marked nodes that it meets aren't in the set (Michael 2002).
    ///
    /// # Errors
    ///
    /// After either, the set and the passes come back, unchanged.
    ///
    /// - Missing: fewer passes came than were opened. It is tested first.
    /// - Memory: there is no room, for an item and a note for each slot and then for the words. All of it
    ///   is made before anything is changed.
    ///
    /// # Example
    ///
    /// ```rattle file=crates/vbr_set/src/set/renewing.rt
    /// let report = match self.close(alloc, passes) {
    ///     Ok(report) => report,
    /// ```
    pub fn close(self, alloc: Global, passes: Vec<Pass>) -> Result<N::Report, CloseError<VbrSet<N>>>
        requires { AllOf self passes.items }
        ensures ok { IfOk result (ClosesBy N.kind self passes.items) }
        ensures all { OnOk result (self.passes ≤ length passes.items) }
        ensures back { IfErr result (λ e. HandsBack e self passes.items) }
        ensures missing { IfErr result (λ e. IsMissing e ↔ (length passes.items < self.passes)) }
    {
        self.slots.kind();
        let told = self.end(alloc, passes)?;
        Ok(N::report(told))
    }

    // Ends it, and reports what its words say. The errors are as for [`VbrSet::close`].
    fn end(
        self,
        alloc: Global,
        passes: Vec<Pass>,
    ) -> Result<Contents<N::Item>, CloseError<VbrSet<N>>>
        requires { AllOf self passes.items }
        ensures ok { IfOk result (TellsEnd N.shown self passes.items) }
        ensures all { OnOk result (self.passes ≤ length passes.items) }
        ensures back { IfErr result (λ e. HandsBack e self passes.items) }
        ensures missing { IfErr result (λ e. IsMissing e ↔ (length passes.items < self.passes)) }
    {
        if passes.len() < self.count as usize {
            return Err(CloseError::Missing(self, passes));
        }
        let shape = self.slots.shape();
        let Ok(listed) = Vec::with_capacity(alloc, shape.slots() as usize) else {
            return Err(CloseError::Memory(self, passes));
        };
        let Ok(notes) = vec![in alloc; false; shape.slots() as usize] else {
            return Err(CloseError::Memory(self, passes));
        };
        let VbrSet { slots, count } = self;
        match slots.close(alloc, passes) {
            Ok(words) => Ok(contents_of::<N>(&shape, &words, notes, listed)),
            Err(CloseError::Missing(slots, passes)) => {
                Err(CloseError::Missing(VbrSet { slots, count }, passes))
            }
            Err(CloseError::Memory(slots, passes)) => {
                Err(CloseError::Memory(VbrSet { slots, count }, passes))
            }
        }
    }
}
