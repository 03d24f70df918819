//! Renewing a set or a map.
ghost use Rattle.std.specs.Prelude.{◌≡◌, ◌<◌, ◌≤◌, ◌↔◌, length, IfOk, IfErr, OnOk};
ghost use Rattle.vbr_slots.specs.runs.Closing.{AllOf};
ghost use Rattle.vbr_slots.specs.views.Views.{new_passes};
ghost use Rattle.vbr_set.specs.renewals.Renewing.{IsUnrenewedBy, LacksPasses, RenewsBy};

use crate::kind::Kind;
use crate::renew_error::RenewError;
use crate::set::VbrSet;
use std::alloc::Global;
use vbr_slots::{CloseError, OpenManyError, Pass};

impl<N: Kind> VbrSet<N> {
    /// Ends the set or the map and opens a fresh one of the same shape, with the keys, or the entries,
    /// that were in it and with as many passes. The epoch is 1 again, each slot without a key is in the
    /// shared pool, and the passes have made no step. It is for a set or a map whose epoch nears its
    /// last one: once that is spent, inserts are refused with [`Refusal::EpochSpent`].
    ///
    /// It takes the time and the memory of [`VbrSet::close`], and then of [`VbrSet::open_with`] while
    /// the report is kept. It has all passes, so no other call runs, and it has no budget.
    ///
    /// # Errors
    ///
    /// - Missing: fewer passes came than were opened. It is tested first, and the set and the passes
    ///   come back, unchanged.
    /// - Memory: there is no room to close the set. The set and the passes come back, unchanged.
    /// - Closed: the set is closed, and there is no room for the fresh one. The report of the close
    ///   comes back, and [`VbrSet::open_with`] with what it lists goes on from there.
    ///
    /// # Example
    ///
    /// ```rattle file=crates/vbr_set_tests/src/renewals.rt
    /// match set.renew(alloc, passes) {
    /// ```
    ///
    /// [`Refusal::EpochSpent`]: crate::Refusal::EpochSpent
    pub fn renew(
        self,
        alloc: Global,
        passes: Vec<Pass>,
    ) -> Result<(VbrSet<N>, Vec<Pass>), RenewError<VbrSet<N>, N::Report>>
        requires { AllOf self passes.items }
        ensures renewed { IfOk result (λ r. RenewsBy N.kind self passes.items r.0) }
        ensures passes { IfOk result (λ r. r.1.items ≡ new_passes r.0 0 self.passes) }
        ensures all { OnOk result (self.passes ≤ length passes.items) }
        ensures unrenewed { IfErr result (λ e. IsUnrenewedBy N.kind e self passes.items) }
        ensures missing { IfErr result (λ e. LacksPasses e ↔ (length passes.items < self.passes)) }
    {
        let shape = self.slots.shape();
        let count = self.slots.passes();
        let report = match self.close(alloc, passes) {
            Ok(report) => report,
            Err(CloseError::Missing(set, passes)) => {
                return Err(RenewError::Missing(set, passes));
            }
            Err(CloseError::Memory(set, passes)) => {
                return Err(RenewError::Memory(set, passes));
            }
        };
        match VbrSet::<N>::open_many(alloc, shape, count, N::items(&report)) {
            Ok(opened) => Ok(opened),
            Err(OpenManyError::Memory) => Err(RenewError::Closed(report)),
            Err(OpenManyError::Passes) => unreachable!(),
        }
    }
}
