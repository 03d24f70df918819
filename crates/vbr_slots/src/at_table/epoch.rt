//! The steps on the epoch.
ghost use Rattle.std.specs.Prelude.{ℕ, ◌<◌, ◌≤◌, MatchBool};
ghost use Rattle.vbr_machine.specs.declared.event.Step.TheVariants.{ReadEpoch, Advance};
ghost use Rattle.vbr_slots.specs.steps.AtTables.{IsSameTable, pass_of, trace_of};
ghost use Rattle.vbr_slots.specs.steps.Expected.{Finds, FindsOther};
ghost use Rattle.vbr_slots.specs.views.Views.{Did, KeepsPool};

use crate::at_table::AtTable;
use std::marker::Brand;
use vbr_machine::Step;
use vbr_words::{Nodes, Place};

impl<N: Nodes> AtTable<'_, N> {
    /// Reads the epoch, in one step. If it is the one that the pass read last, its pending reads
    /// are checked; if it has moved, the pass knows of no reads any more.
    #[inline]
    pub fn read_epoch(&mut self) -> u64
        ensures table { IsSameTable self.old self.new }
        ensures step { Did ReadEpoch (trace_of self.old) (trace_of self.new) result }
        ensures pool { KeepsPool (pass_of self.old) (pass_of self.new) }
    {
        let (slots, stepper) = (self.slots, &mut *self.stepper);
        slots.load::<Brand>(stepper, Step::ReadEpoch, Place::Epoch)
    }

    /// Advances the epoch by 1, if it is `from`, in one step, and says whether it was.
    #[inline]
    pub fn advance(&mut self, from: u64) -> bool
        requires some { 1 ≤ from }
        requires below_last { from < self.old.slots.now.start.shape.last_epoch }
        ensures table { IsSameTable self.old self.new }
        ensures step { MatchBool result
            (Finds (Advance from) (pass_of self.old) (pass_of self.new) from)
            ((found : ℕ)
            × FindsOther (Advance from) (pass_of self.old) (pass_of self.new) from found) }
    {
        let (slots, stepper) = (self.slots, &mut *self.stepper);
        let step = Step::Advance { from };
        slots.exchange::<Brand>(&mut stepper.runner, step, Place::Epoch, from, from + 1) == from
    }
}
