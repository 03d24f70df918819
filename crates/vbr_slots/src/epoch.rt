//! The steps on the epoch, counted.
ghost use Rattle.std.specs.Prelude.{ℕ, ◌<◌, ◌≤◌, MatchBool};
ghost use Rattle.vbr_machine.specs.declared.event.Step.TheVariants.{ReadEpoch, Advance};
ghost use Rattle.vbr_slots.specs.steps.Expected.{Finds, FindsOther};
ghost use Rattle.vbr_slots.specs.views.Views.{IsOf, Did, KeepsPool};

use crate::pass::{Pass, steps_after};
use crate::slots::Slots;
use vbr_words::Nodes;

impl<N: Nodes> Slots<N> {
    /// As [`crate::AtTable::read_epoch`], counted.
    #[inline]
    pub fn read_epoch(&self, pass: &mut Pass) -> u64
        requires own { IsOf pass.old.trace self.now }
        ensures step { Did ReadEpoch pass.old.trace pass.new.trace result }
        ensures pool { KeepsPool pass.old pass.new }
    {
        pass.steps = steps_after(pass.steps, 1);
        self.at(&mut pass.stepper).read_epoch()
    }

    /// As [`crate::AtTable::advance`], counted.
    #[inline]
    pub fn advance(&self, pass: &mut Pass, from: u64) -> bool
        requires own { IsOf pass.old.trace self.now }
        requires some { 1 ≤ from }
        requires below_last { from < self.now.start.shape.last_epoch }
        ensures { MatchBool result
            (Finds (Advance from) pass.old pass.new from)
            ((found : ℕ) × FindsOther (Advance from) pass.old pass.new from found) }
    {
        pass.steps = steps_after(pass.steps, 1);
        self.at(&mut pass.stepper).advance(from)
    }
}
