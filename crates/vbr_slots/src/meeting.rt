//! The meeting of two passes.
ghost use Rattle.std.specs.Prelude.{◌≡◌, ℕ};
ghost use Rattle.vbr_machine.specs.Runs.{BeginsFor};
ghost use Rattle.vbr_machine.specs.declared.event.Step.TheVariants.{ReadEpoch};
ghost use Rattle.vbr_slots.specs.views.Views.{IsOf, Did, KeepsPool};

use crate::pass::{Pass, steps_after};
use crate::slots::Slots;
use std::marker::Brand;
use vbr_words::Nodes;

impl<N: Nodes> Slots<N> {
    /// Lets the pass see all that the other has seen. It is one read of the epoch, counted for the
    /// pass; the other stays as it was. What the other has seen then begins what the pass has seen,
    /// which has no other event of it.
    #[inline]
    pub fn meet(&self, pass: &mut Pass, other: &mut Pass)
        requires own { IsOf pass.old.trace self.now }
        requires other { IsOf other.old.trace self.now }
        ensures step { (epoch : ℕ) × Did ReadEpoch pass.old.trace pass.new.trace epoch }
        ensures pool { KeepsPool pass.old pass.new }
        ensures same { other.new ≡ other.old }
        ensures met { BeginsFor other.old.trace.who other.old.trace.seen pass.new.trace.seen }
    {
        pass.steps = steps_after(pass.steps, 1);
        self.meet_as::<Brand>(&mut pass.stepper.runner, &mut other.stepper.runner);
    }
}
