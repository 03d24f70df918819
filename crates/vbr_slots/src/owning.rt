//! The steps that take a slot out of the shared pool, put it back, and read and store its stamp, counted.
ghost use Rattle.std.specs.Prelude.{◌≡◌, ℕ, ◌<◌, OnOk, IfErr, IsSome};
ghost use Rattle.vbr_machine.specs.Acceptance.{IsReread, MayBear};
ghost use Rattle.vbr_machine.specs.declared.event.Step.TheVariants.{LoadStamp, StoreStamp, Raise};
ghost use Rattle.vbr_slots.specs.steps.OwnSlots.{IsKnownStamp, MissesFlag, TakesFlag, epoch_of, holding_of};
ghost use Rattle.vbr_slots.specs.pools.Pools.{hand_without, without};
ghost use Rattle.vbr_slots.specs.views.Views.{IsOf, Did, KeepsPool};

use crate::pass::{Pass, steps_after};
use crate::slots::Slots;
use vbr_words::Nodes;

impl<N: Nodes> Slots<N> {
    /// As [`crate::AtTable::load_stamp`], counted.
    #[inline]
    pub fn load_stamp(&self, pass: &mut Pass, slot: u32) -> u64
        requires own { IsOf pass.old.trace self.now }
        requires slot { slot < self.now.start.shape.slots }
        requires owned { IsSome (holding_of pass.old slot) }
        ensures step { Did (LoadStamp slot) pass.old.trace pass.new.trace result }
        ensures known { IsKnownStamp (holding_of pass.old slot) result }
        ensures pool { KeepsPool pass.old pass.new }
    {
        pass.steps = steps_after(pass.steps, 1);
        self.at(&mut pass.stepper).load_stamp(slot)
    }

    /// As [`crate::AtTable::store_stamp`], counted.
    #[inline]
    pub fn store_stamp(&self, pass: &mut Pass, slot: u32)
        requires own { IsOf pass.old.trace self.now }
        requires slot { slot < self.now.start.shape.slots }
        requires reread { IsReread (holding_of pass.old slot) }
        ensures step { let epoch = epoch_of pass.old in
            Did (StoreStamp slot epoch) pass.old.trace pass.new.trace epoch }
        ensures pool { KeepsPool pass.old pass.new }
    {
        pass.steps = steps_after(pass.steps, 1);
        self.at(&mut pass.stepper).store_stamp(slot);
    }

    /// As [`crate::AtTable::raise`], counted.
    #[inline]
    pub fn raise(&self, pass: &mut Pass, slot: u32)
        requires own { IsOf pass.old.trace self.now }
        requires slot { slot < self.now.start.shape.slots }
        requires may_bear { MayBear (holding_of pass.old slot) }
        ensures step { (found : ℕ) × Did (Raise slot) pass.old.trace pass.new.trace found }
        ensures pool { pass.new.pool ≡ without slot pass.old.pool }
        ensures hand { pass.new.hand ≡ hand_without slot pass.old.hand }
    {
        pass.steps = steps_after(pass.steps, 1);
        self.at(&mut pass.stepper).raise(slot);
    }

    /// As [`crate::AtTable::take_flag`], counted.
    #[inline]
    pub fn take_flag(&self, pass: &mut Pass, slot: u32) -> Result<(), u64>
        requires own { IsOf pass.old.trace self.now }
        requires slot { slot < self.now.start.shape.slots }
        ensures taken { OnOk result (TakesFlag slot pass.old pass.new) }
        ensures missed { IfErr result (MissesFlag slot pass.old pass.new) }
    {
        pass.steps = steps_after(pass.steps, 1);
        self.at(&mut pass.stepper).take_flag(slot)
    }
}
