//! The steps that take a slot out of the shared pool, put it back, and read and store its stamp.
ghost use Rattle.std.specs.Prelude.{◌≡◌, ◌≢◌, ℕ, ◌<◌, Contains, Some, OnOk, IfErr, IsSome};
ghost use Rattle.vbr_machine.specs.Acceptance.{IsFree, IsReread, MayBear};
ghost use Rattle.vbr_machine.specs.declared.event.Step.TheVariants.{LoadStamp, StoreStamp, Raise};
ghost use Rattle.vbr_slots.specs.steps.AtTables.{IsSameTable, pass_of, trace_of};
ghost use Rattle.vbr_slots.specs.steps.OwnSlots.{IsKnownStamp, MissesFlag, TakesFlag, epoch_of, holding_of};
ghost use Rattle.vbr_slots.specs.pools.Pools.{hand_without, without};
ghost use Rattle.vbr_slots.specs.views.Views.{Did, KeepsPool};

use crate::at_table::AtTable;
use std::marker::Brand;
use vbr_machine::Step;
use vbr_words::flags::{all_but, flag_of, has_flag, word_of_flag};
use vbr_words::{Nodes, Place};

impl<N: Nodes> AtTable<'_, N> {
    /// Loads the stamp of a slot that the pass owns, an epoch, in one step.
    #[inline]
    pub fn load_stamp(&mut self, slot: u32) -> u64
        requires slot { slot < self.old.slots.now.start.shape.slots }
        requires owned { IsSome (holding_of (pass_of self.old) slot) }
        ensures table { IsSameTable self.old self.new }
        ensures step { Did (LoadStamp slot) (trace_of self.old) (trace_of self.new) result }
        ensures known { IsKnownStamp (holding_of (pass_of self.old) slot) result }
        ensures pool { KeepsPool (pass_of self.old) (pass_of self.new) }
    {
        self.law();
        let (slots, stepper) = (self.slots, &mut *self.stepper);
        slots.load::<Brand>(stepper, Step::LoadStamp { slot }, Place::Stamp(slot))
    }

    /// Stamps a slot that the pass unlinked, in one step, with the last epoch that it read, which
    /// it read since the unlinking: the slot is retired.
    #[inline]
    pub fn store_stamp(&mut self, slot: u32)
        requires slot { slot < self.old.slots.now.start.shape.slots }
        requires reread { IsReread (holding_of (pass_of self.old) slot) }
        ensures table { IsSameTable self.old self.new }
        ensures step { let epoch = epoch_of (pass_of self.old) in
            Did (StoreStamp slot epoch) (trace_of self.old) (trace_of self.new) epoch }
        ensures pool { KeepsPool (pass_of self.old) (pass_of self.new) }
    {
        let stamp = self.epoch();
        let (slots, stepper) = (self.slots, &mut *self.stepper);
        let step = Step::StoreStamp { slot, stamp };
        slots.store::<Brand>(&mut stepper.runner, step, Place::Stamp(slot), stamp);
    }

    /// Puts a slot of the pass, free or in hand, into the shared pool, and takes it out of the pass's
    /// own pool or its hand if it is there. One `|` sets its flag in the flag word, and leaves those of
    /// other slots.
    #[inline]
    pub fn raise(&mut self, slot: u32)
        requires slot { slot < self.old.slots.now.start.shape.slots }
        requires may_bear { MayBear (holding_of (pass_of self.old) slot) }
        ensures table { IsSameTable self.old self.new }
        ensures step { (found : ℕ)
            × Did (Raise slot) (trace_of self.old) (trace_of self.new) found }
        ensures pool { (pass_of self.new).pool ≡ without slot (pass_of self.old).pool }
        ensures hand { (pass_of self.new).hand ≡ hand_without slot (pass_of self.old).hand }
    {
        self.stepper.leave(slot);
        self.set_flag(slot);
    }

    /// As [`AtTable::raise`], for a slot outside the own pool, which isn't searched for it: so it
    /// takes as long however many slots are there.
    #[inline]
    pub fn raise_outside(&mut self, slot: u32)
        requires slot { slot < self.old.slots.now.start.shape.slots }
        requires free { IsFree (holding_of (pass_of self.old) slot) }
        requires outside { ¬ (Contains (pass_of self.old).pool slot) }
        ensures table { IsSameTable self.old self.new }
        ensures step { (found : ℕ)
            × Did (Raise slot) (trace_of self.old) (trace_of self.new) found }
        ensures pool { KeepsPool (pass_of self.old) (pass_of self.new) }
    {
        self.law();
        self.set_flag(slot);
    }

    // The step of a raise, of a slot that is neither in the own pool nor in the hand.
    #[inline]
    fn set_flag(&mut self, slot: u32)
        requires slot { slot < self.old.slots.now.start.shape.slots }
        requires may_bear { MayBear (holding_of (pass_of self.old) slot) }
        requires outside { ¬ (Contains (pass_of self.old).pool slot) }
        requires apart { (pass_of self.old).hand ≢ Some slot }
        ensures table { IsSameTable self.old self.new }
        ensures step { (found : ℕ)
            × Did (Raise slot) (trace_of self.old) (trace_of self.new) found }
        ensures pool { KeepsPool (pass_of self.old) (pass_of self.new) }
    {
        let (slots, stepper) = (self.slots, &mut *self.stepper);
        let place = Place::Flags(word_of_flag(slot));
        slots.fetch_or::<Brand>(
            &mut stepper.runner,
            Step::Raise { slot },
            place,
            flag_of(slot),
        );
    }

    /// Takes a slot out of the shared pool, if it is there: one `&` clears its flag in the flag word,
    /// and leaves those of other slots. A slot that is taken is the pass's own, and outside its own
    /// pool. If it wasn't there, the flag word that was found comes back.
    #[inline]
    pub fn take_flag(&mut self, slot: u32) -> Result<(), u64>
        requires slot { slot < self.old.slots.now.start.shape.slots }
        ensures table { IsSameTable self.old self.new }
        ensures taken { OnOk result (TakesFlag slot (pass_of self.old) (pass_of self.new)) }
        ensures missed { IfErr result (MissesFlag slot (pass_of self.old) (pass_of self.new)) }
    {
        let (slots, stepper) = (self.slots, &mut *self.stepper);
        let place = Place::Flags(word_of_flag(slot));
        let step = Step::TakeFlag { slot };
        let found = slots.fetch_and::<Brand>(&mut stepper.runner, step, place, all_but(slot));
        stepper.tried = slot;
        if has_flag(found, slot) {
            return Ok(());
        }
        Err(found)
    }
}
