//! The steps that make a new incarnation in a slot of the pass.
ghost use Rattle.std.specs.Prelude.{◌≡◌, ◌<◌, true, Some, None, length, get_or, Contains};
ghost use Rattle.vbr_words.specs.Words.{link_of};
ghost use Rattle.vbr_machine.specs.Acceptance.{MayBear, IsNextIn, IsNextHeld, stamp_in};
ghost use Rattle.vbr_machine.specs.declared.event.Step.TheVariants.{StoreKey, StoreValue, StoreLink};
ghost use Rattle.vbr_slots.specs.steps.Asked.{IsWritten};
ghost use Rattle.vbr_slots.specs.steps.AtTables.{IsSameTable, pass_of, trace_of};
ghost use Rattle.vbr_slots.specs.steps.OwnSlots.{BearsIn, BearsOutside, epoch_of, holding_of};
ghost use Rattle.vbr_slots.specs.pools.Pools.{HasRoomFor};
ghost use Rattle.vbr_slots.specs.views.Views.{Did, KeepsPool, knows};
ghost use Rattle.vbr_slots.specs.words.WideWords.{wide_at};

use crate::at_table::AtTable;
use std::marker::Brand;
use vbr_machine::Step;
use vbr_words::{At, Nodes, Place, decode};

impl<N: Nodes> AtTable<'_, N> {
    /// Gives birth to a new incarnation in a slot of the pass, in one step. The slot was stamped
    /// before the last epoch that the pass read, which is the birth; it leaves the own pool and is
    /// in hand.
    #[inline(always)]
    pub fn store_birth(&mut self, slot: u32)
        requires slot { slot < self.old.slots.now.start.shape.slots }
        requires may_bear { MayBear (holding_of (pass_of self.old) slot) }
        requires above_stamp { stamp_in (holding_of (pass_of self.old) slot)
            < epoch_of (pass_of self.old) }
        requires hand { HasRoomFor (pass_of self.old).hand slot }
        ensures table { IsSameTable self.old self.new }
        ensures step { BearsIn slot (pass_of self.old) (pass_of self.new) }
    {
        self.stepper.leave_pool(slot);
        self.bear(slot);
    }

    /// As [`AtTable::store_birth`], for the slot at a place of the own pool, which isn't searched for it.
    /// Returns the birth.
    #[inline(always)]
    pub fn store_birth_at(&mut self, index: usize, slot: u32) -> u64
        requires place { index < length (pass_of self.old).pool }
        requires slot { get_or (pass_of self.old).pool index 0 ≡ slot }
        requires above_stamp { stamp_in (holding_of (pass_of self.old) slot)
            < epoch_of (pass_of self.old) }
        requires empty_hand { (pass_of self.old).hand ≡ None }
        ensures table { IsSameTable self.old self.new }
        ensures step { BearsIn slot (pass_of self.old) (pass_of self.new) }
        ensures birth { result ≡ epoch_of (pass_of self.old) }
    {
        self.law();
        self.stepper.leave_place(index, slot);
        self.bear(slot)
    }

    // The step of a birth, in a slot that is outside the own pool. Returns the birth.
    #[inline(always)]
    fn bear(&mut self, slot: u32) -> u64
        requires slot { slot < self.old.slots.now.start.shape.slots }
        requires may_bear { MayBear (holding_of (pass_of self.old) slot) }
        requires above_stamp { stamp_in (holding_of (pass_of self.old) slot)
            < epoch_of (pass_of self.old) }
        requires outside { ¬ (Contains (pass_of self.old).pool slot) }
        requires hand { HasRoomFor (pass_of self.old).hand slot }
        ensures table { IsSameTable self.old self.new }
        ensures step { BearsOutside slot (pass_of self.old) (pass_of self.new) }
        ensures birth { result ≡ epoch_of (pass_of self.old) }
    {
        let birth = self.epoch();
        let (slots, stepper) = (self.slots, &mut *self.stepper);
        let step = Step::StoreBirth { slot, birth };
        slots.store::<Brand>(&mut stepper.runner, step, Place::Birth(slot), birth);
        stepper.hand = Some(slot);
        birth
    }

    /// Stores the key of the incarnation in hand, in one step.
    #[inline]
    pub fn store_key(&mut self, slot: u32, key: u64)
        requires in_hand { (pass_of self.old).hand ≡ Some slot }
        ensures table { IsSameTable self.old self.new }
        ensures step { Did (StoreKey slot key) (trace_of self.old) (trace_of self.new) key }
        ensures pool { KeepsPool (pass_of self.old) (pass_of self.new) }
    {
        let (slots, stepper) = (self.slots, &mut *self.stepper);
        let step = Step::StoreKey { slot, key };
        slots.store::<Brand>(&mut stepper.runner, step, Place::Key(slot), key);
    }

    /// Stores the value of the incarnation in hand, in one step, if nodes have values.
    #[inline]
    pub fn store_value(&mut self, slot: u32, value: u64)
        requires values { self.old.slots.now.start.shape.values ≡ true }
        requires in_hand { (pass_of self.old).hand ≡ Some slot }
        ensures table { IsSameTable self.old self.new }
        ensures step { Did (StoreValue slot value) (trace_of self.old) (trace_of self.new) value }
        ensures pool { KeepsPool (pass_of self.old) (pass_of self.new) }
    {
        let (slots, stepper) = (self.slots, &mut *self.stepper);
        let step = Step::StoreValue { slot, value };
        slots.store::<Brand>(&mut stepper.runner, step, Place::Value(slot), value);
    }

    /// Stores the link word of the incarnation in hand, in one step: unmarked, to none or to a held
    /// slot whose birth the pass has checked, with the greater of the two births as its version.
    #[inline]
    pub fn store_link(&mut self, slot: u32, word: u64)
        requires in_hand { (pass_of self.old).hand ≡ Some slot }
        requires next_in { IsNextIn self.old.slots.now.start
            (link_of (wide_at self.old word)).slot }
        requires next_held { IsNextHeld (knows (trace_of self.old)).checked
            (link_of (wide_at self.old word)).slot }
        requires word { IsWritten (trace_of self.old)
            (StoreLink slot (link_of (wide_at self.old word)).slot) (wide_at self.old word) }
        ensures table { IsSameTable self.old self.new }
        ensures step { Did (StoreLink slot (link_of (wide_at self.old word)).slot)
            (trace_of self.old) (trace_of self.new) (wide_at self.old word) }
        ensures pool { KeepsPool (pass_of self.old) (pass_of self.new) }
    {
        let (slots, stepper) = (self.slots, &mut *self.stepper);
        let next = decode(word, slots.layout()).slot;
        let step = Step::StoreLink { slot, next };
        slots.store_at::<Brand>(&mut stepper.runner, step, At::Slot(slot), word);
    }
}
