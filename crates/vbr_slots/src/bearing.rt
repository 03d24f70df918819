//! The steps that make a new incarnation in a slot of the pass, counted.
ghost use Rattle.std.specs.Prelude.{◌≡◌, ◌<◌, true, Some};
ghost use Rattle.vbr_words.specs.Words.{link_of};
ghost use Rattle.vbr_machine.specs.Acceptance.{MayBear, IsNextIn, IsNextHeld, stamp_in};
ghost use Rattle.vbr_machine.specs.declared.event.Step.TheVariants.{StoreKey, StoreValue, StoreLink};
ghost use Rattle.vbr_slots.specs.steps.Asked.{IsWritten};
ghost use Rattle.vbr_slots.specs.steps.OwnSlots.{BearsIn, epoch_of, holding_of};
ghost use Rattle.vbr_slots.specs.pools.Pools.{HasRoomFor};
ghost use Rattle.vbr_slots.specs.views.Views.{IsOf, Did, KeepsPool, knows};
ghost use Rattle.vbr_slots.specs.words.WideWords.{wide_in};

use crate::pass::{Pass, steps_after};
use crate::slots::Slots;
use vbr_words::Nodes;

impl<N: Nodes> Slots<N> {
    /// As [`crate::AtTable::store_birth`], counted.
    #[inline]
    pub fn store_birth(&self, pass: &mut Pass, slot: u32)
        requires own { IsOf pass.old.trace self.now }
        requires slot { slot < self.now.start.shape.slots }
        requires may_bear { MayBear (holding_of pass.old slot) }
        requires above_stamp { stamp_in (holding_of pass.old slot) < epoch_of pass.old }
        requires hand { HasRoomFor pass.old.hand slot }
        ensures { BearsIn slot pass.old pass.new }
    {
        pass.steps = steps_after(pass.steps, 1);
        self.at(&mut pass.stepper).store_birth(slot);
    }

    /// As [`crate::AtTable::store_key`], counted.
    #[inline]
    pub fn store_key(&self, pass: &mut Pass, slot: u32, key: u64)
        requires own { IsOf pass.old.trace self.now }
        requires in_hand { pass.old.hand ≡ Some slot }
        ensures step { Did (StoreKey slot key) pass.old.trace pass.new.trace key }
        ensures pool { KeepsPool pass.old pass.new }
    {
        pass.steps = steps_after(pass.steps, 1);
        self.at(&mut pass.stepper).store_key(slot, key);
    }

    /// As [`crate::AtTable::store_value`], counted.
    #[inline]
    pub fn store_value(&self, pass: &mut Pass, slot: u32, value: u64)
        requires own { IsOf pass.old.trace self.now }
        requires values { self.now.start.shape.values ≡ true }
        requires in_hand { pass.old.hand ≡ Some slot }
        ensures step { Did (StoreValue slot value) pass.old.trace pass.new.trace value }
        ensures pool { KeepsPool pass.old pass.new }
    {
        pass.steps = steps_after(pass.steps, 1);
        self.at(&mut pass.stepper).store_value(slot, value);
    }

    /// As [`crate::AtTable::store_link`], counted.
    #[inline]
    pub fn store_link(&self, pass: &mut Pass, slot: u32, word: u64)
        requires own { IsOf pass.old.trace self.now }
        requires in_hand { pass.old.hand ≡ Some slot }
        requires next_in { IsNextIn self.now.start (link_of (wide_in self.now word)).slot }
        requires next_held { IsNextHeld (knows pass.old.trace).checked
            (link_of (wide_in self.now word)).slot }
        requires word { IsWritten pass.old.trace
            (StoreLink slot (link_of (wide_in self.now word)).slot) (wide_in self.now word) }
        ensures step { Did (StoreLink slot (link_of (wide_in self.now word)).slot) pass.old.trace
            pass.new.trace (wide_in self.now word) }
        ensures pool { KeepsPool pass.old pass.new }
    {
        pass.steps = steps_after(pass.steps, 1);
        self.at(&mut pass.stepper).store_link(slot, word);
    }
}
