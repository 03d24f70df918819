//! The steps that load what a traversal reads, one each, counted.
ghost use Rattle.std.specs.Prelude.{◌≡◌, ◌<◌, true, IsTrue};
ghost use Rattle.vbr_machine.specs.Acceptance.{IsAtIn};
ghost use Rattle.vbr_machine.specs.Knowledge.{holds, holds_at};
ghost use Rattle.vbr_machine.specs.declared.event.Step.TheVariants.{LoadLink, LoadBirth, LoadKey, LoadValue, PeekBirth};
ghost use Rattle.vbr_slots.specs.views.Views.{IsOf, Did, KeepsPool, knows};
ghost use Rattle.vbr_slots.specs.words.WideWords.{wide_in};

use crate::pass::{Pass, steps_after};
use crate::slots::Slots;
use vbr_words::{At, Nodes};

impl<N: Nodes> Slots<N> {
    /// As [`crate::AtTable::load_link`], counted.
    #[inline]
    pub fn load_link(&self, pass: &mut Pass, holder: At) -> u64
        requires own { IsOf pass.old.trace self.now }
        requires holder { IsAtIn self.now.start holder }
        requires held { IsTrue (holds_at (knows pass.old.trace).checked holder) }
        ensures step { Did (LoadLink holder) pass.old.trace pass.new.trace
            (wide_in self.now result) }
        ensures pool { KeepsPool pass.old pass.new }
    {
        pass.steps = steps_after(pass.steps, 1);
        self.at(&mut pass.stepper).load_link(holder)
    }

    /// As [`crate::AtTable::load_birth`], counted.
    #[inline]
    pub fn load_birth(&self, pass: &mut Pass, slot: u32) -> u64
        requires own { IsOf pass.old.trace self.now }
        requires slot { slot < self.now.start.shape.slots }
        requires held { IsTrue (holds (knows pass.old.trace).checked slot) }
        ensures step { Did (LoadBirth slot) pass.old.trace pass.new.trace result }
        ensures pool { KeepsPool pass.old pass.new }
    {
        pass.steps = steps_after(pass.steps, 1);
        self.at(&mut pass.stepper).load_birth(slot)
    }

    /// As [`crate::AtTable::peek_birth`], counted.
    #[inline]
    pub fn peek_birth(&self, pass: &mut Pass, slot: u32) -> u64
        requires own { IsOf pass.old.trace self.now }
        requires slot { slot < self.now.start.shape.slots }
        ensures step { Did (PeekBirth slot) pass.old.trace pass.new.trace result }
        ensures pool { KeepsPool pass.old pass.new }
    {
        pass.steps = steps_after(pass.steps, 1);
        self.at(&mut pass.stepper).peek_birth(slot)
    }

    /// As [`crate::AtTable::load_key`], counted.
    #[inline]
    pub fn load_key(&self, pass: &mut Pass, slot: u32) -> u64
        requires own { IsOf pass.old.trace self.now }
        requires slot { slot < self.now.start.shape.slots }
        requires held { IsTrue (holds (knows pass.old.trace).checked slot) }
        ensures step { Did (LoadKey slot) pass.old.trace pass.new.trace result }
        ensures pool { KeepsPool pass.old pass.new }
    {
        pass.steps = steps_after(pass.steps, 1);
        self.at(&mut pass.stepper).load_key(slot)
    }

    /// As [`crate::AtTable::load_value`], counted.
    #[inline]
    pub fn load_value(&self, pass: &mut Pass, slot: u32) -> u64
        requires own { IsOf pass.old.trace self.now }
        requires values { self.now.start.shape.values ≡ true }
        requires slot { slot < self.now.start.shape.slots }
        requires held { IsTrue (holds (knows pass.old.trace).checked slot) }
        ensures step { Did (LoadValue slot) pass.old.trace pass.new.trace result }
        ensures pool { KeepsPool pass.old pass.new }
    {
        pass.steps = steps_after(pass.steps, 1);
        self.at(&mut pass.stepper).load_value(slot)
    }
}
