//! The steps that load what a traversal reads, one each. A read is pending until the epoch is read
//! again.
ghost use Rattle.std.specs.Prelude.{◌≡◌, ◌<◌, true, IsTrue};
ghost use Rattle.vbr_machine.specs.Acceptance.{IsAtIn};
ghost use Rattle.vbr_machine.specs.Knowledge.{holds, holds_at};
ghost use Rattle.vbr_machine.specs.declared.event.Step.TheVariants.{LoadLink, LoadBirth, LoadKey, LoadValue, PeekBirth};
ghost use Rattle.vbr_slots.specs.steps.AtTables.{IsSameTable, pass_of, trace_of};
ghost use Rattle.vbr_slots.specs.views.Views.{Did, KeepsPool, knows};
ghost use Rattle.vbr_slots.specs.words.WideWords.{wide_at};

use crate::at_table::AtTable;
use std::marker::Brand;
use vbr_machine::Step;
use vbr_words::{At, Nodes, Place};

impl<N: Nodes> AtTable<'_, N> {
    /// Loads the link word of a head or of a held slot, in one step.
    #[inline]
    pub fn load_link(&mut self, holder: At) -> u64
        requires holder { IsAtIn self.old.slots.now.start holder }
        requires held { IsTrue (holds_at (knows (trace_of self.old)).checked holder) }
        ensures table { IsSameTable self.old self.new }
        ensures step { Did (LoadLink holder) (trace_of self.old) (trace_of self.new)
            (wide_at self.old result) }
        ensures pool { KeepsPool (pass_of self.old) (pass_of self.new) }
    {
        let (slots, stepper) = (self.slots, &mut *self.stepper);
        slots.load_at::<Brand>(stepper, Step::LoadLink { at: holder }, holder)
    }

    /// Loads the birth of a held slot, an epoch, in one step.
    #[inline]
    pub fn load_birth(&mut self, slot: u32) -> u64
        requires slot { slot < self.old.slots.now.start.shape.slots }
        requires held { IsTrue (holds (knows (trace_of self.old)).checked slot) }
        ensures table { IsSameTable self.old self.new }
        ensures step { Did (LoadBirth slot) (trace_of self.old) (trace_of self.new) result }
        ensures pool { KeepsPool (pass_of self.old) (pass_of self.new) }
    {
        let (slots, stepper) = (self.slots, &mut *self.stepper);
        slots.load::<Brand>(stepper, Step::LoadBirth { slot }, Place::Birth(slot))
    }

    /// Loads the birth of a slot, whoever has it, in one step. The pass learns nothing by it: it shows which
    /// incarnation was born there last.
    #[inline]
    pub fn peek_birth(&mut self, slot: u32) -> u64
        requires slot { slot < self.old.slots.now.start.shape.slots }
        ensures table { IsSameTable self.old self.new }
        ensures step { Did (PeekBirth slot) (trace_of self.old) (trace_of self.new) result }
        ensures pool { KeepsPool (pass_of self.old) (pass_of self.new) }
    {
        let (slots, stepper) = (self.slots, &mut *self.stepper);
        slots.load::<Brand>(stepper, Step::PeekBirth { slot }, Place::Birth(slot))
    }

    /// Loads the key of a held slot, in one step.
    #[inline]
    pub fn load_key(&mut self, slot: u32) -> u64
        requires slot { slot < self.old.slots.now.start.shape.slots }
        requires held { IsTrue (holds (knows (trace_of self.old)).checked slot) }
        ensures table { IsSameTable self.old self.new }
        ensures step { Did (LoadKey slot) (trace_of self.old) (trace_of self.new) result }
        ensures pool { KeepsPool (pass_of self.old) (pass_of self.new) }
    {
        let (slots, stepper) = (self.slots, &mut *self.stepper);
        slots.load::<Brand>(stepper, Step::LoadKey { slot }, Place::Key(slot))
    }

    /// Loads the value of a held slot, in one step, if nodes have values.
    #[inline]
    pub fn load_value(&mut self, slot: u32) -> u64
        requires values { self.old.slots.now.start.shape.values ≡ true }
        requires slot { slot < self.old.slots.now.start.shape.slots }
        requires held { IsTrue (holds (knows (trace_of self.old)).checked slot) }
        ensures table { IsSameTable self.old self.new }
        ensures step { Did (LoadValue slot) (trace_of self.old) (trace_of self.new) result }
        ensures pool { KeepsPool (pass_of self.old) (pass_of self.new) }
    {
        let (slots, stepper) = (self.slots, &mut *self.stepper);
        slots.load::<Brand>(stepper, Step::LoadValue { slot }, Place::Value(slot))
    }
}
