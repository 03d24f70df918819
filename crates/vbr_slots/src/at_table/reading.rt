//! Loads in a row that end with a read of the epoch. What they loaded is checked if the epoch is the
//! one that the pass read before.
ghost use Rattle.std.specs.Prelude.{◌≡◌, ◌↔◌, ◌<◌, true, IsTrue};
ghost use Rattle.vbr_machine.specs.Acceptance.{IsAtIn};
ghost use Rattle.vbr_machine.specs.Knowledge.{holds, holds_at};
ghost use Rattle.vbr_machine.specs.declared.event.Step.TheVariants.{LoadLink, LoadKey, LoadValue};
ghost use Rattle.vbr_slots.specs.steps.AtTables.{IsSameTable, pass_of, trace_of};
ghost use Rattle.vbr_slots.specs.steps.Reads.{Reads, ReadsNode};
ghost use Rattle.vbr_slots.specs.views.Views.{KeepsPool, knows};
ghost use Rattle.vbr_slots.specs.words.WideWords.{wide_at};

use crate::at_table::AtTable;
use crate::runner::EpochRead;
use std::marker::Brand;
use vbr_machine::Step;
use vbr_words::{At, Nodes, Place, place_index_in};

impl<N: Nodes> AtTable<'_, N> {
    /// Loads the link word of a head or of a held slot, and reads the epoch, in two steps: returns
    /// the word and the epoch. If that stays as the pass read it before, the read is checked; if it has
    /// moved, the pass knows of no reads any more.
    #[inline]
    pub fn read_link(&mut self, holder: At) -> (u64, EpochRead)
        requires holder { IsAtIn self.old.slots.now.start holder }
        requires held { IsTrue (holds_at (knows (trace_of self.old)).checked holder) }
        ensures table { IsSameTable self.old self.new }
        ensures reads { Reads (LoadLink holder) (pass_of self.old) (pass_of self.new)
            (wide_at self.old result.0) result.1.epoch }
        ensures stays { IsTrue result.1.stays ↔
            (result.1.epoch ≡ (knows (trace_of self.old)).epoch) }
        ensures pool { KeepsPool (pass_of self.old) (pass_of self.new) }
    {
        let (slots, stepper) = (self.slots, &mut *self.stepper);
        slots.load_at_and_epoch(stepper, Step::LoadLink { at: holder }, holder)
    }

    /// Loads the key of a held slot, and reads the epoch, in two steps: returns the key and
    /// the epoch, which checks the read as in [`AtTable::read_link`].
    #[inline]
    pub fn read_key(&mut self, slot: u32) -> (u64, EpochRead)
        requires slot { slot < self.old.slots.now.start.shape.slots }
        requires held { IsTrue (holds (knows (trace_of self.old)).checked slot) }
        ensures table { IsSameTable self.old self.new }
        ensures reads { Reads (LoadKey slot) (pass_of self.old) (pass_of self.new)
            result.0 result.1.epoch }
        ensures stays { IsTrue result.1.stays ↔
            (result.1.epoch ≡ (knows (trace_of self.old)).epoch) }
        ensures pool { KeepsPool (pass_of self.old) (pass_of self.new) }
    {
        let (slots, stepper) = (self.slots, &mut *self.stepper);
        slots.load_and_epoch(stepper, Step::LoadKey { slot }, Place::Key(slot))
    }

    /// Loads the value of a held slot, and reads the epoch, in two steps: returns the value and
    /// the epoch, which checks the read as in [`AtTable::read_link`].
    #[inline]
    pub fn read_value(&mut self, slot: u32) -> (u64, EpochRead)
        requires values { self.old.slots.now.start.shape.values ≡ true }
        requires slot { slot < self.old.slots.now.start.shape.slots }
        requires held { IsTrue (holds (knows (trace_of self.old)).checked slot) }
        ensures table { IsSameTable self.old self.new }
        ensures reads { Reads (LoadValue slot) (pass_of self.old) (pass_of self.new)
            result.0 result.1.epoch }
        ensures stays { IsTrue result.1.stays ↔
            (result.1.epoch ≡ (knows (trace_of self.old)).epoch) }
        ensures pool { KeepsPool (pass_of self.old) (pass_of self.new) }
    {
        let (slots, stepper) = (self.slots, &mut *self.stepper);
        slots.load_and_epoch(stepper, Step::LoadValue { slot }, Place::Value(slot))
    }

    /// Loads the birth and the link word of a held slot, and reads the epoch, in three steps: returns
    /// the birth, the word and the epoch, which checks both reads as in [`AtTable::read_link`]. The two words
    /// lie side by side, so their place is found once.
    #[inline]
    pub fn read_node(&mut self, slot: u32) -> (u64, u64, EpochRead)
        requires slot { slot < self.old.slots.now.start.shape.slots }
        requires held { IsTrue (holds (knows (trace_of self.old)).checked slot) }
        ensures table { IsSameTable self.old self.new }
        ensures reads { ReadsNode slot (pass_of self.old) (pass_of self.new)
            result.0 (wide_at self.old result.1) result.2.epoch }
        ensures stays { IsTrue result.2.stays ↔
            (result.2.epoch ≡ (knows (trace_of self.old)).epoch) }
        ensures pool { KeepsPool (pass_of self.old) (pass_of self.new) }
    {
        let (slots, stepper) = (self.slots, &mut *self.stepper);
        let node = place_index_in::<N>(&slots.opening.shape, Place::LinkOf(slot));
        let birth = slots.load_word::<Brand>(stepper, Step::LoadBirth { slot }, node + 1);
        let holder = At::Slot(slot);
        let step = Step::LoadLink { at: holder };
        let word = slots.load_link_at::<Brand>(stepper, step, holder, node);
        let read = slots.read_epoch_as::<Brand>(&mut stepper.runner);
        (birth, word, read)
    }
}
