//! The steps that exchange a link word, counted.
ghost use Rattle.std.specs.Prelude.{◌≡◌, ◌<◌, true, Some, OnOk, IfErr};
ghost use Rattle.vbr_machine.specs.Acceptance.{IsAtIn};
ghost use Rattle.vbr_machine.specs.declared.event.Step.TheVariants.{Publish, Mark, Replace, Unlink};
ghost use Rattle.vbr_slots.specs.steps.Asked.{IsChecked, IsWritten};
ghost use Rattle.vbr_slots.specs.steps.Expected.{Finds, FindsOther, Publishes, ReplacesNode};
ghost use Rattle.vbr_slots.specs.views.Views.{IsOf};
ghost use Rattle.vbr_slots.specs.words.WideWords.{wide_in};

use crate::pass::{Pass, steps_after};
use crate::slots::Slots;
use vbr_words::{At, Nodes};

impl<N: Nodes> Slots<N> {
    /// As [`crate::AtTable::publish`], counted.
    #[inline]
    pub fn publish(
        &self,
        pass: &mut Pass,
        pred: At,
        expected: u64,
        slot: u32,
        new: u64,
    ) -> Result<(), u64>
        requires own { IsOf pass.old.trace self.now }
        requires in_hand { pass.old.hand ≡ Some slot }
        requires pred { IsAtIn self.now.start pred }
        requires checked { IsChecked self.now pass.old.trace
            (Publish pred (wide_in self.now expected) slot) }
        requires new { IsWritten pass.old.trace (Publish pred (wide_in self.now expected) slot)
            (wide_in self.now new) }
        ensures found { OnOk result
            (Publishes pred (wide_in self.now expected) slot pass.old pass.new) }
        ensures other { IfErr result (λ found.
            FindsOther (Publish pred (wide_in self.now expected) slot) pass.old pass.new
            (wide_in self.now expected) (wide_in self.now found)) }
    {
        pass.steps = steps_after(pass.steps, 1);
        self.at(&mut pass.stepper)
            .publish(pred, expected, slot, new)
    }

    /// As [`crate::AtTable::mark`], counted.
    #[inline]
    pub fn mark(&self, pass: &mut Pass, slot: u32, expected: u64) -> Result<(), u64>
        requires own { IsOf pass.old.trace self.now }
        requires slot { slot < self.now.start.shape.slots }
        requires checked { IsChecked self.now pass.old.trace
            (Mark slot (wide_in self.now expected)) }
        ensures found { OnOk result
            (Finds (Mark slot (wide_in self.now expected)) pass.old pass.new
            (wide_in self.now expected)) }
        ensures other { IfErr result (λ found.
            FindsOther (Mark slot (wide_in self.now expected)) pass.old pass.new
            (wide_in self.now expected) (wide_in self.now found)) }
    {
        pass.steps = steps_after(pass.steps, 1);
        self.at(&mut pass.stepper).mark(slot, expected)
    }

    /// As [`crate::AtTable::replace`], counted.
    #[inline]
    pub fn replace(
        &self,
        pass: &mut Pass,
        slot: u32,
        expected: u64,
        new: u32,
        word: u64,
    ) -> Result<(), u64>
        requires own { IsOf pass.old.trace self.now }
        requires in_hand { pass.old.hand ≡ Some new }
        requires slot { slot < self.now.start.shape.slots }
        requires values { self.now.start.shape.values ≡ true }
        requires checked { IsChecked self.now pass.old.trace
            (Replace slot (wide_in self.now expected) new) }
        requires word { IsWritten pass.old.trace (Replace slot (wide_in self.now expected) new)
            (wide_in self.now word) }
        ensures found { OnOk result
            (ReplacesNode slot (wide_in self.now expected) new pass.old pass.new) }
        ensures other { IfErr result (λ found.
            FindsOther (Replace slot (wide_in self.now expected) new) pass.old pass.new
            (wide_in self.now expected) (wide_in self.now found)) }
    {
        pass.steps = steps_after(pass.steps, 1);
        self.at(&mut pass.stepper)
            .replace(slot, expected, new, word)
    }

    /// As [`crate::AtTable::unlink`], counted.
    #[inline]
    pub fn unlink(
        &self,
        pass: &mut Pass,
        pred: At,
        expected: u64,
        slot: u32,
        new: u64,
    ) -> Result<(), u64>
        requires own { IsOf pass.old.trace self.now }
        requires pred { IsAtIn self.now.start pred }
        requires slot { slot < self.now.start.shape.slots }
        requires checked { IsChecked self.now pass.old.trace
            (Unlink pred (wide_in self.now expected) slot) }
        requires new { IsWritten pass.old.trace (Unlink pred (wide_in self.now expected) slot)
            (wide_in self.now new) }
        ensures found { OnOk result
            (Finds (Unlink pred (wide_in self.now expected) slot) pass.old pass.new
            (wide_in self.now expected)) }
        ensures other { IfErr result (λ found.
            FindsOther (Unlink pred (wide_in self.now expected) slot) pass.old pass.new
            (wide_in self.now expected) (wide_in self.now found)) }
    {
        pass.steps = steps_after(pass.steps, 1);
        self.at(&mut pass.stepper).unlink(pred, expected, slot, new)
    }
}
