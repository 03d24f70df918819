//! The steps that answer a call by one more load of a link word, counted.
ghost use Rattle.std.specs.Prelude.{◌<◌, OnOk, IfErr};
ghost use Rattle.vbr_machine.specs.Acceptance.{Accepts, IsAtIn, IsOpIn};
ghost use Rattle.vbr_machine.specs.declared.event.Step.TheVariants.{ConfirmPresent, ConfirmAbsent};
ghost use Rattle.vbr_slots.specs.steps.Asked.{IsChecked};
ghost use Rattle.vbr_slots.specs.steps.Expected.{Finds, FindsOther};
ghost use Rattle.vbr_slots.specs.steps.LookUpStep.{look_up};
ghost use Rattle.vbr_slots.specs.views.Views.{IsOf, knows};
ghost use Rattle.vbr_slots.specs.words.WideWords.{wide_in};

use crate::pass::{Pass, steps_after};
use crate::slots::Slots;
use vbr_machine::Op;
use vbr_words::{At, Nodes};

impl<N: Nodes> Slots<N> {
    /// As [`crate::AtTable::confirm_present`], counted.
    #[inline]
    pub fn confirm_present(
        &self,
        pass: &mut Pass,
        op: Op,
        slot: u32,
        expected: u64,
    ) -> Result<(), u64>
        requires own { IsOf pass.old.trace self.now }
        requires slot { slot < self.now.start.shape.slots }
        requires asked { IsOpIn self.now.start op }
        requires checked { IsChecked self.now pass.old.trace
            (ConfirmPresent op slot (wide_in self.now expected)) }
        ensures found { OnOk result
            (Finds (ConfirmPresent op slot (wide_in self.now expected)) pass.old pass.new
            (wide_in self.now expected)) }
        ensures other { IfErr result (λ found.
            FindsOther (ConfirmPresent op slot (wide_in self.now expected)) pass.old pass.new
            (wide_in self.now expected) (wide_in self.now found)) }
    {
        pass.steps = steps_after(pass.steps, 1);
        self.at(&mut pass.stepper)
            .confirm_present(op, slot, expected)
    }

    /// As [`crate::AtTable::confirm_absent`], counted.
    #[inline]
    pub fn confirm_absent(
        &self,
        pass: &mut Pass,
        op: Op,
        key: u64,
        holder: At,
        expected: u64,
    ) -> Result<(), u64>
        requires own { IsOf pass.old.trace self.now }
        requires holder { IsAtIn self.now.start holder }
        requires asked { IsOpIn self.now.start op }
        requires checked { IsChecked self.now pass.old.trace
            (ConfirmAbsent op key holder (wide_in self.now expected)) }
        ensures found { OnOk result
            (Finds (ConfirmAbsent op key holder (wide_in self.now expected)) pass.old pass.new
            (wide_in self.now expected)) }
        ensures other { IfErr result (λ found.
            FindsOther (ConfirmAbsent op key holder (wide_in self.now expected)) pass.old pass.new
            (wide_in self.now expected) (wide_in self.now found)) }
    {
        pass.steps = steps_after(pass.steps, 1);
        self.at(&mut pass.stepper)
            .confirm_absent(op, key, holder, expected)
    }

    /// As [`crate::AtTable::confirm_look_up`], counted.
    #[inline]
    pub fn confirm_look_up(
        &self,
        pass: &mut Pass,
        present: bool,
        key: u64,
        holder: At,
        expected: u64,
    ) -> Result<(), u64>
        requires own { IsOf pass.old.trace self.now }
        requires accepted { Accepts self.now.start (knows pass.old.trace)
            (look_up present key holder (wide_in self.now expected)) }
        ensures found { OnOk result
            (Finds (look_up present key holder (wide_in self.now expected)) pass.old pass.new
            (wide_in self.now expected)) }
        ensures other { IfErr result (λ found.
            FindsOther (look_up present key holder (wide_in self.now expected)) pass.old pass.new
            (wide_in self.now expected) (wide_in self.now found)) }
    {
        pass.steps = steps_after(pass.steps, 1);
        self.at(&mut pass.stepper)
            .confirm_look_up(present, key, holder, expected)
    }
}
