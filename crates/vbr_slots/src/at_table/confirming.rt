//! The steps that answer a call by one more load of a link word.
ghost use Rattle.std.specs.Prelude.{◌≡◌, ◌<◌, OnOk, IfErr};
ghost use Rattle.vbr_machine.specs.Acceptance.{Accepts, IsAtIn, IsOpIn};
ghost use Rattle.vbr_machine.specs.declared.event.Step.TheVariants.{ConfirmPresent, ConfirmAbsent};
ghost use Rattle.vbr_slots.specs.steps.Asked.{IsChecked};
ghost use Rattle.vbr_slots.specs.steps.AtTables.{IsSameTable, pass_of, trace_of};
ghost use Rattle.vbr_slots.specs.steps.Expected.{Finds, FindsOther};
ghost use Rattle.vbr_slots.specs.steps.LookUpStep.{look_up};
ghost use Rattle.vbr_slots.specs.views.Views.{knows};
ghost use Rattle.vbr_slots.specs.words.WideWords.{wide_at};

use crate::at_table::AtTable;
use std::marker::Brand;
use vbr_machine::{Op, Step};
use vbr_words::{At, Nodes, WideWord, wide};

impl<N: Nodes> AtTable<'_, N> {
    /// Answers a look-up or an insert, in one step, a load: if the link word of a node is still
    /// `expected`, unmarked, the node's key is present. Else the word that was found comes back,
    /// and no call is answered.
    #[inline]
    pub fn confirm_present(&mut self, op: Op, slot: u32, expected: u64) -> Result<(), u64>
        requires slot { slot < self.old.slots.now.start.shape.slots }
        requires asked { IsOpIn self.old.slots.now.start op }
        requires checked { IsChecked self.old.slots.now (trace_of self.old)
            (ConfirmPresent op slot (wide_at self.old expected)) }
        ensures table { IsSameTable self.old self.new }
        ensures found { OnOk result
            (Finds (ConfirmPresent op slot (wide_at self.old expected))
            (pass_of self.old) (pass_of self.new) (wide_at self.old expected)) }
        ensures other { IfErr result (λ found.
            FindsOther (ConfirmPresent op slot (wide_at self.old expected)) (pass_of self.old)
            (pass_of self.new) (wide_at self.old expected) (wide_at self.old found)) }
    {
        let (slots, stepper) = (self.slots, &mut *self.stepper);
        let step = Step::ConfirmPresent {
            op,
            slot,
            expected: wide(expected, slots.layout()),
        };
        match slots.load_at::<Brand>(stepper, step, At::Slot(slot)) {
            found if found == expected => Ok(()),
            found => Err(found),
        }
    }

    /// Answers a look-up or a remove, in one step, a load: if the link word at a place is still
    /// `expected`, unmarked, then the key, which would stand after that place and before what the word
    /// names, or what marked nodes lead to from there, is absent. Else the word that was found comes
    /// back, and no call is answered.
    #[inline]
    pub fn confirm_absent(&mut self, op: Op, key: u64, holder: At, expected: u64) -> Result<(), u64>
        requires holder { IsAtIn self.old.slots.now.start holder }
        requires asked { IsOpIn self.old.slots.now.start op }
        requires checked { IsChecked self.old.slots.now (trace_of self.old)
            (ConfirmAbsent op key holder (wide_at self.old expected)) }
        ensures table { IsSameTable self.old self.new }
        ensures found { OnOk result
            (Finds (ConfirmAbsent op key holder (wide_at self.old expected))
            (pass_of self.old) (pass_of self.new) (wide_at self.old expected)) }
        ensures other { IfErr result (λ found.
            FindsOther (ConfirmAbsent op key holder (wide_at self.old expected)) (pass_of self.old)
            (pass_of self.new) (wide_at self.old expected) (wide_at self.old found)) }
    {
        let (slots, stepper) = (self.slots, &mut *self.stepper);
        let step = Step::ConfirmAbsent {
            op,
            key,
            at: holder,
            expected: wide(expected, slots.layout()),
        };
        match slots.load_at::<Brand>(stepper, step, holder) {
            found if found == expected => Ok(()),
            found => Err(found),
        }
    }

    /// Answers a look-up of a key, in one step: it is present, if the link word at its node is
    /// still `expected`, unmarked; or it is absent, if the link word at the place before it is.
    /// `present` says which of the two is asked. Else the word that was found comes back, and no
    /// call is answered. Either way it is one load, without a branch.
    #[inline]
    pub fn confirm_look_up(
        &mut self,
        present: bool,
        key: u64,
        holder: At,
        expected: u64,
    ) -> Result<(), u64>
        requires accepted { Accepts self.old.slots.now.start (knows (trace_of self.old))
            (look_up present key holder (wide_at self.old expected)) }
        ensures table { IsSameTable self.old self.new }
        ensures found { OnOk result
            (Finds (look_up present key holder (wide_at self.old expected))
            (pass_of self.old) (pass_of self.new) (wide_at self.old expected)) }
        ensures other { IfErr result (λ found.
            FindsOther (look_up present key holder (wide_at self.old expected)) (pass_of self.old)
            (pass_of self.new) (wide_at self.old expected) (wide_at self.old found)) }
    {
        let (slots, stepper) = (self.slots, &mut *self.stepper);
        let step = step_of_look_up(present, key, holder, wide(expected, slots.layout()));
        match slots.load_at::<Brand>(stepper, step, holder) {
            found if found == expected => Ok(()),
            found => Err(found),
        }
    }
}

// The step that answers a look-up.
#[inline]
fn step_of_look_up(present: bool, key: u64, holder: At, expected: WideWord) -> Step
    ensures { result ≡ look_up present key holder expected }
{
    let op = Op::Has;
    match holder {
        At::Slot(slot) if present => Step::ConfirmPresent { op, slot, expected },
        _ => Step::ConfirmAbsent {
            op,
            key,
            at: holder,
            expected,
        },
    }
}
