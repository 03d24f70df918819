//! The steps that exchange a link word: insert, remove, replace and unlink (Michael 2002), each on the whole
//! word with its version (Sheffi, Herlihy and Petrank 2021).
ghost use Rattle.std.specs.Prelude.{◌≡◌, ◌<◌, true, Some, OnOk, IfErr};
ghost use Rattle.vbr_machine.specs.Acceptance.{IsAtIn};
ghost use Rattle.vbr_machine.specs.declared.event.Step.TheVariants.{Publish, Mark, Replace, Unlink};
ghost use Rattle.vbr_slots.specs.steps.Asked.{IsChecked, IsWritten};
ghost use Rattle.vbr_slots.specs.steps.AtTables.{IsSameTable, pass_of, trace_of};
ghost use Rattle.vbr_slots.specs.steps.Expected.{Finds, FindsOther, Publishes, ReplacesNode};
ghost use Rattle.vbr_slots.specs.words.WideWords.{wide_at};

use crate::at_table::AtTable;
use std::marker::Brand;
use vbr_machine::Step;
use vbr_words::{At, Nodes, wide, with_mark};

impl<N: Nodes> AtTable<'_, N> {
    /// Links the incarnation in hand after `pred`, in one step, if the word there is `expected`:
    /// it becomes `new`, nothing is in hand any more, and the pass has inserted the key. Else the
    /// word that was found comes back, and nothing changes.
    #[inline]
    pub fn publish(&mut self, pred: At, expected: u64, slot: u32, new: u64) -> Result<(), u64>
        requires in_hand { (pass_of self.old).hand ≡ Some slot }
        requires pred { IsAtIn self.old.slots.now.start pred }
        requires checked { IsChecked self.old.slots.now (trace_of self.old)
            (Publish pred (wide_at self.old expected) slot) }
        requires new { IsWritten (trace_of self.old) (Publish pred (wide_at self.old expected) slot)
            (wide_at self.old new) }
        ensures table { IsSameTable self.old self.new }
        ensures found { OnOk result
            (Publishes pred (wide_at self.old expected) slot (pass_of self.old)
            (pass_of self.new)) }
        ensures other { IfErr result (λ found.
            FindsOther (Publish pred (wide_at self.old expected) slot) (pass_of self.old)
            (pass_of self.new) (wide_at self.old expected) (wide_at self.old found)) }
    {
        let (slots, stepper) = (self.slots, &mut *self.stepper);
        let step = Step::Publish {
            pred,
            expected: wide(expected, slots.layout()),
            slot,
        };
        let found = slots.exchange_at::<Brand>(&mut stepper.runner, step, pred, expected, new);
        if found == expected {
            stepper.hand = None;
            return Ok(());
        }
        Err(found)
    }

    /// Marks a node, in one step, if its link word is `expected`: the pass has removed its key.
    /// Else the word that was found comes back, and nothing changes.
    #[inline]
    pub fn mark(&mut self, slot: u32, expected: u64) -> Result<(), u64>
        requires slot { slot < self.old.slots.now.start.shape.slots }
        requires checked { IsChecked self.old.slots.now (trace_of self.old)
            (Mark slot (wide_at self.old expected)) }
        ensures table { IsSameTable self.old self.new }
        ensures found { OnOk result
            (Finds (Mark slot (wide_at self.old expected)) (pass_of self.old) (pass_of self.new)
            (wide_at self.old expected)) }
        ensures other { IfErr result (λ found.
            FindsOther (Mark slot (wide_at self.old expected)) (pass_of self.old) (pass_of self.new)
            (wide_at self.old expected) (wide_at self.old found)) }
    {
        let (slots, stepper) = (self.slots, &mut *self.stepper);
        let step = Step::Mark {
            slot,
            expected: wide(expected, slots.layout()),
        };
        let holder = At::Slot(slot);
        let marked = with_mark(expected, slots.layout());
        match slots.exchange_at::<Brand>(&mut stepper.runner, step, holder, expected, marked) {
            found if found == expected => Ok(()),
            found => Err(found),
        }
    }

    /// Marks a node and links the incarnation in hand in its place, in one step, if its link word is
    /// `expected`: it becomes `word`, nothing is in hand any more, and the pass has replaced the value
    /// of the key. Else the word that was found comes back, and nothing changes.
    #[inline]
    pub fn replace(&mut self, slot: u32, expected: u64, new: u32, word: u64) -> Result<(), u64>
        requires in_hand { (pass_of self.old).hand ≡ Some new }
        requires slot { slot < self.old.slots.now.start.shape.slots }
        requires values { self.old.slots.now.start.shape.values ≡ true }
        requires checked { IsChecked self.old.slots.now (trace_of self.old)
            (Replace slot (wide_at self.old expected) new) }
        requires word { IsWritten (trace_of self.old) (Replace slot (wide_at self.old expected) new)
            (wide_at self.old word) }
        ensures table { IsSameTable self.old self.new }
        ensures found { OnOk result
            (ReplacesNode slot (wide_at self.old expected) new (pass_of self.old)
            (pass_of self.new)) }
        ensures other { IfErr result (λ found.
            FindsOther (Replace slot (wide_at self.old expected) new) (pass_of self.old)
            (pass_of self.new) (wide_at self.old expected) (wide_at self.old found)) }
    {
        let (slots, stepper) = (self.slots, &mut *self.stepper);
        let step = Step::Replace {
            slot,
            expected: wide(expected, slots.layout()),
            new,
        };
        let holder = At::Slot(slot);
        let found = slots.exchange_at::<Brand>(&mut stepper.runner, step, holder, expected, word);
        if found == expected {
            stepper.hand = None;
            return Ok(());
        }
        Err(found)
    }

    /// Unlinks a marked node after `pred`, in one step, if the word there is `expected`: it
    /// becomes `new`, and the slot is the pass's own, to be stamped. Else the word that was found
    /// comes back, and nothing changes.
    #[inline]
    pub fn unlink(&mut self, pred: At, expected: u64, slot: u32, new: u64) -> Result<(), u64>
        requires pred { IsAtIn self.old.slots.now.start pred }
        requires slot { slot < self.old.slots.now.start.shape.slots }
        requires checked { IsChecked self.old.slots.now (trace_of self.old)
            (Unlink pred (wide_at self.old expected) slot) }
        requires new { IsWritten (trace_of self.old) (Unlink pred (wide_at self.old expected) slot)
            (wide_at self.old new) }
        ensures table { IsSameTable self.old self.new }
        ensures found { OnOk result
            (Finds (Unlink pred (wide_at self.old expected) slot) (pass_of self.old)
            (pass_of self.new) (wide_at self.old expected)) }
        ensures other { IfErr result (λ found.
            FindsOther (Unlink pred (wide_at self.old expected) slot) (pass_of self.old)
            (pass_of self.new) (wide_at self.old expected) (wide_at self.old found)) }
    {
        let (slots, stepper) = (self.slots, &mut *self.stepper);
        let step = Step::Unlink {
            pred,
            expected: wide(expected, slots.layout()),
            slot,
        };
        match slots.exchange_at::<Brand>(&mut stepper.runner, step, pred, expected, new) {
            found if found == expected => Ok(()),
            found => Err(found),
        }
    }
}
