//! Look-ups.
ghost use Rattle.std.specs.Prelude.{◌≡◌, ◌+◌, ◌≤◌, true, false, None, IfOk, IfErr};
ghost use Rattle.vbr_machine.specs.declared.history.Op.TheVariants.{Has};
ghost use Rattle.vbr_slots.specs.steps.Calls.{OnlyLoads, Took};
ghost use Rattle.vbr_slots.specs.views.Views.{IsOf};
ghost use Rattle.vbr_list.specs.calls.CallBounds.{Calls, CallsGet};
ghost use Rattle.vbr_list.specs.declared.looking.Sight.TheVariants.{Present, Absent};
ghost use Rattle.vbr_list.specs.look_ups.LookUpPieces.{GivesNone, GivesValueOf};
ghost use Rattle.vbr_list.specs.look_ups.LookUpPieces.{IsAskedOf, IsSightFor, LookUpRollsBack, steps_to_answer};
ghost use Rattle.vbr_list.specs.calls.Pieces.{HasRoomForPiece, Settles, trace_in};
ghost use Rattle.vbr_list.specs.calls.Told.{look_up_op};
ghost use Rattle.vbr_list.specs.calls.Words.{wide_held, wide_sight};
ghost use Rattle.vbr_list.specs.named_entries.Entries.{EntryAnswers, FindsNamedEntry};

use crate::call::{PendingCall, begin};
use crate::entries::{Entry, entry_of, value_given};
use crate::looking::Sight;
use crate::valuing::{is_yes, steps_to_value_of, value_if_any};
use vbr_at_table::budget::affords;
use vbr_at_table::{Held, Refusal, Rollback, confirm_absent, confirm_present};
use vbr_machine::Op;
use vbr_slots::{Pass, Slots, Stepper};
use vbr_words::{Entries, Nodes};

impl<N: Nodes> PendingCall<'_, N> {
    // Answers a get with the value of the node with the key, in two steps for it and one more, if the
    // epoch and the node's link still stand.
    #[inline(always)]
    pub(crate) fn give_value(&mut self, node: &Held) -> Result<Option<u64>, Rollback>
        requires sight { IsSightFor self.old (Present (wide_held self.old node.now)) }
        requires values { (trace_in self.old).start.shape.values ≡ true }
        requires room { HasRoomForPiece self.old }
        ensures settles { Settles self.old self.new }
        ensures few { self.new.used ≤ self.old.used + 3 }
        ensures only_loads { OnlyLoads (trace_in self.old) (trace_in self.new) }
        ensures answers { IfOk result (GivesValueOf true self.old self.new
            (wide_held self.old node.now)) }
        ensures rolls { IfErr result (LookUpRollsBack self.old self.new
            (Present (wide_held self.old node.now))) }
    {
        let read = value_if_any(&mut self.at, node);
        self.used += steps_to_value_of(self.at.slots);
        let value = read?;
        let outcome = confirm_present(&mut self.at, Op::Get, node);
        self.used += 1;
        match outcome {
            Ok(()) => Ok(Some(value)),
            Err(rollback) => Err(rollback),
        }
    }

    // Answers a look-up with the node of the key, in one step, if its link still stands; the value is
    // 0.
    #[inline(always)]
    fn show_node(&mut self, node: &Held) -> Result<Option<u64>, Rollback>
        requires sight { IsSightFor self.old (Present (wide_held self.old node.now)) }
        requires room { HasRoomForPiece self.old }
        ensures settles { Settles self.old self.new }
        ensures few { self.new.used ≡ self.old.used + 1 }
        ensures only_loads { OnlyLoads (trace_in self.old) (trace_in self.new) }
        ensures answers { IfOk result (GivesValueOf false self.old self.new
            (wide_held self.old node.now)) }
        ensures rolls { IfErr result (LookUpRollsBack self.old self.new
            (Present (wide_held self.old node.now))) }
    {
        let outcome = confirm_present(&mut self.at, Op::Has, node);
        self.used += 1;
        match outcome {
            Ok(()) => Ok(Some(0)),
            Err(rollback) => Err(rollback),
        }
    }

    // Answers a look-up, or a get, with the node of the key.
    #[inline(always)]
    pub(crate) fn give_node(&mut self, gives: bool, node: &Held) -> Result<Option<u64>, Rollback>
        requires sight { IsSightFor self.old (Present (wide_held self.old node.now)) }
        requires asked { IsAskedOf self.old gives }
        requires room { HasRoomForPiece self.old }
        ensures settles { Settles self.old self.new }
        ensures few { self.new.used ≤ self.old.used + steps_to_answer gives }
        ensures only_loads { OnlyLoads (trace_in self.old) (trace_in self.new) }
        ensures answers { IfOk result (GivesValueOf gives self.old self.new
            (wide_held self.old node.now)) }
        ensures rolls { IfErr result (LookUpRollsBack self.old self.new
            (Present (wide_held self.old node.now))) }
    {
        if gives {
            self.give_value(node)
        } else {
            self.show_node(node)
        }
    }

    // Answers a look-up, or a get, with no, in one step, if the link of the last place before the key still
    // stands.
    #[inline(always)]
    pub(crate) fn give_none(&mut self, gives: bool, pred: &Held) -> Result<Option<u64>, Rollback>
        requires sight { IsSightFor self.old (Absent (wide_held self.old pred.now)) }
        requires asked { IsAskedOf self.old gives }
        requires room { HasRoomForPiece self.old }
        ensures settles { Settles self.old self.new }
        ensures few { self.new.used ≡ self.old.used + 1 }
        ensures only_loads { OnlyLoads (trace_in self.old) (trace_in self.new) }
        ensures answers { IfOk result (GivesNone gives self.old self.new) }
        ensures rolls { IfErr result (LookUpRollsBack self.old self.new
            (Absent (wide_held self.old pred.now))) }
    {
        let outcome = confirm_absent(&mut self.at, look_up_op(gives), self.key, pred);
        self.used += 1;
        match outcome {
            Ok(()) => Ok(None),
            Err(rollback) => Err(rollback),
        }
    }

    // Answers a look-up, or a get, by what it came to, and returns the entry.
    #[inline(always)]
    fn settle_look_up(&mut self, gives: bool, sight: Sight) -> Result<Option<Entry>, Rollback>
        requires sight { IsSightFor self.old (wide_sight self.old sight) }
        requires asked { IsAskedOf self.old gives }
        requires room { HasRoomForPiece self.old }
        ensures settles { Settles self.old self.new }
        ensures few { self.new.used ≤ self.old.used + steps_to_answer gives }
        ensures only_loads { OnlyLoads (trace_in self.old) (trace_in self.new) }
        ensures answers { IfOk result (EntryAnswers gives self.old self.new) }
        ensures rolls { IfErr result (LookUpRollsBack self.old self.new
            (wide_sight self.old sight)) }
    {
        match sight {
            Sight::Present(node) => match self.give_node(gives, &node) {
                Ok(value) => Ok(entry_of(&node, value)),
                Err(rollback) => Err(rollback),
            },
            Sight::Absent(pred) => match self.give_none(gives, &pred) {
                Ok(_) => Ok(None),
                Err(rollback) => Err(rollback),
            },
        }
    }
}

// The look-up, with or without the value.
#[inline(always)]
fn look_up_op(gives: bool) -> Op
    ensures { result ≡ look_up_op gives }
{
    if gives { Op::Get } else { Op::Has }
}

/// Returns whether a key is in the set, in at most `budget` steps. Each slot that the pass could take
/// is then in its own pool. It makes three steps to start, three for a marked node, which it passes by
/// its link alone, five for another, and one for the answer. The rest is as `AtSet::has` of `vbr_set`
/// says.
pub fn has<N: Nodes>(
    slots: &Slots<N>,
    pass: &mut Pass,
    key: u64,
    budget: u32,
) -> Result<bool, Refusal>
    requires own { IsOf pass.old.trace slots.now }
    requires empty_hand { pass.old.hand ≡ None }
    ensures { Calls Has pass.old pass.new key budget result }
{
    let answer = pass.during(
        |stepper|
            requires own { IsOf stepper.old.trace slots.now }
            requires empty_hand { stepper.old.hand ≡ None }
        { look_up(slots, stepper, key, false, budget) },
    );
    is_yes(value_given(answer))
}

/// Like [`has`], at a table whose nodes have values: returns the value that is stored with a key, if
/// the key is there. The call takes effect at the same load, after the value was read in an epoch that
/// stood. The rest is as `AtSet::get` of `vbr_set` says.
pub fn get(
    slots: &Slots<Entries>,
    pass: &mut Pass,
    key: u64,
    budget: u32,
) -> Result<Option<u64>, Refusal>
    requires own { IsOf pass.old.trace slots.now }
    requires empty_hand { pass.old.hand ≡ None }
    ensures { CallsGet pass.old pass.new key budget result }
{
    pass.law();
    slots.kind();
    let answer = pass.during(
        |stepper|
            requires own { IsOf stepper.old.trace slots.now }
            requires empty_hand { stepper.old.hand ≡ None }
            requires values { slots.now.start.shape.values ≡ true }
        { look_up(slots, stepper, key, true, budget) },
    );
    value_given(answer)
}

// The look-up or the get of a key, which returns its entry, and the number of steps made.
#[inline(always)]
pub(crate) fn look_up<N: Nodes>(
    slots: &Slots<N>,
    stepper: &mut Stepper,
    key: u64,
    gives: bool,
    budget: u32,
) -> (Result<Option<Entry>, Refusal>, u32)
    requires own { IsOf stepper.old.trace slots.now }
    requires empty_hand { stepper.old.hand ≡ None }
    requires asked { gives ≡ true → slots.now.start.shape.values ≡ true }
    ensures took { Took stepper.old.trace stepper.new.trace result.1 }
    ensures finds { FindsNamedEntry gives stepper.old stepper.new key budget result.0 }
{
    let mut call = begin!(slots, stepper, key, budget, 0);
    call.at.law();
    loop {
        let Some(sight) = call.search_past() else {
            return (Err(Refusal::OutOfSteps { used: call.used }), call.used);
        };
        if !affords(call.budget, call.used) {
            return (Err(Refusal::OutOfSteps { used: call.used }), call.used);
        }
        if let Ok(answer) = call.settle_look_up(gives, sight) {
            return (Ok(answer), call.used);
        }
    }
}
