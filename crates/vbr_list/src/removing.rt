//! Removes.
ghost use Rattle.std.specs.Prelude.{◌≡◌, ◌+◌, ◌≤◌, true, Some, None, IfOk, IfErr, is_some};
ghost use Rattle.vbr_machine.specs.declared.history.Op.TheVariants.{Remove};
ghost use Rattle.vbr_slots.specs.steps.AtTables.{IsSameTable, pass_of, trace_of};
ghost use Rattle.vbr_slots.specs.steps.Calls.{Took};
ghost use Rattle.vbr_slots.specs.views.Views.{IsOf};
ghost use Rattle.vbr_at_table.specs.declared.budget.TheConstants.{PIECE};
ghost use Rattle.vbr_list.specs.updates.Expecting.{CallsRemoveIf, removal_in, takes_out};
ghost use Rattle.vbr_list.specs.calls.CallBounds.{Calls, CallsAs, CallsRemove};
ghost use Rattle.vbr_list.specs.traversals.Leaving.{BoundsOfRemove, Sweeps, WasClear};
ghost use Rattle.vbr_list.specs.calls.Pieces.{Goes, GoesOn, HasRoomForPiece, Settles};
ghost use Rattle.vbr_list.specs.updates.Outcomes.{ChangedAsWanted, ChangedIfExpected, there_in, there_of};
ghost use Rattle.vbr_list.specs.updates.Removing.{Clears, IsMarkedFor, IsOut, LeavesWithRoom, MayExpect, RemoveAnswers, RemoveRollsBack, UnlinksOrSearches};
ghost use Rattle.vbr_list.specs.named_entries.RemovingExactly.{RemovesExactly, RemovesKeyExactly, RemovesNodeExactly};
ghost use Rattle.vbr_list.specs.traversals.Traversing.{LocatesFor};
ghost use Rattle.vbr_list.specs.traversals.Searching.{TraversesAgain};
ghost use Rattle.vbr_list.specs.calls.Words.{wide_found, wide_held, wide_marked};

use crate::call::{PendingCall, begin};
use crate::entries::{Entry, is_node_of};
use crate::found::Found;
use crate::helping::unlink_and_retire;
use crate::outcome::{Outcome, there_in};
use crate::valuing::{is_yes, steps_to_value_of, value_if_any};
use vbr_at_table::budget::affords;
use vbr_at_table::{Held, Marked, Refusal, Rollback, mark};
use vbr_slots::{AtTable, Pass, Slots, Stepper};
use vbr_words::{Entries, Nodes};

// Searches for the key as `find` does, with what is left of a budget, and so helps to unlink each
// marked node that it meets. When it has come to the key, there was a moment when no marked node of the
// key was in a list but a replaced one, and each that was removed before has left. Returns how many
// steps are used then. Few removes lose their unlinking, so this is done apart from them.
#[cold]
#[inline(never)]
fn search_apart<N: Nodes>(
    slots: &Slots<N>,
    stepper: &mut Stepper,
    key: u64,
    budget: u32,
    used: u32,
) -> u32
    requires own { IsOf stepper.old.trace slots.now }
    requires within { used ≤ budget }
    ensures goes { Goes stepper.old stepper.new used result }
    ensures within { (used ≤ result) × (result ≤ budget) }
    ensures clear { result + PIECE ≤ budget → WasClear stepper.old.trace stepper.new.trace key }
    ensures sweeps { result + PIECE ≤ budget → Sweeps stepper.old.trace stepper.new.trace key }
    ensures traverses { TraversesAgain 9 stepper.old.trace stepper.new.trace key used result }
{
    let mut call = begin!(slots, stepper, key, budget, used);
    call.at.law();
    let _ = call.search();
    call.used
}

// Like `search_apart`, at a table: what makes the steps is lent, so that a remove that wins its
// unlinking keeps all of its own in registers.
#[inline(always)]
fn search_on<N: Nodes>(at: &mut AtTable<'_, N>, key: u64, budget: u32, used: u32) -> u32
    requires within { used ≤ budget }
    ensures table { IsSameTable at.old at.new }
    ensures goes { Goes (pass_of at.old) (pass_of at.new) used result }
    ensures within { (used ≤ result) × (result ≤ budget) }
    ensures clear { result + PIECE ≤ budget → WasClear (trace_of at.old) (trace_of at.new) key }
    ensures sweeps { result + PIECE ≤ budget → Sweeps (trace_of at.old) (trace_of at.new) key }
    ensures traverses { TraversesAgain 9 (trace_of at.old) (trace_of at.new) key used result }
{
    let slots = at.slots;
    search_apart(slots, at.stepper, key, budget, used)
}

impl<N: Nodes> PendingCall<'_, N> {
    // Unlinks and retires a marked node of the call's key; if that is lost, searches on until the node
    // is out of its list, through this pass or another.
    #[inline(always)]
    pub(crate) fn unlink_marked(&mut self, pred: &Held, marked: Marked)
        requires marked { IsMarkedFor self.old (wide_held self.old pred.now)
            (wide_marked self.old marked) }
        requires room { HasRoomForPiece self.old }
        ensures goes { GoesOn self.old self.new }
        ensures leaves { LeavesWithRoom self.old self.new marked.slot }
        ensures clear { IsOut self.old marked.slot → Clears self.old self.new }
        ensures paid { UnlinksOrSearches self.old self.new
            (wide_held self.old pred.now) marked.slot }
    {
        self.at.law();
        let (outcome, made) = unlink_and_retire(&mut self.at, pred, marked);
        self.used += made;
        if outcome.is_err() {
            self.used = search_on(&mut self.at, self.key, self.budget, self.used);
        }
    }

    // Marks the node that was found, once its value was read if nodes have values: the key is removed,
    // and nothing rolls back past that. Then takes the node out of its list, as far as the budget has
    // room. If another value is expected, it answers a get with the one that was read.
    #[inline(always)]
    fn mark_and_unlink(&mut self, found: &Found, expected: Option<u64>) -> Result<Outcome, Rollback>
        requires expects { MayExpect self.old expected }
        requires locates { LocatesFor self.old (wide_found self.old found.now) }
        requires present { found.now.present ≡ true }
        requires room { HasRoomForPiece self.old }
        ensures settles { Settles self.old self.new }
        ensures some { IfOk result (λ outcome. is_some (there_of outcome) ≡ true) }
        ensures answers { IfOk result
            (RemoveAnswers expected self.old self.new (wide_found self.old found.now)) }
        ensures rolls { IfErr result
            (RemoveRollsBack self.old self.new (wide_found self.old found.now)) }
    {
        let Some(cur) = &found.cur else {
            unreachable!()
        };
        self.at.law();
        let read = value_if_any(&mut self.at, cur);
        self.used += steps_to_value_of(self.at.slots);
        let value = read?;
        if !takes_out(expected, value) {
            self.tell_found(found, Some(value))?;
            return Ok(Outcome::Unchanged(Some(value)));
        }
        let outcome = mark(&mut self.at, cur);
        self.used += 1;
        let marked = outcome?;
        if affords(self.budget, self.used) {
            self.unlink_marked(&found.pred, marked);
        }
        Ok(Outcome::Changed(Some(value)))
    }

    // Answers a remove by what was found, or a get if a value is expected and none is there.
    #[inline(always)]
    fn settle_remove(&mut self, found: &Found, expected: Option<u64>) -> Result<Outcome, Rollback>
        requires expects { MayExpect self.old expected }
        requires locates { LocatesFor self.old (wide_found self.old found.now) }
        requires room { HasRoomForPiece self.old }
        ensures settles { Settles self.old self.new }
        ensures answers { IfOk result
            (RemoveAnswers expected self.old self.new (wide_found self.old found.now)) }
        ensures rolls { IfErr result
            (RemoveRollsBack self.old self.new (wide_found self.old found.now)) }
    {
        self.at.law();
        if found.present {
            return self.mark_and_unlink(found, expected);
        }
        if expected.is_some() {
            self.tell_found(found, None)?;
        } else {
            self.answer_no(found)?;
        }
        Ok(Outcome::Unchanged(None))
    }
}

// Whether a value that is there is taken out: any, or the one that is expected.
#[inline(always)]
fn takes_out(expected: Option<u64>, value: u64) -> bool
    ensures { result ≡ takes_out expected (Some value) }
{
    match expected {
        Some(asked) => asked == value,
        None => true,
    }
}

/// Takes a key out of the set, in at most `budget` steps, and returns whether it was there. Nothing
/// rolls the answer back. The node that it marked has left its list at the end: if another pass
/// interferes, the call goes on as [`crate::find`] does until the node is out, unless less than a piece
/// is left of the budget. What the call unlinked is retired when it ends, answered or not, into the own
/// pool while that has room. Each slot that the pass could take is then in its own pool. The rest is as
/// `AtSet::remove` of `vbr_set` says.
pub fn remove(slots: &Slots, pass: &mut Pass, key: u64, budget: u32) -> Result<bool, Refusal>
    requires own { IsOf pass.old.trace slots.now }
    requires empty_hand { pass.old.hand ≡ None }
    ensures { Calls Remove pass.old pass.new key budget result }
{
    slots.kind();
    let answer = pass.during(
        |stepper|
            requires own { IsOf stepper.old.trace slots.now }
            requires empty_hand { stepper.old.hand ≡ None }
        { remove_by(slots, stepper, key, None, budget) },
    );
    is_yes(there_in(answer))
}

/// Like [`remove`], at a table whose nodes have values: returns the value that was stored with the key,
/// if the key was there. It is read before the node is marked. It was fixed when the node was
/// published, so it is the value of the entry which the mark removes. The rest is as the remove of a
/// map by `AtSet` of `vbr_set`.
pub fn remove_entry(
    slots: &Slots<Entries>,
    pass: &mut Pass,
    key: u64,
    budget: u32,
) -> Result<Option<u64>, Refusal>
    requires own { IsOf pass.old.trace slots.now }
    requires empty_hand { pass.old.hand ≡ None }
    ensures { CallsRemove pass.old pass.new key budget result }
{
    pass.law();
    slots.kind();
    let answer = pass.during(
        |stepper|
            requires own { IsOf stepper.old.trace slots.now }
            requires empty_hand { stepper.old.hand ≡ None }
        { remove_by(slots, stepper, key, None, budget) },
    );
    there_in(answer)
}

/// Like [`remove_entry`], but takes the key out only if it has the expected value, as
/// `AtSet::remove_if` of `vbr_set` says. If another value or none is there, the call is a get of it: it
/// takes effect at one load, after the value was read in an epoch that stood.
pub fn remove_if(
    slots: &Slots<Entries>,
    pass: &mut Pass,
    key: u64,
    expected: u64,
    budget: u32,
) -> Result<Outcome, Refusal>
    requires own { IsOf pass.old.trace slots.now }
    requires empty_hand { pass.old.hand ≡ None }
    ensures calls { CallsRemoveIf pass.old pass.new key expected budget (there_in result) }
    ensures changed { ChangedIfExpected expected result }
{
    pass.law();
    slots.kind();
    pass.during(
        |stepper|
            requires own { IsOf stepper.old.trace slots.now }
            requires empty_hand { stepper.old.hand ≡ None }
            requires values { slots.now.start.shape.values ≡ true }
        { remove_by(slots, stepper, key, Some(expected), budget) },
    )
}

/// Like [`remove`], but takes the key out only if its node has this entry's slot and birth, and returns
/// whether it did. The rest is as `AtSet::remove_exactly` of `vbr_set` says.
pub fn remove_key_exactly(
    slots: &Slots,
    pass: &mut Pass,
    key: u64,
    entry: &Entry,
    budget: u32,
) -> Result<bool, Refusal>
    requires own { IsOf pass.old.trace slots.now }
    requires empty_hand { pass.old.hand ≡ None }
    ensures { RemovesKeyExactly pass.old pass.new key entry.now budget result }
{
    slots.kind();
    let answer = pass.during(
        |stepper|
            requires own { IsOf stepper.old.trace slots.now }
            requires empty_hand { stepper.old.hand ≡ None }
        { remove_exactly_by(slots, stepper, key, entry, budget) },
    );
    is_yes(answer)
}

/// Like [`remove_key_exactly`], at a table whose nodes have values: returns the value that was stored
/// with the key, or none.
pub fn remove_exactly(
    slots: &Slots<Entries>,
    pass: &mut Pass,
    key: u64,
    entry: &Entry,
    budget: u32,
) -> Result<Option<u64>, Refusal>
    requires own { IsOf pass.old.trace slots.now }
    requires empty_hand { pass.old.hand ≡ None }
    ensures { RemovesExactly pass.old pass.new key entry.now budget result }
{
    pass.law();
    slots.kind();
    pass.during(
        |stepper|
            requires own { IsOf stepper.old.trace slots.now }
            requires empty_hand { stepper.old.hand ≡ None }
        { remove_exactly_by(slots, stepper, key, entry, budget) },
    )
}

// Like `remove_exactly`, but the pass counts no step; also returns the number of steps.
#[inline(always)]
fn remove_exactly_by<N: Nodes>(
    slots: &Slots<N>,
    stepper: &mut Stepper,
    key: u64,
    entry: &Entry,
    budget: u32,
) -> (Result<Option<u64>, Refusal>, u32)
    requires own { IsOf stepper.old.trace slots.now }
    requires empty_hand { stepper.old.hand ≡ None }
    ensures took { Took stepper.old.trace stepper.new.trace result.1 }
    ensures removes { RemovesNodeExactly stepper.old stepper.new key entry.now budget result.0 }
{
    let mut call = begin!(slots, stepper, key, budget, 0);
    call.at.law();
    loop {
        let Some(found) = call.reach() else {
            return (Err(Refusal::OutOfSteps { used: call.used }), call.used);
        };
        if !is_node_of(&found, entry) {
            return (Ok(None), call.used);
        }
        if let Ok(outcome) = call.mark_and_unlink(&found, None) {
            return (Ok(outcome.there()), call.used);
        }
    }
}

// The remove of a key, with any value or only with the expected one, with its value if nodes have
// values, and the number of steps made.
#[inline(always)]
fn remove_by<N: Nodes>(
    slots: &Slots<N>,
    stepper: &mut Stepper,
    key: u64,
    expected: Option<u64>,
    budget: u32,
) -> (Result<Outcome, Refusal>, u32)
    requires own { IsOf stepper.old.trace slots.now }
    requires empty_hand { stepper.old.hand ≡ None }
    requires expects { is_some expected ≡ true → slots.now.start.shape.values ≡ true }
    ensures took { Took stepper.old.trace stepper.new.trace result.1 }
    ensures calls { CallsAs (removal_in stepper.old.trace key expected)
        (BoundsOfRemove (takes_out expected) stepper.old stepper.new key budget)
        stepper.old stepper.new budget (there_in result.0) }
    ensures changed { IfOk result.0 (ChangedAsWanted (takes_out expected)) }
{
    let mut call = begin!(slots, stepper, key, budget, 0);
    call.at.law();
    loop {
        let Some(found) = call.reach() else {
            return (Err(Refusal::OutOfSteps { used: call.used }), call.used);
        };
        if let Ok(outcome) = call.settle_remove(&found, expected) {
            return (Ok(outcome), call.used);
        }
    }
}
