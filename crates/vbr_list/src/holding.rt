//! Inserts, puts and replacements by a slot that the pass has in hand already.
ghost use Rattle.std.specs.Prelude.{◌≡◌, false, true, IfOk, IfErr, None};
ghost use Rattle.vbr_at_table.specs.pools.GivingBack.{PutsBack};
ghost use Rattle.vbr_at_table.specs.hands.KeptSlots.{TakesNoSlot};
ghost use Rattle.vbr_at_table.specs.pools.Refusals.{RefusesTake};
ghost use Rattle.vbr_at_table.specs.pools.Taking.{Takes};
ghost use Rattle.vbr_list.specs.updates.HeldStores.{still_in_hand};
ghost use Rattle.vbr_list.specs.updates.Holding.{HoldsSlot, InsertsHeld, KeepsUnreplaced, PutsHeld, ReplacesFor, ReplacesHeldEntry};
ghost use Rattle.vbr_list.specs.updates.Inserting.{CountsWithin, HasHandAndRoom};
ghost use Rattle.vbr_list.specs.calls.Pieces.{IsSameCall, pass_in, trace_in};
ghost use Rattle.vbr_slots.specs.steps.Calls.{Took};
ghost use Rattle.vbr_slots.specs.views.Views.{IsOf};

use crate::call::{PendingCall, begin};
use crate::entries::{Entry, is_node_of};
use crate::new_value::NewValue;
use crate::storing::Unstored;
use crate::wanted::Wanted;
use vbr_at_table::{Hand, Refusal, take};
use vbr_slots::{AtTable, Pass, Slots, Stepper};
use vbr_words::{Entries, Nodes};

/// Why a slot in hand wasn't published. It is still in hand.
#[derive(Clone, Copy, Debug, PartialEq, Eq)]
pub enum StillInHand {
    /// The key is there: the insert was answered no.
    Present,
    /// The steps left of the budget are fewer than a piece of the call may take; no call was made.
    OutOfSteps {
        /// The steps that were made.
        used: u32,
    },
}

impl Unstored {
    // Why the slot in hand of an insert wasn't published.
    #[inline(always)]
    fn of_insert(self) -> StillInHand
        ensures { result ≡ still_in_hand self }
    {
        match self {
            Unstored::Otherwise(_) => StillInHand::Present,
            Unstored::OutOfSteps { used } => StillInHand::OutOfSteps { used },
        }
    }
}

/// Takes a slot in hand by [`vbr_at_table::take`], in at most `budget` steps. The rest is as
/// `VbrSet::hold` of `vbr_set` says.
pub fn hold<N: Nodes>(slots: &Slots<N>, pass: &mut Pass, budget: u32) -> Result<Hand, Refusal>
    requires own { IsOf pass.old.trace slots.now }
    requires empty_hand { pass.old.hand ≡ None }
    ensures takes { Takes pass.old pass.new budget }
    ensures held { IfOk result (HoldsSlot pass.old pass.new) }
    ensures refused { IfErr result (RefusesTake pass.old pass.new budget) }
{
    pass.during(
        |stepper|
            requires own { IsOf stepper.old.trace slots.now }
            requires empty_hand { stepper.old.hand ≡ None }
        { take(&mut AtTable { slots, stepper }, budget) },
    )
}

/// Puts a slot that is in hand back into the own pool, without a step.
#[inline]
pub fn let_go(pass: &mut Pass, hand: Hand)
    requires hand { HasHandAndRoom pass.old hand }
    ensures { PutsBack pass.old pass.new hand.slot }
{
    hand.go_back(pass);
}

/// Why a slot in hand didn't take the place of an entry. It is still in hand, and no call was made.
#[derive(Clone, Copy, Debug, PartialEq, Eq)]
pub enum NotReplaced {
    /// The key is absent, or another entry is there.
    Other,
    /// The steps left of the budget are fewer than a piece of the call may take.
    OutOfSteps {
        /// The steps that were made.
        used: u32,
    },
}

impl<N: Nodes> PendingCall<'_, N> {
    // Puts the slot in hand in the place of this entry, and of no other. Otherwise, or if the budget
    // has no room for one more piece, the hand comes back.
    #[inline(always)]
    fn replace_entry(
        &mut self,
        entry: &Entry,
        value: u64,
        mut hand: Hand,
    ) -> Result<(), (Hand, NotReplaced)>
        requires values { (trace_in self.old).start.shape.values ≡ true }
        requires hand { HasHandAndRoom (pass_in self.old) hand }
        ensures call { IsSameCall self.old self.new }
        ensures counts { CountsWithin (trace_in self.old) (trace_in self.new)
            self.old.used self.new.used self.old.budget }
        ensures takes_no_slot { TakesNoSlot (pass_in self.old) (pass_in self.new) }
        ensures replaced { IfOk result (λ _. ReplacesFor value self.old self.new hand entry.now) }
        ensures kept { IfErr result (KeepsUnreplaced self.old self.new hand entry.now) }
    {
        self.at.law();
        loop {
            let Some(found) = self.reach() else {
                return Err((hand, NotReplaced::OutOfSteps { used: self.used }));
            };
            if !is_node_of(&found, entry) {
                return Err((hand, NotReplaced::Other));
            }
            self.at.law();
            let Ok(_) = self.read_found(&found) else {
                continue;
            };
            match self.replace_and_unlink(&found, value, hand) {
                Ok(()) => return Ok(()),
                Err(back) => hand = back,
            }
        }
    }
}

/// Adds a key to the set by a slot that the pass has in hand, in at most `budget` steps. It searches as
/// [`crate::insert`] does with one in hand. The rest is as `VbrSet::insert_held` of `vbr_set` says.
pub fn insert_held(
    slots: &Slots,
    pass: &mut Pass,
    key: u64,
    hand: Hand,
    budget: u32,
) -> Result<(), (Hand, StillInHand)>
    requires own { IsOf pass.old.trace slots.now }
    requires hand { HasHandAndRoom pass.old hand }
    ensures { InsertsHeld pass.old pass.new key 0 budget hand result }
{
    slots.kind();
    pass.during_with(
        hand,
        |stepper, hand|
            requires own { IsOf stepper.old.trace slots.now }
            requires hand { HasHandAndRoom stepper.old hand }
        { insert_held_by(slots, stepper, key, 0, hand, budget) },
    )
}

/// Like [`insert_held`], at a table whose nodes have values: this value is stored with the key. The rest
/// is as `insert_held` of a map by `VbrSet` of `vbr_set`.
pub fn insert_entry_held(
    slots: &Slots<Entries>,
    pass: &mut Pass,
    key: u64,
    value: u64,
    hand: Hand,
    budget: u32,
) -> Result<(), (Hand, StillInHand)>
    requires own { IsOf pass.old.trace slots.now }
    requires hand { HasHandAndRoom pass.old hand }
    ensures { InsertsHeld pass.old pass.new key value budget hand result }
{
    slots.kind();
    pass.during_with(
        hand,
        |stepper, hand|
            requires own { IsOf stepper.old.trace slots.now }
            requires hand { HasHandAndRoom stepper.old hand }
        { insert_held_by(slots, stepper, key, value, hand, budget) },
    )
}

/// Puts the slot in hand in the place of an entry of the key, and of no other, with this value, in at
/// most `budget` steps. It links the slot, and unlinks the old node, as [`crate::store`] does. The rest
/// is as `VbrSet::replace_held` of `vbr_set` says.
pub fn replace_held(
    slots: &Slots<Entries>,
    pass: &mut Pass,
    key: u64,
    entry: &Entry,
    value: u64,
    hand: Hand,
    budget: u32,
) -> Result<(), (Hand, NotReplaced)>
    requires own { IsOf pass.old.trace slots.now }
    requires hand { HasHandAndRoom pass.old hand }
    ensures { ReplacesHeldEntry pass.old pass.new key value budget hand entry.now result }
{
    pass.law();
    slots.kind();
    pass.during_with(
        hand,
        |stepper, hand|
            requires own { IsOf stepper.old.trace slots.now }
            requires values { slots.now.start.shape.values ≡ true }
            requires hand { HasHandAndRoom stepper.old hand }
        { replace_held_by(slots, stepper, key, entry, value, hand, budget) },
    )
}

/// Gives a key a value by the slot in hand, whether the key is there or not, in at most `budget` steps,
/// and returns the value that it had. It searches and links as [`crate::put`] does with a slot in hand.
/// The rest is as `VbrSet::put_held` of `vbr_set` says.
pub fn put_held(
    slots: &Slots<Entries>,
    pass: &mut Pass,
    key: u64,
    value: u64,
    hand: Hand,
    budget: u32,
) -> Result<Option<u64>, (Hand, u32)>
    requires own { IsOf pass.old.trace slots.now }
    requires hand { HasHandAndRoom pass.old hand }
    ensures { PutsHeld pass.old pass.new key value budget hand result }
{
    pass.law();
    slots.kind();
    pass.during_with(
        hand,
        |stepper, hand|
            requires own { IsOf stepper.old.trace slots.now }
            requires values { slots.now.start.shape.values ≡ true }
            requires hand { HasHandAndRoom stepper.old hand }
        { put_held_by(slots, stepper, key, value, hand, budget) },
    )
}

// Like `put_held`, but the pass counts no step; also returns the number of steps.
fn put_held_by<N: Nodes>(
    slots: &Slots<N>,
    stepper: &mut Stepper,
    key: u64,
    value: u64,
    hand: Hand,
    budget: u32,
) -> (Result<Option<u64>, (Hand, u32)>, u32)
    requires own { IsOf stepper.old.trace slots.now }
    requires values { slots.now.start.shape.values ≡ true }
    requires hand { HasHandAndRoom stepper.old hand }
    ensures took { Took stepper.old.trace stepper.new.trace result.1 }
    ensures puts { PutsHeld stepper.old stepper.new key value budget hand result.0 }
{
    let mut call = begin!(slots, stepper, key, budget, 0);
    call.at.law();
    match call.store_held(NewValue::Exactly(value), Wanted::Anything, true, hand) {
        Ok(there) => (Ok(there), call.used),
        Err((back, why)) => match why {
            Unstored::OutOfSteps { used } => (Err((back, used)), call.used),
            Unstored::Otherwise(_) => unreachable!(),
        },
    }
}

// Like `replace_held`, but the pass counts no step; also returns the number of steps.
fn replace_held_by<N: Nodes>(
    slots: &Slots<N>,
    stepper: &mut Stepper,
    key: u64,
    entry: &Entry,
    value: u64,
    hand: Hand,
    budget: u32,
) -> (Result<(), (Hand, NotReplaced)>, u32)
    requires own { IsOf stepper.old.trace slots.now }
    requires values { slots.now.start.shape.values ≡ true }
    requires hand { HasHandAndRoom stepper.old hand }
    ensures took { Took stepper.old.trace stepper.new.trace result.1 }
    ensures replaces { ReplacesHeldEntry stepper.old stepper.new key value budget hand entry.now
        result.0 }
{
    let mut call = begin!(slots, stepper, key, budget, 0);
    call.at.law();
    let outcome = call.replace_entry(entry, value, hand);
    (outcome, call.used)
}

// Like `insert_entry_held`, but the pass counts no step; also returns the number of steps.
fn insert_held_by<N: Nodes>(
    slots: &Slots<N>,
    stepper: &mut Stepper,
    key: u64,
    value: u64,
    hand: Hand,
    budget: u32,
) -> (Result<(), (Hand, StillInHand)>, u32)
    requires own { IsOf stepper.old.trace slots.now }
    requires hand { HasHandAndRoom stepper.old hand }
    ensures took { Took stepper.old.trace stepper.new.trace result.1 }
    ensures inserts { InsertsHeld stepper.old stepper.new key value budget hand result.0 }
{
    let mut call = begin!(slots, stepper, key, budget, 0);
    call.at.law();
    match call.store_held(NewValue::Exactly(value), Wanted::Absent, false, hand) {
        Ok(_) => (Ok(()), call.used),
        Err((back, why)) => (Err((back, why.of_insert())), call.used),
    }
}
