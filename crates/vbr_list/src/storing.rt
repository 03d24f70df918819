//! Conditional stores: a value is stored if the key's state is the wanted one. An insert is a store
//! that wants its key absent.
ghost use Rattle.std.specs.Prelude.{◌≡◌, ◌+◌, ◌≤◌, false, true, None, IfOk, IfErr};
ghost use Rattle.vbr_slots.specs.steps.Calls.{Took};
ghost use Rattle.vbr_slots.specs.views.Views.{IsOf};
ghost use Rattle.vbr_at_table.specs.hands.KeptSlots.{TakesNoSlot};
ghost use Rattle.vbr_list.specs.updates.HeldStores.{KeepsUnstored, StoresWanted, answer_unstored};
ghost use Rattle.vbr_list.specs.updates.Inserting.{CountsWithin, HasHandAndRoom};
ghost use Rattle.vbr_list.specs.updates.NewValues.{sum_in, value_after, value_by};
ghost use Rattle.vbr_list.specs.calls.Pieces.{IsSameCall, pass_in, trace_in};
ghost use Rattle.vbr_list.specs.updates.Preparing.{GivesOrInserts};
ghost use Rattle.vbr_list.specs.updates.Replacing.{HasUnused};
ghost use Rattle.vbr_list.specs.updates.Outcomes.{ChangedAsWanted, ChangedIfExpected, there_in};
ghost use Rattle.vbr_list.specs.updates.Settling.{LeavesInHand, LinksNode, MaySettle};
ghost use Rattle.vbr_list.specs.updates.Storing.{CallsStore};
ghost use Rattle.vbr_list.specs.updates.Updating.{CallsUpdate, MayUpdate};
ghost use Rattle.vbr_list.specs.updates.Wanted.{wants};
ghost use Rattle.vbr_list.specs.traversals.Traversing.{LocatesFor};
ghost use Rattle.vbr_list.specs.declared.wanted.Wanted.TheVariants.{Absent, Anything, Present, Value};
ghost use Rattle.vbr_list.specs.calls.Words.{wide_found};

use crate::call::{PendingCall, begin};
use crate::found::Found;
use crate::new_value::NewValue;
use crate::outcome::{Outcome, there_in};
use crate::preparing::{Prepared, Unmet};
use crate::valuing::steps_to_update;
use crate::wanted::Wanted;
use vbr_at_table::{Hand, Refusal, give_back, update};
use vbr_slots::{Pass, Slots, Stepper};
use vbr_words::{Entries, Nodes};

/// Why a slot in hand wasn't published with a value. It is still in hand.
pub(crate) enum Unstored {
    /// This is there, and isn't what is wanted: the call is answered with it.
    Otherwise(Option<u64>),
    /// The steps left of the budget are fewer than a piece of the call may take; no call was made.
    OutOfSteps {
        /// The steps that were made.
        used: u32,
    },
}

impl Unstored {
    // The answer of a store whose slot wasn't published.
    #[inline(always)]
    fn answer(self) -> Result<Outcome, Refusal>
        ensures { result ≡ answer_unstored self }
    {
        match self {
            Unstored::Otherwise(there) => Ok(Outcome::Unchanged(there)),
            Unstored::OutOfSteps { used } => Err(Refusal::OutOfSteps { used }),
        }
    }
}

impl<N: Nodes> PendingCall<'_, N> {
    // Links the slot in hand with this value if the key was found absent. Otherwise the hand comes
    // back.
    #[inline(always)]
    fn link_found(&mut self, found: &Found, value: u64, hand: Hand) -> Result<(), Hand>
        requires locates { LocatesFor self.old (wide_found self.old found.now) }
        requires absent { found.now.present ≡ false }
        requires hand { HasHandAndRoom (pass_in self.old) hand }
        requires room { self.old.used + 6 ≤ self.old.budget }
        ensures settles { MaySettle self.old self.new }
        ensures linked { IfOk result (λ _. LinksNode value self.old self.new hand) }
        ensures back { IfErr result
            (LeavesInHand 4 self.old self.new (wide_found self.old found.now) hand) }
    {
        self.at.law();
        self.used += steps_to_update(self.at.slots);
        match update(
            &mut self.at,
            &found.pred,
            found.cur.as_ref(),
            self.key,
            value,
            hand,
        ) {
            Ok(()) => Ok(()),
            Err((back, _)) => Err(back),
        }
    }

    /// Stores a value by the slot in hand, if the key's state is then the wanted one, and returns what
    /// was there, from which the value follows. Otherwise, or if the budget has no room for one more
    /// piece, the hand comes back. An insert is the store that wants its key absent and gives nothing:
    /// if the key is there, it is answered no.
    #[inline(always)]
    pub(crate) fn store_held(
        &mut self,
        value: NewValue,
        wanted: Wanted,
        gives: bool,
        mut hand: Hand,
    ) -> Result<Option<u64>, (Hand, Unstored)>
        requires asked { GivesOrInserts gives wanted self.old }
        requires hand { HasHandAndRoom (pass_in self.old) hand }
        ensures call { IsSameCall self.old self.new }
        ensures counts { CountsWithin (trace_in self.old) (trace_in self.new)
            self.old.used self.new.used self.old.budget }
        ensures takes_no_slot { TakesNoSlot (pass_in self.old) (pass_in self.new) }
        ensures had { HasUnused (pass_in self.old) (pass_in self.new) result }
        ensures stored { IfOk result (λ there.
            StoresWanted gives (value_after value there) wanted self.old self.new hand there) }
        ensures kept { IfErr result (KeepsUnstored gives wanted self.old self.new hand) }
    {
        self.at.law();
        loop {
            let Some(found) = self.reach() else {
                return Err((hand, Unstored::OutOfSteps { used: self.used }));
            };
            self.at.law();
            let there = match self.ask(&found, wanted, gives) {
                Ok(there) => there,
                Err(unmet) => match unmet {
                    Unmet::Otherwise(there) => return Err((hand, Unstored::Otherwise(there))),
                    Unmet::Changed => continue,
                },
            };
            let stored = value.after(there);
            match there {
                None => match self.link_found(&found, stored, hand) {
                    Ok(()) => return Ok(None),
                    Err(back) => hand = back,
                },
                Some(_) => match self.replace_and_unlink(&found, stored, hand) {
                    Ok(()) => return Ok(there),
                    Err(back) => hand = back,
                },
            }
        }
    }
}

/// Conditional store: gives a key a value if the key's state matches `wanted`, in at most `budget`
/// steps, and returns what was there. A store takes a slot once it has found the key in the wanted
/// state, or at once if anything is wanted, and traverses anew with it. A slot that is left over goes
/// back to the own pool. A node that it replaced has left its list at the end: if another pass
/// interferes, the call goes on as [`crate::find`] does until the node is out, unless less than a piece
/// is left of the budget. The rest is as `AtSet::store` of `vbr_set` says.
#[inline]
pub fn store(
    slots: &Slots<Entries>,
    pass: &mut Pass,
    key: u64,
    value: u64,
    wanted: Wanted,
    budget: u32,
) -> Result<Option<u64>, Refusal>
    requires own { IsOf pass.old.trace slots.now }
    requires empty_hand { pass.old.hand ≡ None }
    ensures { CallsStore pass.old pass.new key value wanted budget result }
{
    match wanted {
        Wanted::Absent => get_or_insert(slots, pass, key, value, budget),
        Wanted::Present => replace(slots, pass, key, value, budget),
        Wanted::Anything => put(slots, pass, key, value, budget),
        Wanted::Value(expected) => {
            there_in(compare_exchange(slots, pass, key, expected, value, budget))
        }
    }
}

/// [`store`] with [`Wanted::Present`], compiled for that case.
#[inline]
pub fn replace(
    slots: &Slots<Entries>,
    pass: &mut Pass,
    key: u64,
    value: u64,
    budget: u32,
) -> Result<Option<u64>, Refusal>
    requires own { IsOf pass.old.trace slots.now }
    requires empty_hand { pass.old.hand ≡ None }
    ensures { CallsStore pass.old pass.new key value Present budget result }
{
    let value = NewValue::Exactly(value);
    let answer = pass.during(
        |stepper|
            requires own { IsOf stepper.old.trace slots.now }
            requires empty_hand { stepper.old.hand ≡ None }
        { store_by(slots, stepper, key, value, Wanted::Present, true, budget) },
    );
    there_in(answer)
}

/// [`store`] with [`Wanted::Anything`], compiled for that case.
#[inline]
pub fn put(
    slots: &Slots<Entries>,
    pass: &mut Pass,
    key: u64,
    value: u64,
    budget: u32,
) -> Result<Option<u64>, Refusal>
    requires own { IsOf pass.old.trace slots.now }
    requires empty_hand { pass.old.hand ≡ None }
    ensures { CallsStore pass.old pass.new key value Anything budget result }
{
    let value = NewValue::Exactly(value);
    let answer = pass.during(
        |stepper|
            requires own { IsOf stepper.old.trace slots.now }
            requires empty_hand { stepper.old.hand ≡ None }
        { store_by(slots, stepper, key, value, Wanted::Anything, true, budget) },
    );
    there_in(answer)
}

/// Fetch-and-add: a [`put`] of the value that follows from what was there, as `AtSet::fetch_add` of
/// `vbr_set` says.
#[inline]
pub fn fetch_add(
    slots: &Slots<Entries>,
    pass: &mut Pass,
    key: u64,
    delta: u64,
    budget: u32,
) -> Result<Option<u64>, Refusal>
    requires own { IsOf pass.old.trace slots.now }
    requires empty_hand { pass.old.hand ≡ None }
    ensures { CallsStore pass.old pass.new key (sum_in delta result) Anything budget result }
{
    let value = NewValue::Sum(delta);
    let answer = pass.during(
        |stepper|
            requires own { IsOf stepper.old.trace slots.now }
            requires empty_hand { stepper.old.hand ≡ None }
        { store_by(slots, stepper, key, value, Wanted::Anything, true, budget) },
    );
    there_in(answer)
}

/// [`store`] with [`Wanted::Absent`], compiled for that case.
#[inline]
pub fn get_or_insert(
    slots: &Slots<Entries>,
    pass: &mut Pass,
    key: u64,
    value: u64,
    budget: u32,
) -> Result<Option<u64>, Refusal>
    requires own { IsOf pass.old.trace slots.now }
    requires empty_hand { pass.old.hand ≡ None }
    ensures { CallsStore pass.old pass.new key value Absent budget result }
{
    let value = NewValue::Exactly(value);
    let answer = pass.during(
        |stepper|
            requires own { IsOf stepper.old.trace slots.now }
            requires empty_hand { stepper.old.hand ≡ None }
        { store_by(slots, stepper, key, value, Wanted::Absent, true, budget) },
    );
    there_in(answer)
}

/// [`store`] with [`Wanted::Value`], compiled for that case. Also returns whether it stored the value.
#[inline]
pub fn compare_exchange(
    slots: &Slots<Entries>,
    pass: &mut Pass,
    key: u64,
    expected: u64,
    value: u64,
    budget: u32,
) -> Result<Outcome, Refusal>
    requires own { IsOf pass.old.trace slots.now }
    requires empty_hand { pass.old.hand ≡ None }
    ensures calls { CallsStore pass.old pass.new key value (Value expected) budget
        (there_in result) }
    ensures changed { ChangedIfExpected expected result }
{
    let value = NewValue::Exactly(value);
    pass.during(
        |stepper|
            requires own { IsOf stepper.old.trace slots.now }
            requires empty_hand { stepper.old.hand ≡ None }
        {
            store_by(
                slots,
                stepper,
                key,
                value,
                Wanted::Value(expected),
                true,
                budget,
            )
        },
    )
}

/// Like `store`, but the pass counts no step; also returns the number of steps. If it gives nothing, it
/// is an insert. With a slot in hand it searches anew, and stores by it, or gives it back if the key's
/// state has changed from the wanted one meanwhile.
#[inline(always)]
pub(crate) fn store_by<N: Nodes>(
    slots: &Slots<N>,
    stepper: &mut Stepper,
    key: u64,
    value: NewValue,
    wanted: Wanted,
    gives: bool,
    budget: u32,
) -> (Result<Outcome, Refusal>, u32)
    requires own { IsOf stepper.old.trace slots.now }
    requires empty_hand { stepper.old.hand ≡ None }
    requires asked { MayUpdate gives N.VALUES wanted }
    ensures took { Took stepper.old.trace stepper.new.trace result.1 }
    ensures calls { CallsUpdate gives stepper.old stepper.new key
        (value_by value (there_in result.0)) wanted budget result.0 }
    ensures changed { IfOk result.0 (ChangedAsWanted (wants wanted)) }
{
    slots.kind();
    let mut call = begin!(slots, stepper, key, budget, 0);
    call.at.law();
    let hand = match call.prepare(wanted, gives) {
        Ok(Prepared::Ready(hand)) => hand,
        Ok(Prepared::Answered(there)) => return (Ok(Outcome::Unchanged(there)), call.used),
        Err(refusal) => return (Err(refusal), call.used),
    };
    match call.store_held(value, wanted, gives, hand) {
        Ok(there) => (Ok(Outcome::Changed(there)), call.used),
        Err((back, why)) => {
            give_back(&mut call.at, back);
            (why.answer(), call.used)
        }
    }
}
