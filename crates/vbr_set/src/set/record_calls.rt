//! The calls for a program that keeps a record of its own beside each slot.
ghost use Rattle.std.specs.Prelude.{◌≡◌, None, IfOk, IfErr};
ghost use Rattle.vbr_slots.specs.steps.Calls.{Quiet};
ghost use Rattle.vbr_slots.specs.views.Views.{IsOf};
ghost use Rattle.vbr_at_table.specs.hands.Hands.{IsHandOf};
ghost use Rattle.vbr_at_table.specs.pools.Refusals.{RefusesTake};
ghost use Rattle.vbr_at_table.specs.pools.Taking.{Takes};
ghost use Rattle.vbr_list.specs.updates.Holding.{HoldsSlot};
ghost use Rattle.vbr_list.specs.updates.Inserting.{HasHandAndRoom};
ghost use Rattle.vbr_set.specs.histories.Answers.{AnswersAll};
ghost use Rattle.vbr_set.specs.calls.HeldStores.{PutsByHeld, ReplacesByHeld};
ghost use Rattle.vbr_set.specs.members.LettingGo.{ComesBack};
ghost use Rattle.vbr_set.specs.calls.MapCalls.{MapAnswersAll};
ghost use Rattle.vbr_set.specs.calls.Members.{as_member};
ghost use Rattle.vbr_set.specs.calls.RecordCalls.{AsksStill, FindsEntry, FindsKey, InsertsByHeld, insert_told, store_told};
ghost use Rattle.vbr_set.specs.calls.RemovingExactly.{TakesExactly, TakesKeyExactly};

use crate::at_set::{AtSet, between_laws};
use crate::set::VbrSet;
use vbr_at_table::Hand;
use vbr_list::{
    Entry, NotReplaced, Refusal, StillInHand, hold, insert_entry_held, insert_held, is_still,
    put_held, replace_held,
};
use vbr_machine::laws::a_run_is_a_map;
use vbr_slots::Pass;
use vbr_slots::pass::POOL;
use vbr_words::{Entries, Nodes};

impl<N: Nodes> VbrSet<N> {
    /// Whether the slot of an entry still shows its birth, in one step, a load. If it does, the slot was
    /// the entry's own until that step, and no pass had it in hand; otherwise it was handed out anew. A
    /// slot outside the shape shows none, and then no step is made.
    #[inline]
    pub fn is_still(&self, pass: &mut Pass, entry: &Entry) -> bool
        requires own { IsOf pass.old.trace self.now }
        ensures { AsksStill (as_member self.now pass.old) (as_member self.now pass.new)
            entry.now result }
    {
        let still = is_still(&self.slots, pass, entry);
        pass.law();
        still
    }

    /// Takes a slot in hand, in at most `budget` steps. It is taken as an insert takes one, with the
    /// refusals of [`vbr_at_table::take`]. It is then born in, and in the hand of this pass alone until it
    /// is published or let go: until then only this pass may write its record.
    #[inline]
    pub fn hold(&self, pass: &mut Pass, budget: u32) -> Result<Hand, Refusal>
        requires own { IsOf pass.old.trace self.now }
        requires empty_hand { pass.old.hand ≡ None }
        ensures takes { Takes pass.old pass.new budget }
        ensures held { IfOk result (HoldsSlot pass.old pass.new) }
        ensures refused { IfErr result (RefusesTake pass.old pass.new budget) }
    {
        hold(&self.slots, pass, budget)
    }

    /// Lets the slot in hand go: into the own pool, without a step, or, if that is full, into the
    /// shared one, in one step.
    pub fn let_go(&self, pass: &mut Pass, hand: Hand)
        requires own { IsOf pass.old.trace self.now }
        requires hand { IsHandOf pass.old hand }
        ensures comes_back { ComesBack hand.slot pass.old pass.new }
        ensures hand { pass.new.hand ≡ None }
        ensures quiet { Quiet pass.old.trace pass.new.trace }
    {
        pass.law();
        if pass.pool().len() < POOL {
            hand.go_back(pass);
        } else {
            self.slots.raise(pass, hand.slot());
            hand.spent(pass);
        }
    }
}

impl VbrSet {
    /// [`AtSet::get_entry`] by a pass.
    #[inline]
    pub fn get_entry(
        &self,
        pass: &mut Pass,
        key: u64,
        budget: u32,
    ) -> Result<Option<Entry>, Refusal>
        requires own { IsOf pass.old.trace self.now }
        requires empty_hand { pass.old.hand ≡ None }
        ensures { FindsKey (as_member self.now pass.old) (as_member self.now pass.new)
            key budget result }
    {
        AtSet { set: self, pass }.get_entry(key, budget)
    }

    /// [`AtSet::remove_exactly`] by a pass.
    #[inline]
    pub fn remove_exactly(
        &self,
        pass: &mut Pass,
        key: u64,
        entry: &Entry,
        budget: u32,
    ) -> Result<bool, Refusal>
        requires own { IsOf pass.old.trace self.now }
        requires empty_hand { pass.old.hand ≡ None }
        ensures { TakesKeyExactly (as_member self.now pass.old) (as_member self.now pass.new)
            key entry.now budget result }
    {
        AtSet { set: self, pass }.remove_exactly(key, entry, budget)
    }

    /// Adds a key by the slot in hand, in at most `budget` steps. This very slot becomes the node of the
    /// key, with the birth that it has in hand. The call takes no other slot.
    ///
    /// [`StillInHand::Present`] means that the insert was answered no, as the key is there;
    /// [`StillInHand::OutOfSteps`] that the steps didn't suffice, and no call was made. After either the
    /// slot is still in hand.
    ///
    /// While the other passes stand still, a budget of 9n + 11 is enough, with n nodes in the key's
    /// bucket, and an answered call took at most 9n + 6 steps.
    #[inline]
    pub fn insert_held(
        &self,
        pass: &mut Pass,
        key: u64,
        hand: Hand,
        budget: u32,
    ) -> Result<(), (Hand, StillInHand)>
        requires own { IsOf pass.old.trace self.now }
        requires hand { HasHandAndRoom pass.old hand }
        ensures { InsertsByHeld AnswersAll (insert_told key) pass.old pass.new
            key 0 budget hand result }
    {
        self.slots.kind();
        between_laws!(self, pass, insert_held(key, hand, budget))
    }
}

impl VbrSet<Entries> {
    /// [`AtSet::get_entry`] by a pass.
    #[inline]
    pub fn get_entry(
        &self,
        pass: &mut Pass,
        key: u64,
        budget: u32,
    ) -> Result<Option<Entry>, Refusal>
        requires own { IsOf pass.old.trace self.now }
        requires empty_hand { pass.old.hand ≡ None }
        ensures { FindsEntry (as_member self.now pass.old) (as_member self.now pass.new)
            key budget result }
    {
        AtSet { set: self, pass }.get_entry(key, budget)
    }

    /// [`AtSet::remove_exactly`] by a pass.
    #[inline]
    pub fn remove_exactly(
        &self,
        pass: &mut Pass,
        key: u64,
        entry: &Entry,
        budget: u32,
    ) -> Result<Option<u64>, Refusal>
        requires own { IsOf pass.old.trace self.now }
        requires empty_hand { pass.old.hand ≡ None }
        ensures { TakesExactly (as_member self.now pass.old) (as_member self.now pass.new)
            key entry.now budget result }
    {
        AtSet { set: self, pass }.remove_exactly(key, entry, budget)
    }

    /// Adds a key with its value by the slot in hand, in at most `budget` steps. It is the `insert_held` of
    /// a set, with the same budgets and refusals. Storing the value takes one step more, so an answer
    /// takes at most one more.
    #[inline]
    pub fn insert_held(
        &self,
        pass: &mut Pass,
        key: u64,
        value: u64,
        hand: Hand,
        budget: u32,
    ) -> Result<(), (Hand, StillInHand)>
        requires own { IsOf pass.old.trace self.now }
        requires hand { HasHandAndRoom pass.old hand }
        ensures { InsertsByHeld MapAnswersAll (store_told key value) pass.old pass.new
            key value budget hand result }
    {
        a_run_is_a_map();
        self.slots.kind();
        between_laws!(self, pass, insert_entry_held(key, value, hand, budget))
    }

    /// Gives a key a value by the slot in hand, whether the key is there or not, in at most `budget` steps.
    /// Returns the value that the key had, or none if it was absent. This very slot becomes the node of
    /// the key, with the birth that it has in hand. The call takes no other slot.
    ///
    /// Its calls in the history are those of an [`AtSet::put`]. A replaced node is then out of its list,
    /// unless fewer than eight steps of the budget are left.
    ///
    /// Its only refusal is for want of steps: the hand comes back, with the number of steps made, and no
    /// call was made. Budgets and steps are as for [`VbrSet::replace_held`].
    #[inline]
    pub fn put_held(
        &self,
        pass: &mut Pass,
        key: u64,
        value: u64,
        hand: Hand,
        budget: u32,
    ) -> Result<Option<u64>, (Hand, u32)>
        requires own { IsOf pass.old.trace self.now }
        requires hand { HasHandAndRoom pass.old hand }
        ensures { PutsByHeld pass.old pass.new key value budget hand result }
    {
        a_run_is_a_map();
        between_laws!(self, pass, put_held(key, value, hand, budget))
    }

    /// Puts the slot in hand, with a value, in the place of this entry's node, and of no other, in at most
    /// `budget` steps. In the history the key is removed with the value that it had, and inserted with
    /// this one, next to each other. The old node is then out of its list, unless fewer than eight steps
    /// of the budget are left. The call takes no other slot.
    ///
    /// [`NotReplaced::Other`] means that at a moment of the call the key was absent, or its node wasn't
    /// the entry's; [`NotReplaced::OutOfSteps`] that the steps didn't suffice. After either the slot is
    /// still in hand, and no call was made.
    ///
    /// While the other passes stand still, a budget of 9n + 11 is enough, with n nodes in the key's
    /// bucket, and with eight more the old node has left its list. A replacement takes at most 9n + 17
    /// steps, and the answer that another is there 9n + 3.
    #[inline]
    pub fn replace_held(
        &self,
        pass: &mut Pass,
        key: u64,
        entry: &Entry,
        value: u64,
        hand: Hand,
        budget: u32,
    ) -> Result<(), (Hand, NotReplaced)>
        requires own { IsOf pass.old.trace self.now }
        requires hand { HasHandAndRoom pass.old hand }
        ensures { ReplacesByHeld pass.old pass.new key value budget hand entry.now result }
    {
        a_run_is_a_map();
        between_laws!(self, pass, replace_held(key, entry, value, hand, budget))
    }
}
