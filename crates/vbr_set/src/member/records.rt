//! The calls on a member for a program that keeps a record of its own beside each slot. A member holds
//! at most one slot. Until that slot is published or let go, it is in the hand of its pass alone,
//! whatever calls the member makes meanwhile, and the program may write its record.
ghost use Rattle.std.specs.Prelude.{◌≡◌, None, is_some};
ghost use Rattle.vbr_set.specs.histories.Answers.{AnswersAll};
ghost use Rattle.vbr_set.specs.calls.HeldStores.{PutsHeldBy, ReplacesHeldBy, answer_unreplaced};
ghost use Rattle.vbr_set.specs.members.LettingGo.{LetsGo};
ghost use Rattle.vbr_set.specs.calls.MapCalls.{MapAnswersAll};
ghost use Rattle.vbr_set.specs.calls.RecordCalls.{AsksStill, FindsEntry, TakesAside, InsertsHeldBy, answer_held, insert_told, slot_aside, store_told, FindsKey};
ghost use Rattle.vbr_set.specs.calls.RemovingExactly.{TakesExactly, TakesKeyExactly};

use crate::at_set::at_set;
use crate::member::Member;
use crate::member::counting::{one_if_wanted, one_if_yes};
use crate::record_refusals::{HeldRefusal, HoldRefusal};
use vbr_at_table::Aside;
use vbr_list::{Entry, NotReplaced, Refusal, StillInHand, Wanted};
use vbr_slots::pass::POOL;
use vbr_words::{Entries, Nodes};

impl<N: Nodes> Member<N> {
    /// Takes a slot, holds it, and returns which it is, in at most `budget` steps. It takes the slot as
    /// an insert does: [`VbrSet::hold`] by its pass.
    ///
    /// # Errors
    ///
    /// - Held: the member holds a slot already, and has done nothing.
    /// - Refused: no slot was taken, for a reason for which an insert is refused. The member holds
    ///   none, and can go on at once.
    ///
    /// [`VbrSet::hold`]: crate::VbrSet::hold
    pub fn hold(&mut self, budget: u32) -> Result<u32, HoldRefusal>
        ensures set { self.new.set ≡ self.old.set }
        ensures holds { TakesAside self.old self.new budget result }
    {
        if self.aside.is_some() {
            return Err(HoldRefusal::Held);
        }
        match self.share.set().hold(&mut self.pass, budget) {
            Ok(hand) => {
                let aside = Aside::of(hand, &mut self.pass);
                self.aside = Some(aside);
                Ok(aside.slot)
            }
            Err(refusal) => Err(HoldRefusal::Refused(refusal)),
        }
    }

    /// The slot that the member holds, if it holds one.
    #[inline]
    pub fn held(&self) -> Option<u32>
        ensures { result ≡ slot_aside self.now.aside }
    {
        match self.aside {
            Some(aside) => Some(aside.slot),
            None => None,
        }
    }

    /// Lets go of the slot that the member holds, and returns whether it held one. The slot goes into
    /// the own pool, without a step, or, if that is full, into the shared one, in one step. It makes no
    /// call, and can't fail.
    pub fn let_go(&mut self) -> bool
        ensures set { self.new.set ≡ self.old.set }
        ensures lets_go { LetsGo self.old.aside self.old.pass self.new.pass }
        ensures none { self.new.aside ≡ None }
        ensures told { result ≡ is_some self.old.aside }
    {
        let Some(aside) = self.aside else {
            return false;
        };
        let hand = aside.take_up(&mut self.pass);
        self.share.set().let_go(&mut self.pass, hand);
        self.aside = None;
        true
    }

    /// [`VbrSet::is_still`] by its pass.
    #[inline]
    #[tactic(auto, using(vbr_at_table::proofs::Lemmas::kept_aside))]
    pub fn is_still(&mut self, entry: &Entry) -> bool
        ensures asks { AsksStill self.old self.new entry.now result }
        ensures aside { self.new.aside ≡ self.old.aside }
    {
        self.share.set().is_still(&mut self.pass, entry)
    }
}

impl Member {
    /// [`AtSet::get_entry`] by its pass.
    #[inline]
    pub fn get_entry(&mut self, key: u64, budget: u32) -> Result<Option<Entry>, Refusal>
        ensures finds { FindsKey self.old self.new key budget result }
        ensures aside { self.new.aside ≡ self.old.aside }
    {
        at_set!(self.share.set(), self.pass).get_entry(key, budget)
    }

    /// [`AtSet::remove_exactly`] by its pass.
    #[inline]
    pub fn remove_exactly(&mut self, key: u64, entry: &Entry, budget: u32) -> Result<bool, Refusal>
        ensures takes { TakesKeyExactly self.old self.new key entry.now budget result }
        ensures aside { self.new.aside ≡ self.old.aside }
    {
        let answer = at_set!(self.share.set(), self.pass).remove_exactly(key, entry, budget);
        self.balance = self.balance.wrapping_sub(one_if_yes(&answer));
        answer
    }

    /// Adds a key by the slot that the member holds, in at most `budget` steps, and returns whether the
    /// key was absent: [`VbrSet::insert_held`] by its pass. If it was, this very slot is now the key's
    /// node, and the member holds none. Otherwise it still holds the slot.
    ///
    /// # Errors
    ///
    /// NotHeld and Full, after which nothing was done, and OutOfSteps. After any of them the member has
    /// made no call, and can go on at once.
    ///
    /// [`VbrSet::insert_held`]: crate::VbrSet::insert_held
    pub fn insert_held(&mut self, key: u64, budget: u32) -> Result<bool, HeldRefusal>
        ensures set { self.new.set ≡ self.old.set }
        ensures inserts { InsertsHeldBy AnswersAll (insert_told key) self.old self.new
            key 0 budget result }
    {
        let Some(aside) = self.aside else {
            return Err(HeldRefusal::NotHeld);
        };
        if self.pass.pool().len() >= POOL {
            return Err(HeldRefusal::Full);
        }
        let hand = aside.take_up(&mut self.pass);
        match self
            .share
            .set()
            .insert_held(&mut self.pass, key, hand, budget)
        {
            Ok(()) => {
                self.aside = None;
                self.balance = self.balance.wrapping_add(1);
                Ok(true)
            }
            Err((hand, why)) => {
                let _still = Aside::of(hand, &mut self.pass);
                answer_held(why)
            }
        }
    }
}

impl Member<Entries> {
    /// [`AtSet::get_entry`] by its pass.
    #[inline]
    pub fn get_entry(&mut self, key: u64, budget: u32) -> Result<Option<Entry>, Refusal>
        ensures finds { FindsEntry self.old self.new key budget result }
        ensures aside { self.new.aside ≡ self.old.aside }
    {
        at_set!(self.share.set(), self.pass).get_entry(key, budget)
    }

    /// [`AtSet::remove_exactly`] by its pass.
    #[inline]
    pub fn remove_exactly(
        &mut self,
        key: u64,
        entry: &Entry,
        budget: u32,
    ) -> Result<Option<u64>, Refusal>
        ensures takes { TakesExactly self.old self.new key entry.now budget result }
        ensures aside { self.new.aside ≡ self.old.aside }
    {
        let answer = at_set!(self.share.set(), self.pass).remove_exactly(key, entry, budget);
        self.balance = self
            .balance
            .wrapping_sub(one_if_wanted(&answer, Wanted::Present));
        answer
    }

    /// Adds a key with its value by the slot that the member holds, as `insert_held` of a
    /// [`crate::Member`] adds a key, with the same errors: [`VbrMap::insert_held`] by its pass.
    ///
    /// [`VbrMap::insert_held`]: crate::VbrMap::insert_held
    pub fn insert_held(&mut self, key: u64, value: u64, budget: u32) -> Result<bool, HeldRefusal>
        ensures set { self.new.set ≡ self.old.set }
        ensures inserts { InsertsHeldBy MapAnswersAll (store_told key value) self.old self.new
            key value budget result }
    {
        let Some(aside) = self.aside else {
            return Err(HeldRefusal::NotHeld);
        };
        if self.pass.pool().len() >= POOL {
            return Err(HeldRefusal::Full);
        }
        let hand = aside.take_up(&mut self.pass);
        match self
            .share
            .set()
            .insert_held(&mut self.pass, key, value, hand, budget)
        {
            Ok(()) => {
                self.aside = None;
                self.balance = self.balance.wrapping_add(1);
                Ok(true)
            }
            Err((hand, why)) => {
                let _still = Aside::of(hand, &mut self.pass);
                answer_held(why)
            }
        }
    }

    /// Gives a key a value by the slot that the member holds, whether the key is there or not, in at
    /// most `budget` steps, and returns the value that it had: [`VbrMap::put_held`] by its pass. This
    /// very slot is then the key's node, and the member holds none.
    ///
    /// # Errors
    ///
    /// NotHeld and Full, after which nothing was done, and OutOfSteps. After any of them the member has
    /// made no call, and can go on at once.
    ///
    /// [`VbrMap::put_held`]: crate::VbrMap::put_held
    pub fn put_held(
        &mut self,
        key: u64,
        value: u64,
        budget: u32,
    ) -> Result<Option<u64>, HeldRefusal>
        ensures set { self.new.set ≡ self.old.set }
        ensures puts { PutsHeldBy self.old self.new key value budget result }
    {
        let Some(aside) = self.aside else {
            return Err(HeldRefusal::NotHeld);
        };
        if self.pass.pool().len() >= POOL {
            return Err(HeldRefusal::Full);
        }
        let hand = aside.take_up(&mut self.pass);
        match self
            .share
            .set()
            .put_held(&mut self.pass, key, value, hand, budget)
        {
            Ok(there) => {
                self.aside = None;
                self.balance = self
                    .balance
                    .wrapping_add(one_if_wanted(&Ok(there), Wanted::Absent));
                Ok(there)
            }
            Err((hand, used)) => {
                let _still = Aside::of(hand, &mut self.pass);
                Err(HeldRefusal::OutOfSteps { used })
            }
        }
    }

    /// Puts the slot that the member holds, with a value, in the place of this entry's node, which has
    /// the entry's slot and birth. It takes at most `budget` steps, and returns whether it did:
    /// [`VbrMap::replace_held`] by its pass. If it did, the member holds none. Otherwise the key was
    /// absent at some moment meanwhile, or had another node; no call was made, and the member still
    /// holds the slot.
    ///
    /// # Errors
    ///
    /// NotHeld and Full, after which nothing was done, and OutOfSteps. After any of them the member has
    /// made no call, and can go on at once.
    ///
    /// [`VbrMap::replace_held`]: crate::VbrMap::replace_held
    pub fn replace_held(
        &mut self,
        key: u64,
        entry: &Entry,
        value: u64,
        budget: u32,
    ) -> Result<bool, HeldRefusal>
        ensures set { self.new.set ≡ self.old.set }
        ensures replaces { ReplacesHeldBy self.old self.new key value budget entry.now result }
    {
        let Some(aside) = self.aside else {
            return Err(HeldRefusal::NotHeld);
        };
        if self.pass.pool().len() >= POOL {
            return Err(HeldRefusal::Full);
        }
        let hand = aside.take_up(&mut self.pass);
        match self
            .share
            .set()
            .replace_held(&mut self.pass, key, entry, value, hand, budget)
        {
            Ok(()) => {
                self.aside = None;
                Ok(true)
            }
            Err((hand, why)) => {
                let _still = Aside::of(hand, &mut self.pass);
                answer_unreplaced(why)
            }
        }
    }
}

// The answer if the slot that a member holds didn't take an entry's place.
fn answer_unreplaced(why: NotReplaced) -> Result<bool, HeldRefusal>
    ensures { result ≡ answer_unreplaced why }
{
    match why {
        NotReplaced::Other => Ok(false),
        NotReplaced::OutOfSteps { used } => Err(HeldRefusal::OutOfSteps { used }),
    }
}

// The answer if the slot that a member holds wasn't published.
fn answer_held(why: StillInHand) -> Result<bool, HeldRefusal>
    ensures { result ≡ answer_held why }
{
    match why {
        StillInHand::Present => Ok(false),
        StillInHand::OutOfSteps { used } => Err(HeldRefusal::OutOfSteps { used }),
    }
}
