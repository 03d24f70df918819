//! The calls of a caller at its map: inserts, removes, gets and stores.
ghost use Rattle.vbr_list.specs.updates.Outcomes.{ChangedIfExpected, there_in};
ghost use Rattle.vbr_set.specs.calls.AtSets.{IsSameSet, member_after, member_at};
ghost use Rattle.vbr_set.specs.calls.MapCalls.{AddsEntry, ExchangesEntry, GetsEntry, GetsOrInsertsEntry, InsertsEntry, PutsEntry, RemovesEntry, RemovesIf, ReplacesEntry, StoresEntry};

use crate::at_set::{AtSet, between_laws};
use vbr_list::{
    Outcome, Refusal, Wanted, compare_exchange, fetch_add, get, get_or_insert, insert_entry, put,
    remove_entry, remove_if, replace, store,
};
use vbr_machine::laws::a_run_is_a_map;
use vbr_words::Entries;

impl AtSet<'_, Entries> {
    /// Adds a key with its value, in at most `budget` steps, and returns whether the key was absent. If
    /// it was present, its value stays: [`AtSet::store`] is the call that changes it.
    ///
    /// It is the insert of a set, [`AtSet::insert`], with the same budgets and refusals. Storing the
    /// value takes one step more, so an answer takes at most one more. After a refusal the pass has
    /// made no call and has no slot in hand, and no history has the call.
    #[inline]
    pub fn insert(&mut self, key: u64, value: u64, budget: u32) -> Result<bool, Refusal>
        ensures same { IsSameSet self.old self.new }
        ensures told { InsertsEntry (member_at self.old) (member_after self.old self.new)
            key value budget result }
    {
        a_run_is_a_map();
        between_laws!(self.set, self.pass, insert_entry(key, value, budget))
    }

    /// Takes a key out, in at most `budget` steps, and returns the value that was stored with it, if it
    /// was there. The value is read before the node is marked; a node keeps its value from when it is
    /// published.
    ///
    /// It is the remove of a set, [`AtSet::remove`], with the same budgets and refusals. An answer
    /// takes two steps more: while the other passes stand still, at most 9n + 12, and with 9n + 14 a yes
    /// leaves fewer nodes in the key's bucket.
    #[inline]
    pub fn remove(&mut self, key: u64, budget: u32) -> Result<Option<u64>, Refusal>
        ensures same { IsSameSet self.old self.new }
        ensures told { RemovesEntry (member_at self.old) (member_after self.old self.new)
            key budget result }
    {
        a_run_is_a_map();
        between_laws!(self.set, self.pass, remove_entry(key, budget))
    }

    /// Returns the value that is stored with a key, if the key is there, in at most `budget` steps. It
    /// works like a look-up of a set, [`AtSet::has`], with two loads more and the same budgets and
    /// refusals. All its steps are loads. While the other passes stand still, an answer takes at most
    /// 5n + 6.
    #[inline]
    pub fn get(&mut self, key: u64, budget: u32) -> Result<Option<u64>, Refusal>
        ensures same { IsSameSet self.old self.new }
        ensures told { GetsEntry (member_at self.old) (member_after self.old self.new)
            key budget result }
    {
        a_run_is_a_map();
        between_laws!(self.set, self.pass, get(key, budget))
    }

    /// Takes a key out if it has the expected value, in at most `budget` steps. Returns whether it did, and
    /// what was there: the value that the key had, or none if it was absent. If that isn't the expected
    /// value, the call is a get of what was there.
    ///
    /// It works like [`AtSet::remove`] of a map, and compares the value once it has read it. Budgets,
    /// refusals and the steps of an answer are the same.
    #[inline]
    pub fn remove_if(&mut self, key: u64, expected: u64, budget: u32) -> Result<Outcome, Refusal>
        ensures same { IsSameSet self.old self.new }
        ensures told { RemovesIf (member_at self.old) (member_after self.old self.new)
            key expected budget (there_in result) }
        ensures changed { ChangedIfExpected expected result }
    {
        a_run_is_a_map();
        between_laws!(self.set, self.pass, remove_if(key, expected, budget))
    }

    /// Conditional store: gives a key a value if the key's state matches `wanted`, in at most `budget`
    /// steps. Returns what was there: the value that the key had, or none if it was absent. So the
    /// value was stored exactly when [`Wanted::wants`] what is returned.
    ///
    /// The call takes effect at one step. If the key was there, that step is two calls of the history,
    /// next to each other: the key is removed with its value, and inserted with the new one. No call of
    /// another pass stands between them. If the key's state doesn't match, nothing changes, and the
    /// call is a get.
    ///
    /// A new value has a new node, so a replacement needs one slot more than the map has keys. When the
    /// call returns, the replaced node has left its list, unless fewer than eight steps of the budget
    /// are left. Its slot is then back, in the pass's own pool while that has room.
    ///
    /// Budgets are as for [`AtSet::insert`], with two steps more for
    /// [`Wanted::Value`]: while the other passes stand still, 18n + 82, or 18n + w + 20 if that is more, with
    /// n nodes in the key's bucket and w = slots / 64, rounded up; and 18n + 82 with a slot in the
    /// pass's own pool, unless the epoch is spent. An answered call took at most six steps more than is
    /// enough, and with eight more a replaced node has left its list.
    ///
    /// # Errors
    ///
    /// After any of these the pass has made no call and has no slot in hand, no history has the call,
    /// and what was there stays.
    ///
    /// - OutOfSteps: the steps made leave fewer than eight of the budget.
    /// - NoSlot: the key's state matched, the own pool was empty, and each slot was outside the shared
    ///   pool at a moment of the call.
    /// - EpochSpent: the key's state matched, the epoch is the last, and each slot of the own pool is
    ///   stamped with it. The budget had room to advance it.
    #[inline]
    pub fn store(
        &mut self,
        key: u64,
        value: u64,
        wanted: Wanted,
        budget: u32,
    ) -> Result<Option<u64>, Refusal>
        ensures same { IsSameSet self.old self.new }
        ensures told { StoresEntry (member_at self.old) (member_after self.old self.new)
            key value wanted budget result }
    {
        a_run_is_a_map();
        between_laws!(self.set, self.pass, store(key, value, wanted, budget))
    }

    /// [`AtSet::store`] with [`Wanted::Present`], compiled for that case.
    #[inline]
    pub fn replace(&mut self, key: u64, value: u64, budget: u32) -> Result<Option<u64>, Refusal>
        ensures same { IsSameSet self.old self.new }
        ensures told { ReplacesEntry (member_at self.old) (member_after self.old self.new)
            key value budget result }
    {
        a_run_is_a_map();
        between_laws!(self.set, self.pass, replace(key, value, budget))
    }

    /// [`AtSet::store`] with [`Wanted::Anything`], compiled for that case.
    #[inline]
    pub fn put(&mut self, key: u64, value: u64, budget: u32) -> Result<Option<u64>, Refusal>
        ensures same { IsSameSet self.old self.new }
        ensures told { PutsEntry (member_at self.old) (member_after self.old self.new)
            key value budget result }
    {
        a_run_is_a_map();
        between_laws!(self.set, self.pass, put(key, value, budget))
    }

    /// Fetch-and-add: adds `delta` modulo 2^64 to the value of a key, or inserts the key with `delta` if
    /// it is absent, in at most `budget` steps. Returns what was there: the value that the key had, or
    /// none if it was absent.
    ///
    /// It is an [`AtSet::put`] of the value that follows from what was there, with its budgets and
    /// refusals, and makes the same calls of the history. No call of another pass stands between the
    /// value that it returns and the sum, so no addition is lost. It is one call with one budget,
    /// however often others change the key meanwhile.
    #[inline]
    pub fn fetch_add(&mut self, key: u64, delta: u64, budget: u32) -> Result<Option<u64>, Refusal>
        ensures same { IsSameSet self.old self.new }
        ensures told { AddsEntry (member_at self.old) (member_after self.old self.new)
            key delta budget result }
    {
        a_run_is_a_map();
        between_laws!(self.set, self.pass, fetch_add(key, delta, budget))
    }

    /// [`AtSet::store`] with [`Wanted::Absent`], compiled for that case.
    #[inline]
    pub fn get_or_insert(
        &mut self,
        key: u64,
        value: u64,
        budget: u32,
    ) -> Result<Option<u64>, Refusal>
        ensures same { IsSameSet self.old self.new }
        ensures told { GetsOrInsertsEntry (member_at self.old) (member_after self.old self.new)
            key value budget result }
    {
        a_run_is_a_map();
        between_laws!(self.set, self.pass, get_or_insert(key, value, budget))
    }

    /// [`AtSet::store`] with [`Wanted::Value`], compiled for that case. Also returns whether it stored the
    /// value.
    #[inline]
    pub fn compare_exchange(
        &mut self,
        key: u64,
        expected: u64,
        value: u64,
        budget: u32,
    ) -> Result<Outcome, Refusal>
        ensures same { IsSameSet self.old self.new }
        ensures told { ExchangesEntry (member_at self.old) (member_after self.old self.new)
            key expected value budget (there_in result) }
        ensures changed { ChangedIfExpected expected result }
    {
        a_run_is_a_map();
        between_laws!(
            self.set,
            self.pass,
            compare_exchange(key, expected, value, budget)
        )
    }
}
