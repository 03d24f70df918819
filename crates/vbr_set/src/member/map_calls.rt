//! The calls on a member of a map: inserts, removes, gets and stores.
ghost use Rattle.std.specs.Prelude.{◌≡◌};
ghost use Rattle.vbr_list.specs.updates.Outcomes.{ChangedIfExpected, there_in};
ghost use Rattle.vbr_set.specs.calls.MapCalls.{AddsEntry, ExchangesEntry, GetsEntry, GetsOrInsertsEntry, InsertsEntry, PutsEntry, RemovesEntry, RemovesIf, ReplacesEntry};

use crate::at_set::at_set;
use crate::member::Member;
use crate::member::counting::{one_if_changed, one_if_wanted, one_if_yes};
use vbr_list::{Outcome, Refusal, Wanted};
use vbr_words::Entries;

impl Member<Entries> {
    /// [`AtSet::insert`] by its pass.
    #[inline]
    pub fn insert(&mut self, key: u64, value: u64, budget: u32) -> Result<bool, Refusal>
        ensures told { InsertsEntry self.old self.new key value budget result }
        ensures aside { self.new.aside ≡ self.old.aside }
    {
        let answer = at_set!(self.share.set(), self.pass).insert(key, value, budget);
        self.balance = self.balance.wrapping_add(one_if_yes(&answer));
        answer
    }

    /// [`AtSet::remove`] by its pass.
    #[inline]
    pub fn remove(&mut self, key: u64, budget: u32) -> Result<Option<u64>, Refusal>
        ensures told { RemovesEntry self.old self.new key budget result }
        ensures aside { self.new.aside ≡ self.old.aside }
    {
        let answer = at_set!(self.share.set(), self.pass).remove(key, budget);
        self.balance = self
            .balance
            .wrapping_sub(one_if_wanted(&answer, Wanted::Present));
        answer
    }

    /// [`AtSet::get`] by its pass.
    #[inline]
    pub fn get(&mut self, key: u64, budget: u32) -> Result<Option<u64>, Refusal>
        ensures told { GetsEntry self.old self.new key budget result }
        ensures aside { self.new.aside ≡ self.old.aside }
    {
        at_set!(self.share.set(), self.pass).get(key, budget)
    }

    /// [`AtSet::remove_if`] by its pass.
    #[inline]
    pub fn remove_if(&mut self, key: u64, expected: u64, budget: u32) -> Result<Outcome, Refusal>
        ensures told { RemovesIf self.old self.new key expected budget (there_in result) }
        ensures aside { self.new.aside ≡ self.old.aside }
        ensures changed { ChangedIfExpected expected result }
    {
        let answer = at_set!(self.share.set(), self.pass).remove_if(key, expected, budget);
        self.balance = self.balance.wrapping_sub(one_if_changed(&answer));
        answer
    }

    /// [`AtSet::replace`] by its pass.
    #[inline]
    pub fn replace(&mut self, key: u64, value: u64, budget: u32) -> Result<Option<u64>, Refusal>
        ensures told { ReplacesEntry self.old self.new key value budget result }
        ensures aside { self.new.aside ≡ self.old.aside }
    {
        at_set!(self.share.set(), self.pass).replace(key, value, budget)
    }

    /// [`AtSet::put`] by its pass.
    #[inline]
    pub fn put(&mut self, key: u64, value: u64, budget: u32) -> Result<Option<u64>, Refusal>
        ensures told { PutsEntry self.old self.new key value budget result }
        ensures aside { self.new.aside ≡ self.old.aside }
    {
        let answer = at_set!(self.share.set(), self.pass).put(key, value, budget);
        self.balance = self
            .balance
            .wrapping_add(one_if_wanted(&answer, Wanted::Absent));
        answer
    }

    /// [`AtSet::fetch_add`] by its pass.
    #[inline]
    pub fn fetch_add(&mut self, key: u64, delta: u64, budget: u32) -> Result<Option<u64>, Refusal>
        ensures told { AddsEntry self.old self.new key delta budget result }
        ensures aside { self.new.aside ≡ self.old.aside }
    {
        let answer = at_set!(self.share.set(), self.pass).fetch_add(key, delta, budget);
        self.balance = self
            .balance
            .wrapping_add(one_if_wanted(&answer, Wanted::Absent));
        answer
    }

    /// [`AtSet::compare_exchange`] by its pass.
    #[inline]
    pub fn compare_exchange(
        &mut self,
        key: u64,
        expected: u64,
        value: u64,
        budget: u32,
    ) -> Result<Outcome, Refusal>
        ensures told { ExchangesEntry self.old self.new key expected value budget
            (there_in result) }
        ensures aside { self.new.aside ≡ self.old.aside }
        ensures changed { ChangedIfExpected expected result }
    {
        at_set!(self.share.set(), self.pass).compare_exchange(key, expected, value, budget)
    }

    /// [`AtSet::get_or_insert`] by its pass.
    #[inline]
    pub fn get_or_insert(
        &mut self,
        key: u64,
        value: u64,
        budget: u32,
    ) -> Result<Option<u64>, Refusal>
        ensures told { GetsOrInsertsEntry self.old self.new key value budget result }
        ensures aside { self.new.aside ≡ self.old.aside }
    {
        let answer = at_set!(self.share.set(), self.pass).get_or_insert(key, value, budget);
        self.balance = self
            .balance
            .wrapping_add(one_if_wanted(&answer, Wanted::Absent));
        answer
    }
}
