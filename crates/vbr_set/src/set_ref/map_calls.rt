//! The calls of a pass with a reference to its map: inserts, removes, gets and stores.
ghost use Rattle.vbr_list.specs.updates.Outcomes.{ChangedIfExpected, there_in};
ghost use Rattle.vbr_set.specs.calls.MapCalls.{AddsEntry, ExchangesEntry, GetsEntry, GetsOrInsertsEntry, InsertsEntry, PutsEntry, RemovesEntry, RemovesIf, ReplacesEntry};

use crate::at_set::at_set;
use crate::set_ref::VbrSetRef;
use vbr_list::{Outcome, Refusal};
use vbr_words::Entries;

impl<'s> VbrSetRef<'s, Entries> {
    /// [`AtSet::insert`] by its pass.
    #[inline]
    pub fn insert(&mut self, key: u64, value: u64, budget: u32) -> Result<bool, Refusal>
        ensures { InsertsEntry self.old self.new key value budget result }
    {
        at_set!(self.set, self.pass).insert(key, value, budget)
    }

    /// [`AtSet::remove`] by its pass.
    #[inline]
    pub fn remove(&mut self, key: u64, budget: u32) -> Result<Option<u64>, Refusal>
        ensures { RemovesEntry self.old self.new key budget result }
    {
        at_set!(self.set, self.pass).remove(key, budget)
    }

    /// [`AtSet::get`] by its pass.
    #[inline]
    pub fn get(&mut self, key: u64, budget: u32) -> Result<Option<u64>, Refusal>
        ensures { GetsEntry self.old self.new key budget result }
    {
        at_set!(self.set, self.pass).get(key, budget)
    }

    /// [`AtSet::remove_if`] by its pass.
    #[inline]
    pub fn remove_if(&mut self, key: u64, expected: u64, budget: u32) -> Result<Outcome, Refusal>
        ensures told { RemovesIf self.old self.new key expected budget (there_in result) }
        ensures changed { ChangedIfExpected expected result }
    {
        at_set!(self.set, self.pass).remove_if(key, expected, budget)
    }

    /// [`AtSet::replace`] by its pass.
    #[inline]
    pub fn replace(&mut self, key: u64, value: u64, budget: u32) -> Result<Option<u64>, Refusal>
        ensures { ReplacesEntry self.old self.new key value budget result }
    {
        at_set!(self.set, self.pass).replace(key, value, budget)
    }

    /// [`AtSet::put`] by its pass.
    #[inline]
    pub fn put(&mut self, key: u64, value: u64, budget: u32) -> Result<Option<u64>, Refusal>
        ensures { PutsEntry self.old self.new key value budget result }
    {
        at_set!(self.set, self.pass).put(key, value, budget)
    }

    /// [`AtSet::fetch_add`] by its pass.
    #[inline]
    pub fn fetch_add(&mut self, key: u64, delta: u64, budget: u32) -> Result<Option<u64>, Refusal>
        ensures { AddsEntry self.old self.new key delta budget result }
    {
        at_set!(self.set, self.pass).fetch_add(key, delta, budget)
    }

    /// [`AtSet::compare_exchange`] by its pass.
    #[inline]
    pub fn compare_exchange(
        &mut self,
        key: u64,
        expected: u64,
        value: u64,
        budget: u32,
    ) -> Result<Outcome, Refusal>
        ensures told { ExchangesEntry self.old self.new key expected value budget
            (there_in result) }
        ensures changed { ChangedIfExpected expected result }
    {
        at_set!(self.set, self.pass).compare_exchange(key, expected, value, budget)
    }

    /// [`AtSet::get_or_insert`] by its pass.
    #[inline]
    pub fn get_or_insert(
        &mut self,
        key: u64,
        value: u64,
        budget: u32,
    ) -> Result<Option<u64>, Refusal>
        ensures { GetsOrInsertsEntry self.old self.new key value budget result }
    {
        at_set!(self.set, self.pass).get_or_insert(key, value, budget)
    }
}
