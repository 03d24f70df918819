//! The calls on a map by a pass beside it.
ghost use Rattle.std.specs.Prelude.{◌≡◌, None};
ghost use Rattle.vbr_slots.specs.views.Views.{IsOf};
ghost use Rattle.vbr_list.specs.updates.Outcomes.{ChangedIfExpected, there_in};
ghost use Rattle.vbr_set.specs.calls.MapCalls.{AddsEntry, ExchangesEntry, GetsEntry, GetsOrInsertsEntry, InsertsEntry, PutsEntry, RemovesEntry, RemovesIf, ReplacesEntry, StoresEntry};
ghost use Rattle.vbr_set.specs.calls.Members.{as_member};

use crate::at_set::AtSet;
use crate::set::VbrSet;
use vbr_list::{Outcome, Refusal, Wanted};
use vbr_slots::Pass;
use vbr_words::Entries;

impl VbrSet<Entries> {
    /// [`AtSet::insert`] by a pass.
    #[inline]
    pub fn insert(
        &self,
        pass: &mut Pass,
        key: u64,
        value: u64,
        budget: u32,
    ) -> Result<bool, Refusal>
        requires own { IsOf pass.old.trace self.now }
        requires empty_hand { pass.old.hand ≡ None }
        ensures { InsertsEntry (as_member self.now pass.old) (as_member self.now pass.new)
            key value budget result }
    {
        AtSet { set: self, pass }.insert(key, value, budget)
    }

    /// [`AtSet::remove`] by a pass.
    #[inline]
    pub fn remove(&self, pass: &mut Pass, key: u64, budget: u32) -> Result<Option<u64>, Refusal>
        requires own { IsOf pass.old.trace self.now }
        requires empty_hand { pass.old.hand ≡ None }
        ensures { RemovesEntry (as_member self.now pass.old) (as_member self.now pass.new)
            key budget result }
    {
        AtSet { set: self, pass }.remove(key, budget)
    }

    /// [`AtSet::get`] by a pass.
    #[inline]
    pub fn get(&self, pass: &mut Pass, key: u64, budget: u32) -> Result<Option<u64>, Refusal>
        requires own { IsOf pass.old.trace self.now }
        requires empty_hand { pass.old.hand ≡ None }
        ensures { GetsEntry (as_member self.now pass.old) (as_member self.now pass.new)
            key budget result }
    {
        AtSet { set: self, pass }.get(key, budget)
    }

    /// [`AtSet::remove_if`] by a pass.
    #[inline]
    pub fn remove_if(
        &self,
        pass: &mut Pass,
        key: u64,
        expected: u64,
        budget: u32,
    ) -> Result<Outcome, Refusal>
        requires own { IsOf pass.old.trace self.now }
        requires empty_hand { pass.old.hand ≡ None }
        ensures told { RemovesIf (as_member self.now pass.old) (as_member self.now pass.new)
            key expected budget (there_in result) }
        ensures changed { ChangedIfExpected expected result }
    {
        AtSet { set: self, pass }.remove_if(key, expected, budget)
    }

    /// [`AtSet::store`] by a pass.
    #[inline]
    pub fn store(
        &self,
        pass: &mut Pass,
        key: u64,
        value: u64,
        wanted: Wanted,
        budget: u32,
    ) -> Result<Option<u64>, Refusal>
        requires own { IsOf pass.old.trace self.now }
        requires empty_hand { pass.old.hand ≡ None }
        ensures { StoresEntry (as_member self.now pass.old) (as_member self.now pass.new)
            key value wanted budget result }
    {
        AtSet { set: self, pass }.store(key, value, wanted, budget)
    }

    /// [`AtSet::replace`] by a pass.
    #[inline]
    pub fn replace(
        &self,
        pass: &mut Pass,
        key: u64,
        value: u64,
        budget: u32,
    ) -> Result<Option<u64>, Refusal>
        requires own { IsOf pass.old.trace self.now }
        requires empty_hand { pass.old.hand ≡ None }
        ensures { ReplacesEntry (as_member self.now pass.old) (as_member self.now pass.new)
            key value budget result }
    {
        AtSet { set: self, pass }.replace(key, value, budget)
    }

    /// [`AtSet::put`] by a pass.
    #[inline]
    pub fn put(
        &self,
        pass: &mut Pass,
        key: u64,
        value: u64,
        budget: u32,
    ) -> Result<Option<u64>, Refusal>
        requires own { IsOf pass.old.trace self.now }
        requires empty_hand { pass.old.hand ≡ None }
        ensures { PutsEntry (as_member self.now pass.old) (as_member self.now pass.new)
            key value budget result }
    {
        AtSet { set: self, pass }.put(key, value, budget)
    }

    /// [`AtSet::fetch_add`] by a pass.
    #[inline]
    pub fn fetch_add(
        &self,
        pass: &mut Pass,
        key: u64,
        delta: u64,
        budget: u32,
    ) -> Result<Option<u64>, Refusal>
        requires own { IsOf pass.old.trace self.now }
        requires empty_hand { pass.old.hand ≡ None }
        ensures { AddsEntry (as_member self.now pass.old) (as_member self.now pass.new)
            key delta budget result }
    {
        AtSet { set: self, pass }.fetch_add(key, delta, budget)
    }

    /// [`AtSet::get_or_insert`] by a pass.
    #[inline]
    pub fn get_or_insert(
        &self,
        pass: &mut Pass,
        key: u64,
        value: u64,
        budget: u32,
    ) -> Result<Option<u64>, Refusal>
        requires own { IsOf pass.old.trace self.now }
        requires empty_hand { pass.old.hand ≡ None }
        ensures { GetsOrInsertsEntry (as_member self.now pass.old) (as_member self.now pass.new)
            key value budget result }
    {
        AtSet { set: self, pass }.get_or_insert(key, value, budget)
    }

    /// [`AtSet::compare_exchange`] by a pass.
    #[inline]
    pub fn compare_exchange(
        &self,
        pass: &mut Pass,
        key: u64,
        expected: u64,
        value: u64,
        budget: u32,
    ) -> Result<Outcome, Refusal>
        requires own { IsOf pass.old.trace self.now }
        requires empty_hand { pass.old.hand ≡ None }
        ensures told { ExchangesEntry (as_member self.now pass.old) (as_member self.now pass.new)
            key expected value budget (there_in result) }
        ensures changed { ChangedIfExpected expected result }
    {
        AtSet { set: self, pass }.compare_exchange(key, expected, value, budget)
    }
}
