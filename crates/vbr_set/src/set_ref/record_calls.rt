//! The calls of a pass with a reference to its set or map, for a program that keeps a record beside each slot.
ghost use Rattle.vbr_set.specs.calls.RecordCalls.{AsksStill, FindsEntry, FindsKey};
ghost use Rattle.vbr_set.specs.calls.RemovingExactly.{TakesExactly, TakesKeyExactly};

use crate::at_set::at_set;
use crate::set_ref::VbrSetRef;
use vbr_list::{Entry, Refusal};
use vbr_words::Entries;

impl<'s> VbrSetRef<'s> {
    /// [`AtSet::get_entry`] by its pass.
    #[inline]
    pub fn get_entry(&mut self, key: u64, budget: u32) -> Result<Option<Entry>, Refusal>
        ensures { FindsKey self.old self.new key budget result }
    {
        at_set!(self.set, self.pass).get_entry(key, budget)
    }

    /// [`AtSet::remove_exactly`] by its pass.
    #[inline]
    pub fn remove_exactly(&mut self, key: u64, entry: &Entry, budget: u32) -> Result<bool, Refusal>
        ensures { TakesKeyExactly self.old self.new key entry.now budget result }
    {
        at_set!(self.set, self.pass).remove_exactly(key, entry, budget)
    }
}

impl<'s> VbrSetRef<'s, Entries> {
    /// [`AtSet::get_entry`] by its pass.
    #[inline]
    pub fn get_entry(&mut self, key: u64, budget: u32) -> Result<Option<Entry>, Refusal>
        ensures { FindsEntry self.old self.new key budget result }
    {
        at_set!(self.set, self.pass).get_entry(key, budget)
    }

    /// [`AtSet::remove_exactly`] by its pass.
    #[inline]
    pub fn remove_exactly(
        &mut self,
        key: u64,
        entry: &Entry,
        budget: u32,
    ) -> Result<Option<u64>, Refusal>
        ensures { TakesExactly self.old self.new key entry.now budget result }
    {
        at_set!(self.set, self.pass).remove_exactly(key, entry, budget)
    }

    /// [`VbrSet::is_still`] by its pass.
    #[inline]
    pub fn is_still(&mut self, entry: &Entry) -> bool
        ensures { AsksStill self.old self.new entry.now result }
    {
        self.set.is_still(&mut self.pass, entry)
    }
}
