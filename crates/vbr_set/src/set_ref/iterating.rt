//! Going over the keys of a set, or the entries of a map, by a pass with a reference to it.
ghost use Rattle.vbr_set.specs.calls.Iterating.{CallsNext, CallsNextEntry, CallsNextNamedEntry, CallsNextNamedKey, CountsKeys, ListsEntries, ListsKeys};

use crate::at_set::at_set;
use crate::list_error::ListError;
use crate::set_ref::VbrSetRef;
use std::alloc::Global;
use vbr_list::{Cursor, Entry, Refusal};
use vbr_words::{Entries, Nodes};

impl<'s, N: Nodes> VbrSetRef<'s, N> {
    /// [`AtSet::next_key`] by its pass.
    #[inline]
    pub fn next_key(&mut self, cursor: &mut Cursor, budget: u32) -> Result<Option<u64>, Refusal>
        ensures { CallsNext self.old self.new cursor.old cursor.new budget result }
    {
        at_set!(self.set, self.pass).next_key(cursor, budget)
    }

    /// [`AtSet::keys_now`] by its pass.
    pub fn keys_now(&mut self, alloc: Global, budget: u32) -> Result<Vec<u64>, ListError>
        ensures { ListsKeys (λ keys. keys.items) self.old self.new budget result }
    {
        at_set!(self.set, self.pass).keys_now(alloc, budget)
    }

    /// [`AtSet::count_now`] by its pass.
    pub fn count_now(&mut self, budget: u32) -> Result<u64, Refusal>
        ensures { CountsKeys self.old self.new budget result }
    {
        at_set!(self.set, self.pass).count_now(budget)
    }
}

impl<'s> VbrSetRef<'s> {
    /// [`AtSet::next_named`] by its pass.
    #[inline]
    pub fn next_named(
        &mut self,
        cursor: &mut Cursor,
        budget: u32,
    ) -> Result<Option<(u64, Entry)>, Refusal>
        ensures { CallsNextNamedKey self.old self.new cursor.old cursor.new budget result }
    {
        at_set!(self.set, self.pass).next_named(cursor, budget)
    }
}

impl<'s> VbrSetRef<'s, Entries> {
    /// [`AtSet::next_entry`] by its pass.
    #[inline]
    pub fn next_entry(
        &mut self,
        cursor: &mut Cursor,
        budget: u32,
    ) -> Result<Option<(u64, u64)>, Refusal>
        ensures { CallsNextEntry self.old self.new cursor.old cursor.new budget result }
    {
        at_set!(self.set, self.pass).next_entry(cursor, budget)
    }

    /// [`AtSet::next_named`] by its pass.
    #[inline]
    pub fn next_named(
        &mut self,
        cursor: &mut Cursor,
        budget: u32,
    ) -> Result<Option<(u64, Entry)>, Refusal>
        ensures { CallsNextNamedEntry self.old self.new cursor.old cursor.new budget result }
    {
        at_set!(self.set, self.pass).next_named(cursor, budget)
    }

    /// [`AtSet::entries_now`] by its pass.
    pub fn entries_now(&mut self, alloc: Global, budget: u32) -> Result<Vec<(u64, u64)>, ListError>
        ensures { ListsEntries (λ entries. entries.items) self.old self.new budget result }
    {
        at_set!(self.set, self.pass).entries_now(alloc, budget)
    }
}
