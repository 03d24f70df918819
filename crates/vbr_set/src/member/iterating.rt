//! Going over the keys of a set, or the entries of a map, by a member.
#![tactic(auto, using(vbr_at_table::proofs::Lemmas::kept_aside))]

ghost use Rattle.std.specs.Prelude.{◌≡◌};
ghost use Rattle.vbr_set.specs.calls.Iterating.{CallsNext, CallsNextEntry, CallsNextNamedEntry, CallsNextNamedKey, CountsKeys, ListsEntries, ListsKeys};

use crate::at_set::at_set;
use crate::list_error::ListError;
use crate::member::Member;
use std::alloc::Global;
use vbr_list::{Cursor, Entry, Refusal};
use vbr_words::{Entries, Nodes};

impl<N: Nodes> Member<N> {
    /// [`AtSet::next_key`] by its pass.
    #[inline]
    pub fn next_key(&mut self, cursor: &mut Cursor, budget: u32) -> Result<Option<u64>, Refusal>
        ensures told { CallsNext self.old self.new cursor.old cursor.new budget result }
        ensures aside { self.new.aside ≡ self.old.aside }
    {
        at_set!(self.share.set(), self.pass).next_key(cursor, budget)
    }

    /// [`AtSet::keys_now`] by its pass.
    pub fn keys_now(&mut self, alloc: Global, budget: u32) -> Result<Vec<u64>, ListError>
        ensures told { ListsKeys (λ keys. keys.items) self.old self.new budget result }
        ensures aside { self.new.aside ≡ self.old.aside }
    {
        at_set!(self.share.set(), self.pass).keys_now(alloc, budget)
    }

    /// [`AtSet::count_now`] by its pass.
    pub fn count_now(&mut self, budget: u32) -> Result<u64, Refusal>
        ensures told { CountsKeys self.old self.new budget result }
        ensures aside { self.new.aside ≡ self.old.aside }
    {
        at_set!(self.share.set(), self.pass).count_now(budget)
    }
}

impl Member {
    /// [`AtSet::next_named`] by its pass.
    #[inline]
    pub fn next_named(
        &mut self,
        cursor: &mut Cursor,
        budget: u32,
    ) -> Result<Option<(u64, Entry)>, Refusal>
        ensures told { CallsNextNamedKey self.old self.new cursor.old cursor.new budget result }
        ensures aside { self.new.aside ≡ self.old.aside }
    {
        at_set!(self.share.set(), self.pass).next_named(cursor, budget)
    }
}

impl Member<Entries> {
    /// [`AtSet::next_entry`] by its pass.
    #[inline]
    pub fn next_entry(
        &mut self,
        cursor: &mut Cursor,
        budget: u32,
    ) -> Result<Option<(u64, u64)>, Refusal>
        ensures told { CallsNextEntry self.old self.new cursor.old cursor.new budget result }
        ensures aside { self.new.aside ≡ self.old.aside }
    {
        at_set!(self.share.set(), self.pass).next_entry(cursor, budget)
    }

    /// [`AtSet::next_named`] by its pass.
    #[inline]
    pub fn next_named(
        &mut self,
        cursor: &mut Cursor,
        budget: u32,
    ) -> Result<Option<(u64, Entry)>, Refusal>
        ensures told { CallsNextNamedEntry self.old self.new cursor.old cursor.new budget result }
        ensures aside { self.new.aside ≡ self.old.aside }
    {
        at_set!(self.share.set(), self.pass).next_named(cursor, budget)
    }

    /// [`AtSet::entries_now`] by its pass.
    pub fn entries_now(&mut self, alloc: Global, budget: u32) -> Result<Vec<(u64, u64)>, ListError>
        ensures told { ListsEntries (λ entries. entries.items) self.old self.new budget result }
        ensures aside { self.new.aside ≡ self.old.aside }
    {
        at_set!(self.share.set(), self.pass).entries_now(alloc, budget)
    }
}
