//! Going over all keys by a pass beside its set.
ghost use Rattle.std.specs.Prelude.{◌≡◌, None};
ghost use Rattle.vbr_slots.specs.views.Views.{IsOf};
ghost use Rattle.vbr_set.specs.calls.Iterating.{CallsNext, CallsNextEntry, CallsNextNamedEntry, CallsNextNamedKey, CountsKeys, ListsEntries, ListsKeys};
ghost use Rattle.vbr_set.specs.calls.Members.{as_member};

use crate::at_set::AtSet;
use crate::list_error::ListError;
use crate::set::VbrSet;
use std::alloc::Global;
use vbr_list::{Cursor, Entry, Refusal};
use vbr_slots::Pass;
use vbr_words::{Entries, Nodes};

impl<N: Nodes> VbrSet<N> {
    /// [`AtSet::next_key`] by a pass.
    #[inline]
    pub fn next_key(
        &self,
        pass: &mut Pass,
        cursor: &mut Cursor,
        budget: u32,
    ) -> Result<Option<u64>, Refusal>
        requires own { IsOf pass.old.trace self.now }
        requires empty_hand { pass.old.hand ≡ None }
        ensures { CallsNext (as_member self.now pass.old) (as_member self.now pass.new)
            cursor.old cursor.new budget result }
    {
        AtSet { set: self, pass }.next_key(cursor, budget)
    }

    /// [`AtSet::keys_now`] by a pass.
    pub fn keys_now(
        &self,
        alloc: Global,
        pass: &mut Pass,
        budget: u32,
    ) -> Result<Vec<u64>, ListError>
        requires own { IsOf pass.old.trace self.now }
        requires empty_hand { pass.old.hand ≡ None }
        ensures { ListsKeys (λ keys. keys.items)
            (as_member self.now pass.old) (as_member self.now pass.new) budget result }
    {
        AtSet { set: self, pass }.keys_now(alloc, budget)
    }

    /// [`AtSet::count_now`] by a pass.
    pub fn count_now(&self, pass: &mut Pass, budget: u32) -> Result<u64, Refusal>
        requires own { IsOf pass.old.trace self.now }
        requires empty_hand { pass.old.hand ≡ None }
        ensures { CountsKeys
            (as_member self.now pass.old) (as_member self.now pass.new) budget result }
    {
        AtSet { set: self, pass }.count_now(budget)
    }
}

impl VbrSet {
    /// [`AtSet::next_named`] by a pass.
    #[inline]
    pub fn next_named(
        &self,
        pass: &mut Pass,
        cursor: &mut Cursor,
        budget: u32,
    ) -> Result<Option<(u64, Entry)>, Refusal>
        requires own { IsOf pass.old.trace self.now }
        requires empty_hand { pass.old.hand ≡ None }
        ensures { CallsNextNamedKey (as_member self.now pass.old) (as_member self.now pass.new)
            cursor.old cursor.new budget result }
    {
        AtSet { set: self, pass }.next_named(cursor, budget)
    }
}

impl VbrSet<Entries> {
    /// [`AtSet::next_entry`] by a pass.
    #[inline]
    pub fn next_entry(
        &self,
        pass: &mut Pass,
        cursor: &mut Cursor,
        budget: u32,
    ) -> Result<Option<(u64, u64)>, Refusal>
        requires own { IsOf pass.old.trace self.now }
        requires empty_hand { pass.old.hand ≡ None }
        ensures { CallsNextEntry (as_member self.now pass.old) (as_member self.now pass.new)
            cursor.old cursor.new budget result }
    {
        AtSet { set: self, pass }.next_entry(cursor, budget)
    }

    /// [`AtSet::next_named`] by a pass.
    #[inline]
    pub fn next_named(
        &self,
        pass: &mut Pass,
        cursor: &mut Cursor,
        budget: u32,
    ) -> Result<Option<(u64, Entry)>, Refusal>
        requires own { IsOf pass.old.trace self.now }
        requires empty_hand { pass.old.hand ≡ None }
        ensures { CallsNextNamedEntry (as_member self.now pass.old) (as_member self.now pass.new)
            cursor.old cursor.new budget result }
    {
        AtSet { set: self, pass }.next_named(cursor, budget)
    }

    /// [`AtSet::entries_now`] by a pass.
    pub fn entries_now(
        &self,
        alloc: Global,
        pass: &mut Pass,
        budget: u32,
    ) -> Result<Vec<(u64, u64)>, ListError>
        requires own { IsOf pass.old.trace self.now }
        requires empty_hand { pass.old.hand ≡ None }
        ensures { ListsEntries (λ entries. entries.items)
            (as_member self.now pass.old) (as_member self.now pass.new) budget result }
    {
        AtSet { set: self, pass }.entries_now(alloc, budget)
    }
}
