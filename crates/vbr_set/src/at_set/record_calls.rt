//! The calls of a caller that name an entry by where it stands.
ghost use Rattle.vbr_set.specs.calls.AtSets.{IsSameSet, member_after, member_at};
ghost use Rattle.vbr_set.specs.calls.RecordCalls.{FindsEntry, FindsKey};
ghost use Rattle.vbr_set.specs.calls.RemovingExactly.{TakesExactly, TakesKeyExactly};

use crate::at_set::{AtSet, between_laws};
use vbr_list::{Entry, Refusal, get_entry, has_entry, remove_exactly, remove_key_exactly};
use vbr_machine::laws::a_run_is_a_map;
use vbr_words::Entries;

impl AtSet<'_> {
    /// Like [`AtSet::has`], with the same steps, budgets and refusals, but returns the entry of the key,
    /// with the value 0. Its node was in the set at a moment of the call.
    #[inline]
    pub fn get_entry(&mut self, key: u64, budget: u32) -> Result<Option<Entry>, Refusal>
        ensures same { IsSameSet self.old self.new }
        ensures told { FindsKey (member_at self.old) (member_after self.old self.new)
            key budget result }
    {
        between_laws!(self.set, self.pass, has_entry(key, budget))
    }

    /// Takes a key out if its node has the slot and the birth of this entry, in at most `budget` steps,
    /// and returns whether it did. Otherwise it makes no call: at some moment meanwhile the key was
    /// absent, or its node was another. The entry's value isn't looked at.
    ///
    /// Budgets, the refusal and the steps of an answer are as for [`AtSet::remove`].
    #[inline]
    pub fn remove_exactly(&mut self, key: u64, entry: &Entry, budget: u32) -> Result<bool, Refusal>
        ensures same { IsSameSet self.old self.new }
        ensures told { TakesKeyExactly (member_at self.old) (member_after self.old self.new)
            key entry.now budget result }
    {
        between_laws!(self.set, self.pass, remove_key_exactly(key, entry, budget))
    }
}

impl AtSet<'_, Entries> {
    /// Like [`AtSet::get`], with the same steps, budgets and refusals, but returns the entry of the key.
    /// Its node was in the map, with this value, at a moment of the call.
    #[inline]
    pub fn get_entry(&mut self, key: u64, budget: u32) -> Result<Option<Entry>, Refusal>
        ensures same { IsSameSet self.old self.new }
        ensures told { FindsEntry (member_at self.old) (member_after self.old self.new)
            key budget result }
    {
        a_run_is_a_map();
        between_laws!(self.set, self.pass, get_entry(key, budget))
    }

    /// Takes a key out as `remove_exactly` of a set does, in at most `budget` steps, and returns the value
    /// that was there, or none if it made no call.
    ///
    /// Budgets, the refusal and the steps of an answer are as for [`AtSet::remove`].
    #[inline]
    pub fn remove_exactly(
        &mut self,
        key: u64,
        entry: &Entry,
        budget: u32,
    ) -> Result<Option<u64>, Refusal>
        ensures same { IsSameSet self.old self.new }
        ensures told { TakesExactly (member_at self.old) (member_after self.old self.new)
            key entry.now budget result }
    {
        a_run_is_a_map();
        between_laws!(self.set, self.pass, remove_exactly(key, entry, budget))
    }
}
