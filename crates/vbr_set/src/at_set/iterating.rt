//! Going over the keys of a set, or the entries of a map, while other callers make calls.
ghost use Rattle.std.specs.Prelude.{◌≡◌, ℕ, ◌++◌, List, [], ◌∷◌, true, false};
ghost use Rattle.vbr_set.specs.calls.AtSets.{IsSameSet, caller_after, caller_at, member_after, member_at};
ghost use Rattle.vbr_set.specs.calls.Iterating.{AreItemsOf, CallsNext, CallsNextEntry, CallsNextNamedEntry, CallsNextNamedKey, CallsNextWhere, CountsKeys, Gathers, IsCountOf, ListsEntries, ListsKeys};

use crate::at_set::{AtSet, between_laws};
use crate::list_error::ListError;
use std::alloc::Global;
use vbr_list::{
    Cursor, Entry, Refusal, next_entry_at, next_key_at, next_named_entry_at, next_named_key_at,
    next_where_at,
};
use vbr_words::{Entries, Nodes};

// What is listed of a node: its key, or its entry.
pub(crate) trait Item: Copy {
    ghost item: { ℕ → ℕ → Self };

    // The item of this key with this value.
    fn of(key: u64, value: u64) -> Self
        ensures { result ≡ item key value };
}

impl Item for u64 {
    ghost item = { λ key value. key };

    #[inline(always)]
    fn of(key: u64, _value: u64) -> u64 {
        key
    }
}

impl Item for (u64, u64) {
    ghost item = { λ key value. (key, value) };

    #[inline(always)]
    fn of(key: u64, value: u64) -> (u64, u64) {
        (key, value)
    }
}

// What going over all keys collects: a list of items, or their number.
pub(crate) trait Gathered: Drop {
    ghost of: { List (ℕ × ℕ) → Self → Type 0 };

    ghost MayLack: { Type 0 };

    // Takes in one more item, and returns whether there was memory for it.
    fn add(&mut self, key: u64, value: u64) -> bool
        ensures added { (entries : List (ℕ × ℕ)) → of entries self.old →
            result ≡ true → of (entries ++ (key, value) ∷ []) self.new }
        ensures lacks { result ≡ false → MayLack };
}

impl<I: Item> Gathered for Vec<I> {
    ghost of = { λ entries items. AreItemsOf I.item entries items.items };

    ghost MayLack = { Unit {0} };

    #[inline(always)]
    fn add(&mut self, key: u64, value: u64) -> bool {
        self.push(I::of(key, value)).is_ok()
    }
}

impl Gathered for u64 {
    ghost of = { IsCountOf };

    ghost MayLack = { ⊥ };

    #[inline(always)]
    fn add(&mut self, _key: u64, _value: u64) -> bool {
        *self = self.saturating_add(1);
        true
    }
}

impl<N: Nodes> AtSet<'_, N> {
    /// The next key at a cursor, in at most `budget` steps, and none after the last one. The cursor is
    /// then right after that key, or before the next bucket if its node was the last of its list. A
    /// walk begins at [`Cursor::first`].
    ///
    /// The key was there at a moment of the call, and each other key that the cursor passed was absent
    /// at a moment of it. So a walk from the first cursor to the last, whatever other callers do
    /// meanwhile, gives each key that is there all the while. It gives no key twice, and none that
    /// wasn't there. Keys come bucket by bucket, and the keys of a bucket ascend.
    ///
    /// It makes no call on the set, and all its steps are loads. While the other passes stand still it
    /// makes at most 5n + 3 steps for each bucket that it goes through, with n nodes there, and at most
    /// 5n + 5 in a map. If others disturb it m times at a bucket, it makes at most
    /// (m + 1)(5(n + m) + 3) there, and at most (m + 1)(5(n + m) + 5) in a map.
    ///
    /// # Errors
    ///
    /// - OutOfSteps: the steps made leave fewer than eight of the budget. The cursor keeps how far it
    ///   has come: they were made in the buckets that it has gone over and in the one where it stands.
    ///   While the other passes stand still, a budget of 5n + 11, with n nodes in its bucket, is enough
    ///   to give a key or to come to the next bucket. If they disturb it m times there,
    ///   (m + 1)(5(n + m) + 11) is.
    #[inline]
    pub fn next_key(&mut self, cursor: &mut Cursor, budget: u32) -> Result<Option<u64>, Refusal>
        ensures same { IsSameSet self.old self.new }
        ensures told { CallsNext (member_at self.old) (member_after self.old self.new)
            cursor.old cursor.new budget result }
    {
        between_laws!(self.set, self.pass, next_key_at(cursor, budget))
    }

    // Like `next_key`, with the value if nodes have values.
    #[inline]
    fn next_where(
        &mut self,
        cursor: &mut Cursor,
        budget: u32,
    ) -> Result<Option<(u64, u64)>, Refusal>
        ensures same { IsSameSet self.old self.new }
        ensures told { CallsNextWhere (caller_at self.old) (caller_after self.old self.new)
            cursor.old cursor.new budget result }
    {
        between_laws!(self.set, self.pass, next_where_at(cursor, budget))
    }

    /// Lists all keys, by calls of at most `budget` steps each: each key that was there all the while,
    /// once, and none that wasn't there at some moment meanwhile. Keys come bucket by bucket, and the
    /// keys of a bucket ascend.
    ///
    /// It makes at most one call for each key, one for each bucket, and one for the end.
    ///
    /// # Errors
    ///
    /// - Refused: a whole call was refused for want of steps, and brought the cursor no further. While
    ///   the other passes stand still, that happens only if `budget` is below 5n + 11, with n nodes in
    ///   the bucket where it stood. If they disturb the pass m times there, it happens only below
    ///   (m + 1)(5(n + m) + 11).
    /// - Memory: there is no memory for the keys.
    pub fn keys_now(&mut self, alloc: Global, budget: u32) -> Result<Vec<u64>, ListError>
        ensures same { IsSameSet self.old self.new }
        ensures told { ListsKeys (λ keys. keys.items)
            (member_at self.old) (member_after self.old self.new) budget result }
    {
        self.go_over(budget, Vec::new(alloc))
    }

    /// Counts the keys that [`AtSet::keys_now`] would have listed in its place, without memory. Each
    /// key counted was there at a moment of its own, so the count needn't be the number of keys at any
    /// one moment.
    ///
    /// # Errors
    ///
    /// The refusal of `keys_now`.
    pub fn count_now(&mut self, budget: u32) -> Result<u64, Refusal>
        ensures same { IsSameSet self.old self.new }
        ensures told { CountsKeys
            (member_at self.old) (member_after self.old self.new) budget result }
    {
        match self.go_over(budget, 0u64) {
            Ok(count) => Ok(count),
            Err(ListError::Refused(refusal)) => Err(refusal),
            Err(ListError::Memory) => unreachable!(),
        }
    }

    // Goes over all keys, call by call, for as long as a call brings the cursor further.
    fn go_over<G: Gathered>(&mut self, budget: u32, gathered: G) -> Result<G, ListError>
        requires none { G.of [] gathered }
        ensures same { IsSameSet self.old self.new }
        ensures told { Gathers G.of G.MayLack
            (caller_at self.old) (caller_after self.old self.new) budget result }
    {
        self.pass.law();
        let mut cursor = Cursor::first();
        let mut gathered = gathered;
        loop {
            let from = cursor;
            let next = self.next_where(&mut cursor, budget);
            cursor.law();
            match next {
                Ok(Some((key, value))) => {
                    if !gathered.add(key, value) {
                        return Err(ListError::Memory);
                    }
                }
                Ok(None) => return Ok(gathered),
                Err(refusal) => {
                    if cursor == from {
                        return Err(ListError::Refused(refusal));
                    }
                }
            }
        }
    }
}

impl AtSet<'_> {
    /// The next key at a cursor, as [`AtSet::next_key`] gives it, with its entry, whose value is 0: the
    /// entry was in the set at a moment of the call.
    #[inline]
    pub fn next_named(
        &mut self,
        cursor: &mut Cursor,
        budget: u32,
    ) -> Result<Option<(u64, Entry)>, Refusal>
        ensures same { IsSameSet self.old self.new }
        ensures told { CallsNextNamedKey (member_at self.old) (member_after self.old self.new)
            cursor.old cursor.new budget result }
    {
        between_laws!(self.set, self.pass, next_named_key_at(cursor, budget))
    }
}

impl AtSet<'_, Entries> {
    /// The next key at a cursor, as [`AtSet::next_key`] gives it, with its value: the two were in the
    /// map together at a moment of the call.
    #[inline]
    pub fn next_entry(
        &mut self,
        cursor: &mut Cursor,
        budget: u32,
    ) -> Result<Option<(u64, u64)>, Refusal>
        ensures same { IsSameSet self.old self.new }
        ensures told { CallsNextEntry (member_at self.old) (member_after self.old self.new)
            cursor.old cursor.new budget result }
    {
        between_laws!(self.set, self.pass, next_entry_at(cursor, budget))
    }

    /// The next key at a cursor, as [`AtSet::next_key`] gives it, with its entry: the entry was in the
    /// map at a moment of the call, and the key had its value then.
    #[inline]
    pub fn next_named(
        &mut self,
        cursor: &mut Cursor,
        budget: u32,
    ) -> Result<Option<(u64, Entry)>, Refusal>
        ensures same { IsSameSet self.old self.new }
        ensures told { CallsNextNamedEntry (member_at self.old) (member_after self.old self.new)
            cursor.old cursor.new budget result }
    {
        between_laws!(self.set, self.pass, next_named_entry_at(cursor, budget))
    }

    /// Lists all keys as [`AtSet::keys_now`] does, each with a value that it had at a moment when it
    /// was there. The errors are the same.
    pub fn entries_now(&mut self, alloc: Global, budget: u32) -> Result<Vec<(u64, u64)>, ListError>
        ensures same { IsSameSet self.old self.new }
        ensures told { ListsEntries (λ entries. entries.items)
            (member_at self.old) (member_after self.old self.new) budget result }
    {
        let set = self.set;
        set.slots.kind();
        self.go_over(budget, Vec::new(alloc))
    }
}
