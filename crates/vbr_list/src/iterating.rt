//! Going over all keys, one after another, while other threads make calls.
ghost use Rattle.vbr_slots.specs.steps.AtTables.{IsSameTable, pass_of, trace_of};
ghost use Rattle.vbr_slots.specs.steps.Calls.{Took};
ghost use Rattle.vbr_slots.specs.views.Views.{IsOf};
ghost use Rattle.vbr_list.specs.look_ups.Cursors.{IteratesEntries, IteratesKeys, IteratesWhere};
ghost use Rattle.vbr_list.specs.look_ups.Cursors.{IteratesNamedEntries, IteratesNamedKeys};
ghost use Rattle.vbr_list.specs.look_ups.Seeking.{IteratesNodes};

use crate::cursor::Cursor;
use crate::entries::Entry;
use crate::seeking::{NextNode, seek_in};
use vbr_at_table::Refusal;
use vbr_slots::{AtTable, Pass, Slots};
use vbr_words::{Entries, Keys, Nodes};

/// The next key at a cursor, in at most `budget` steps; none after the last one. It makes no call, and
/// all its steps are loads, three for each bucket that it enters. Other calls of the pass may come
/// between two of a walk. An advance of the epoch sends it back in only one of its buckets. The rest is
/// as `AtSet::next_key` of `vbr_set` says.
pub fn next_key_at<N: Nodes>(
    slots: &Slots<N>,
    pass: &mut Pass,
    cursor: &mut Cursor,
    budget: u32,
) -> Result<Option<u64>, Refusal>
    requires own { IsOf pass.old.trace slots.now }
    ensures { IteratesKeys pass.old pass.new cursor.old cursor.new budget result }
{
    match next_where_at(slots, pass, cursor, budget) {
        Ok(Some((key, _))) => Ok(Some(key)),
        Ok(None) => Ok(None),
        Err(refusal) => Err(refusal),
    }
}

/// Like [`next_key_at`], at a table whose nodes have values: the key with the value that it had at a
/// moment of the call when it was there.
pub fn next_entry_at(
    slots: &Slots<Entries>,
    pass: &mut Pass,
    cursor: &mut Cursor,
    budget: u32,
) -> Result<Option<(u64, u64)>, Refusal>
    requires own { IsOf pass.old.trace slots.now }
    ensures { IteratesEntries pass.old pass.new cursor.old cursor.new budget result }
{
    slots.kind();
    next_where_at(slots, pass, cursor, budget)
}

/// Like [`next_key_at`], for tables of both kinds: the key with its value if nodes have values, and
/// with 0 if they have none.
pub fn next_where_at<N: Nodes>(
    slots: &Slots<N>,
    pass: &mut Pass,
    cursor: &mut Cursor,
    budget: u32,
) -> Result<Option<(u64, u64)>, Refusal>
    requires own { IsOf pass.old.trace slots.now }
    ensures { IteratesWhere pass.old pass.new cursor.old cursor.new budget result }
{
    let from = *cursor;
    let (next, now) = pass.during(
        |stepper|
            requires own { IsOf stepper.old.trace slots.now }
        { iterate_where(&mut AtTable { slots, stepper }, from, budget) },
    );
    *cursor = now;
    next
}

// Like `next_where_at`, but the pass counts no step; also returns the cursor then and the number of
// steps.
fn iterate_where<N: Nodes>(
    at: &mut AtTable<'_, N>,
    cursor: Cursor,
    budget: u32,
) -> ((Result<Option<(u64, u64)>, Refusal>, Cursor), u32)
    ensures table { IsSameTable at.old at.new }
    ensures took { Took (trace_of at.old) (trace_of at.new) result.1 }
    ensures iterates { IteratesWhere (pass_of at.old) (pass_of at.new)
        cursor result.0.1 budget result.0.0 }
{
    let ((next, now), used) = iterate(at, cursor, budget);
    match next {
        Ok(Some(node)) => ((Ok(Some((node.key, node.entry.value))), now), used),
        Ok(None) => ((Ok(None), now), used),
        Err(refusal) => ((Err(refusal), now), used),
    }
}

/// Like [`next_key_at`], at a set: the key with the entry that was there at a moment of the call, with
/// the value 0. Steps, refusal and budgets are the same.
pub fn next_named_key_at(
    slots: &Slots,
    pass: &mut Pass,
    cursor: &mut Cursor,
    budget: u32,
) -> Result<Option<(u64, Entry)>, Refusal>
    requires own { IsOf pass.old.trace slots.now }
    ensures { IteratesNamedKeys pass.old pass.new cursor.old cursor.new budget result }
{
    let from = *cursor;
    let (next, now) = pass.during(
        |stepper|
            requires own { IsOf stepper.old.trace slots.now }
        { iterate_named_keys(&mut AtTable { slots, stepper }, from, budget) },
    );
    *cursor = now;
    next
}

// Like `next_named_key_at`, but the pass counts no step; also returns the cursor then and the number of
// steps.
fn iterate_named_keys(
    at: &mut AtTable<'_, Keys>,
    cursor: Cursor,
    budget: u32,
) -> ((Result<Option<(u64, Entry)>, Refusal>, Cursor), u32)
    ensures table { IsSameTable at.old at.new }
    ensures took { Took (trace_of at.old) (trace_of at.new) result.1 }
    ensures iterates { IteratesNamedKeys (pass_of at.old) (pass_of at.new)
        cursor result.0.1 budget result.0.0 }
{
    let ((next, now), used) = iterate(at, cursor, budget);
    match next {
        Ok(Some(node)) => ((Ok(Some((node.key, node.entry.bare()))), now), used),
        Ok(None) => ((Ok(None), now), used),
        Err(refusal) => ((Err(refusal), now), used),
    }
}

/// Like [`next_entry_at`], but returns the key with the entry that was there at a moment of the call,
/// and had this value then. Steps, refusal and budgets are the same.
pub fn next_named_entry_at(
    slots: &Slots<Entries>,
    pass: &mut Pass,
    cursor: &mut Cursor,
    budget: u32,
) -> Result<Option<(u64, Entry)>, Refusal>
    requires own { IsOf pass.old.trace slots.now }
    ensures { IteratesNamedEntries pass.old pass.new cursor.old cursor.new budget result }
{
    slots.kind();
    let from = *cursor;
    let (next, now) = pass.during(
        |stepper|
            requires own { IsOf stepper.old.trace slots.now }
        { iterate_named_entries(&mut AtTable { slots, stepper }, from, budget) },
    );
    *cursor = now;
    next
}

// Like `next_named_entry_at`, but the pass counts no step; also returns the cursor then and the number
// of steps.
fn iterate_named_entries(
    at: &mut AtTable<'_, Entries>,
    cursor: Cursor,
    budget: u32,
) -> ((Result<Option<(u64, Entry)>, Refusal>, Cursor), u32)
    ensures table { IsSameTable at.old at.new }
    ensures took { Took (trace_of at.old) (trace_of at.new) result.1 }
    ensures iterates { IteratesNamedEntries (pass_of at.old) (pass_of at.new)
        cursor result.0.1 budget result.0.0 }
{
    at.law();
    at.slots.kind();
    let ((next, now), used) = iterate(at, cursor, budget);
    match next {
        Ok(Some(node)) => ((Ok(Some((node.key, node.entry))), now), used),
        Ok(None) => ((Ok(None), now), used),
        Err(refusal) => ((Err(refusal), now), used),
    }
}

// Goes from bucket to bucket until it finds a node; also returns the cursor then and the number of
// steps.
#[inline(always)]
fn iterate<N: Nodes>(
    at: &mut AtTable<'_, N>,
    cursor: Cursor,
    budget: u32,
) -> ((Result<Option<NextNode>, Refusal>, Cursor), u32)
    ensures table { IsSameTable at.old at.new }
    ensures took { Took (trace_of at.old) (trace_of at.new) result.1 }
    ensures iterates { IteratesNodes (pass_of at.old) (pass_of at.new)
        cursor result.0.1 budget result.0.0 }
{
    at.law();
    let buckets = at.slots.shape().buckets();
    let mut now = cursor;
    let mut used = 0;
    while now.bucket < buckets {
        let (found, since) = seek_in(at, now.bucket, now.from, budget, used);
        used = since;
        match found {
            None => return ((Err(Refusal::OutOfSteps { used }), now), used),
            Some(Some(node)) => {
                return ((Ok(Some(node)), now.past(node)), used);
            }
            Some(None) => now = now.next_bucket(),
        }
    }
    ((Ok(None), now), used)
}
