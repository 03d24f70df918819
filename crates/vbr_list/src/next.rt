//! The next key of a bucket, from a number on.
ghost use Rattle.std.specs.Prelude.{◌<◌};
ghost use Rattle.vbr_slots.specs.steps.AtTables.{IsSameTable, pass_of, trace_of};
ghost use Rattle.vbr_slots.specs.steps.Calls.{Took};
ghost use Rattle.vbr_slots.specs.views.Views.{IsOf};
ghost use Rattle.vbr_list.specs.look_ups.Next.{Seeks, SeeksEntry, SeeksKey, SeeksNamedEntry, SeeksNamedKey};
ghost use Rattle.vbr_list.specs.look_ups.Seeking.{TellsNode};

use crate::entries::Entry;
use crate::seeking::{NextNode, seek_in};
use vbr_at_table::Refusal;
use vbr_slots::{AtTable, Pass, Slots};
use vbr_words::{Entries, Nodes};

/// The least key of a bucket that is no less than a number, in at most `budget` steps. It was there at
/// a moment of the call, and each key of the bucket between the two was absent at a moment of the call.
/// If there is none, each key of the bucket from the number on was absent at a moment of the call.
///
/// It makes no call, and all its steps are loads, so it writes nothing that another thread can see. It
/// makes three steps to start, three for a marked node, which it leaves in its list, five for another,
/// and two more for the last one if nodes have values. It confirms nothing. Its refusal, its budgets
/// and its costs are those of `AtSet::next_key` of `vbr_set` in one bucket.
pub fn next_key<N: Nodes>(
    slots: &Slots<N>,
    pass: &mut Pass,
    bucket: u32,
    from: u64,
    budget: u32,
) -> Result<Option<u64>, Refusal>
    requires own { IsOf pass.old.trace slots.now }
    requires bucket { bucket < slots.now.start.shape.buckets }
    ensures { SeeksKey pass.old pass.new bucket from budget result }
{
    match seek(slots, pass, bucket, from, budget) {
        Ok(Some(node)) => Ok(Some(node.key)),
        Ok(None) => Ok(None),
        Err(refusal) => Err(refusal),
    }
}

/// Like [`next_key`], at a table whose nodes have values: the key with the value that it had at a
/// moment of the call when it was there.
pub fn next_entry(
    slots: &Slots<Entries>,
    pass: &mut Pass,
    bucket: u32,
    from: u64,
    budget: u32,
) -> Result<Option<(u64, u64)>, Refusal>
    requires own { IsOf pass.old.trace slots.now }
    requires bucket { bucket < slots.now.start.shape.buckets }
    ensures { SeeksEntry pass.old pass.new bucket from budget result }
{
    slots.kind();
    match seek(slots, pass, bucket, from, budget) {
        Ok(Some(node)) => Ok(Some((node.key, node.entry.value))),
        Ok(None) => Ok(None),
        Err(refusal) => Err(refusal),
    }
}

/// Like [`next_key`], at a set: the key with the entry that was there at a moment of the call, with the
/// value 0. Steps, refusal and budgets are the same.
pub fn next_named_key(
    slots: &Slots,
    pass: &mut Pass,
    bucket: u32,
    from: u64,
    budget: u32,
) -> Result<Option<(u64, Entry)>, Refusal>
    requires own { IsOf pass.old.trace slots.now }
    requires bucket { bucket < slots.now.start.shape.buckets }
    ensures { SeeksNamedKey pass.old pass.new bucket from budget result }
{
    match seek(slots, pass, bucket, from, budget) {
        Ok(Some(node)) => Ok(Some((node.key, node.entry.bare()))),
        Ok(None) => Ok(None),
        Err(refusal) => Err(refusal),
    }
}

/// Like [`next_entry`], but returns the key with the entry that was there at a moment of the call, and
/// had this value then. Steps, refusal and budgets are the same.
pub fn next_named_entry(
    slots: &Slots<Entries>,
    pass: &mut Pass,
    bucket: u32,
    from: u64,
    budget: u32,
) -> Result<Option<(u64, Entry)>, Refusal>
    requires own { IsOf pass.old.trace slots.now }
    requires bucket { bucket < slots.now.start.shape.buckets }
    ensures { SeeksNamedEntry pass.old pass.new bucket from budget result }
{
    slots.kind();
    match seek(slots, pass, bucket, from, budget) {
        Ok(Some(node)) => Ok(Some((node.key, node.entry))),
        Ok(None) => Ok(None),
        Err(refusal) => Err(refusal),
    }
}

// The node with the next key of a bucket.
#[inline(always)]
fn seek<N: Nodes>(
    slots: &Slots<N>,
    pass: &mut Pass,
    bucket: u32,
    from: u64,
    budget: u32,
) -> Result<Option<NextNode>, Refusal>
    requires own { IsOf pass.old.trace slots.now }
    requires bucket { bucket < slots.now.start.shape.buckets }
    ensures { Seeks (TellsNode pass.old.trace pass.new.trace bucket from)
        pass.old pass.new bucket budget result }
{
    pass.during(
        |stepper|
            requires own { IsOf stepper.old.trace slots.now }
            requires bucket { bucket < slots.now.start.shape.buckets }
        { seek_by(&mut AtTable { slots, stepper }, bucket, from, budget) },
    )
}

// Like `seek`, but the pass counts no step; also returns the number of steps.
#[inline(always)]
fn seek_by<N: Nodes>(
    at: &mut AtTable<'_, N>,
    bucket: u32,
    from: u64,
    budget: u32,
) -> (Result<Option<NextNode>, Refusal>, u32)
    requires bucket { bucket < at.old.slots.now.start.shape.buckets }
    ensures table { IsSameTable at.old at.new }
    ensures took { Took (trace_of at.old) (trace_of at.new) result.1 }
    ensures seeks { Seeks (TellsNode (trace_of at.old) (trace_of at.new) bucket from)
        (pass_of at.old) (pass_of at.new) bucket budget result.0 }
{
    at.law();
    let (found, used) = seek_in(at, bucket, from, budget, 0);
    match found {
        Some(next) => (Ok(next), used),
        None => (Err(Refusal::OutOfSteps { used }), used),
    }
}
