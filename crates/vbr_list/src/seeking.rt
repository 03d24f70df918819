//! Seeking the next key of a bucket by loads alone. Marked nodes are passed by their links, as a
//! look-up passes them. Nothing is confirmed: each key that was passed was absent at a moment.
ghost use Rattle.std.specs.Prelude.{◌<◌, ◌≤◌, IfOk, IfErr};
ghost use Rattle.vbr_slots.specs.steps.AtTables.{IsSameTable, pass_of, trace_of};
ghost use Rattle.vbr_list.specs.calls.Pieces.{Peeks};
ghost use Rattle.vbr_list.specs.look_ups.Seeking.{SeekStops, Sought, TraversesToNext};

use crate::entries::{Entry, named};
use crate::looking::held_of;
use crate::traversal::Stop;
use crate::valuing::{steps_to_value_of, value_if_any};
use crate::visiting::{Visited, start_at, visit_at};
use vbr_at_table::budget::affords;
use vbr_slots::AtTable;
use vbr_words::{Nodes, decode};

/// The node with the next key.
#[derive(Clone, Copy)]
pub(crate) struct NextNode {
    /// Its key.
    pub(crate) key: u64,
    /// Its entry, with the value 0 if nodes have none.
    pub(crate) entry: Entry,
    /// Whether it was the last of its list: its link names none.
    pub(crate) is_last: bool,
}

// One traversal by loads from the head of a bucket to its next node, past marked nodes, with so many
// steps of the budget already used.
#[inline(always)]
fn traverse_in<N: Nodes>(
    at: &mut AtTable<'_, N>,
    bucket: u32,
    from: u64,
    budget: u32,
    used: &mut u32,
) -> Result<Option<NextNode>, Stop>
    requires bucket { bucket < at.old.slots.now.start.shape.buckets }
    requires within { used.old ≤ budget }
    ensures table { IsSameTable at.old at.new }
    ensures peeks { Peeks (pass_of at.old) (pass_of at.new) used.old used.new budget }
    ensures next { IfOk result (TraversesToNext (trace_of at.old) (trace_of at.new)
        bucket from used.old used.new) }
    ensures stopped { IfErr result (SeekStops (trace_of at.old) (trace_of at.new)
        bucket used.old used.new budget) }
{
    at.law();
    if !affords(budget, *used) {
        return Err(Stop::Tired);
    }
    let head = start_at(at, bucket);
    *used += 3;
    let Ok(mut here) = head else {
        return Err(Stop::Again);
    };
    while decode(here.word, at.slots.layout()).slot.is_some() {
        if !affords(budget, *used) {
            return Err(Stop::Tired);
        }
        match visit_at(at, &here, from, used) {
            Err(_) => return Err(Stop::Again),
            Ok(Visited::Marked(marked)) => here = held_of(marked),
            Ok(Visited::Smaller(node)) => here = node,
            Ok(Visited::Beyond(node, key)) => {
                let is_last = decode(node.word, at.slots.layout()).slot.is_none();
                let read = value_if_any(at, &node);
                *used += steps_to_value_of(at.slots);
                let Ok(value) = read else {
                    return Err(Stop::Again);
                };
                let entry = named(&node, value);
                return Ok(Some(NextNode {
                    key,
                    entry,
                    is_last,
                }));
            }
        }
    }
    Ok(None)
}

/// Seeks the next node of a bucket, with so many steps of the budget already used. Returns what it
/// finds, none if the budget has no room for one more piece, and how many steps are used then.
#[inline(always)]
pub(crate) fn seek_in<N: Nodes>(
    at: &mut AtTable<'_, N>,
    bucket: u32,
    from: u64,
    budget: u32,
    used: u32,
) -> (Option<Option<NextNode>>, u32)
    requires bucket { bucket < at.old.slots.now.start.shape.buckets }
    requires within { used ≤ budget }
    ensures table { IsSameTable at.old at.new }
    ensures sought { Sought (pass_of at.old) (pass_of at.new)
        bucket from used result.1 budget result.0 }
{
    at.law();
    let mut since = used;
    loop {
        match traverse_in(at, bucket, from, budget, &mut since) {
            Ok(next) => return (Some(next), since),
            Err(Stop::Again) => at.count_restart(),
            Err(Stop::Tired) => return (None, since),
        }
    }
}
