//! The two pieces of each traversal of the list of a bucket: it starts at the head, and visits the node
//! after a place.
ghost use Rattle.std.specs.Prelude.{◌+◌, ◌<◌, ◌≤◌, IsSome, IfOk, IfErr};
ghost use Rattle.vbr_words.specs.Words.{link_of};
ghost use Rattle.vbr_slots.specs.steps.AtTables.{IsSameTable, pass_of, trace_of};
ghost use Rattle.vbr_slots.specs.views.Views.{knows};
ghost use Rattle.vbr_at_table.specs.reads.Held.{IsHeld, said};
ghost use Rattle.vbr_at_table.specs.reads.Reading.{ReadsIn};
ghost use Rattle.vbr_at_table.specs.declared.budget.TheConstants.{PIECE};
ghost use Rattle.vbr_list.specs.calls.Pieces.{LooksOn};
ghost use Rattle.vbr_list.specs.traversals.Visiting.{IsVisit, MeetsBehind, RollsBackFrom, StartsAt, StartsNone};
ghost use Rattle.vbr_list.specs.calls.Words.{said_visited};

use vbr_at_table::{Held, Marked, Rollback, checkpoint, first, key_of, next};
use vbr_slots::AtTable;
use vbr_words::Nodes;

/// What a visit comes to after a place.
#[derive(Clone, Copy)]
pub(crate) enum Visited {
    /// An unmarked node with a key below the number.
    Smaller(Held),
    /// An unmarked node with a key that is no less, and its key.
    Beyond(Held, u64),
    /// A marked node.
    Marked(Marked),
}

/// Starts at the head of a bucket, in three steps.
#[inline(always)]
pub(crate) fn start_at<N: Nodes>(at: &mut AtTable<'_, N>, bucket: u32) -> Result<Held, Rollback>
    requires bucket { bucket < at.old.slots.now.start.shape.buckets }
    ensures table { IsSameTable at.old at.new }
    ensures reads { ReadsIn (pass_of at.old) (pass_of at.new) 3 }
    ensures head { IfOk result (λ head.
        StartsAt (trace_of at.old) (trace_of at.new) bucket (said at.old.slots.now head)) }
    ensures moved { IfErr result (StartsNone (trace_of at.old) (trace_of at.new)) }
{
    let point = checkpoint(at);
    first(at, &point, bucket)
}

/// Visits the node that the link of a place names, and counts the steps: three if it is marked, else five.
#[inline(always)]
pub(crate) fn visit_at<N: Nodes>(
    at: &mut AtTable<'_, N>,
    here: &Held,
    number: u64,
    used: &mut u32,
) -> Result<Visited, Rollback>
    requires held { IsHeld (knows (trace_of at.old)) (said at.old.slots.now here.now) }
    requires some { IsSome (link_of (said at.old.slots.now here.now).word).slot }
    requires room { used.old + PIECE ≤ 4294967295 }
    ensures table { IsSameTable at.old at.new }
    ensures looks { LooksOn (pass_of at.old) (pass_of at.new) used.old used.new }
    ensures used { IsVisit used.old used.new }
    ensures met { IfOk result (λ met. MeetsBehind (trace_of at.old) (trace_of at.new)
        used.old used.new (said at.old.slots.now here.now) number
        (said_visited at.old.slots.now met)) }
    ensures moved { IfErr result (RollsBackFrom (trace_of at.old) (trace_of at.new)) }
{
    let node = next(at, here);
    *used += 3;
    let Some(node) = node? else { unreachable!() };
    if let Some(marked) = Marked::of(&node, at.slots.layout()) {
        return Ok(Visited::Marked(marked));
    }
    let read = key_of(at, &node);
    *used += 2;
    let key = read?;
    Ok(if key < number {
        Visited::Smaller(node)
    } else {
        Visited::Beyond(node, key)
    })
}
