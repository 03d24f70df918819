//! Marking a node: a remove.
ghost use Rattle.std.specs.Prelude.{IfOk, IfErr};
ghost use Rattle.vbr_slots.specs.steps.AtTables.{IsSameTable, trace_of, pass_of};
ghost use Rattle.vbr_slots.specs.views.Views.{knows};
ghost use Rattle.vbr_at_table.specs.answers.Answering.{KeepsIn, IsPresent};
ghost use Rattle.vbr_at_table.specs.answers.Exchanges.{LosesExchange};
ghost use Rattle.vbr_at_table.specs.reads.Held.{said, said_marked, said_rollback};
ghost use Rattle.vbr_at_table.specs.answers.Records.{MarksHeld};
ghost use Rattle.vbr_at_table.specs.answers.Values.{IsValued, MarksEntry};

use crate::held::{Held, Marked};
use crate::rollback::Rollback;
use vbr_slots::AtTable;
use vbr_words::{At, Nodes, with_mark};

/// Marks a node, in one step: the pass has removed its key. If nodes have values, the one of this
/// node was checked, and the call gives it. It does so only if the node's link is still the unmarked
/// one that is held. Else it answers LostExchange: no call was made, and what the pass knew it knows.
#[inline]
pub fn mark<N: Nodes>(at: &mut AtTable<'_, N>, held: &Held) -> Result<Marked, Rollback>
    requires node { IsPresent (knows (trace_of at.old)) (said at.old.slots.now held.now) }
    requires valued { IsValued (trace_of at.old) held.now.at }
    ensures table { IsSameTable at.old at.new }
    ensures keeps { KeepsIn (pass_of at.old) (pass_of at.new) 1 }
    ensures removed { IfOk result (λ marked.
        MarksEntry (trace_of at.old) (trace_of at.new) (said at.old.slots.now held.now)
        (said_marked at.old.slots.now marked)) }
    ensures there { IfOk result (λ _. MarksHeld (trace_of at.old) (trace_of at.new)
        (said at.old.slots.now held.now)) }
    ensures lost { IfErr result (λ why.
        LosesExchange (trace_of at.old) (trace_of at.new) (said at.old.slots.now held.now)
        (said_rollback at.old.slots.now why)) }
{
    at.law();
    let At::Slot(slot) = held.at else {
        unreachable!()
    };
    let word = with_mark(held.word, at.slots.layout());
    match at.mark(slot, held.word) {
        Ok(()) => Ok(Marked {
            slot,
            birth: held.birth,
            word,
            epoch: held.epoch,
        }),
        Err(found) => Err(Rollback::LostExchange { found }),
    }
}
