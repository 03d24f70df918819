//! Marking a node: a remove.
ghost use Rattle.std.specs.Prelude.{IfOk, IfErr};
ghost use Rattle.vbr_slots.specs.views.Views.{IsOf, knows};
ghost use Rattle.vbr_at_table.specs.answers.Answering.{KeepsIn, IsPresent};
ghost use Rattle.vbr_at_table.specs.answers.Exchanges.{LosesExchange};
ghost use Rattle.vbr_at_table.specs.reads.Held.{said, said_marked, said_rollback};
ghost use Rattle.vbr_at_table.specs.answers.Values.{IsValued, MarksEntry, RemovesKey};

use vbr_at_table::{Held, Marked, Rollback};
use vbr_slots::{AtTable, Pass, Slots};
use vbr_words::Nodes;

/// As [`mark_entry`], at a table whose nodes have no values: the pass has removed the key of the node.
#[inline]
pub fn mark(slots: &Slots, pass: &mut Pass, held: &Held) -> Result<Marked, Rollback>
    requires own { IsOf pass.old.trace slots.now }
    requires node { IsPresent (knows pass.old.trace) (said slots.now held.now) }
    ensures keeps { KeepsIn pass.old pass.new 1 }
    ensures removed { IfOk result (λ marked. RemovesKey pass.old.trace pass.new.trace
        (said slots.now held.now) (said_marked slots.now marked)) }
    ensures lost { IfErr result (λ why. LosesExchange pass.old.trace pass.new.trace
        (said slots.now held.now) (said_rollback slots.now why)) }
{
    slots.kind();
    mark_entry(slots, pass, held)
}

/// As [`vbr_at_table::mark`], by a pass, whose steps are counted.
#[inline]
pub fn mark_entry<N: Nodes>(
    slots: &Slots<N>,
    pass: &mut Pass,
    held: &Held,
) -> Result<Marked, Rollback>
    requires own { IsOf pass.old.trace slots.now }
    requires node { IsPresent (knows pass.old.trace) (said slots.now held.now) }
    requires valued { IsValued pass.old.trace held.now.at }
    ensures keeps { KeepsIn pass.old pass.new 1 }
    ensures removed { IfOk result (λ marked. MarksEntry pass.old.trace pass.new.trace
        (said slots.now held.now) (said_marked slots.now marked)) }
    ensures lost { IfErr result (λ why. LosesExchange pass.old.trace pass.new.trace
        (said slots.now held.now) (said_rollback slots.now why)) }
{
    pass.during(
        |stepper|
            requires own { IsOf stepper.old.trace slots.now }
            requires node { IsPresent (knows stepper.old.trace) (said slots.now held.now) }
            requires valued { IsValued stepper.old.trace held.now.at }
        { (vbr_at_table::mark(&mut AtTable { slots, stepper }, held), 1) },
    )
}
