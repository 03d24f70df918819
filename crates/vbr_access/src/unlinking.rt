//! Unlinking a marked node.
ghost use Rattle.std.specs.Prelude.{IfOk, IfErr};
ghost use Rattle.vbr_slots.specs.views.Views.{IsOf, knows};
ghost use Rattle.vbr_at_table.specs.answers.Exchanges.{StaysIn, UnlinksNode, UnlinksNone, IsUnmarked};
ghost use Rattle.vbr_at_table.specs.reads.Held.{HoldsMarked, Names, said, said_marked, said_rollback};
ghost use Rattle.vbr_at_table.specs.costs.StepCosts.{steps_to_unlink};

use vbr_at_table::{Held, Marked, Rollback, Unlinked};
use vbr_slots::{AtTable, Pass, Slots};
use vbr_words::Nodes;

/// As [`vbr_at_table::unlink`], by a pass, whose steps are counted.
#[inline]
pub fn unlink<N: Nodes>(
    slots: &Slots<N>,
    pass: &mut Pass,
    pred: &Held,
    marked: Marked,
) -> Result<(Unlinked, Held), Rollback>
    requires own { IsOf pass.old.trace slots.now }
    requires pred { IsUnmarked (knows pass.old.trace) (said slots.now pred.now) }
    requires marked { HoldsMarked (knows pass.old.trace) (said_marked slots.now marked) }
    requires names { Names (said slots.now pred.now) marked.slot }
    ensures stays { StaysIn pass.old pass.new
        (steps_to_unlink (said_marked slots.now marked).word result) }
    ensures unlinked { IfOk result (λ told. UnlinksNode pass.old pass.new (said slots.now pred.now)
        (said_marked slots.now marked) (told.0, said slots.now told.1)) }
    ensures failed { IfErr result (λ why. UnlinksNone pass.old pass.new (said slots.now pred.now)
        (said_rollback slots.now why)) }
{
    pass.during(
        |stepper|
            requires own { IsOf stepper.old.trace slots.now }
            requires pred { IsUnmarked (knows stepper.old.trace) (said slots.now pred.now) }
            requires marked { HoldsMarked (knows stepper.old.trace)
                (said_marked slots.now marked) }
            requires names { Names (said slots.now pred.now) marked.slot }
        {
            let outcome = vbr_at_table::unlink(&mut AtTable { slots, stepper }, pred, marked);
            let used = vbr_at_table::steps_to_unlink(marked.word, slots.layout(), &outcome);
            (outcome, used)
        },
    )
}
