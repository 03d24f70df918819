//! Taking a slot for a new incarnation.
ghost use Rattle.std.specs.Prelude.{◌≡◌, IfOk, IfErr, None};
ghost use Rattle.vbr_slots.specs.views.Views.{IsOf};
ghost use Rattle.vbr_at_table.specs.pools.Refusals.{RefusesTake};
ghost use Rattle.vbr_at_table.specs.pools.Taking.{IsTaken, Takes};

use vbr_at_table::{Hand, Refusal};
use vbr_slots::{AtTable, Pass, Slots};
use vbr_words::Nodes;

/// As [`vbr_at_table::take`], by a pass, whose steps are counted.
pub fn take<N: Nodes>(slots: &Slots<N>, pass: &mut Pass, budget: u32) -> Result<Hand, Refusal>
    requires own { IsOf pass.old.trace slots.now }
    requires empty_hand { pass.old.hand ≡ None }
    ensures takes { Takes pass.old pass.new budget }
    ensures taken { IfOk result (IsTaken pass.old pass.new) }
    ensures refused { IfErr result (RefusesTake pass.old pass.new budget) }
{
    pass.during(
        |stepper|
            requires own { IsOf stepper.old.trace slots.now }
            requires empty_hand { stepper.old.hand ≡ None }
        { vbr_at_table::take(&mut AtTable { slots, stepper }, budget) },
    )
}
