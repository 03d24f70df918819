//! Retiring an unlinked slot.
ghost use Rattle.vbr_machine.specs.Acceptance.{IsUnlinked};
ghost use Rattle.vbr_slots.specs.views.Views.{IsOf, knows};
ghost use Rattle.vbr_at_table.specs.pools.Retiring.{Retires};

use vbr_at_table::Unlinked;
use vbr_slots::{AtTable, Pass, Slots};
use vbr_words::Nodes;

/// As [`vbr_at_table::retire`], by a pass, whose steps are counted.
#[inline]
pub fn retire<N: Nodes>(slots: &Slots<N>, pass: &mut Pass, unlinked: Unlinked) -> u32
    requires own { IsOf pass.old.trace slots.now }
    requires unlinked { IsUnlinked ((knows pass.old.trace).own unlinked.slot) }
    ensures { Retires pass.old pass.new unlinked.slot result }
{
    pass.during_with(
        unlinked,
        |stepper, unlinked|
            requires own { IsOf stepper.old.trace slots.now }
            requires unlinked { IsUnlinked ((knows stepper.old.trace).own unlinked.slot) }
        {
            let used = vbr_at_table::retire(&mut AtTable { slots, stepper }, unlinked);
            (used, used)
        },
    )
}
