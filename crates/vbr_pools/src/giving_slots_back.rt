//! Giving the slots of the own pool back.
ghost use Rattle.vbr_slots.specs.steps.Calls.{Took};
ghost use Rattle.vbr_slots.specs.views.Views.{IsOf};
ghost use Rattle.vbr_at_table.specs.pools.GivingSlotsBack.{GivesSlotsBack};

use vbr_slots::{AtTable, Pass, Slots, Stepper};
use vbr_words::Nodes;

/// As [`vbr_at_table::give_slots_back`], by a pass, whose steps are counted.
pub fn give_slots_back<N: Nodes>(slots: &Slots<N>, pass: &mut Pass) -> u32
    requires own { IsOf pass.old.trace slots.now }
    ensures { GivesSlotsBack pass.old pass.new result }
{
    pass.during(
        |stepper|
            requires own { IsOf stepper.old.trace slots.now }
        { give_back_by(slots, stepper) },
    )
}

// How many were given back, and how many steps that took, which are as many.
fn give_back_by<N: Nodes>(slots: &Slots<N>, stepper: &mut Stepper) -> (u32, u32)
    requires own { IsOf stepper.old.trace slots.now }
    ensures took { Took stepper.old.trace stepper.new.trace result.1 }
    ensures gives { GivesSlotsBack stepper.old stepper.new result.0 }
{
    let shared = vbr_at_table::give_slots_back(&mut AtTable { slots, stepper });
    (shared, shared)
}
