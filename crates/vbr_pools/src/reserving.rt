//! Taking slots into the own pool ahead of the calls that need them.
ghost use Rattle.std.specs.Prelude.{ℕ};
ghost use Rattle.vbr_slots.specs.steps.Calls.{Took};
ghost use Rattle.vbr_slots.specs.views.Views.{IsOf};
ghost use Rattle.vbr_at_table.specs.pools.Reserving.{Reserves, TopsUp};

use vbr_slots::{AtTable, Pass, Slots, Stepper};
use vbr_words::Nodes;

/// As [`vbr_at_table::reserve`], by a pass, whose steps are counted. Returns how many slots it took.
pub fn reserve<N: Nodes>(slots: &Slots<N>, pass: &mut Pass, wanted: u32) -> u32
    requires own { IsOf pass.old.trace slots.now }
    ensures { (steps : ℕ) × Reserves pass.old pass.new wanted result steps }
{
    pass.during(
        |stepper|
            requires own { IsOf stepper.old.trace slots.now }
        { reserve_by(slots, stepper, wanted) },
    )
}

// How many were taken, and how many steps that took.
fn reserve_by<N: Nodes>(slots: &Slots<N>, stepper: &mut Stepper, wanted: u32) -> (u32, u32)
    requires own { IsOf stepper.old.trace slots.now }
    ensures took { Took stepper.old.trace stepper.new.trace result.1 }
    ensures reserves { Reserves stepper.old stepper.new wanted result.0 result.1 }
{
    vbr_at_table::reserve(&mut AtTable { slots, stepper }, wanted)
}

/// As [`vbr_at_table::top_up`], by a pass, whose steps are counted. Returns how many slots it took.
pub fn top_up<N: Nodes>(slots: &Slots<N>, pass: &mut Pass, wanted: u32, probes: u32) -> u32
    requires own { IsOf pass.old.trace slots.now }
    ensures { (steps : ℕ) × TopsUp pass.old pass.new wanted probes result steps }
{
    pass.during(
        |stepper|
            requires own { IsOf stepper.old.trace slots.now }
        { top_up_by(slots, stepper, wanted, probes) },
    )
}

// How many were taken, and how many steps that took.
fn top_up_by<N: Nodes>(
    slots: &Slots<N>,
    stepper: &mut Stepper,
    wanted: u32,
    probes: u32,
) -> (u32, u32)
    requires own { IsOf stepper.old.trace slots.now }
    ensures took { Took stepper.old.trace stepper.new.trace result.1 }
    ensures tops_up { TopsUp stepper.old stepper.new wanted probes result.0 result.1 }
{
    vbr_at_table::top_up(&mut AtTable { slots, stepper }, wanted, probes)
}
