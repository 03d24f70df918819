//! Checkpoints and checked reads.
ghost use Rattle.std.specs.Prelude.{◌≡◌, ◌<◌, true, IfOk, IfErr};
ghost use Rattle.vbr_slots.specs.views.Views.{IsOf, knows};
ghost use Rattle.vbr_at_table.specs.reads.Held.{IsHeld, IsSlot, said, said_if, said_in};
ghost use Rattle.vbr_at_table.specs.reads.Reading.{IsCheckpoint, IsHeadRead, IsKeyRead, IsNextRead};
ghost use Rattle.vbr_at_table.specs.reads.Reading.{ReadsIn, RollsBack, steps_to_next};
ghost use Rattle.vbr_at_table.specs.answers.Values.{IsValueRead};

use vbr_at_table::{Checkpoint, Held, Rollback};
use vbr_slots::{AtTable, Pass, Slots};
use vbr_words::{Layout, Nodes, decode};

/// As [`vbr_at_table::checkpoint`], by a pass, whose steps are counted.
#[inline]
pub fn checkpoint<N: Nodes>(slots: &Slots<N>, pass: &mut Pass) -> Checkpoint
    requires { IsOf pass.old.trace slots.now }
    ensures reads { ReadsIn pass.old pass.new 1 }
    ensures point { IsCheckpoint pass.old pass.new result.epoch }
{
    pass.during(
        |stepper|
            requires own { IsOf stepper.old.trace slots.now }
        { (vbr_at_table::checkpoint(&mut AtTable { slots, stepper }), 1) },
    )
}

/// As [`vbr_at_table::first`], by a pass, whose steps are counted.
#[inline]
pub fn first<N: Nodes>(
    slots: &Slots<N>,
    pass: &mut Pass,
    point: &Checkpoint,
    bucket: u32,
) -> Result<Held, Rollback>
    requires own { IsOf pass.old.trace slots.now }
    requires point { point.now.epoch ≡ (knows pass.old.trace).epoch }
    requires bucket { bucket < slots.now.start.shape.buckets }
    ensures reads { ReadsIn pass.old pass.new 2 }
    ensures head { IfOk result (λ head.
        IsHeadRead pass.old pass.new bucket (said slots.now head)) }
    ensures moved { IfErr result (RollsBack pass.old pass.new) }
{
    pass.during(
        |stepper|
            requires own { IsOf stepper.old.trace slots.now }
            requires point { point.now.epoch ≡ (knows stepper.old.trace).epoch }
            requires bucket { bucket < slots.now.start.shape.buckets }
        {
            (
                vbr_at_table::first(&mut AtTable { slots, stepper }, point, bucket),
                2,
            )
        },
    )
}

/// As [`vbr_at_table::next`], by a pass, whose steps are counted.
#[inline]
pub fn next<N: Nodes>(
    slots: &Slots<N>,
    pass: &mut Pass,
    held: &Held,
) -> Result<Option<Held>, Rollback>
    requires own { IsOf pass.old.trace slots.now }
    requires held { IsHeld (knows pass.old.trace) (said slots.now held.now) }
    ensures reads { ReadsIn pass.old pass.new (steps_to_next (said slots.now held.now)) }
    ensures next { IfOk result (λ found. IsNextRead pass.old pass.new (said slots.now held.now)
        (said_if slots.now found)) }
    ensures moved { IfErr result (RollsBack pass.old pass.new) }
{
    let used = steps_to_read_next(held, slots.layout());
    pass.during(
        |stepper|
            requires own { IsOf stepper.old.trace slots.now }
            requires held { IsHeld (knows stepper.old.trace) (said slots.now held.now) }
        {
            (
                vbr_at_table::next(&mut AtTable { slots, stepper }, held),
                used,
            )
        },
    )
}

/// As [`vbr_at_table::key_of`], by a pass, whose steps are counted.
#[inline]
pub fn key_of<N: Nodes>(slots: &Slots<N>, pass: &mut Pass, node: &Held) -> Result<u64, Rollback>
    requires own { IsOf pass.old.trace slots.now }
    requires held { IsHeld (knows pass.old.trace) (said slots.now node.now) }
    requires slot { IsSlot node.now.at }
    ensures reads { ReadsIn pass.old pass.new 2 }
    ensures key { IfOk result (IsKeyRead pass.old pass.new node.now.at) }
    ensures moved { IfErr result (RollsBack pass.old pass.new) }
{
    pass.during(
        |stepper|
            requires own { IsOf stepper.old.trace slots.now }
            requires held { IsHeld (knows stepper.old.trace) (said slots.now node.now) }
            requires slot { IsSlot node.now.at }
        {
            (
                vbr_at_table::key_of(&mut AtTable { slots, stepper }, node),
                2,
            )
        },
    )
}

/// As [`vbr_at_table::value_of`], by a pass, whose steps are counted.
#[inline]
pub fn value_of<N: Nodes>(slots: &Slots<N>, pass: &mut Pass, node: &Held) -> Result<u64, Rollback>
    requires own { IsOf pass.old.trace slots.now }
    requires values { slots.now.start.shape.values ≡ true }
    requires held { IsHeld (knows pass.old.trace) (said slots.now node.now) }
    requires slot { IsSlot node.now.at }
    ensures reads { ReadsIn pass.old pass.new 2 }
    ensures value { IfOk result (IsValueRead pass.old pass.new node.now.at) }
    ensures moved { IfErr result (RollsBack pass.old pass.new) }
{
    pass.during(
        |stepper|
            requires own { IsOf stepper.old.trace slots.now }
            requires values { slots.now.start.shape.values ≡ true }
            requires held { IsHeld (knows stepper.old.trace) (said slots.now node.now) }
            requires slot { IsSlot node.now.at }
        {
            (
                vbr_at_table::value_of(&mut AtTable { slots, stepper }, node),
                2,
            )
        },
    )
}

// How many steps it takes to read what the link that is held names.
#[inline]
fn steps_to_read_next(held: &Held, layout: Layout) -> u32
    ensures { result ≡ steps_to_next (said_in layout held.now) }
{
    if decode(held.word, layout).slot.is_some() {
        3
    } else {
        0
    }
}
