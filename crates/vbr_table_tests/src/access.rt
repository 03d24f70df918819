//! Checked access: checkpoints, reads that a moved epoch rolls back, and the steps that calls make.
ghost use Rattle.std.specs.Prelude.{◌≡◌, ◌<◌, ◌≤◌, true, IfOk};
ghost use Rattle.vbr_slots.specs.views.Views.{IsOf, new_passes};

use crate::retiring::{read_one, read_value};
use crate::running_table::{Opened, expect_closed, expect_pass, two_passes};
use std::alloc::Global;
use std::process::Abort;
use std::test::Fail;
use vbr_access::{Held, Marked, Rollback, checkpoint, first, mark_entry, next};
use vbr_slots::{OpenError, Pass, Slots};
use vbr_words::{At, Entries, Keys, Nodes, Shape};

// The epoch moves between a checkpoint and the read of a head.
fn roll_back<N: Nodes>(rt: &impl Abort, slots: &Slots<N>, pass: &mut Pass, other: &mut Pass)
    requires own { IsOf pass.old.trace slots.now }
    requires other { IsOf other.old.trace slots.now }
    requires shape { (0 < slots.now.start.shape.buckets) × (1 < slots.now.start.shape.last_epoch) }
    ensures own { IsOf pass.new.trace slots.now }
{
    let point = checkpoint(slots, pass);
    assert_eq!(rt; point.epoch, 1);
    assert!(rt; slots.advance(other, 1));
    let head = first(slots, pass, &point, 0);
    assert_eq!(rt; head, Err(Rollback::EpochMoved { now: 2 }));
}

// The head of bucket 0, which is empty, is read after a new checkpoint in epoch 2. There is no step to
// a node behind it.
fn read_head<N: Nodes>(rt: &impl Abort, slots: &Slots<N>, pass: &mut Pass)
    requires own { IsOf pass.old.trace slots.now }
    requires bucket { 0 < slots.now.start.shape.buckets }
    ensures own { IsOf pass.new.trace slots.now }
{
    let point = checkpoint(slots, pass);
    let head = first(slots, pass, &point, 0).expect(rt, "the epoch has not moved");
    let empty = Held {
        at: At::Head(0),
        birth: 0,
        word: 0,
        epoch: 2,
    };
    assert_eq!(rt; head, empty);
    let steps = pass.steps();
    assert_eq!(rt; next(slots, pass, &head), Ok(None));
    assert!(rt; pass.steps() == steps);
}

fn roll_back_and_read<R: Abort, N: Opened>(rt: &R, alloc: Global) {
    let (slots, mut pass, mut other) = two_passes::<R, N>(rt, alloc, 1, 10);
    roll_back(rt, &slots, &mut pass, &mut other);
    expect_pass(rt, &pass, (0, 2, 3));
    read_head(rt, &slots, &mut pass);
    expect_pass(rt, &pass, (0, 2, 6));
}

/// The epoch moves between a checkpoint and the read of a head: the read rolls back.
#[test]
fn a_moved_epoch_rolls_back(rt: HostRuntime) {
    roll_back_and_read::<HostRuntime, Keys>(&rt, rt.alloc());
    roll_back_and_read::<HostRuntime, Entries>(&rt, rt.alloc());
}

// Opens a table with one pass and one entry, 7 with 107.
fn open_once(alloc: Global, shape: Shape) -> Result<(Slots<Entries>, Vec<Pass>), OpenError>
    requires few { 1 ≤ shape.slots }
    ensures buckets { IfOk result (λ r. r.0.start.shape.buckets ≡ shape.buckets) }
    ensures values { IfOk result (λ r. r.0.start.shape.values ≡ true) }
    ensures count { IfOk result (λ r. r.0.passes ≡ 1) }
    ensures passes { IfOk result (λ r. r.1.items ≡ new_passes r.0 0 1) }
{
    Slots::open_with_entries(alloc, shape, 1, &[(7, 107)])
}

// The same. What found no memory left nothing, so it is tried again.
fn open_with_one_entry(
    alloc: Global,
    shape: Shape,
) -> Result<(Slots<Entries>, Vec<Pass>), OpenError>
    requires few { 1 ≤ shape.slots }
    ensures buckets { IfOk result (λ r. r.0.start.shape.buckets ≡ shape.buckets) }
    ensures values { IfOk result (λ r. r.0.start.shape.values ≡ true) }
    ensures count { IfOk result (λ r. r.0.passes ≡ 1) }
    ensures passes { IfOk result (λ r. r.1.items ≡ new_passes r.0 0 1) }
{
    match open_once(alloc, shape) {
        Err(OpenError::Memory) => open_once(alloc, shape),
        opened => opened,
    }
}

// Reads the one node, whose key is 7 and whose value is 107, and marks it.
fn mark_one_entry(rt: &impl Abort, slots: &Slots<Entries>, pass: &mut Pass) -> Marked
    requires own { IsOf pass.old.trace slots.now }
    requires bucket { 0 < slots.now.start.shape.buckets }
    requires values { slots.now.start.shape.values ≡ true }
    ensures own { IsOf pass.new.trace slots.now }
{
    let (_, node) = read_one(rt, slots, pass);
    read_value(rt, slots, pass, &node);
    mark_entry(slots, pass, &node).expect(rt, "the link is unmarked")
}

/// A node with a value is read and marked, in eleven steps. Of the words, only its link changes.
#[test]
fn an_entry_is_read_and_marked(rt: HostRuntime) -> Result<(), Fail> {
    let (slots, mut passes) = open_with_one_entry(rt.alloc(), Shape::new(1, 1, 10)?)?;
    let mut pass = passes.pop().expect(&rt, "a pass");
    let marked = mark_one_entry(&rt, &slots, &mut pass);
    let wanted = Marked {
        slot: 0,
        birth: 1,
        word: 6,
        epoch: 1,
    };
    assert_eq!(rt; marked, wanted);
    expect_pass(&rt, &pass, (0, 1, 11));
    passes.push(pass).ok().ok_or("no room")?;
    let wanted = [1, 21, 5, 6, 1, 0, 7, 107, 0];
    expect_closed(&rt, rt.alloc(), slots, passes, &wanted);
    Ok(())
}
