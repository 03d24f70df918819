//! The pools: rows call by call.
ghost use Rattle.std.specs.Prelude.{◌≡◌, None};
ghost use Rattle.vbr_slots.specs.views.Views.{IsOf};

use crate::retiring::{insert_one, remove_one};
use crate::running_table::{Opened, expect_pool, two_passes};
use std::alloc::Global;
use std::process::Abort;
use vbr_pools::{TakeRefusal, give_back, retire, take};
use vbr_slots::{Pass, Slots};
use vbr_words::{Entries, Keys, Nodes};

// Takes a slot within a budget and gives it back: compares which one it was, with its birth, or the
// refusal, and how many steps that took. Between the two calls the slot is in the pass's hand and not
// in its pool.
pub fn expect_taken<N: Nodes>(
    rt: &impl Abort,
    slots: &Slots<N>,
    pass: &mut Pass,
    budget: u32,
    wanted: Result<(u32, u64), TakeRefusal>,
    steps: u64,
)
    requires own { IsOf pass.old.trace slots.now }
    requires empty_hand { pass.old.hand ≡ None }
    ensures own { IsOf pass.new.trace slots.now }
    ensures empty_hand { pass.new.hand ≡ None }
{
    let before = pass.steps();
    let told = match take(slots, pass, budget) {
        Ok(hand) => {
            let told = (hand.slot(), hand.birth());
            assert!(rt; pass.in_hand() == Some(told.0));
            assert!(rt; !pass.pool().contains(&told.0));
            give_back(pass, hand);
            Ok(told)
        }
        Err(refusal) => Err(refusal),
    };
    assert_eq!(rt; told, wanted);
    assert_eq!(rt; pass.steps().saturating_sub(before), steps);
}

// A take: by which pass, with what budget, what it gets and in how many steps, and the slots that the pass has then.
type Take<'a> = (u32, u32, Result<(u32, u64), TakeRefusal>, u64, &'a [u32]);

// Makes a take by its pass.
fn make_take<N: Nodes>(rt: &impl Abort, slots: &Slots<N>, pass: &mut Pass, take: Take)
    requires own { IsOf pass.old.trace slots.now }
    requires empty_hand { pass.old.hand ≡ None }
    ensures own { IsOf pass.new.trace slots.now }
    ensures empty_hand { pass.new.hand ≡ None }
{
    let (_, budget, wanted, steps, pool) = take;
    expect_taken(rt, slots, pass, budget, wanted, steps);
    expect_pool(rt, pass, pool);
}

// Makes takes one after another on a table of two slots.
fn make_takes<R: Abort, N: Opened>(rt: &R, alloc: Global, takes: &[Take]) {
    let (slots, mut a, mut b) = two_passes::<R, N>(rt, alloc, 2, 10);
    for take in takes {
        if take.0 == 0 {
            make_take(rt, &slots, &mut a, *take);
        } else {
            make_take(rt, &slots, &mut b, *take);
        }
    }
}

// The same on a set and on a map.
fn expect_takes<R: Abort>(rt: &R, alloc: Global, takes: &[Take]) {
    make_takes::<R, Keys>(rt, alloc, takes);
    make_takes::<R, Entries>(rt, alloc, takes);
}

#[test]
fn a_slot_is_taken_and_given_back(rt: HostRuntime) {
    let slot = Ok((0, 1));
    expect_takes(
        &rt,
        rt.alloc(),
        &[(0, 100, slot, 4, &[0]), (0, 100, slot, 3, &[0])],
    );
}

#[test]
fn a_small_budget_takes_no_slot(rt: HostRuntime) {
    let none = Err(TakeRefusal::OutOfSteps { used: 0 });
    let three = Err(TakeRefusal::OutOfSteps { used: 3 });
    expect_takes(
        &rt,
        rt.alloc(),
        &[(1, 0, none, 0, &[]), (0, 10, three, 3, &[0])],
    );
}

fn take_where_none_is<R: Abort, N: Opened>(rt: &R, alloc: Global) {
    let (slots, mut a, mut b) = two_passes::<R, N>(rt, alloc, 1, 10);
    let hand = take(&slots, &mut a, 100).expect(rt, "a slot is in the shared pool");
    expect_taken(rt, &slots, &mut b, 100, Err(TakeRefusal::NoSlot), 1);
    expect_pool(rt, &b, &[]);
    give_back(&mut a, hand);
}

#[test]
fn the_only_slot_is_in_another_hand(rt: HostRuntime) {
    take_where_none_is::<HostRuntime, Keys>(&rt, rt.alloc());
    take_where_none_is::<HostRuntime, Entries>(&rt, rt.alloc());
}

// Inserts a key into the one bucket, which is empty, removes it, and retires its slot, which is slot 0.
fn use_a_slot<N: Nodes>(rt: &impl Abort, slots: &Slots<N>, pass: &mut Pass)
    requires own { IsOf pass.old.trace slots.now }
    requires empty_hand { pass.old.hand ≡ None }
    requires bucket { slots.now.start.shape.buckets ≡ 1 }
    ensures own { IsOf pass.new.trace slots.now }
    ensures empty_hand { pass.new.hand ≡ None }
{
    insert_one(rt, slots, pass);
    let unlinked = remove_one(rt, slots, pass);
    retire(slots, pass, unlinked);
    expect_pool(rt, pass, &[0]);
}

// Uses the one slot of a table with this last epoch, and takes it again: compares its result, and how many steps
// it took.
fn take_once_used<R: Abort, N: Opened>(
    rt: &R,
    alloc: Global,
    last_epoch: u64,
    wanted: Result<(u32, u64), TakeRefusal>,
    steps: u64,
) {
    let (slots, mut a, _b) = two_passes::<R, N>(rt, alloc, 1, last_epoch);
    use_a_slot(rt, &slots, &mut a);
    expect_taken(rt, &slots, &mut a, 80, wanted, steps);
    assert_eq!(rt; a.epoch(), last_epoch);
}

#[test]
fn the_last_epoch_is_spent(rt: HostRuntime) {
    let spent = Err(TakeRefusal::EpochSpent { epoch: 1 });
    take_once_used::<HostRuntime, Keys>(&rt, rt.alloc(), 1, spent, 2);
    take_once_used::<HostRuntime, Entries>(&rt, rt.alloc(), 1, spent, 2);
}

#[test]
fn a_retired_slot_is_born_in_the_next_epoch(rt: HostRuntime) {
    take_once_used::<HostRuntime, Keys>(&rt, rt.alloc(), 2, Ok((0, 2)), 5);
    take_once_used::<HostRuntime, Entries>(&rt, rt.alloc(), 2, Ok((0, 2)), 5);
}
