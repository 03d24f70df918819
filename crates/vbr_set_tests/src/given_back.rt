//! Slots that a member keeps to itself, gives back, and takes in reserve: rows of a set and of a map.

use crate::members::{expect_insert, expect_remove};
use std::alloc::Global;
use std::process::Abort;
use std::test::Fail;
use vbr_set::{Kind, MapMember, Member, Refusal, Shape, member};

// The members of a set or a map of so many slots.
fn open_members<N: Kind>(
    rt: &impl Abort,
    alloc: Global,
    slots: u32,
    count: u32,
) -> Vec<member::Member<N>> {
    let shape = Shape::new(slots, 1, 10).expect(rt, "a shape");
    member::Member::<N>::open(alloc, shape, count).expect(rt, "memory")
}

// The two members of a set or a map of so many slots.
fn open_two<N: Kind>(
    rt: &impl Abort,
    alloc: Global,
    slots: u32,
) -> (member::Member<N>, member::Member<N>) {
    let members = open_members(rt, alloc, slots, 2);
    let [one, other] = <[member::Member<N>; 2]>::try_from(members)
        .ok()
        .expect(rt, "two members");
    (one, other)
}

// The only member of a set or a map of so many slots.
fn open_alone<N: Kind>(rt: &impl Abort, alloc: Global, slots: u32) -> member::Member<N> {
    let members = open_members(rt, alloc, slots, 1);
    let [alone] = <[member::Member<N>; 1]>::try_from(members)
        .ok()
        .expect(rt, "a member");
    alone
}

// The member gives back so many slots, a step for each, and keeps none.
fn expect_given<N: Kind>(rt: &impl Abort, one: &mut member::Member<N>, wanted: u32) {
    let before = one.pass().steps();
    let given = one.give_slots_back();
    assert_eq!(rt; given, wanted);
    assert_eq!(rt;
        one.pass().steps().saturating_sub(before),
        u64::from(wanted)
    );
    assert!(rt; one.pass().pool().is_empty());
}

// The member takes so many slots of those that it wants, and keeps so many then.
fn expect_reserved<N: Kind>(
    rt: &impl Abort,
    one: &mut member::Member<N>,
    wanted: u32,
    taken: u32,
    kept: usize,
) {
    let reserved = one.reserve(wanted);
    assert_eq!(rt; reserved, taken);
    assert_eq!(rt; one.pass().pool().len(), kept);
}

// The other member has no slot for these keys until the first one gives its slots back, and then the first one has none
// for its key.
fn expect_handed_over(
    rt: &impl Abort,
    one: &mut Member,
    other: &mut Member,
    keys: &[u64],
    refused: u64,
) {
    for key in keys {
        assert_eq!(rt; other.insert(*key, 100), Err(Refusal::NoSlot));
    }
    expect_given(rt, one, u32::try_from(keys.len()).unwrap_or(u32::MAX));
    expect_given(rt, one, 0);
    for key in keys {
        expect_insert(rt, other, *key, true);
    }
    assert_eq!(rt; one.insert(refused, 100), Err(Refusal::NoSlot));
}

// The same of one slot of a map, for this key with 71.
fn expect_entry_handed_over(
    rt: &impl Abort,
    one: &mut MapMember,
    other: &mut MapMember,
    key: u64,
    refused: u64,
) {
    assert_eq!(rt; other.insert(key, 71, 100), Err(Refusal::NoSlot));
    expect_given(rt, one, 1);
    expect_given(rt, one, 0);
    assert_eq!(rt; other.insert(key, 71, 100), Ok(true));
    assert_eq!(rt; one.insert(refused, 72, 100), Err(Refusal::NoSlot));
}

// Two slots are the first member's. It gives them back, and then the other one has them.
#[test]
fn slots_of_a_set_are_given_back(rt: HostRuntime) -> Result<(), Fail> {
    let (mut one, mut other): (Member, Member) = open_two(&rt, rt.alloc(), 2);
    for key in 1..3 {
        expect_insert(&rt, &mut one, key, true);
        expect_remove(&rt, &mut one, key, true);
    }
    expect_insert(&rt, &mut one, 3, true);
    expect_insert(&rt, &mut one, 4, true);
    expect_remove(&rt, &mut one, 3, true);
    expect_remove(&rt, &mut one, 4, true);
    assert_eq!(rt; one.pass().pool().len(), 2);
    expect_handed_over(&rt, &mut one, &mut other, &[5, 6], 7);
    Ok(())
}

#[test]
fn slots_of_a_map_are_given_back(rt: HostRuntime) -> Result<(), Fail> {
    let (mut one, mut other): (MapMember, MapMember) = open_two(&rt, rt.alloc(), 1);
    assert_eq!(rt; one.insert(1, 70, 100), Ok(true));
    assert_eq!(rt; one.remove(1, 100), Ok(Some(70)));
    expect_entry_handed_over(&rt, &mut one, &mut other, 2, 1);
    Ok(())
}

// With 14 steps an insert takes the slot and bears there in its seventh, and is refused for want of steps. The member
// gives that slot back as any other.
#[test]
fn a_slot_of_a_set_that_was_in_hand_is_given_back(rt: HostRuntime) -> Result<(), Fail> {
    let (mut one, mut other): (Member, Member) = open_two(&rt, rt.alloc(), 1);
    assert_eq!(rt; one.insert(5, 14), Err(Refusal::OutOfSteps { used: 7 }));
    expect_handed_over(&rt, &mut one, &mut other, &[6], 5);
    Ok(())
}

#[test]
fn a_slot_of_a_map_that_was_in_hand_is_given_back(rt: HostRuntime) -> Result<(), Fail> {
    let (mut one, mut other): (MapMember, MapMember) = open_two(&rt, rt.alloc(), 1);
    assert_eq!(rt; one.insert(5, 70, 14), Err(Refusal::OutOfSteps { used: 7 }));
    expect_entry_handed_over(&rt, &mut one, &mut other, 6, 5);
    Ok(())
}

// A member that is dropped leaves its slots to the others.
#[test]
fn a_dropped_member_leaves_its_slots(rt: HostRuntime) -> Result<(), Fail> {
    let (mut one, mut other): (Member, Member) = open_two(&rt, rt.alloc(), 1);
    expect_insert(&rt, &mut one, 1, true);
    expect_remove(&rt, &mut one, 1, true);
    assert_eq!(rt; other.insert(2, 100), Err(Refusal::NoSlot));
    drop(one);
    expect_insert(&rt, &mut other, 2, true);
    Ok(())
}

// Two slots are the first member's. It is closed, and then the other one has both.
#[test]
fn a_closed_member_leaves_its_slots(rt: HostRuntime) -> Result<(), Fail> {
    let (mut one, mut other): (Member, Member) = open_two(&rt, rt.alloc(), 2);
    expect_reserved(&rt, &mut one, 2, 2, 2);
    assert_eq!(rt; other.insert(5, 100), Err(Refusal::NoSlot));
    assert!(rt; one.close(rt.alloc())?.is_none());
    expect_insert(&rt, &mut other, 5, true);
    expect_insert(&rt, &mut other, 6, true);
    Ok(())
}

// A reserve is what is wanted and what there is. Its slots are nobody else's until they are given back.
#[test]
fn members_reserve_slots(rt: HostRuntime) -> Result<(), Fail> {
    let (mut one, mut other): (Member, Member) = open_two(&rt, rt.alloc(), 4);
    let reserved = one.reserve(3);
    assert_eq!(rt; reserved, 3);
    expect_reserved(&rt, &mut one, 3, 0, 3);
    expect_reserved(&rt, &mut other, 3, 1, 1);
    expect_insert(&rt, &mut other, 1, true);
    assert_eq!(rt; other.insert(2, 100), Err(Refusal::NoSlot));
    expect_given(&rt, &mut one, 3);
    expect_insert(&rt, &mut other, 2, true);
    Ok(())
}

// A reserve is never more than 63.
#[test]
fn a_member_of_a_map_reserves_63(rt: HostRuntime) {
    let mut alone: MapMember = open_alone(&rt, rt.alloc(), 100);
    expect_reserved(&rt, &mut alone, 100, 63, 63);
}

// Of one slot there is no reserve for another member.
#[test]
fn members_of_a_map_reserve_one_slot(rt: HostRuntime) {
    let (mut one, mut other): (MapMember, MapMember) = open_two(&rt, rt.alloc(), 1);
    expect_reserved(&rt, &mut one, 0, 0, 0);
    expect_reserved(&rt, &mut one, 5, 1, 1);
    expect_reserved(&rt, &mut other, 5, 0, 0);
}

// The member wants so many slots and tries so often: it takes so many, a step for each try, and keeps so many then.
fn expect_topped_up<N: Kind>(
    rt: &impl Abort,
    one: &mut member::Member<N>,
    (wanted, probes): (u32, u32),
    (taken, steps): (u32, u64),
    kept: usize,
) {
    let before = one.pass().steps();
    let topped_up = one.top_up(wanted, probes);
    assert_eq!(rt; topped_up, taken);
    assert_eq!(rt; one.pass().steps().saturating_sub(before), steps);
    assert_eq!(rt; one.pass().pool().len(), kept);
}

// The first member takes the slots 1, 2 and 3, and none beyond what it wants. So the other one finds slot 0 alone: with
// its third try, as the second goes on after slot 1, where it tried first, and shows that no slot from there on is free.
#[test]
fn top_ups_go_on_where_they_stopped(rt: HostRuntime) -> Result<(), Fail> {
    let (mut one, mut other): (Member, Member) = open_two(&rt, rt.alloc(), 4);
    let taken = one.top_up(3, 2);
    assert_eq!(rt; taken, 2);
    expect_topped_up(&rt, &mut one, (3, 2), (1, 1), 3);
    expect_topped_up(&rt, &mut one, (3, 2), (0, 0), 3);
    expect_topped_up(&rt, &mut other, (1, 0), (0, 0), 0);
    expect_topped_up(&rt, &mut other, (1, 1), (0, 1), 0);
    expect_topped_up(&rt, &mut other, (1, 2), (1, 2), 1);
    Ok(())
}

// If a remove follows each insert, one insert of three advances the epoch with three slots in reserve; with none
// each but the first does.
#[test]
fn a_reserve_makes_the_epoch_last(rt: HostRuntime) -> Result<(), Fail> {
    for (reserve, epoch) in [(0, 9), (3, 3)] {
        let mut one: Member = open_alone(&rt, rt.alloc(), 4);
        expect_reserved(&rt, &mut one, reserve, reserve, reserve as usize);
        for key in 0..9 {
            expect_insert(&rt, &mut one, key, true);
            expect_remove(&rt, &mut one, key, true);
        }
        assert_eq!(rt; one.pass().epoch(), epoch);
    }
    Ok(())
}
