//! The flag words of the shared pool, on seventy slots: sixty-four flags in one word, six in the next.
ghost use Rattle.std.specs.Prelude.{◌≡◌, ◌≤◌};
ghost use Rattle.vbr_slots.specs.views.Views.{IsOf};

use crate::pools::expect_taken;
use crate::running_table::{Opened, close_two, two_passes};
use std::alloc::Global;
use std::process::Abort;
use std::test::Fail;
use vbr_pools::TakeRefusal;
use vbr_slots::{Pass, Slots};
use vbr_words::{Entries, Keys, Nodes, Place, Shape, place_index, word_count};
use vbr_world::World;

// All flags are up in a fresh world with seventy slots.
fn expect_all_up(rt: &impl Abort, world: &World)
    requires { world.now.start.shape.slots ≡ 70 }
{
    assert_eq!(rt; world.word(Place::Flags(0)), 18_446_744_073_709_551_615);
    assert_eq!(rt; world.word(Place::Flags(1)), 63);
}

// A fresh world of this shape, which has seventy slots, has so many words; the last two have the flags, all up.
fn expect_flags(rt: &impl Abort, alloc: Global, shape: Shape, words: usize) -> Result<(), Fail>
    requires { shape.slots ≡ 70 }
{
    assert_eq!(rt; word_count(&shape), words);
    assert_eq!(rt;
        place_index(&shape, Place::Flags(1)),
        words.saturating_sub(1)
    );
    expect_all_up(rt, &World::open(alloc, shape, 2)?);
    Ok(())
}

#[test]
fn seventy_flags_have_two_words(rt: HostRuntime) -> Result<(), Fail> {
    let shape = Shape::new(70, 1, 10)?;
    expect_flags(&rt, rt.alloc(), shape, 285)?;
    expect_flags(&rt, rt.alloc(), shape.with_values(), 355)
}

// Takes the slots from `first` up to `end` out of the shared pool, and says whether all were there.
fn take_all<N: Nodes>(slots: &Slots<N>, pass: &mut Pass, first: u32, end: u32) -> bool
    requires own { IsOf pass.old.trace slots.now }
    requires end { end ≤ slots.now.start.shape.slots }
    ensures own { IsOf pass.new.trace slots.now }
    ensures hand { pass.new.hand ≡ pass.old.hand }
{
    for slot in first..end {
        if slots.take_flag(pass, slot).is_err() {
            return false;
        }
    }
    true
}

// The two flag words of a table that is closed with its passes, which come last.
fn closing_flags<N: Nodes>(
    alloc: Global,
    slots: Slots<N>,
    first: Pass,
    second: Pass,
) -> Option<(u64, u64)>
    requires { IsOf first.trace slots × IsOf second.trace slots }
{
    let words = close_two(alloc, slots, first, second)?;
    let last = words.len().checked_sub(1)?;
    Some((*words.get(last.checked_sub(1)?)?, *words.get(last)?))
}

// Compares the two flag words of a table that is closed with its passes.
fn expect_closing_flags<N: Nodes>(
    rt: &impl Abort,
    alloc: Global,
    slots: Slots<N>,
    first: Pass,
    second: Pass,
    flags: (u64, u64),
)
    requires { IsOf first.trace slots × IsOf second.trace slots }
{
    assert_eq!(rt; closing_flags(alloc, slots, first, second), Some(flags));
}

// Pass 0 takes the slots 0 and 1, and pass 1 tries slot 0.
fn lose_a_flag<R: Abort, N: Opened>(rt: &R, alloc: Global) {
    let (slots, mut a, mut b) = two_passes::<R, N>(rt, alloc, 70, 10);
    assert!(rt; take_all(&slots, &mut a, 0, 2));
    assert_eq!(rt; slots.take_flag(&mut b, 0), Err(18_446_744_073_709_551_612));
    expect_closing_flags(rt, alloc, slots, a, b, (18_446_744_073_709_551_612, 63));
}

#[test]
fn a_lost_flag_shows_the_others_of_its_word(rt: HostRuntime) {
    lose_a_flag::<HostRuntime, Keys>(&rt, rt.alloc());
    lose_a_flag::<HostRuntime, Entries>(&rt, rt.alloc());
}

// How many slots pass 0 takes, the first ones; what pass 1 then gets when it takes a slot, which it gives back to its own
// pool, and in how many steps; and the flag words of the closing.
type Behind = (u32, Result<(u32, u64), TakeRefusal>, u64, (u64, u64));

// Makes the takes, and compares what comes of them.
fn take_behind<R: Abort, N: Opened>(rt: &R, alloc: Global, row: Behind)
    requires { row.0 ≤ 70 }
{
    let (count, wanted, steps, flags) = row;
    let (slots, mut a, mut b) = two_passes::<R, N>(rt, alloc, 70, 10);
    assert!(rt; take_all(&slots, &mut a, 0, count));
    expect_taken(rt, &slots, &mut b, 100, wanted, steps);
    expect_closing_flags(rt, alloc, slots, a, b, flags);
}

// The same on a set and on a map.
fn expect_behind<R: Abort>(rt: &R, alloc: Global, row: Behind)
    requires { row.0 ≤ 70 }
{
    take_behind::<R, Keys>(rt, alloc, row);
    take_behind::<R, Entries>(rt, alloc, row);
}

#[test]
fn the_lowest_flag_that_was_found_is_taken(rt: HostRuntime) {
    let flags = (18_446_744_073_709_551_608, 63);
    expect_behind(&rt, rt.alloc(), (2, Ok((2, 1)), 5, flags));
}

#[test]
fn an_empty_word_leads_to_the_next(rt: HostRuntime) {
    expect_behind(&rt, rt.alloc(), (64, Ok((64, 1)), 5, (0, 62)));
}

/// The bits past the last slot are no slots.
#[test]
fn no_slot_is_past_the_last(rt: HostRuntime) {
    let none = Err(TakeRefusal::NoSlot);
    expect_behind(&rt, rt.alloc(), (70, none, 2, (0, 0)));
}

// The first of the slots that pass 0 takes, which are those up to 70; and what pass 1 then gets, once it has tried slot 66,
// when it takes a slot, which it gives back to its own pool, and in how many steps.
type FromTheSecond = (u32, Result<(u32, u64), TakeRefusal>, u64);

// Makes the takes, and compares what comes of them.
fn take_from_the_second_word<R: Abort, N: Opened>(rt: &R, alloc: Global, row: FromTheSecond) {
    let (first, wanted, steps) = row;
    let (slots, mut a, mut b) = two_passes::<R, N>(rt, alloc, 70, 10);
    assert!(rt; take_all(&slots, &mut a, first, 70));
    assert_eq!(rt; slots.take_flag(&mut b, 66).is_ok(), first == 70);
    expect_taken(rt, &slots, &mut b, 100, wanted, steps);
}

// The same on a set and on a map.
fn expect_from_the_second_word<R: Abort>(rt: &R, alloc: Global, row: FromTheSecond) {
    take_from_the_second_word::<R, Keys>(rt, alloc, row);
    take_from_the_second_word::<R, Entries>(rt, alloc, row);
}

#[test]
fn a_search_begins_with_the_word_that_was_tried_last(rt: HostRuntime) {
    expect_from_the_second_word(&rt, rt.alloc(), (70, Ok((64, 1)), 4));
}

#[test]
fn behind_the_last_word_comes_the_first(rt: HostRuntime) {
    expect_from_the_second_word(&rt, rt.alloc(), (64, Ok((0, 1)), 5));
}

#[test]
fn a_search_ends_where_it_began(rt: HostRuntime) {
    let none = Err(TakeRefusal::NoSlot);
    expect_from_the_second_word(&rt, rt.alloc(), (0, none, 2));
}

fn search_twice<R: Abort, N: Opened>(rt: &R, alloc: Global) {
    let (slots, mut a, mut b) = two_passes::<R, N>(rt, alloc, 70, 10);
    assert!(rt; take_all(&slots, &mut a, 0, 69));
    if slots.take_flag(&mut a, 69).is_err() {
        panic!(rt; "not there")
    }
    assert!(rt; slots.take_flag(&mut b, 66).is_err());
    let short = Err(TakeRefusal::OutOfSteps { used: 1 });
    expect_taken(rt, &slots, &mut b, 8, short, 1);
    slots.raise(&mut a, 69);
    expect_taken(rt, &slots, &mut b, 100, Ok((69, 1)), 5);
}

/// A call that runs out of steps leaves the search where it was, and the next one goes on there: it makes
/// two probes, where a search from the first word would make three.
#[test]
fn a_search_goes_on_where_it_stopped(rt: HostRuntime) {
    search_twice::<HostRuntime, Keys>(&rt, rt.alloc());
    search_twice::<HostRuntime, Entries>(&rt, rt.alloc());
}

fn raise_one<R: Abort, N: Opened>(rt: &R, alloc: Global) {
    let (slots, mut a, b) = two_passes::<R, N>(rt, alloc, 70, 10);
    if slots.take_flag(&mut a, 65).is_err() {
        panic!(rt; "not there")
    }
    slots.raise(&mut a, 65);
    expect_closing_flags(rt, alloc, slots, a, b, (18_446_744_073_709_551_615, 63));
}

/// A flag that is raised leaves those of its neighbours.
#[test]
fn a_raised_flag_is_one(rt: HostRuntime) {
    raise_one::<HostRuntime, Keys>(&rt, rt.alloc());
    raise_one::<HostRuntime, Entries>(&rt, rt.alloc());
}
