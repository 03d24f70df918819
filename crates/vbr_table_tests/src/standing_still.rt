//! A pass that stands still, wherever it is in a call, holds up no other.
ghost use Rattle.std.specs.Prelude.{◌≡◌, ◌<◌, ◌≤◌, None};
ghost use Rattle.vbr_slots.specs.views.Views.{IsOf};
ghost use Rattle.vbr_table_tests.specs.Following.{IsWorkedOn};

use crate::listed_calls::table_after;
use crate::pools::expect_taken;
use crate::running_table::{Opened, open, shape_of};
use std::alloc::Global;
use std::process::Abort;
use std::test::Fail;
use vbr_access::{Checkpoint, Rollback, first};
use vbr_event_lists::{
    REPLACED_VALUE_WORDS, Row, STANDING_WORDS, replaced_value, standing_rows,
    standing_rows_with_values,
};
use vbr_list::{insert, insert_entry, remove, remove_entry};
use vbr_slots::{Pass, Slots};
use vbr_words::{Entries, Keys, Nodes};

// Nodes of a kind of which items are inserted and removed.
trait Inserted: Opened {
    // Inserts a key that is absent, with this value if there are any.
    fn insert_one<R: Abort>(rt: &R, slots: &Slots<Self>, pass: &mut Pass, key: u64, value: u64)
        requires own { IsOf pass.old.trace slots.now }
        requires empty_hand { pass.old.hand ≡ None }
        ensures own { IsOf pass.new.trace slots.now }
        ensures hand { pass.new.hand ≡ None };

    // Removes a key, which has this value if there are any.
    fn remove_one<R: Abort>(rt: &R, slots: &Slots<Self>, pass: &mut Pass, key: u64, value: u64)
        requires own { IsOf pass.old.trace slots.now }
        requires empty_hand { pass.old.hand ≡ None }
        ensures own { IsOf pass.new.trace slots.now }
        ensures hand { pass.new.hand ≡ None };
}

impl Inserted for Keys {
    fn insert_one<R: Abort>(rt: &R, slots: &Slots, pass: &mut Pass, key: u64, _value: u64) {
        assert!(rt; insert(slots, pass, key, 100_000) == Ok(true));
    }

    fn remove_one<R: Abort>(rt: &R, slots: &Slots, pass: &mut Pass, key: u64, _value: u64) {
        assert!(rt; remove(slots, pass, key, 100_000) == Ok(true));
    }
}

impl Inserted for Entries {
    fn insert_one<R: Abort>(rt: &R, slots: &Slots<Entries>, pass: &mut Pass, key: u64, value: u64) {
        assert!(rt; insert_entry(slots, pass, key, value, 100_000) == Ok(true));
    }

    fn remove_one<R: Abort>(rt: &R, slots: &Slots<Entries>, pass: &mut Pass, key: u64, value: u64) {
        assert!(rt; remove_entry(slots, pass, key, 100_000) == Ok(Some(value)));
    }
}

// A thousand rounds of an insert and a remove of key 9, each with a value of its own.
fn make_rounds<R: Abort, N: Inserted>(rt: &R, slots: &Slots<N>, pass: &mut Pass)
    requires own { IsOf pass.old.trace slots.now }
    requires empty_hand { pass.old.hand ≡ None }
    ensures own { IsOf pass.new.trace slots.now }
{
    for value in 0..1000 {
        N::insert_one(rt, slots, pass, 9, value);
        N::remove_one(rt, slots, pass, 9, value);
    }
}

// Pass 0 has made its rounds, and pass 1 goes on: it finds that the epoch has moved since its
// checkpoint.
fn expect_moved<N: Nodes>(rt: &impl Abort, slots: &Slots<N>, a: &Pass, b: &mut Pass)
    requires own { IsOf b.old.trace slots.now }
    requires bucket { 0 < slots.now.start.shape.buckets }
{
    assert!(rt; a.epoch() >= 1000);
    let point = Checkpoint { epoch: b.epoch() };
    assert_eq!(rt; point.epoch, 1);
    assert!(rt; matches!(first(slots, b, &point, 0), Err(Rollback::EpochMoved { .. })));
}

// Pass 1 stands still after these first steps of a list, pass 0 makes its rounds, and then pass 1 goes on.
fn stand_still<R: Abort, N: Inserted>(
    rt: &R,
    alloc: Global,
    rows: &[Row],
    words: &[u64],
) -> Result<(), Fail>
    requires { IsWorkedOn 3 10000 N.VALUES rows.now words.now }
{
    let table = table_after::<R, N>(rt, alloc, (3, 10_000), rows, words);
    let (slots, mut a, mut b) = table.expect(rt, "there is memory");
    assert!(rt; a.in_hand() == None);
    make_rounds(rt, &slots, &mut a);
    expect_moved(rt, &slots, &a, &mut b);
    Ok(())
}

// Pass 1 stands still after the first steps of the list.
fn stand_behind<R: Abort>(rt: &R, alloc: Global, steps: usize) -> Result<(), Fail>
    requires { steps ≤ 29 }
{
    stand_still::<R, Keys>(rt, alloc, &standing_rows()[..steps], &STANDING_WORDS)
}

// It stands still after the first steps of the same list in a map.
fn stand_behind_in_a_map<R: Abort>(rt: &R, alloc: Global, steps: usize) -> Result<(), Fail>
    requires { steps ≤ 32 }
{
    stand_still::<R, Entries>(
        rt,
        alloc,
        &standing_rows_with_values()[..steps],
        &STANDING_WORDS,
    )
}

// It stands still after the first steps of the list in which it has a node in hand, or has put it in
// the place of another.
fn stand_behind_replacing<R: Abort>(rt: &R, alloc: Global, steps: usize) -> Result<(), Fail>
    requires { steps ≤ 43 }
{
    stand_still::<R, Entries>(rt, alloc, &replaced_value()[..steps], &REPLACED_VALUE_WORDS)
}

#[test]
fn behind_a_read_of_the_epoch(rt: HostRuntime) -> Result<(), Fail> {
    stand_behind(&rt, rt.alloc(), 9)
}

#[test]
fn behind_a_flag(rt: HostRuntime) -> Result<(), Fail> {
    stand_behind(&rt, rt.alloc(), 10)
}

#[test]
fn behind_a_load_of_a_stamp(rt: HostRuntime) -> Result<(), Fail> {
    stand_behind(&rt, rt.alloc(), 11)
}

#[test]
fn behind_a_birth(rt: HostRuntime) -> Result<(), Fail> {
    stand_behind(&rt, rt.alloc(), 12)
}

#[test]
fn behind_a_stored_key(rt: HostRuntime) -> Result<(), Fail> {
    stand_behind(&rt, rt.alloc(), 13)
}

#[test]
fn behind_a_load_of_a_link(rt: HostRuntime) -> Result<(), Fail> {
    stand_behind(&rt, rt.alloc(), 14)
}

#[test]
fn behind_a_load_of_a_birth(rt: HostRuntime) -> Result<(), Fail> {
    stand_behind(&rt, rt.alloc(), 16)
}

#[test]
fn behind_a_load_of_a_key(rt: HostRuntime) -> Result<(), Fail> {
    stand_behind(&rt, rt.alloc(), 19)
}

#[test]
fn behind_a_confirming_load(rt: HostRuntime) -> Result<(), Fail> {
    stand_behind(&rt, rt.alloc(), 21)
}

#[test]
fn behind_a_stored_link(rt: HostRuntime) -> Result<(), Fail> {
    stand_behind(&rt, rt.alloc(), 22)
}

#[test]
fn behind_a_publication(rt: HostRuntime) -> Result<(), Fail> {
    stand_behind(&rt, rt.alloc(), 23)
}

#[test]
fn behind_a_mark(rt: HostRuntime) -> Result<(), Fail> {
    stand_behind(&rt, rt.alloc(), 24)
}

#[test]
fn behind_an_unlinking(rt: HostRuntime) -> Result<(), Fail> {
    stand_behind(&rt, rt.alloc(), 25)
}

#[test]
fn behind_a_stamp(rt: HostRuntime) -> Result<(), Fail> {
    stand_behind(&rt, rt.alloc(), 27)
}

#[test]
fn behind_a_raised_slot(rt: HostRuntime) -> Result<(), Fail> {
    stand_behind(&rt, rt.alloc(), 28)
}

#[test]
fn behind_an_advance(rt: HostRuntime) -> Result<(), Fail> {
    stand_behind(&rt, rt.alloc(), 29)
}

/// In a map, after each kind of step by which a pass prepares a node or reads one.
#[test]
fn in_a_map_before_an_exchange(rt: HostRuntime) -> Result<(), Fail> {
    stand_behind_in_a_map(&rt, rt.alloc(), 10)?; // a read of the epoch
    stand_behind_in_a_map(&rt, rt.alloc(), 11)?; // a flag
    stand_behind_in_a_map(&rt, rt.alloc(), 12)?; // a load of a stamp
    stand_behind_in_a_map(&rt, rt.alloc(), 13)?; // a birth
    stand_behind_in_a_map(&rt, rt.alloc(), 14)?; // a stored key
    stand_behind_in_a_map(&rt, rt.alloc(), 15)?; // a stored value
    stand_behind_in_a_map(&rt, rt.alloc(), 16)?; // a load of a link
    stand_behind_in_a_map(&rt, rt.alloc(), 18)?; // a load of a birth
    stand_behind_in_a_map(&rt, rt.alloc(), 21)?; // a load of a key
    stand_behind_in_a_map(&rt, rt.alloc(), 22)?; // a load of a value
    stand_behind_in_a_map(&rt, rt.alloc(), 24)?; // a confirming load
    stand_behind_in_a_map(&rt, rt.alloc(), 25) // a stored link
}

/// In a map, after each kind of exchange, and of step after one.
#[test]
fn in_a_map_behind_an_exchange(rt: HostRuntime) -> Result<(), Fail> {
    stand_behind_in_a_map(&rt, rt.alloc(), 26)?; // a publication
    stand_behind_in_a_map(&rt, rt.alloc(), 27)?; // a mark
    stand_behind_in_a_map(&rt, rt.alloc(), 28)?; // an unlinking
    stand_behind_in_a_map(&rt, rt.alloc(), 30)?; // a stamp
    stand_behind_in_a_map(&rt, rt.alloc(), 31)?; // a raised slot
    stand_behind_in_a_map(&rt, rt.alloc(), 32) // an advance
}

/// In a map, on a node that another pass has replaced: with a node in hand, and after a replacement that
/// is lost.
#[test]
fn on_a_replaced_node(rt: HostRuntime) -> Result<(), Fail> {
    stand_behind_replacing(&rt, rt.alloc(), 28)?;
    stand_behind_replacing(&rt, rt.alloc(), 29)
}

/// In a map, after a replacement that is won.
#[test]
fn behind_a_replacement(rt: HostRuntime) -> Result<(), Fail> {
    stand_behind_replacing(&rt, rt.alloc(), 42)
}

// Inserts the keys 1 to 64, and then removes them. A value is its key and a hundred.
fn fill_and_empty<R: Abort, N: Inserted>(rt: &R, slots: &Slots<N>, pass: &mut Pass)
    requires own { IsOf pass.old.trace slots.now }
    requires empty_hand { pass.old.hand ≡ None }
    ensures own { IsOf pass.new.trace slots.now }
    ensures empty_hand { pass.new.hand ≡ None }
{
    for key in 1..65 {
        N::insert_one(rt, slots, pass, key, key + 100);
    }
    for key in 1..65 {
        N::remove_one(rt, slots, pass, key, key + 100);
    }
}

// Compares the own pool of a pass: the slots 0 to 62.
fn expect_full_pool(rt: &impl Abort, pass: &Pass) {
    assert_eq!(rt; pass.pool().len(), 63);
    for (place, slot) in pass.pool().iter().enumerate() {
        assert!(rt; *slot as usize == place);
    }
}

// Fills a table of sixty-four slots, empties it, and takes a slot.
fn fill_sixty_four<R: Abort, N: Inserted>(rt: &R, alloc: Global) -> Result<(), Fail> {
    let (slots, mut passes) = open::<N>(alloc, shape_of::<N>((64, 1, 10))?, 1)?;
    let mut pass = passes.pop().expect(rt, "a pass");
    fill_and_empty(rt, &slots, &mut pass);
    expect_full_pool(rt, &pass);
    assert_eq!(rt; pass.epoch(), 1);
    expect_taken(rt, &slots, &mut pass, 80, Ok((0, 2)), 67);
    assert_eq!(rt; slots.take_flag(&mut pass, 63), Ok(()));
    Ok(())
}

/// A pass keeps 63 of the slots that it unlinked, and gives the next one to the shared pool; the first
/// that it takes again is the oldest, in an epoch to which it advances.
#[test]
fn sixty_four_slots_filled_and_emptied(rt: HostRuntime) -> Result<(), Fail> {
    fill_sixty_four::<HostRuntime, Keys>(&rt, rt.alloc())?;
    fill_sixty_four::<HostRuntime, Entries>(&rt, rt.alloc())
}
