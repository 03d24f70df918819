//! Slots that members hold for records beside them: worked rows of a map and of a set of two slots.
use std::alloc::Global;
use std::process::Abort;
use std::test::Fail;
use vbr_set::{Cursor, Entry, HeldRefusal, HoldRefusal, Kind, MapMember, Member, Shape, member};

// The only member of a set or a map of two slots in one bucket.
fn open_alone<N: Kind>(rt: &impl Abort, alloc: Global) -> member::Member<N> {
    let shape = Shape::new(2, 1, 10).expect(rt, "a shape");
    let members = member::Member::<N>::open(alloc, shape, 1).expect(rt, "memory");
    let [alone] = <[member::Member<N>; 1]>::try_from(members)
        .ok()
        .expect(rt, "a member");
    alone
}

// The member takes this slot and holds it.
fn expect_hold<N: Kind>(rt: &impl Abort, alone: &mut member::Member<N>, slot: u32) {
    assert_eq!(rt; alone.hold(100), Ok(slot));
    assert_eq!(rt; alone.held(), Some(slot));
}

// Whether the slot of an entry shows its birth still.
fn expect_still<N: Kind>(
    rt: &impl Abort,
    alone: &mut member::Member<N>,
    entry: &Entry,
    still: bool,
) {
    assert_eq!(rt; alone.is_still(entry), still);
}

// The key 5 of a map has this entry, and a walk gives it too.
fn expect_entry(
    rt: &impl Abort,
    alone: &mut MapMember,
    slot: u32,
    birth: u64,
    value: u64,
) -> Entry {
    let entry = Entry { slot, birth, value };
    assert_eq!(rt; alone.get_entry(5, 100), Ok(Some(entry)));
    let mut cursor = Cursor::first();
    assert_eq!(rt; alone.next_named(&mut cursor, 100), Ok(Some((5, entry))));
    entry
}

// The first slot is published with 70, and the second one takes its place with 71: the first entry's birth stands in its
// slot until that is handed out again.
fn put_two(rt: &impl Abort, alone: &mut MapMember) -> (Entry, Entry) {
    expect_hold(rt, alone, 0);
    assert_eq!(rt; alone.insert_held(5, 70, 100), Ok(true));
    let first = expect_entry(rt, alone, 0, 1, 70);
    expect_hold(rt, alone, 1);
    assert_eq!(rt; alone.insert_held(5, 71, 100), Ok(false));
    assert_eq!(rt; alone.held(), Some(1));
    assert_eq!(rt; alone.put_held(5, 71, 100), Ok(Some(70)));
    let second = expect_entry(rt, alone, 1, 1, 71);
    expect_still(rt, alone, &first, true);
    (first, second)
}

// The slot that is held takes the place of the second entry alone. Of the first one neither a replacement nor a remove
// finds anything.
fn replace_second(rt: &impl Abort, alone: &mut MapMember, first: &Entry, second: &Entry) {
    assert_eq!(rt; alone.replace_held(5, first, 72, 100), Ok(false));
    assert_eq!(rt; alone.held(), Some(0));
    assert_eq!(rt; alone.remove_exactly(5, first, 100), Ok(None));
    assert_eq!(rt; alone.replace_held(5, second, 72, 100), Ok(true));
    assert_eq!(rt; alone.held(), None);
}

/// A map of two slots: an entry is named by slot and birth, and asked for by them.
#[test]
fn entries_of_a_map_are_named(rt: HostRuntime) -> Result<(), Fail> {
    let mut alone: MapMember = open_alone(&rt, rt.alloc());
    let (first, second) = put_two(&rt, &mut alone);
    expect_hold(&rt, &mut alone, 0);
    expect_still(&rt, &mut alone, &first, false);
    replace_second(&rt, &mut alone, &first, &second);
    let third = expect_entry(&rt, &mut alone, 0, 2, 72);
    assert_eq!(rt; alone.balance(), 1);
    assert_eq!(rt; alone.remove_exactly(5, &third, 100), Ok(Some(72)));
    assert_eq!(rt; alone.get_entry(5, 100), Ok(None));
    expect_still(&rt, &mut alone, &third, true);
    assert_eq!(rt; alone.balance(), 0);
    Ok(())
}

// Without a slot none is published, and with one no second is held.
fn expect_one_slot(rt: &impl Abort, alone: &mut Member) {
    assert_eq!(rt; alone.insert_held(5, 100), Err(HeldRefusal::NotHeld));
    assert!(rt; !alone.let_go());
    expect_hold(rt, alone, 0);
    assert_eq!(rt; alone.hold(100), Err(HoldRefusal::Held));
    assert!(rt; alone.let_go());
    assert_eq!(rt; alone.held(), None);
}

// The key 5 of a set is taken out by its entry, and not by one of another birth.
fn expect_taken_exactly(rt: &impl Abort, alone: &mut Member, entry: &Entry) {
    let later = Entry {
        birth: entry.birth ^ 1,
        ..*entry
    };
    let mut cursor = Cursor::first();
    assert_eq!(rt; alone.next_named(&mut cursor, 100), Ok(Some((5, *entry))));
    assert_eq!(rt; alone.remove_exactly(5, &later, 100), Ok(false));
    assert_eq!(rt; alone.has(5, 100), Ok(true));
    assert_eq!(rt; alone.remove_exactly(5, entry, 100), Ok(true));
    assert_eq!(rt; alone.remove_exactly(5, entry, 100), Ok(false));
    assert_eq!(rt; alone.has(5, 100), Ok(false));
    assert_eq!(rt; alone.balance(), 0);
}

/// A set of two slots: one slot is held at most, look-ups and removes go on meanwhile, and an entry has no value.
#[test]
fn a_slot_of_a_set_is_held(rt: HostRuntime) -> Result<(), Fail> {
    let mut alone: Member = open_alone(&rt, rt.alloc());
    expect_one_slot(&rt, &mut alone);
    expect_hold(&rt, &mut alone, 0);
    assert_eq!(rt; alone.has(5, 100), Ok(false));
    assert_eq!(rt; alone.remove(5, 100), Ok(false));
    assert_eq!(rt; alone.insert_held(5, 100), Ok(true));
    let entry = Entry {
        slot: 0,
        birth: 1,
        value: 0,
    };
    assert_eq!(rt; alone.get_entry(5, 100), Ok(Some(entry)));
    expect_still(&rt, &mut alone, &entry, true);
    expect_taken_exactly(&rt, &mut alone, &entry);
    Ok(())
}

/// A question about a slot that isn't one of the shape is answered no, in no step.
#[test]
fn no_slot_outside_is_still(rt: HostRuntime) -> Result<(), Fail> {
    let mut alone: Member = open_alone(&rt, rt.alloc());
    let outside = Entry {
        slot: 2,
        birth: 0,
        value: 0,
    };
    let before = alone.pass().steps();
    expect_still(&rt, &mut alone, &outside, false);
    assert_eq!(rt; alone.pass().steps(), before);
    Ok(())
}
