//! Members of a map: their calls, meetings and tokens, and how a map is closed by them.
ghost use Rattle.std.specs.Prelude.{◌≡◌, ◌≤◌, [], ◌∷◌, IfSome};
ghost use Rattle.vbr_machine.specs.Maps.{map_start};
ghost use Rattle.vbr_set.specs.calls.Members.{AreNew};

use crate::members::both;
use std::alloc::Global;
use std::process::Abort;
use std::test::Fail;
use vbr_set::{CloseAllError, MapMember, MapReport, Shape};

// The two members of a map, which opens with the entry of key 2, whose value is 70.
fn open_with_one(alloc: Global, shape: Shape) -> Option<Vec<MapMember>>
    requires { 1 ≤ shape.slots }
    ensures { IfSome result (λ members. AreNew (map_start shape ((2, 70) ∷ [])) 2 members.items) }
{
    MapMember::open_with(alloc, shape, 2, &[(2, 70)]).ok()
}

// The two members of a map of four slots, which opens with one entry.
fn open_two(alloc: Global) -> Option<(MapMember, MapMember)>
    ensures { IfSome result (λ r. r.1.set ≡ r.0.set) }
{
    let shape = Shape::new(4, 2, 10).ok()?;
    let members = open_with_one(alloc, shape)?;
    let [first, second] = <[MapMember; 2]>::try_from(members).ok()?;
    Some((first, second))
}

// A member stores an entry, which is new or not.
fn expect_insert(rt: &impl Abort, member: &mut MapMember, entry: (u64, u64), is_new: bool)
    ensures { member.new.set ≡ member.old.set }
{
    let (key, value) = entry;
    assert_eq!(rt; member.insert(key, value, 100), Ok(is_new));
}

// A member finds this value at a key.
fn expect_get(rt: &impl Abort, member: &mut MapMember, key: u64, value: Option<u64>)
    ensures { member.new.set ≡ member.old.set }
{
    assert_eq!(rt; member.get(key, 100), Ok(value));
}

// A member takes out a key, which had this value.
fn expect_remove(rt: &impl Abort, member: &mut MapMember, key: u64, value: Option<u64>)
    ensures { member.new.set ≡ member.old.set }
{
    assert_eq!(rt; member.remove(key, 100), Ok(value));
}

// One member stores two entries, and another, which meets it, takes one out.
fn meet_and_take(rt: &impl Abort, one: &mut MapMember, other: &mut MapMember)
    requires { other.old.set ≡ one.old.set }
    ensures one { one.new.set ≡ one.old.set }
    ensures other { other.new.set ≡ other.old.set }
{
    assert_eq!(rt; one.insert(9, 71, 100), Ok(true));
    assert_eq!(rt; one.insert(5, 72, 100), Ok(true));
    assert_eq!(rt; one.insert(5, 73, 100), Ok(false));
    other.meet(one);
    assert_eq!(rt; other.pass().steps(), 1);
    assert_eq!(rt; other.get(5, 100), Ok(Some(72)));
    assert_eq!(rt; other.remove(5, 100), Ok(Some(72)));
}

// One member stores two entries, and another, which meets it, takes one out and stores it anew.
fn store_and_take(rt: &impl Abort, one: &mut MapMember, other: &mut MapMember)
    requires { other.old.set ≡ one.old.set }
    ensures one { one.new.set ≡ one.old.set }
    ensures other { other.new.set ≡ other.old.set }
{
    meet_and_take(rt, one, other);
    expect_get(rt, other, 5, None);
    assert_eq!(rt; other.has(9, 100), Ok(true));
    expect_insert(rt, other, (5, 74), true);
    expect_get(rt, one, 5, Some(74));
    expect_get(rt, one, 2, Some(70));
}

// Whether a report is that of these entries.
fn expect_entries(rt: &impl Abort, report: &MapReport) {
    let entries = [(2, 70), (5, 74), (9, 71)];
    assert_eq!(rt; report.entries.as_slice(), entries.as_slice());
    assert_eq!(rt; report.live, 3);
}

/// The last member that is closed gets the entries, ascending by key.
#[test]
fn members_of_a_map_close_in_turn(rt: HostRuntime) -> Result<(), Fail> {
    let (mut one, mut other) = open_two(rt.alloc()).expect(&rt, "there is memory");
    store_and_take(&rt, &mut one, &mut other);
    assert!(rt; one.close(rt.alloc())?.is_none());
    let (report, last) = other
        .report_last(rt.alloc())?
        .expect(&rt, "the last member");
    expect_entries(&rt, &report);
    let report = last.close(rt.alloc())?.expect(&rt, "the last member");
    expect_entries(&rt, &report);
    Ok(())
}

// Tells what is in a map by both its members, and then closes it by them.
fn tell_and_close(
    alloc: Global,
    one: MapMember,
    other: MapMember,
) -> Result<(MapReport, MapReport), CloseAllError<MapMember>>
    requires { other.set ≡ one.set }
{
    let Some(members) = both(alloc, other, one) else {
        return Err(CloseAllError::Memory(Vec::new(alloc)));
    };
    let (told, members) = MapMember::report_all(alloc, members)?;
    let report = MapMember::close_all(alloc, members)?;
    Ok((told, report))
}

/// All members get the entries that the calls of all of them leave.
#[test]
fn all_members_of_a_map_are_closed(rt: HostRuntime) -> Result<(), Fail> {
    let (mut one, mut other) = open_two(rt.alloc()).expect(&rt, "there is memory");
    store_and_take(&rt, &mut one, &mut other);
    let Ok((told, report)) = tell_and_close(rt.alloc(), one, other) else {
        panic!(rt; "not closed")
    };
    expect_entries(&rt, &told);
    expect_entries(&rt, &report);
    Ok(())
}

/// One of two members closes no map, and comes back.
#[test]
fn a_map_lacks_a_member(rt: HostRuntime) -> Result<(), Fail> {
    let (one, other) = open_two(rt.alloc()).expect(&rt, "there is memory");
    drop(one);
    let mut members = Vec::with_capacity(rt.alloc(), 1)?;
    members.push(other)?;
    let Err(CloseAllError::Missing(mut members)) = MapMember::close_all(rt.alloc(), members) else {
        panic!(rt; "closed without a member")
    };
    let last = members.pop().expect(&rt, "a member came back");
    let report = last.close(rt.alloc())?.expect(&rt, "the last member");
    assert_eq!(rt; report.entries.as_slice(), [(2, 70)].as_slice());
    Ok(())
}

/// The only member of a map that opened empty, with the greatest value.
#[test]
fn a_lone_member_of_a_map(rt: HostRuntime) -> Result<(), Fail> {
    let mut members = MapMember::open(rt.alloc(), Shape::new(4, 2, 10)?, 1)?;
    let mut member = members.pop().expect(&rt, "a member");
    expect_get(&rt, &mut member, 5, None);
    expect_remove(&rt, &mut member, 5, None);
    expect_insert(&rt, &mut member, (5, u64::MAX), true);
    expect_get(&rt, &mut member, 5, Some(u64::MAX));
    let report = member.close(rt.alloc())?.expect(&rt, "the last member");
    assert_eq!(rt; report.entries.as_slice(), [(5, u64::MAX)].as_slice());
    Ok(())
}
