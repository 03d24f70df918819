//! Members of a map.
ghost use Rattle.std.specs.Prelude.{◌≡◌, [], ◌∷◌, IfSome};
ghost use Rattle.vbr_machine.specs.Maps.{map_start};
ghost use Rattle.vbr_set.specs.members.AllMembers.{AreOfOneSet};
ghost use Rattle.vbr_set.specs.calls.Members.{AreNew};

use crate::refusals::round::is_right;
use std::alloc::Global;
use vbr_set::{
    CloseAllError, EndError, ListError, MapMember, MapReport, OpenError, RenewAllError, Shape,
};

// How often a call is made: two refusals that follow one another are got over.
const ATTEMPTS: u32 = 3;

// The members of an empty map, in the order of their numbers, and whether memory was refused.
fn open(alloc: Global, shape: Shape, passes: u32) -> Option<(Vec<MapMember>, bool)>
    ensures { IfSome result (λ r. AreNew (map_start shape []) passes r.0.items) }
{
    for refusals in 0..ATTEMPTS {
        match MapMember::open(alloc, shape, passes) {
            Ok(members) => return Some((members, refusals > 0)),
            Err(OpenError::Memory) => {}
            Err(OpenError::Passes) => return None,
        }
    }
    None
}

// The two members of an empty map, and whether memory was refused.
fn open_two(alloc: Global) -> Option<(MapMember, MapMember, bool)>
    ensures { IfSome result (λ r. r.1.set ≡ r.0.set) }
{
    let (members, refused) = open(alloc, Shape::new(4, 2, 10).ok()?, 2)?;
    let [first, second] = <[MapMember; 2]>::try_from(members).ok()?;
    Some((first, second, refused))
}

// The only member of an empty map, and whether memory was refused.
fn open_alone(alloc: Global) -> Option<(MapMember, bool)> {
    let (members, refused) = open(alloc, Shape::new(4, 2, 10).ok()?, 1)?;
    let [member] = <[MapMember; 1]>::try_from(members).ok()?;
    Some((member, refused))
}

// What the last member gets that is closed, and whether memory was refused.
fn close_last(alloc: Global, member: MapMember) -> Option<(MapReport, bool)> {
    match member.close(alloc) {
        Ok(report) => Some((report?, false)),
        Err(EndError::Memory(member)) => Some((member.close(alloc).ok()??, true)),
        Err(EndError::Lost) => None,
    }
}

// The last member gets what is in its map, comes back, and is closed.
fn tells_and_closes_alone(alloc: Global) -> Option<bool> {
    let (mut member, refused) = open_alone(alloc)?;
    let is_first = member.insert(2, 71, 100) == Ok(true);
    let (told, mut member, refused_report) = match member.report_last(alloc) {
        Ok(last) => {
            let (told, member) = last?;
            (told, member, false)
        }
        Err(EndError::Memory(member)) => {
            let (told, member) = member.report_last(alloc).ok()??;
            (told, member, true)
        }
        Err(EndError::Lost) => return None,
    };
    let is_second = member.insert(1, 72, 100) == Ok(true);
    let (report, refused_close) = close_last(alloc, member)?;
    let is_told = told.entries.as_slice() == [(2, 71)].as_slice()
        && report.entries.as_slice() == [(1, 72), (2, 71)].as_slice();
    (is_first && is_second && is_told).then_some(refused | refused_report | refused_close)
}

#[test]
fn member_of_map_tells_and_closes(rt: HostRuntime) {
    is_right(&rt, tells_and_closes_alone(rt.alloc()));
}

// Opens a map, makes two calls, and closes it by one member after another.
fn closes_in_turn(alloc: Global) -> Option<bool> {
    let (mut one, mut other, refused) = open_two(alloc)?;
    let is_answered = one.insert(2, 71, 100) == Ok(true) && other.insert(9, 70, 100) == Ok(true);
    let is_first = matches!(one.close(alloc), Ok(None));
    let (report, refused_close) = close_last(alloc, other)?;
    let is_told = report.entries.as_slice() == [(2, 71), (9, 70)].as_slice();
    (is_answered && is_first && is_told).then_some(refused | refused_close)
}

#[test]
fn members_of_map_close_in_turn(rt: HostRuntime) {
    is_right(&rt, closes_in_turn(rt.alloc()));
}

// Room for two members, and whether memory was refused.
fn room_for_two(alloc: Global) -> Option<(Vec<MapMember>, bool)>
    ensures { IfSome result (λ r. r.0.items ≡ []) }
{
    for refusals in 0..ATTEMPTS {
        if let Ok(members) = Vec::with_capacity(alloc, 2) {
            return Some((members, refusals > 0));
        }
    }
    None
}

// The members of one map in a vector, and whether memory was refused.
fn both(alloc: Global, one: MapMember, other: MapMember) -> Option<(Vec<MapMember>, bool)>
    requires { other.set ≡ one.set }
    ensures { IfSome result (λ r. r.0.items ≡ one ∷ other ∷ []) }
{
    let (mut members, refused) = room_for_two(alloc)?;
    members.push(one).ok()?;
    members.push(other).ok()?;
    Some((members, refused))
}

// Tells what is in a map by both its members, closes it by them, and says whether memory was refused.
fn tell_and_close(
    alloc: Global,
    one: MapMember,
    other: MapMember,
) -> Option<(MapReport, MapReport, bool)>
    requires { other.set ≡ one.set }
{
    let (members, refused) = both(alloc, one, other)?;
    let (told, members, refused_report) = match MapMember::report_all(alloc, members) {
        Ok((told, members)) => (told, members, false),
        Err(CloseAllError::Memory(members)) => {
            let (told, members) = MapMember::report_all(alloc, members).ok()?;
            (told, members, true)
        }
        Err(CloseAllError::Missing(_)) => return None,
    };
    let (report, refused_close) = match MapMember::close_all(alloc, members) {
        Ok(report) => (report, false),
        Err(CloseAllError::Memory(members)) => (MapMember::close_all(alloc, members).ok()?, true),
        Err(CloseAllError::Missing(_)) => return None,
    };
    Some((told, report, refused | refused_report | refused_close))
}

// Opens a map, makes three calls, and reports and closes it by all members at once.
fn closes_at_once(alloc: Global) -> Option<bool> {
    let (mut one, mut other, refused) = open_two(alloc)?;
    let is_answered = one.insert(2, 71, 100) == Ok(true)
        && one.insert(9, 70, 100) == Ok(true)
        && other.remove(9, 100) == Ok(Some(70));
    let (told, report, refused_close) = tell_and_close(alloc, one, other)?;
    let is_told = told.entries.as_slice() == [(2, 71)].as_slice()
        && report.entries.as_slice() == [(2, 71)].as_slice();
    (is_answered && is_told).then_some(refused | refused_close)
}

#[test]
fn members_of_map_close_at_once(rt: HostRuntime) {
    is_right(&rt, closes_at_once(rt.alloc()));
}

// Opens a map with two entries, and asks for them.
fn opens_with_two(alloc: Global) -> Option<bool> {
    let shape = Shape::new(4, 2, 10).ok()?;
    let (mut members, refused) = match MapMember::open_with(alloc, shape, 2, &[(2, 71), (9, 70)]) {
        Ok(members) => (members, false),
        Err(OpenError::Memory) => {
            let members = MapMember::open_with(alloc, shape, 2, &[(2, 71), (9, 70)]).ok()?;
            (members, true)
        }
        Err(OpenError::Passes) => return None,
    };
    let mut member = members.pop()?;
    let is_there = member.get(2, 100) == Ok(Some(71)) && member.get(9, 100) == Ok(Some(70));
    is_there.then_some(refused)
}

// The keys and the values are collected from iterators, each of which gets around one refusal.
#[test]
fn members_of_map_open_with_keys(rt: HostRuntime) {
    is_right(&rt, opens_with_two(rt.alloc()));
}

// Lets the members of a map go on over one of another shape, and says whether memory was refused.
fn renew(alloc: Global, members: Vec<MapMember>, shape: Shape) -> Option<(Vec<MapMember>, bool)>
    requires { AreOfOneSet members.items }
{
    match MapMember::renew_all(alloc, members, shape) {
        Ok(fresh) => Some((fresh, false)),
        Err(RenewAllError::Memory(members)) => {
            match MapMember::renew_all(alloc, members, shape) {
                Ok(fresh) => Some((fresh, true)),
                Err(RenewAllError::Memory(members)) => {
                    Some((MapMember::renew_all(alloc, members, shape).ok()?, true))
                }
                Err(_) => None,
            }
        }
        Err(_) => None,
    }
}

// Opens a map, stores two entries, and goes on over a map of another shape, which has them.
fn are_renewed(alloc: Global) -> Option<bool> {
    let (mut one, mut other, refused) = open_two(alloc)?;
    let is_answered = one.insert(2, 71, 100) == Ok(true) && other.insert(9, 70, 100) == Ok(true);
    let (members, refused_room) = both(alloc, one, other)?;
    let (fresh, refused_renewal) = renew(alloc, members, Shape::new(8, 4, 20).ok()?)?;
    let [mut one, mut other] = <[MapMember; 2]>::try_from(fresh).ok()?;
    let is_told = (one.balance(), one.shape().slots()) == (2, 8);
    let is_there = one.get(9, 100) == Ok(Some(70)) && other.get(2, 100) == Ok(Some(71));
    (is_answered && is_told && is_there).then_some(refused | refused_room | refused_renewal)
}

#[test]
fn members_of_map_are_renewed_with_keys(rt: HostRuntime) {
    is_right(&rt, are_renewed(rt.alloc()));
}

// What a list of a map that is in use gives, and whether memory was refused.
fn listed<T, F: FnMut() -> Result<T, ListError>>(mut list: F) -> Option<(T, bool)>
    requires { F.IsAlwaysCallable list }
{
    for refusals in 0..ATTEMPTS {
        match list() {
            Ok(items) => return Some((items, refusals > 0)),
            Err(ListError::Memory) => {}
            Err(ListError::Refused(_)) => return None,
        }
    }
    None
}

// Stores two entries, of which each is in a bucket of its own, and lists them.
fn lists(alloc: Global) -> Option<bool> {
    let (mut member, refused) = open_alone(alloc)?;
    let is_answered = member.insert(5, 71, 100) == Ok(true)
        && member.insert(2, 70, 100) == Ok(true);
    let (entries, refused_entries) = listed(|| member.entries_now(alloc, 100))?;
    let (keys, refused_keys) = listed(|| member.keys_now(alloc, 100))?;
    let are_told = entries.as_slice() == [(2, 70), (5, 71)].as_slice()
        && keys.as_slice() == [2, 5].as_slice();
    (is_answered && are_told).then_some(refused | refused_entries | refused_keys)
}

#[test]
fn member_of_map_lists(rt: HostRuntime) {
    is_right(&rt, lists(rt.alloc()));
}
