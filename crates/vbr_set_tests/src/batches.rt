//! Look-ups in batches, of sets and of maps: the answers stand at the places of their keys, for any number of
//! keys, and each key is refused by itself.
ghost use Rattle.std.specs.Prelude.{◌≡◌, None};
ghost use Rattle.vbr_slots.specs.views.Views.{IsOf};

use crate::alone::open_alone;
use std::alloc::Global;
use std::process::Abort;
use std::test::Fail;
use vbr_set::set::VbrSet;
use vbr_set::{MapMember, Member, Pass, Refusal, Shape};
use vbr_words::{Entries, Keys, Nodes};

const BUDGET: u32 = 1_000;

// How many keys: two whole batches, and one key more.
const MANY: usize = 33;

// Puts in the keys 1, 3 and so on, below as many as are looked up.
fn insert_odd(member: &mut Member) -> Result<(), Refusal> {
    for i in 0..MANY / 2 {
        member.insert(2 * i as u64 + 1, BUDGET)?;
    }
    Ok(())
}

// Two members of a set with these keys.
fn open_odd(alloc: Global) -> Option<(Member, Member)> {
    let members = Member::open(alloc, Shape::new(64, 16, 100).ok()?, 2).ok()?;
    let [mut one, other] = <[Member; 2]>::try_from(members).ok()?;
    insert_odd(&mut one).ok()?;
    Some((one, other))
}

// A member of a map with the same keys, each with ten times itself as its value.
fn open_map(alloc: Global) -> Option<MapMember> {
    let mut member = MapMember::open(alloc, Shape::new(64, 16, 100).ok()?, 1)
        .ok()?
        .pop()?;
    for i in 0..MANY / 2 {
        let key = 2 * i as u64 + 1;
        member.insert(key, 10 * key, BUDGET).ok()?;
    }
    Some(member)
}

// The keys from 0 on.
fn first_keys() -> [u64; MANY] {
    let mut keys = [0; MANY];
    for i in 0..MANY {
        keys[i] = i as u64;
    }
    keys
}

/// Each answer stands at the place of its key, and the steps are those of the single calls.
#[test]
fn keys_of_a_set(rt: HostRuntime) -> Result<(), Fail> {
    let Some((mut one, mut other)) = open_odd(rt.alloc()) else {
        panic!(rt; "no memory")
    };
    let keys = first_keys();
    let mut answers = [Err(Refusal::NoSlot); MANY];
    other.has_all(&keys, &mut answers, BUDGET);
    let before = one.pass().steps();
    for i in 0..MANY {
        assert_eq!(rt; answers[i], Ok(i % 2 == 1));
        assert_eq!(rt; one.has(keys[i], BUDGET), answers[i]);
    }
    assert_eq!(rt;
        one.pass().steps().wrapping_sub(before),
        other.pass().steps()
    );
    Ok(())
}

/// The same of a map, by look-ups and by gets.
#[test]
fn keys_of_a_map(rt: HostRuntime) -> Result<(), Fail> {
    let Some(mut member) = open_map(rt.alloc()) else {
        panic!(rt; "no memory")
    };
    let keys = first_keys();
    let mut answers = [Err(Refusal::NoSlot); MANY];
    member.has_all(&keys, &mut answers, BUDGET);
    let mut values = [Err(Refusal::NoSlot); MANY];
    member.get_all(&keys, &mut values, BUDGET);
    for i in 0..MANY {
        let is_odd = i % 2 == 1;
        assert_eq!(rt; answers[i], Ok(is_odd));
        assert_eq!(rt;
            values[i],
            Ok(if is_odd { Some(10 * i as u64) } else { None })
        );
    }
    Ok(())
}

/// No key, one key, and one that stands twice.
#[test]
fn few_keys(rt: HostRuntime) -> Result<(), Fail> {
    let Some((mut one, mut other)) = open_odd(rt.alloc()) else {
        panic!(rt; "no memory")
    };
    other.has_all(&[], &mut [], BUDGET);
    assert_eq!(rt; other.pass().steps(), 0);
    let mut single = [Ok(false)];
    one.has_all(&[7], &mut single, BUDGET);
    assert_eq!(rt; single[0], Ok(true));
    let mut twice = [Ok(false); 3];
    one.has_all(&[7, 8, 7], &mut twice, BUDGET);
    assert_eq!(rt; twice, [Ok(true), Ok(false), Ok(true)]);
    Ok(())
}

// A member of a set with eight buckets, the first of which has the keys 0, 8 and 16.
fn open_eights(alloc: Global) -> Option<Member> {
    let mut member = Member::open(alloc, Shape::new(8, 8, 100).ok()?, 1)
        .ok()?
        .pop()?;
    for i in 0..3u64 {
        member.insert(8 * i, BUDGET).ok()?;
    }
    Some(member)
}

/// A key whose bucket is too long for the budget is refused, and those after it are answered. With twenty
/// steps a walk comes to the first node and leaves eight steps, but not to the second.
#[test]
fn keys_are_refused_by_themselves(rt: HostRuntime) -> Result<(), Fail> {
    let Some(mut member) = open_eights(rt.alloc()) else {
        panic!(rt; "no memory")
    };
    let refused = Err(Refusal::OutOfSteps { used: 13 });
    let mut answers = [Ok(false); 5];
    member.has_all(&[0, 8, 1, 16, 0], &mut answers, 20);
    assert_eq!(rt; answers, [Ok(true), refused, Ok(false), refused, Ok(true)]);
    Ok(())
}

// With twenty steps 9, the second key of its bucket, is refused, and the keys after it are answered. The pass
// then goes on.
fn expect_by_a_pass<N: Nodes>(rt: &impl Abort, set: &VbrSet<N>, pass: &mut Pass)
    requires own { IsOf pass.old.trace set.now }
    requires empty_hand { pass.old.hand ≡ None }
    ensures own { IsOf pass.new.trace set.now }
    ensures empty_hand { pass.new.hand ≡ None }
{
    let mut answers = [Ok(false); 3];
    set.has_all(pass, &[9, 2, 1], &mut answers, 20);
    let refused = Err(Refusal::OutOfSteps { used: 13 });
    assert_eq!(rt; answers, [refused, Ok(false), Ok(true)]);
    assert_eq!(rt; set.has(pass, 9, BUDGET), Ok(true));
}

/// The same by a pass beside its set.
#[test]
fn keys_by_a_pass(rt: HostRuntime) -> Result<(), Fail> {
    let (set, mut pass) = open_alone::<Keys>(rt.alloc(), Shape::new(8, 8, 100)?, &[1, 9])?;
    expect_by_a_pass(&rt, &set, &mut pass);
    Ok(())
}

/// The same by a pass beside its map, which has the values too.
#[test]
fn entries_by_a_pass(rt: HostRuntime) -> Result<(), Fail> {
    let entries = [(1, 10), (9, 90)];
    let (map, mut pass) = open_alone::<Entries>(rt.alloc(), Shape::new(8, 8, 100)?, &entries)?;
    expect_by_a_pass(&rt, &map, &mut pass);
    let mut values = [Ok(None); 3];
    map.get_all(&mut pass, &[9, 2, 1], &mut values, 20);
    let refused = Err(Refusal::OutOfSteps { used: 13 });
    assert_eq!(rt; values, [refused, Ok(None), Ok(Some(10))]);
    Ok(())
}
