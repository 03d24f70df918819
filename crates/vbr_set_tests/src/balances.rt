//! The balances of members, and members that are renewed.
ghost use Rattle.std.specs.Prelude.{◌≡◌};
ghost use Rattle.vbr_set.specs.members.AllMembers.{AreOfOneSet};

use crate::members::{both, expect_insert, expect_remove, fill_two, open_two};
use std::alloc::Global;
use std::process::Abort;
use std::test::Fail;
use vbr_set::{Member, RenewAllError, Shape};

// What the balances of two members add up to.
fn add_up(one: &Member, other: &Member) -> i64 {
    one.balance().wrapping_add(other.balance())
}

/// A call that is answered yes counts, and no other; the sum is the number of keys.
#[test]
fn balances_add_up(rt: HostRuntime) -> Result<(), Fail> {
    let (mut one, mut other) = open_two(rt.alloc()).expect(&rt, "there is memory");
    expect_insert(&rt, &mut one, 7, true);
    expect_insert(&rt, &mut other, 7, false);
    expect_insert(&rt, &mut one, 5, true);
    expect_remove(&rt, &mut other, 7, true);
    expect_remove(&rt, &mut one, 7, false);
    assert!(rt; one.insert(9, 1).is_err());
    expect_counts(&rt, &one, &other, 2, (2, -1));
    assert_eq!(rt; add_up(&one, &other), 1);
    Ok(())
}

// Compares the slots of a set, and the balances of two of its members.
fn expect_counts(rt: &impl Abort, one: &Member, other: &Member, slots: u32, balances: (i64, i64)) {
    assert_eq!(rt; one.shape().slots(), slots);
    assert_eq!(rt; (one.balance(), other.balance()), balances);
}

// Lets members go on over a set of another shape. What found no memory left them, so it is tried again.
fn renew(alloc: Global, members: Vec<Member>, shape: Shape) -> Result<Vec<Member>, RenewAllError>
    requires { AreOfOneSet members.items }
{
    match Member::renew_all(alloc, members, shape) {
        Err(RenewAllError::Memory(members)) => Member::renew_all(alloc, members, shape),
        answer => answer,
    }
}

// Two members go on over a set of so many slots.
fn renew_both(alloc: Global, one: Member, other: Member, slots: u32) -> Option<(Member, Member)>
    requires { other.set ≡ one.set }
{
    let shape = Shape::new(slots, 4, 20).ok()?;
    let members = both(alloc, one, other)?;
    let fresh = match renew(alloc, members, shape) {
        Ok(fresh) => fresh,
        Err(RenewAllError::Room(members)) => members,
        Err(_) => return None,
    };
    let [first, second] = <[Member; 2]>::try_from(fresh).ok()?;
    Some((first, second))
}

/// Members that are renewed have the keys, in a set of another shape, and the first one counts them.
#[test]
fn members_are_renewed(rt: HostRuntime) -> Result<(), Fail> {
    let (one, other) = fill_two(&rt, rt.alloc()).expect(&rt, "there is memory");
    let (mut one, mut other) = renew_both(rt.alloc(), one, other, 8).expect(&rt, "it is renewed");
    expect_counts(&rt, &one, &other, 8, (2, 0));
    assert_eq!(rt; one.pass().epoch(), 1);
    expect_remove(&rt, &mut other, 7, true);
    expect_insert(&rt, &mut one, 5, false);
    assert_eq!(rt; add_up(&one, &other), 1);
    Ok(())
}

/// If there are more keys than slots the members go on as they were.
#[test]
fn renewal_has_no_room(rt: HostRuntime) -> Result<(), Fail> {
    let (one, other) = fill_two(&rt, rt.alloc()).expect(&rt, "there is memory");
    let (mut one, other) = renew_both(rt.alloc(), one, other, 1).expect(&rt, "it is given back");
    expect_counts(&rt, &one, &other, 2, (1, 1));
    expect_insert(&rt, &mut one, 5, false);
    Ok(())
}
