//! Members that are closed all at once, or dropped, and reports of those that go on.
ghost use Rattle.std.specs.Prelude.{◌≡◌};

use crate::members::{both, expect_insert, expect_remove, fill_two, open_two};
use std::alloc::Global;
use std::process::Abort;
use std::test::Fail;
use vbr_set::{CloseAllError, Member, Report};

// Closes both members of a set at once.
fn close_both(alloc: Global, one: Member, other: Member) -> Result<Report, CloseAllError>
    requires { other.set ≡ one.set }
{
    let Some(members) = both(alloc, one, other) else {
        return Err(CloseAllError::Memory(Vec::new(alloc)));
    };
    let report = Member::close_all(alloc, members)?;
    Ok(report)
}

/// All members get what all of them did.
#[test]
fn all_members_are_closed(rt: HostRuntime) -> Result<(), Fail> {
    let (one, mut other) = fill_two(&rt, rt.alloc()).expect(&rt, "there is memory");
    expect_remove(&rt, &mut other, 7, true);
    let Ok(report) = close_both(rt.alloc(), one, other) else {
        panic!(rt; "not closed")
    };
    assert_eq!(rt; report.keys.as_slice(), [5].as_slice());
    Ok(())
}

// Closes one member of a set, as if it were all of them.
fn close_one(alloc: Global, one: Member) -> Option<Vec<Member>> {
    let mut members = Vec::with_capacity(alloc, 1).ok()?;
    members.push(one).ok()?;
    match Member::close_all(alloc, members) {
        Err(CloseAllError::Missing(members)) => Some(members),
        _ => None,
    }
}

// The last member of a set of two keys gets them, takes one out, and is closed.
fn tell_and_close(rt: &impl Abort, alloc: Global, last: Member) -> Result<(), Fail> {
    let (report, mut last) = last.report_last(alloc)?.expect(rt, "the last member");
    assert_eq!(rt; report.keys.as_slice(), [5, 7].as_slice());
    expect_remove(rt, &mut last, 5, true);
    let report = last.close(alloc)?.expect(rt, "the last member");
    assert_eq!(rt; report.keys.as_slice(), [7].as_slice());
    Ok(())
}

/// Fewer members than were opened come back, and go on; the set of one that was dropped has its keys.
#[test]
fn one_of_two_members(rt: HostRuntime) -> Result<(), Fail> {
    let (mut one, mut other) = open_two(rt.alloc()).expect(&rt, "there is memory");
    expect_insert(&rt, &mut one, 7, true);
    drop(one);
    expect_insert(&rt, &mut other, 5, true);
    let Some(mut back) = close_one(rt.alloc(), other) else {
        panic!(rt; "closed without a member")
    };
    let last = back.pop().expect(&rt, "a member came back");
    tell_and_close(&rt, rt.alloc(), last)
}

/// Members of one set are told from those of another.
#[test]
fn members_of_two_sets(rt: HostRuntime) {
    let (Some((one, other)), Some((third, _))) = (open_two(rt.alloc()), open_two(rt.alloc())) else {
        panic!(rt; "no memory")
    };
    assert!(rt; one.is_beside(&other));
    assert!(rt; !one.is_beside(&third));
    assert!(rt; !third.is_beside(&other));
    drop(other);
    drop(third);
}
