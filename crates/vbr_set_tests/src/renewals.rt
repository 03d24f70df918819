//! Sets that open with keys, and sets that are renewed.
ghost use Rattle.std.specs.Prelude.{◌≡◌, ◌≤◌, None, length, IfOk, IfSome};
ghost use Rattle.std.specs.List.Sorted.{IsStrictlyIncreasing};
ghost use Rattle.vbr_slots.specs.runs.Closing.{AllOf};
ghost use Rattle.vbr_slots.specs.views.Views.{IsOf, new_passes};

use crate::set::{close, open_two};
use std::alloc::Global;
use std::process::Abort;
use std::test::Fail;
use vbr_set::{Member, OpenError, Pass, RenewError, Report, Shape, VbrSet};

// Opens a set with keys, and with two passes. What found no memory left nothing, so it is tried again.
fn open_with(alloc: Global, shape: Shape, keys: &[u64]) -> Result<(VbrSet, Vec<Pass>), OpenError>
    requires ascending { IsStrictlyIncreasing keys.now }
    requires few { length keys.now ≤ shape.slots }
    ensures count { IfOk result (λ r. r.0.passes ≡ 2) }
    ensures passes { IfOk result (λ r. r.1.items ≡ new_passes r.0 0 2) }
{
    match VbrSet::open_with(alloc, shape, 2, keys) {
        Err(OpenError::Memory) => VbrSet::open_with(alloc, shape, 2, keys),
        Err(refused) => Err(refused),
        Ok(opened) => Ok(opened),
    }
}

// A fresh set with the keys of this one, which has two passes. If memory lacked, it goes on from what
// is left.
fn renew(alloc: Global, set: VbrSet, passes: Vec<Pass>) -> Option<(VbrSet, Vec<Pass>)>
    requires own { AllOf set passes.items }
    requires two { set.passes ≡ 2 }
    ensures count { IfSome result (λ r. r.0.passes ≡ 2) }
    ensures passes { IfSome result (λ r. r.1.items ≡ new_passes r.0 0 2) }
{
    let shape = set.shape();
    match set.renew(alloc, passes) {
        Ok(renewed) => Some(renewed),
        Err(RenewError::Missing(..)) => None,
        Err(RenewError::Memory(set, passes)) => set.renew(alloc, passes).ok(),
        Err(RenewError::Closed(report)) => open_with(alloc, shape, &report.keys).ok(),
    }
}

// Whether a report is that of three keys in four slots.
fn expect_three(rt: &impl Abort, report: &Report) {
    assert_eq!(rt; report.keys.as_slice(), [2, 5, 9].as_slice());
    let told = (report.epoch, report.live, report.marked, report.free);
    assert_eq!(rt; told, (1, 3, 0, 1));
}

/// The keys are there before any call.
#[test]
fn opens_with_keys(rt: HostRuntime) -> Result<(), Fail> {
    let (set, passes) = open_with(rt.alloc(), Shape::new(4, 2, 10)?, &[2, 5, 9])?;
    let Ok(report) = close(set, rt.alloc(), passes) else {
        panic!(rt; "not closed")
    };
    expect_three(&rt, &report);
    Ok(())
}

// Inserts three keys.
fn insert_three(rt: &impl Abort, set: &VbrSet, pass: &mut Pass)
    requires own { IsOf pass.old.trace set.now }
    requires empty_hand { pass.old.hand ≡ None }
    ensures { IsOf pass.new.trace set.now }
{
    assert_eq!(rt; set.insert(pass, 5, 100), Ok(true));
    assert_eq!(rt; set.insert(pass, 2, 100), Ok(true));
    assert_eq!(rt; set.insert(pass, 9, 100), Ok(true));
}

// Renews a set without its second pass, which is refused, and then with both.
fn renew_late(
    rt: &impl Abort,
    alloc: Global,
    set: VbrSet,
    first: Pass,
    second: Pass,
) -> Option<(VbrSet, Vec<Pass>)>
    requires own { IsOf first.trace set × IsOf second.trace set }
    requires two { set.passes ≡ 2 }
    ensures { IfSome result (λ r. r.1.items ≡ new_passes r.0 0 2) }
{
    let mut passes = Vec::with_capacity(alloc, 2).ok()?;
    passes.push(first).ok()?;
    match set.renew(alloc, passes) {
        Err(RenewError::Missing(set, mut passes)) => {
            passes.push(second).ok()?;
            renew(alloc, set, passes)
        }
        _ => panic!(rt; "renewed without a pass"),
    }
}

/// Fewer passes than were opened don't renew a set; all of them do, and it opens with its keys.
#[test]
fn a_set_is_renewed(rt: HostRuntime) -> Result<(), Fail> {
    let (set, mut first, second) = open_two(rt.alloc(), Shape::new(4, 2, 10)?).expect(
        &rt,
        "there is memory",
    );
    insert_three(&rt, &set, &mut first);
    let (set, passes) = renew_late(&rt, rt.alloc(), set, first, second).expect(
        &rt,
        "it is renewed",
    );
    assert_eq!(rt;
        (passes.len(), passes[0].steps(), passes[1].steps()),
        (2, 0, 0)
    );
    let Ok(report) = close(set, rt.alloc(), passes) else {
        panic!(rt; "not closed")
    };
    expect_three(&rt, &report);
    Ok(())
}

// Members of a fresh set with the keys that the last member of a set gets.
fn reopen(alloc: Global, last: Member) -> Result<Option<Vec<Member>>, Fail> {
    let shape = last.shape();
    let Some(report) = last.close(alloc)? else {
        return Ok(None);
    };
    let members = Member::open_with(alloc, shape, 2, &report.keys)?;
    Ok(Some(members))
}

// The last member of a set that opened with 2, 5 and 9, of which the other member, closed by now, has removed 5.
fn last_of_three(rt: &impl Abort, alloc: Global) -> Result<Member, Fail> {
    let mut members = Member::open_with(alloc, Shape::new(4, 2, 10)?, 2, &[2, 5, 9])?;
    let (Some(mut second), Some(first)) = (members.pop(), members.pop()) else {
        panic!(rt; "no members")
    };
    assert_eq!(rt; second.remove(5, 100), Ok(true));
    assert!(rt; second.close(alloc)?.is_none());
    Ok(first)
}

/// The report of the last member goes on in a fresh set.
#[test]
fn members_open_with_keys(rt: HostRuntime) -> Result<(), Fail> {
    let last = last_of_three(&rt, rt.alloc())?;
    let mut fresh = reopen(rt.alloc(), last)?.expect(&rt, "the last member");
    let mut second = fresh.pop().expect(&rt, "members");
    assert_eq!(rt; (second.pass().epoch(), second.pass().steps()), (1, 0));
    assert_eq!(rt; second.has(2, 100), Ok(true));
    assert_eq!(rt; second.has(5, 100), Ok(false));
    Ok(())
}
