//! The slots that reports and renewals give.
ghost use Rattle.std.specs.Prelude.{◌≡◌};

use crate::members::{both, fill_two};
use std::alloc::Global;
use std::test::Fail;
use vbr_set::{Member, ReportWithSlots};

// What two members of a set report with slots, and the slots that a renewal gives then.
fn tell_and_renew(alloc: Global, one: Member, other: Member) -> Option<(ReportWithSlots, Vec<u32>)>
    requires { other.set ≡ one.set }
{
    let shape = one.shape();
    let members = both(alloc, one, other)?;
    let (told, members) = Member::report_all_with_slots(alloc, members).ok()?;
    let (_, slots) = Member::renew_all_with_slots(alloc, members, shape).ok()?;
    Some((told, slots))
}

/// Two keys in a set of two slots have one each, and the renewal gives the slots that the report gave.
#[test]
fn slots_of_two_keys(rt: HostRuntime) -> Result<(), Fail> {
    let (one, other) = fill_two(&rt, rt.alloc()).expect(&rt, "there is memory");
    let (told, mut slots) = tell_and_renew(rt.alloc(), one, other).expect(&rt, "it is renewed");
    assert_eq!(rt; told.report.keys.as_slice(), [5, 7].as_slice());
    assert_eq!(rt; told.slots.as_slice(), slots.as_slice());
    slots.sort_unstable();
    assert_eq!(rt; slots.as_slice(), [0, 1].as_slice());
    Ok(())
}
