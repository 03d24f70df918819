//! Members of a set that tell each other by tokens what they have seen.
ghost use Rattle.std.specs.Prelude.{◌≡◌};
ghost use Rattle.vbr_set.specs.histories.Tokens.{IsTokenOf};

use crate::members::open_two;
use std::mem::size_of;
use std::test::Fail;
use std::thread;
use vbr_set::{Member, Refusal, Seen};

// A token has no bytes: the check evaluates its size.
const _: () = prove!(size_of::<Seen>() == 0);

// One member adds a key, and tells by a token what it has then seen.
fn add_and_tell(one: &mut Member, key: u64) -> (Result<bool, Refusal>, Seen)
    ensures set { one.new.set ≡ one.old.set }
    ensures tells { IsTokenOf one.old.set one.new.pass.trace result.1 }
{
    let answer = one.insert(key, 100);
    (answer, one.seen())
}

// The same by a member that is then given up.
fn add_tell_and_leave(one: Member, key: u64) -> (Result<bool, Refusal>, Seen)
    ensures { result.1.table ≡ one.set.table }
{
    let mut one = one;
    add_and_tell(&mut one, key)
}

/// What a token tells a member has then seen, though it comes from another thread, and the member that
/// gave it is gone. To catch up is no step.
#[test]
fn a_token_tells_what_a_member_did(rt: HostRuntime) -> Result<(), Fail> {
    let (one, mut other) = open_two(rt.alloc()).expect(&rt, "there is memory");
    let ((answer, token), ()) = thread::join(
        &rt,
        move || -> (Result<bool, Refusal>, Seen)
            ensures { result.1.table ≡ one.set.table }
        { add_tell_and_leave(one, 7) },
        || (),
    );
    assert!(rt; answer?);
    other.catch_up(token);
    assert_eq!(rt; other.pass().steps(), 0);
    assert_eq!(rt; other.insert(7, 100), Ok(false));
    Ok(())
}

/// A token is made again, is taken twice and by its own giver, and what is never taken is dropped: then
/// the set is closed with its report.
#[test]
fn a_token_is_taken_twice_or_never(rt: HostRuntime) -> Result<(), Fail> {
    let (mut one, mut other) = open_two(rt.alloc()).expect(&rt, "there is memory");
    let (answer, mut token) = add_and_tell(&mut one, 7);
    assert!(rt; answer?);
    let again = other.seen_again(&mut token);
    let own = other.seen_again(&mut token);
    let never = one.seen();
    other.catch_up(token);
    other.catch_up(again);
    one.catch_up(own);
    assert_eq!(rt; (one.pass().steps(), other.pass().steps()), (13, 0));
    assert!(rt; one.close(rt.alloc())?.is_none());
    let Some(report) = other.close(rt.alloc())? else {
        panic!(rt; "a member is open")
    };
    drop(never);
    assert_eq!(rt; report.keys.as_slice(), [7].as_slice());
    Ok(())
}

/// A token has no bytes, so to send it sends nothing.
#[test]
fn a_token_has_no_bytes(rt: HostRuntime) {
    assert_eq!(rt; size_of::<Seen>(), 0);
}
