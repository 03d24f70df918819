//! Two members of a set, one of which meets the other.
ghost use Rattle.std.specs.Prelude.{◌≡◌, [], ◌∷◌, IfSome};
ghost use Rattle.vbr_set.specs.histories.Meetings.{Shares};

use std::alloc::Global;
use std::process::Abort;
use std::test::Fail;
use vbr_set::{Kind, Member, Refusal, Shape, member};

// The two members of a set.
pub(crate) fn open_two(alloc: Global) -> Option<(Member, Member)>
    ensures { IfSome result (λ r. r.1.set ≡ r.0.set) }
{
    let shape = Shape::new(2, 1, 10).ok()?;
    let members = Member::open(alloc, shape, 2).ok()?;
    let [first, second] = <[Member; 2]>::try_from(members).ok()?;
    Some((first, second))
}

// Two members of one set or map in a vector.
pub(crate) fn both<N: Kind>(
    alloc: Global,
    first: member::Member<N>,
    second: member::Member<N>,
) -> Option<Vec<member::Member<N>>>
    requires { second.set ≡ first.set }
    ensures { IfSome result (λ members. members.items ≡ first ∷ second ∷ []) }
{
    Vec::from_array(alloc, [first, second]).ok()
}

// A member adds a key, which is new or not.
pub(crate) fn expect_insert(rt: &impl Abort, member: &mut Member, key: u64, is_new: bool)
    ensures { member.new.set ≡ member.old.set }
{
    assert_eq!(rt; member.insert(key, 100), Ok(is_new));
}

// A member takes out a key, which was there or not.
pub(crate) fn expect_remove(rt: &impl Abort, member: &mut Member, key: u64, was_there: bool)
    ensures { member.new.set ≡ member.old.set }
{
    assert_eq!(rt; member.remove(key, 100), Ok(was_there));
}

// Two members that have put a key each into a set of two slots: 7 and 5.
pub(crate) fn fill_two(rt: &impl Abort, alloc: Global) -> Option<(Member, Member)>
    ensures { IfSome result (λ r. r.1.set ≡ r.0.set) }
{
    let (mut one, mut other) = open_two(alloc)?;
    expect_insert(rt, &mut one, 7, true);
    expect_insert(rt, &mut other, 5, true);
    Some((one, other))
}

// One member adds a key, and then another meets it: so the other has seen the insert.
fn add_and_show(one: &mut Member, other: &mut Member, key: u64) -> Result<bool, Refusal>
    requires { other.old.set ≡ one.old.set }
    ensures { Shares other.old.pass.trace one.new.pass.trace other.new.pass.trace }
{
    let answer = one.insert(key, 100);
    other.meet(one);
    answer
}

/// What a member did before another meets it, the other has then seen. The meeting is one step.
#[test]
fn a_member_sees_what_another_did(rt: HostRuntime) -> Result<(), Fail> {
    let (mut one, mut other) = open_two(rt.alloc()).expect(&rt, "there is memory");
    assert!(rt; add_and_show(&mut one, &mut other, 7)?);
    assert_eq!(rt; other.pass().steps(), 1);
    expect_insert(&rt, &mut other, 7, false);
    Ok(())
}
