//! What a handle takes in reserve when it is opened or renewed.
ghost use Rattle.std.specs.Prelude.{◌≡◌};
ghost use Rattle.vbr_handles.specs.OpeningReserves.{StartWithReserves, StartsWithReserve, is_small};

use crate::coded_calls::topping_up::reserve_of;
use vbr_set::member::Member;
use vbr_words::Nodes;

/// Handles take their reserve at the opening if there are so many slots for each: as many as each may
/// keep.
pub const SHARE: u32 = 64;

/// Returns these fresh members once each has taken its reserve, in as many tries as it is to have
/// slots, so in up to 32. If the set has fewer than [`SHARE`] slots for each, they are as they were.
pub(crate) fn with_reserves<N: Nodes>(members: Vec<Member<N>>) -> Vec<Member<N>>
    ensures { StartWithReserves members.items result.items }
{
    let mut members = members;
    take_reserves(&mut members);
    members
}

// Lets each member take its reserve.
#[tactic(auto, using(crate::proofs::OpeningReserves::one_more_so, crate::proofs::OpeningReserves::all_so))]
fn take_reserves<N: Nodes>(members: &mut [Member<N>])
    ensures { StartWithReserves members.old members.new }
{
    for member in members.iter_mut() {
        take_reserve(member);
    }
}

// Lets a member take its reserve, unless its set is small.
fn take_reserve<N: Nodes>(member: &mut Member<N>)
    ensures { StartsWithReserve member.old member.new }
{
    if !is_small(member) {
        let wanted = reserve_of(member);
        member.top_up(wanted, wanted);
        member.pass().law();
    }
}

// Whether a set has too few slots for each handle to take its reserve at once.
fn is_small<N: Nodes>(member: &Member<N>) -> bool
    ensures { result ≡ is_small member.now.set }
{
    member.pass().law();
    member.shape().slots() / member.passes() < SHARE
}
