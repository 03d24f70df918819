//! What a handle shows of its set and of its pass, without a call and without a step. An empty handle
//! shows 0.
ghost use Rattle.std.specs.Prelude.{◌≡◌};
ghost use Rattle.vbr_handles.specs.Shown.{IsSeedOf, balance_shown, buckets_of, epoch_of_handle, last_epoch_of, slots_of};

use crate::lent_member::return_if_empty;
use crate::owner::Owner;
use vbr_set::member::Member;
use vbr_words::Nodes;

/// The epoch of a handle: `vbr_epoch` of vbr.h.
pub fn epoch<N: Nodes>(owner: &mut Owner<Member<N>>) -> u64
    ensures same { owner.new.member ≡ owner.old.member }
    ensures epoch { result ≡ epoch_of_handle owner.old.member }
{
    return_if_empty!(owner, 0);
    owner.member_mut().pass().epoch()
}

/// The last epoch of the set of a handle: `vbr_last_epoch` of vbr.h.
pub fn last_epoch<N: Nodes>(owner: &mut Owner<Member<N>>) -> u64
    ensures same { owner.new.member ≡ owner.old.member }
    ensures last { result ≡ last_epoch_of owner.old.member }
{
    return_if_empty!(owner, 0);
    owner.member_mut().shape().last_epoch()
}

/// How many slots the set of a handle has: `vbr_slots` of vbr.h.
pub fn slots<N: Nodes>(owner: &mut Owner<Member<N>>) -> u32
    ensures same { owner.new.member ≡ owner.old.member }
    ensures slots { result ≡ slots_of owner.old.member }
{
    return_if_empty!(owner, 0);
    owner.member_mut().shape().slots()
}

/// How many buckets the set of a handle has: `vbr_buckets` of vbr.h.
pub fn buckets<N: Nodes>(owner: &mut Owner<Member<N>>) -> u32
    ensures same { owner.new.member ≡ owner.old.member }
    ensures buckets { result ≡ buckets_of owner.old.member }
{
    return_if_empty!(owner, 0);
    owner.member_mut().shape().buckets()
}

/// The seed of the set of a handle: `vbr_seed` of vbr.h.
pub fn seed<N: Nodes>(owner: &mut Owner<Member<N>>) -> u64
    ensures same { owner.new.member ≡ owner.old.member }
    ensures seed { IsSeedOf owner.old.member result }
{
    return_if_empty!(owner, 0);
    owner.member_mut().shape().seed().unwrap_or(0)
}

/// The balance of a handle, as in [`Member::balance`]: `vbr_balance` of vbr.h.
pub fn balance<N: Nodes>(owner: &mut Owner<Member<N>>) -> i64
    ensures same { owner.new.member ≡ owner.old.member }
    ensures balance { result ≡ balance_shown owner.old.member }
{
    return_if_empty!(owner, 0);
    owner.member_mut().balance()
}
