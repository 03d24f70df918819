//! What a handle counted for those who operate a program, since the opening or the last renewal: without a call and
//! without a step. An empty handle shows 0.
ghost use Rattle.std.specs.Prelude.{◌≡◌, ◌≤◌};
ghost use Rattle.vbr_handles.specs.Shown.{slots_of};

use crate::lent_member::return_if_empty;
use crate::owner::Owner;
use vbr_set::member::Member;
use vbr_words::Nodes;

/// How often calls by a handle began a traversal anew: `vbr_restarts` of vbr.h.
pub fn restarts<N: Nodes>(owner: &mut Owner<Member<N>>) -> u64
    ensures same { owner.new.member ≡ owner.old.member }
{
    return_if_empty!(owner, 0);
    owner.member_mut().pass().tally().restarts
}

/// How many removed nodes calls by a handle unlinked on their way: `vbr_helps` of vbr.h.
pub fn helps<N: Nodes>(owner: &mut Owner<Member<N>>) -> u64
    ensures same { owner.new.member ≡ owner.old.member }
{
    return_if_empty!(owner, 0);
    owner.member_mut().pass().tally().helps
}

/// How often calls by a handle advanced the epoch: `vbr_advances` of vbr.h.
pub fn advances<N: Nodes>(owner: &mut Owner<Member<N>>) -> u64
    ensures same { owner.new.member ≡ owner.old.member }
{
    return_if_empty!(owner, 0);
    owner.member_mut().pass().tally().advances
}

/// How many slots lie in the shared pool: `vbr_free_about` of vbr.h.
pub fn free_about<N: Nodes>(owner: &mut Owner<Member<N>>) -> u32
    ensures same { owner.new.member ≡ owner.old.member }
    ensures most { result ≤ slots_of owner.old.member }
{
    return_if_empty!(owner, 0);
    owner.member_mut().free_about()
}
