//! Giving up the slots of a handle's pass, if its caller ended in the middle of a call.
ghost use Rattle.vbr_handles.specs.Forsaking.{HasForsaken};

use crate::owner::Owner;
use vbr_set::member::Member;
use vbr_words::Nodes;

/// Gives up the slots that the pass of a handle keeps to itself, as [`Member::forsake_slots`] does;
/// nothing is done if the handle is empty.
pub fn forsake_slots<N: Nodes>(owner: &mut Owner<Member<N>>)
    ensures { HasForsaken owner.old.member owner.new.member }
{
    if !owner.is_empty() {
        owner.member_mut().forsake_slots();
    }
}
