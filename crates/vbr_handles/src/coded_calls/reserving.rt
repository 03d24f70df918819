//! Taking slots in reserve for a handle's pass.
ghost use Rattle.vbr_handles.specs.Reserving.{TellsReserve};

use crate::lent_member::return_if_empty;
use crate::owner::Owner;
use vbr_set::member::Member;
use vbr_words::Nodes;

/// Takes slots in reserve, as [`Member::reserve`] does; 0 if the handle is empty: `vbr_reserve` of
/// vbr.h.
pub fn reserve<N: Nodes>(owner: &mut Owner<Member<N>>, wanted: u32) -> u32
    ensures { TellsReserve owner.old.member owner.new.member wanted result }
{
    return_if_empty!(owner, 0);
    owner.member_mut().reserve(wanted)
}
