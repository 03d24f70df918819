//! Giving the slots of a handle's pass back, by itself and before a close.
ghost use Rattle.vbr_set.specs.reports.Closing.{ClosesBy};
ghost use Rattle.vbr_handles.specs.GivingSlotsBack.{ClosesWithoutSlots, TellsGivenBack};

use crate::coded_calls::records::let_go;
use crate::items::Listed;
use crate::lent_member::return_if_empty;
use crate::owner::Owner;
use crate::report_numbers::ReportNumbers;
use std::alloc::Global;
use vbr_set::Kind;
use vbr_set::member::Member;
use vbr_words::Nodes;

/// Gives slots back, as [`Member::give_slots_back`] does; 0 if the handle is empty:
/// `vbr_spare` of vbr.h.
pub fn give_slots_back<N: Nodes>(owner: &mut Owner<Member<N>>) -> u32
    ensures { TellsGivenBack owner.old.member owner.new.member result }
{
    return_if_empty!(owner, 0);
    owner.member_mut().give_slots_back()
}

/// Lets go of the slot that its member holds, gives the slots of its pass back to the others, and then
/// closes a handle, as [`crate::coded_calls::close`] does. If it is the last one and is refused, it
/// stays full, holds none, and its slots are in the shared pool.
pub fn close<N: Kind, I: Listed<N>>(
    alloc: Global,
    owner: &mut Owner<Member<N>>,
    items: &mut [I],
    told: &mut ReportNumbers,
) -> i32
    ensures { ClosesWithoutSlots I.listing (ClosesBy N.kind) owner.old.member owner.new.member
        items.old items.new told.old told.new result }
{
    let_go(owner);
    give_slots_back(owner);
    crate::coded_calls::close::<N, I>(alloc, owner, items, told)
}
