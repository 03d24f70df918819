//! Moving all handles of a set to a fresh one at once.
ghost use Rattle.std.specs.Prelude.{◌≡◌, map};
ghost use Rattle.vbr_set.specs.members.AllMembers.{AreOfOneSet};
ghost use Rattle.vbr_handles.specs.AllHandles.{members_by};
ghost use Rattle.vbr_handles.specs.Openings.{BeginAnew};
ghost use Rattle.vbr_handles.specs.RenewingAll.{RenewsAll};

use crate::asking_all::{Answer, AskRefusal, Question, ask_all};
use crate::handle_of::HandleOf;
use crate::items::Listed;
use crate::opening::ShapeNumbers;
use crate::openings::begin_anew;
use std::alloc::Global;
use vbr_set::Kind;

/// Why the handles of a set were not renewed. Tested in this order; the handles are as they were.
#[derive(Clone, Copy, Debug, PartialEq, Eq)]
pub enum RenewAllRefusal {
    /// As [`crate::OpenRefusal::Shape`].
    Shape,
    /// As [`AskRefusal::Empty`].
    Empty,
    /// As [`AskRefusal::Missing`], if the numbers are a shape.
    Missing,
    /// As [`AskRefusal::Mixed`].
    Mixed,
    /// There are more keys than slots of the shape, counted as `Member::renew_all` of `vbr_set` does.
    Room,
    /// There is no memory, and there are no more keys than slots.
    Memory,
}

/// Moves all handles of a set or a map to a fresh one of these numbers, each with the fresh pass of its
/// place: `vbr_renew_all_seeded` of vbr.h. All must be of one set.
pub fn renew_all<N: Kind, I: Listed<N>, H: HandleOf<N>>(
    alloc: Global,
    handles: &mut [H],
    numbers: ShapeNumbers,
) -> Result<(), RenewAllRefusal>
    requires { AreOfOneSet (members_by H.member handles.old) }
    ensures renews { RenewsAll N.kind I.listing H.member handles.old handles.new numbers result }
    ensures steps { map H.steps handles.new ≡ map H.steps handles.old }
    ensures begins { BeginAnew H.opening handles.old handles.new result }
{
    let Some(shape) = numbers.shape() else {
        return Err(RenewAllRefusal::Shape);
    };
    match ask_all::<N, H>(alloc, handles, Question::Renew(shape)) {
        Ok(Answer::Renewed) => {
            begin_anew::<N, H>(handles);
            Ok(())
        }
        Ok(Answer::Room) => Err(RenewAllRefusal::Room),
        Ok(Answer::Memory) => Err(RenewAllRefusal::Memory),
        Ok(Answer::Report(_) | Answer::ReportSlots(_)) => unreachable!(),
        Err(AskRefusal::Empty) => Err(RenewAllRefusal::Empty),
        Err(AskRefusal::Missing) => Err(RenewAllRefusal::Missing),
        Err(AskRefusal::Mixed) => Err(RenewAllRefusal::Mixed),
        Err(AskRefusal::Memory) => Err(RenewAllRefusal::Memory),
    }
}
