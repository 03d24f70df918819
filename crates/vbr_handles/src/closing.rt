//! Closing handles, one after another.
ghost use Rattle.std.specs.Prelude.{◌≡◌, None};
ghost use Rattle.vbr_set.specs.reports.Closing.{ClosesBy};
ghost use Rattle.vbr_handles.specs.Closing.{ClosesAs};

use crate::items::Listed;
use crate::owner::Owner;
use std::alloc::Global;
use vbr_set::member::Member;
use vbr_set::{EndError, Kind, Report};
use vbr_words::Nodes;

/// Why a handle got no answer to its close; `R` is the type of the report, by default a set's.
#[derive(Debug, Drop)]
pub enum CloseRefusal<R = Report> {
    /// The handle is empty.
    Empty,
    /// It was the last of its set: [`EndError::Lost`]. The handle is empty.
    Lost,
    /// It was the last of its set: [`EndError::Memory`]. The handle is as it was.
    Memory,
    /// It was the last of its set: [`crate::CloseAllRefusal::Room`]. The handle is as it was.
    Room(R),
}

/// Closes a handle, and gets the report if it is the last of its set or map, and there is room for so
/// many keys: `vbr_close` of vbr.h. But like [`Member::report_last`] it gives no slots back:
/// [`crate::coded_calls::giving_slots_back::close`] does so first.
pub fn close<N: Kind, I: Listed<N>>(
    alloc: Global,
    owner: &mut Owner<Member<N>>,
    room: usize,
) -> Result<Option<N::Report>, CloseRefusal<N::Report>>
    ensures { ClosesAs (ClosesBy N.kind) I.listing owner.old.member owner.new.member room result }
{
    let Some((member, block)) = owner.take_out(alloc) else {
        return Err(CloseRefusal::Empty);
    };
    match member.report_last(alloc) {
        Ok(None) => {
            block.free();
            Ok(None)
        }
        Ok(Some((report, last))) => {
            if I::count(&report) > room {
                owner.put_back(last, block);
                return Err(CloseRefusal::Room(report));
            }
            drop(last);
            block.free();
            Ok(Some(report))
        }
        Err(EndError::Lost) => {
            block.free();
            Err(CloseRefusal::Lost)
        }
        Err(EndError::Memory(member)) => {
            owner.put_back(member, block);
            Err(CloseRefusal::Memory)
        }
    }
}

/// Releases a handle, without a report: `vbr_drop` of vbr.h.
pub fn abandon<N: Nodes>(alloc: Global, owner: &mut Owner<Member<N>>)
    ensures { owner.new.member ≡ None }
{
    *owner = Owner::empty(alloc);
}
