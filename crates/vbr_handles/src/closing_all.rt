//! All handles of a set at once: their report, and their close.
ghost use Rattle.std.specs.Prelude.{◌≡◌, map};
ghost use Rattle.vbr_set.specs.members.AllMembers.{AreOfOneSet};
ghost use Rattle.vbr_set.specs.reports.Closing.{ClosesBy};
ghost use Rattle.vbr_handles.specs.AllHandles.{ClosesAll, ReportsAllOf, members_by};
ghost use Rattle.vbr_set.specs.reports.EntrySlots.{ClosesWithSlots};
ghost use Rattle.vbr_handles.specs.Listings.{with_slots};
ghost use Rattle.vbr_handles.specs.Opening.{AreEmpty};

use crate::asking_all::{Answer, AskRefusal, Question, ask_all};
use crate::handle_of::HandleOf;
use crate::items::Listed;
use crate::owner::Owner;
use std::alloc::Global;
use vbr_set::member::Member;
use vbr_set::{Kind, Report, ReportWithSlots};
use vbr_words::Nodes;

/// Why all handles of a set got no report; `R` is the type of the report, by default a set's. Tested in
/// this order; the handles are as they were.
#[derive(Debug, Drop)]
pub enum CloseAllRefusal<R = Report> {
    /// As [`AskRefusal::Empty`].
    Empty,
    /// As [`AskRefusal::Missing`].
    Missing,
    /// As [`AskRefusal::Mixed`].
    Mixed,
    /// There is no memory for the report, or as [`AskRefusal::Memory`].
    Memory,
    /// This report has more keys than there is room for.
    Room(R),
}

/// Reports what is in a set or a map by all its handles, if there is room for so many keys:
/// `vbr_report_all` of vbr.h. All must be of one set.
pub fn report_all<N: Kind, I: Listed<N>, H: HandleOf<N>>(
    alloc: Global,
    handles: &mut [H],
    room: usize,
) -> Result<N::Report, CloseAllRefusal<N::Report>>
    requires { AreOfOneSet (members_by H.member handles.old) }
    ensures reports { ReportsAllOf H.member (ClosesBy N.kind) I.listing
        handles.old handles.new room result }
    ensures steps { map H.steps handles.new ≡ map H.steps handles.old }
    ensures openings { map H.opening handles.new ≡ map H.opening handles.old }
{
    let report = match ask_all::<N, H>(alloc, handles, Question::Report) {
        Ok(Answer::Report(report)) => report,
        Ok(Answer::Memory) => return Err(CloseAllRefusal::Memory),
        Ok(Answer::ReportSlots(_) | Answer::Renewed | Answer::Room) => unreachable!(),
        Err(AskRefusal::Empty) => return Err(CloseAllRefusal::Empty),
        Err(AskRefusal::Missing) => return Err(CloseAllRefusal::Missing),
        Err(AskRefusal::Mixed) => return Err(CloseAllRefusal::Mixed),
        Err(AskRefusal::Memory) => return Err(CloseAllRefusal::Memory),
    };
    if I::count(&report) > room {
        return Err(CloseAllRefusal::Room(report));
    }
    Ok(report)
}

/// Reports what is in a set or a map as [`report_all`] does, with the slot of each key:
/// `vbr_report_slots` of vbr.h. Slot number i belongs to item number i of the report.
pub fn report_all_with_slots<N: Kind, I: Listed<N>, H: HandleOf<N>>(
    alloc: Global,
    handles: &mut [H],
    room: usize,
) -> Result<ReportWithSlots<N::Report>, CloseAllRefusal<ReportWithSlots<N::Report>>>
    requires { AreOfOneSet (members_by H.member handles.old) }
    ensures reports { ReportsAllOf H.member (ClosesWithSlots N.kind) (with_slots I.listing)
        handles.old handles.new room result }
    ensures steps { map H.steps handles.new ≡ map H.steps handles.old }
    ensures openings { map H.opening handles.new ≡ map H.opening handles.old }
{
    let told = match ask_all::<N, H>(alloc, handles, Question::ReportSlots) {
        Ok(Answer::ReportSlots(told)) => told,
        Ok(Answer::Memory) => return Err(CloseAllRefusal::Memory),
        Ok(Answer::Report(_) | Answer::Renewed | Answer::Room) => unreachable!(),
        Err(AskRefusal::Empty) => return Err(CloseAllRefusal::Empty),
        Err(AskRefusal::Missing) => return Err(CloseAllRefusal::Missing),
        Err(AskRefusal::Mixed) => return Err(CloseAllRefusal::Mixed),
        Err(AskRefusal::Memory) => return Err(CloseAllRefusal::Memory),
    };
    if I::count(&told.report) > room {
        return Err(CloseAllRefusal::Room(told));
    }
    Ok(told)
}

/// Closes a set or a map by all its handles, if there is room for so many keys: `vbr_close_all` of
/// vbr.h. All must be of one set.
pub fn close_all<N: Kind, I: Listed<N>, H: HandleOf<N>>(
    alloc: Global,
    handles: &mut [H],
    room: usize,
) -> Result<N::Report, CloseAllRefusal<N::Report>>
    requires { AreOfOneSet (members_by H.member handles.old) }
    ensures closes { ClosesAll H.member (ClosesBy N.kind) I.listing
        handles.old handles.new room result }
    ensures steps { map H.steps handles.new ≡ map H.steps handles.old }
    ensures openings { map H.opening handles.new ≡ map H.opening handles.old }
{
    let report = report_all::<N, I, H>(alloc, handles, room)?;
    abandon_all::<N, H>(alloc, handles);
    Ok(report)
}

/// Releases handles, without a report: `vbr_end_all` of vbr.h.
pub fn abandon_all<N: Nodes, H: HandleOf<N>>(alloc: Global, handles: &mut [H])
    ensures empty { AreEmpty H.member handles.new }
    ensures steps { map H.steps handles.new ≡ map H.steps handles.old }
    ensures openings { map H.opening handles.new ≡ map H.opening handles.old }
{
    for i in 0..handles.len() {
        let mut owner = Owner::empty(alloc);
        handles[i].swap(&mut owner);
    }
}
