//! The laws of the nodes that callers have marked and that are in their lists still. Each function says
//! its law in its contract, and does nothing.
ghost use Rattle.vbr_set.specs.progress.LeftMarked.{CallsLeaveNone, FewLeft, MarksAreLeft};

/// A law: a caller leaves no further node that is marked and in its list if no remove and no
/// replacement of it is answered yes, or if the call has room in its budget for one more piece of eight
/// steps after its answer. Any other call leaves at most one more.
#[tactic(auto, using(crate::proofs::progress::LeftMarked::call_leaves_none))]
pub fn calls_leave_none()
    ensures { CallsLeaveNone }
{}

/// A law: at each moment there are at most as many marked nodes as the callers have left: as many as
/// when each came back last, and one more for each call under way. So if all calls had room, there are
/// no more than removes and stores under way.
#[tactic(auto, using(crate::proofs::progress::LeftMarked::marks_are_left))]
pub fn marks_are_left()
    ensures { MarksAreLeft }
{}

/// A law: so, if each pass had at most one slot unlinked and not stamped, a pass is disturbed at most
/// twice for each node that is left, once for each pass, and once more, while no update is answered
/// yes.
#[tactic(auto, using(crate::proofs::progress::LeftMarked::few_left))]
pub fn few_left()
    ensures { FewLeft }
{}
