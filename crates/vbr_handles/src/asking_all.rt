//! What is asked of all members of handles at once, while none of them makes a call.
ghost use Rattle.std.specs.Prelude.{◌≡◌, ◌≤◌, [], true, false, length, map, None, Some, IfSome, IsSome};
ghost use Rattle.std.specs.Vec.{vec_capacity};
ghost use Rattle.vbr_set.specs.members.AllMembers.{AreOfOneSet};
ghost use Rattle.vbr_set.specs.members.BalanceSums.{added_balances};
ghost use Rattle.vbr_handles.specs.AllHandles.{AreFull, members_by};
ghost use Rattle.vbr_handles.specs.AskingAll.{AsksAllOf, Lack, AnswersQuestion};
ghost use Rattle.vbr_handles.specs.EachOnce.{HasTwice};

use crate::each_once::has_twice;
use crate::handle_of::HandleOf;
use crate::owner::Owner;
use crate::reserves::with_reserves;
use std::alloc::Global;
use std_alloc::room::Vacant;
use vbr_set::member::Member;
use vbr_set::{CloseAllError, Kind, RenewAllError, ReportWithSlots, Shape};
use vbr_words::Nodes;

/// Why the members of handles were asked nothing. Tested in this order, but whether two have the same
/// pass after [`AskRefusal::Mixed`]; the handles are as they were.
#[derive(Clone, Copy, Debug, PartialEq, Eq)]
pub enum AskRefusal {
    /// One of the handles is empty.
    Empty,
    /// There are fewer handles than were opened with the set, or none; for a renewal, not as many as were
    /// opened with it. Or two of one set have the same pass, as copies in C have. If none is empty and it
    /// isn't [`AskRefusal::Mixed`], it comes exactly then.
    Missing,
    /// Two of the handles are of different sets in memory ([`Member::is_beside`]). It is a probe: a
    /// contract says only that then none is empty and there are not too few; for a renewal, that there
    /// are as many as were opened with the set.
    Mixed,
    /// There is no memory to put the members side by side; for a renewal, as
    /// [`crate::RenewAllRefusal::Memory`].
    Memory,
}

/// What all members of handles are asked.
#[derive(Clone, Copy)]
pub(crate) enum Question {
    /// For the report of their set; they come back as they were.
    Report,
    /// For the report of their set with the slot of each key; they come back as they were.
    ReportSlots,
    /// To go on over a fresh set of this shape, of which others come in their place, with their reserves.
    Renew(Shape),
}

/// What they answer.
#[derive(Drop)]
pub(crate) enum Answer<R> {
    /// The report.
    Report(R),
    /// The report with the slots.
    ReportSlots(ReportWithSlots<R>),
    /// That they were renewed.
    Renewed,
    /// That there is no room: [`crate::RenewAllRefusal::Room`].
    Room,
    /// That there is no memory; for a renewal, as [`crate::RenewAllRefusal::Memory`].
    Memory,
}

/// Asks the members of handles, which must all be of one set. Each handle then has the member that comes back
/// at its place.
pub(crate) fn ask_all<N: Kind, H: HandleOf<N>>(
    alloc: Global,
    handles: &mut [H],
    question: Question,
) -> Result<Answer<N::Report>, AskRefusal>
    requires { AreOfOneSet (members_by H.member handles.old) }
    ensures asks { AsksAllOf N.kind H.member question handles.old handles.new result }
    ensures steps { map H.steps handles.new ≡ map H.steps handles.old }
    ensures openings { map H.opening handles.new ≡ map H.opening handles.old }
{
    if !are_full::<N, H>(handles) {
        return Err(AskRefusal::Empty);
    }
    if lack::<N, H>(handles, &question) {
        return Err(AskRefusal::Missing);
    }
    if !are_beside::<N, H>(handles) {
        return Err(AskRefusal::Mixed);
    }
    if has_twice::<N, H>(handles) {
        return Err(AskRefusal::Missing);
    }
    let Ok(members) = Vec::with_capacity(alloc, handles.len()) else {
        return without_memory::<N, H>(handles, &question);
    };
    let Ok(blocks) = Vec::with_capacity(alloc, handles.len()) else {
        return without_memory::<N, H>(handles, &question);
    };
    let (members, blocks) = take_all_out::<N, H>(alloc, handles, members, blocks);
    let (told, members) = ask::<N>(alloc, members, question);
    put_all_back::<N, H>(alloc, handles, members, blocks);
    Ok(told)
}

// The answer if there is no memory to ask: to a renewal, that there is no room if the balances say so.
fn without_memory<N: Kind, H: HandleOf<N>>(
    handles: &mut [H],
    question: &Question,
) -> Result<Answer<N::Report>, AskRefusal>
    requires full { AreFull H.member handles.old }
    requires enough { ¬ (Lack question.now (members_by H.member handles.old)) }
    requires once { ¬ (HasTwice (members_by H.member handles.old)) }
    ensures same { handles.new ≡ handles.old }
    ensures asks { AsksAllOf N.kind H.member question.now handles.old handles.new result }
{
    match question {
        Question::Report | Question::ReportSlots => Err(AskRefusal::Memory),
        Question::Renew(shape) => {
            if added_balances::<N, H>(handles) > i64::from(shape.slots()) {
                Ok(Answer::Room)
            } else {
                Err(AskRefusal::Memory)
            }
        }
    }
}

// The balances of the members of handles, which are full, added up.
fn added_balances<N: Nodes, H: HandleOf<N>>(handles: &mut [H]) -> i64
    requires { AreFull H.member handles.old }
    ensures same { handles.new ≡ handles.old }
    ensures sum { result ≡ added_balances (members_by H.member handles.old) }
{
    let mut sum = 0i64;
    for i in (0..handles.len()).rev() {
        sum = sum.wrapping_add(handles[i].balance());
    }
    sum
}

// The block that a member lay in.
struct Block<M> {
    vacant: Vacant<M, Global>,
}

impl<M> Block<M> {
    fn into_vacant(self) -> Vacant<M, Global> {
        let Block { vacant } = self;
        vacant
    }
}

impl<M> Drop for Block<M> {
    fn drop(self) {
        drop(self.into_vacant().free());
    }
}

// Takes the members out of the handles, in their order, into vectors with room for all.
fn take_all_out<N: Nodes, H: HandleOf<N>>(
    alloc: Global,
    handles: &mut [H],
    mut members: Vec<Member<N>>,
    mut blocks: Vec<Block<Member<N>>>,
) -> (Vec<Member<N>>, Vec<Block<Member<N>>>)
    requires full { AreFull H.member handles.old }
    requires none { (members.items ≡ []) × (blocks.items ≡ []) }
    requires room { (length handles.old ≤ vec_capacity members)
        × (length handles.old ≤ vec_capacity blocks) }
    ensures members { result.0.items ≡ members_by H.member handles.old }
    ensures many { length result.0.items ≡ length handles.old }
    ensures blocks { length result.1.items ≡ length handles.old }
    ensures long { length handles.new ≡ length handles.old }
    ensures kept { (map H.steps handles.new ≡ map H.steps handles.old)
        × (map H.opening handles.new ≡ map H.opening handles.old) }
{
    for i in 0..handles.len() {
        let Some((member, vacant)) = take_out::<N, H>(alloc, &mut handles[i]) else {
            unreachable!()
        };
        let (Ok(()), Ok(())) = (members.push(member), blocks.push(Block { vacant })) else {
            unreachable!()
        };
    }
    (members, blocks)
}

// Puts a member back into each handle, in their order.
fn put_all_back<N: Nodes, H: HandleOf<N>>(
    alloc: Global,
    handles: &mut [H],
    members: Vec<Member<N>>,
    blocks: Vec<Block<Member<N>>>,
)
    requires members { length members.items ≡ length handles.old }
    requires blocks { length blocks.items ≡ length handles.old }
    ensures members { map H.member handles.new ≡ map Some members.items }
    ensures steps { map H.steps handles.new ≡ map H.steps handles.old }
    ensures openings { map H.opening handles.new ≡ map H.opening handles.old }
{
    let mut members = members.into_iter();
    let mut blocks = blocks.into_iter();
    for i in 0..handles.len() {
        let (Some(member), Some(block)) = (members.next(), blocks.next()) else {
            unreachable!()
        };
        put_back::<N, H>(alloc, &mut handles[i], member, block.into_vacant());
    }
}

// Asks members, and returns as many, in the order in which handles are to have them.
fn ask<N: Kind>(
    alloc: Global,
    members: Vec<Member<N>>,
    question: Question,
) -> (Answer<N::Report>, Vec<Member<N>>)
    requires one_set { AreOfOneSet members.items }
    requires enough { ¬ (Lack question members.items) }
    ensures many { length result.1.items ≡ length members.items }
    ensures tells { AnswersQuestion N.kind question members.items result.1.items result.0 }
{
    match question {
        Question::Report => match Member::<N>::report_all(alloc, members) {
            Ok((report, members)) => (Answer::Report(report), members),
            Err(CloseAllError::Missing(_)) => unreachable!(),
            Err(CloseAllError::Memory(members)) => (Answer::Memory, members),
        },
        Question::ReportSlots => match Member::<N>::report_all_with_slots(alloc, members) {
            Ok((told, members)) => (Answer::ReportSlots(told), members),
            Err(CloseAllError::Missing(_)) => unreachable!(),
            Err(CloseAllError::Memory(members)) => (Answer::Memory, members),
        },
        Question::Renew(shape) => match Member::<N>::renew_all(alloc, members, shape) {
            Ok(fresh) => (Answer::Renewed, with_reserves(fresh)),
            Err(RenewAllError::Missing(_)) => unreachable!(),
            Err(RenewAllError::Room(members)) => (Answer::Room, members),
            Err(RenewAllError::Memory(members)) => (Answer::Memory, members),
        },
    }
}

// Whether all handles are full.
fn are_full<N: Nodes, H: HandleOf<N>>(handles: &mut [H]) -> bool
    ensures same { handles.new ≡ handles.old }
    ensures full { result ≡ true → AreFull H.member handles.old }
    ensures some_empty { result ≡ false → ¬ (AreFull H.member handles.old) }
{
    for i in 0..handles.len() {
        if handles[i].is_empty() {
            return false;
        }
    }
    true
}

// Whether handles, which are full, are too few for what is asked of them, or not as many as it wants.
fn lack<N: Nodes, H: HandleOf<N>>(handles: &mut [H], question: &Question) -> bool
    requires { AreFull H.member handles.old }
    ensures same { handles.new ≡ handles.old }
    ensures yes { result ≡ true → Lack question.now (members_by H.member handles.old) }
    ensures no { result ≡ false → ¬ (Lack question.now (members_by H.member handles.old)) }
{
    if handles.is_empty() {
        return true;
    }
    let count = handles.len();
    let passes = handles[0].passes() as usize;
    match question {
        Question::Report | Question::ReportSlots => count < passes,
        Question::Renew(_) => count != passes,
    }
}

// Whether the members of handles, which are full, have their shares of one set in memory.
fn are_beside<N: Nodes, H: HandleOf<N>>(handles: &mut [H]) -> bool
    requires { AreFull H.member handles.old }
    ensures { handles.new ≡ handles.old }
{
    let Some((first, others)) = handles.split_first_mut() else {
        return true;
    };
    for i in 0..others.len() {
        if !first.is_beside(&mut others[i]) {
            return false;
        }
    }
    true
}

// Moves the member of a handle out, with the block that it lay in, and leaves nothing.
fn take_out<N: Nodes, H: HandleOf<N>>(
    alloc: Global,
    handle: &mut H,
) -> Option<(Member<N>, Vacant<Member<N>, Global>)>
    ensures is { IfSome result (λ r. H.member handle.old ≡ Some r.0) }
    ensures there { IsSome (H.member handle.old) → IsSome result }
    ensures left { H.member handle.new ≡ None }
    ensures steps { H.steps handle.new ≡ H.steps handle.old }
    ensures opening { H.opening handle.new ≡ H.opening handle.old }
{
    let mut owner = Owner::empty(alloc);
    handle.swap(&mut owner);
    owner.take_out(alloc)
}

// Moves a member into a block, which needs no memory, and gives it to a handle. What the handle had before is
// dropped.
fn put_back<N: Nodes, H: HandleOf<N>>(
    alloc: Global,
    handle: &mut H,
    member: Member<N>,
    block: Vacant<Member<N>, Global>,
)
    ensures member { H.member handle.new ≡ Some member }
    ensures steps { H.steps handle.new ≡ H.steps handle.old }
    ensures opening { H.opening handle.new ≡ H.opening handle.old }
{
    let mut owner = Owner::empty(alloc);
    owner.put_back(member, block);
    handle.swap(&mut owner);
}
