//! Closing a set or a map by its members, one after another.
ghost use Rattle.std.specs.Prelude.{◌≡◌, ◌≤◌, [], true, false, length, IfOk, IfErr, IfSome};
ghost use Rattle.std.specs.Arc.{arc_value};
ghost use Rattle.std.specs.Vec.{vec_capacity};
ghost use Rattle.vbr_slots.specs.runs.Closing.{AllOf};
ghost use Rattle.vbr_at_table.specs.hands.Aside.{HasAside};
ghost use Rattle.vbr_set.specs.members.Balances.{balance_of};
ghost use Rattle.vbr_set.specs.reports.Closing.{ClosesBy};
ghost use Rattle.vbr_set.specs.members.Ends.{AreNumbered, ClosesMember, EndsBy, IsBack, IsLast, EndLacksMemory};
ghost use Rattle.vbr_set.specs.members.Mailboxes.{IsIdle};
ghost use Rattle.vbr_set.specs.calls.Members.{as_member};
ghost use Rattle.vbr_set.specs.members.Sharing.{AreOthers, ArePassesOf, AreMailboxesOf, HasOthers, IsSeatOf};

use crate::end_error::EndError;
use crate::kind::Kind;
use crate::member::Member;
use crate::member::common::Common;
use crate::member::mailbox::{Mailbox, SeatKnows};
use crate::member::share::Share;
use crate::member::stake::Stake;
use crate::set::VbrSet;
use atomic_table::Seat;
use std::alloc::{AllocError, AllocFailed, Global};
use std::sync::Arc;
use vbr_at_table::Aside;
use vbr_slots::Pass;
use vbr_words::Nodes;

impl<N: Kind> Member<N> {
    /// Closes the member: lets go of the slot that it holds, if any ([`Member::let_go`]), gives its
    /// slots back to the others ([`Member::give_slots_back`]), and then its pass. While others have a
    /// share of the set, the answer is None. The last member ends the set, and gets what is in it, as
    /// [`VbrSet::close`] returns it. If the set was opened for one member, that one is always the last.
    ///
    /// Only the last member needs memory: 9 bytes for each slot of a set and 17 of a map, for the report,
    /// and the words once more while it runs. A close has no budget, and makes no call on the set. Its
    /// steps are one for each slot that it gives back.
    ///
    /// # Errors
    ///
    /// Only the last member gets one.
    ///
    /// - Lost: a pass isn't there. The set is gone. A dropped member gives its pass back, so no program
    ///   is known to get this; no proof shows that all passes came.
    /// - Memory: there is no room for the report. The member comes back with an empty pool, as its slots
    ///   are in the shared one: it can make calls, and be closed again.
    ///
    /// # Example
    ///
    /// ```rattle file=crates/vbr_example/src/claiming.rt
    /// for worker in workers {
    ///     claimed = claimed.saturating_add(worker.claimed?);
    ///     report = worker.member.close(alloc)?;
    /// }
    /// ```
    ///
    /// [`VbrSet::close`]: crate::VbrSet::close
    pub fn close(self, alloc: Global) -> Result<Option<N::Report>, EndError<Member<N>>>
        ensures closes { ClosesMember (ClosesBy N.kind) self result }
        ensures alone { self.set.passes ≡ 1 → IsLast result }
    {
        let mut member = self;
        member.let_go();
        member.give_slots_back();
        match member.report_last(alloc)? {
            Some((report, last)) => {
                drop(last);
                Ok(Some(report))
            }
            None => Ok(None),
        }
    }

    /// Gives its pass back as [`Member::close`] does, and the last member gets the same report, but the
    /// set doesn't end: the member comes back with the report, as it was. So a caller that can't take
    /// the report, for want of room, say, loses nothing: the member can make calls, and be closed
    /// again. The set ends with that member, even if it is dropped.
    ///
    /// It gives no slots back. A member that isn't the last withholds its slots from the others, unless
    /// [`Member::give_slots_back`] is called first.
    ///
    /// It takes the memory of a close and has the same errors, but the member comes back as it was.
    pub fn report_last(
        self,
        alloc: Global,
    ) -> Result<Option<(N::Report, Member<N>)>, EndError<Member<N>>>
        ensures report { IfOk result
            (λ told. IfSome told (λ last. EndsBy (ClosesBy N.kind) self.set self.pass last.0)) }
        ensures same { IfOk result (λ told. IfSome told (λ last. last.1 ≡ self)) }
        ensures stays { IfErr result (IsBack self) }
        ensures alone { self.set.passes ≡ 1 → IsLast result }
    {
        let (stake, pass) = self.into_parts();
        let Stake {
            share,
            balance,
            aside,
        } = stake;
        let last = match share {
            Share::Among(common, seat) => match leave(common, seat, pass) {
                None => return Ok(None),
                Some((set, mailboxes, pass)) => end_alone(
                    alloc, set, mailboxes, pass, balance, aside,
                )?,
            },
            Share::Alone(set, mailboxes) => end_alone(alloc, set, mailboxes, pass, balance, aside)?,
            Share::Gathered(set, passes) => end_gathered(alloc, set, passes, pass, balance, aside)?,
        };
        Ok(Some(last))
    }
}

// Lays a pass into its mailbox and gives the share of its set up. The last one gets the set, the mailboxes
// of the other passes, and its pass again.
pub(crate) fn leave<N: Nodes>(
    common: Arc<Common<N>, Global>,
    mut seat: Seat<Option<Pass>, SeatKnows>,
    pass: Pass,
) -> Option<(VbrSet<N>, Vec<Mailbox<N>>, Pass)>
    requires ready { IsIdle (arc_value common).set pass }
    requires seat { IsSeatOf (arc_value common).mailboxes.items pass.trace.who
        seat.table_id seat.id seat.me }
    ensures set { IfSome result (λ r. r.0 ≡ (arc_value common).set) }
    ensures mailboxes { IfSome result (λ r. AreMailboxesOf (arc_value common).set r.1.items) }
    ensures pass { IfSome result (λ r. r.2 ≡ pass) }
{
    let who = pass.who() as usize;
    common.mailboxes[who].put(&mut seat, pass);
    let Common {
        before: _,
        set,
        mut mailboxes,
        after: _,
    } = Arc::into_inner(common)?;
    let own = mailboxes.remove(who).into_own(seat);
    Some((set, mailboxes, own))
}

// Reports what is in a set whose other passes lie in their mailboxes.
fn end_alone<N: Kind>(
    alloc: Global,
    set: VbrSet<N>,
    mailboxes: Vec<Mailbox<N>>,
    pass: Pass,
    balance: i64,
    aside: Option<Aside>,
) -> Result<(N::Report, Member<N>), EndError<Member<N>>>
    requires ready { IsIdle set pass }
    requires mailboxes { AreMailboxesOf set mailboxes.items }
    requires others { HasOthers set }
    requires kept { (balance ≡ balance_of (as_member set pass)) × HasAside pass aside }
    ensures ended { IfOk result (λ last. EndsBy (ClosesBy N.kind) set pass last.0) }
    ensures same { IfOk result (λ last.
        last.1 ≡ record { set = set; pass = pass; aside = aside }) }
    ensures stays { IfErr result (IsBack (record { set = set; pass = pass; aside = aside })) }
{
    let Ok(room) = Vec::with_capacity(alloc, mailboxes.len().saturating_add(1)) else {
        let stake = Stake {
            share: Share::Alone(set, mailboxes),
            balance,
            aside,
        };
        return Err(EndError::Memory(Member::of(stake, pass)));
    };
    match gather(&set, mailboxes, room) {
        Some(passes) => end_gathered(alloc, set, passes, pass, balance, aside),
        None => Err(EndError::Lost),
    }
}

// Takes the passes out of their mailboxes, in the order of the mailboxes, or none if one is missing.
fn gather<N: Nodes>(
    set: &VbrSet<N>,
    mailboxes: Vec<Mailbox<N>>,
    mut passes: Vec<Pass>,
) -> Option<Vec<Pass>>
    requires mailboxes { AreMailboxesOf set.now mailboxes.items }
    requires room { (passes.items ≡ []) × (length mailboxes.items ≤ vec_capacity passes) }
    ensures { IfSome result (λ passes. ArePassesOf set.now passes.items) }
{
    for mailbox in mailboxes {
        let pass = mailbox.into_pass()?;
        let Ok(()) = passes.push(pass) else {
            unreachable!()
        };
    }
    Some(passes)
}

// Reports what is in a set, with the other passes.
fn end_gathered<N: Kind>(
    alloc: Global,
    set: VbrSet<N>,
    mut passes: Vec<Pass>,
    pass: Pass,
    balance: i64,
    aside: Option<Aside>,
) -> Result<(N::Report, Member<N>), EndError<Member<N>>>
    requires ready { IsIdle set pass }
    requires passes { ArePassesOf set passes.items }
    requires others { AreOthers set passes.items }
    requires kept { (balance ≡ balance_of (as_member set pass)) × HasAside pass aside }
    ensures ended { IfOk result (λ last. EndsBy (ClosesBy N.kind) set pass last.0) }
    ensures same { IfOk result (λ last.
        last.1 ≡ record { set = set; pass = pass; aside = aside }) }
    ensures stays { IfErr result (IsBack (record { set = set; pass = pass; aside = aside })) }
    ensures alone { set.passes ≡ 1 → IfErr result EndLacksMemory }
{
    let who = pass.who() as usize;
    if who > passes.len() {
        return Err(EndError::Lost);
    }
    if let Err(AllocFailed { value }) = passes.insert(who, pass) {
        let stake = Stake {
            share: Share::Gathered(set, passes),
            balance,
            aside,
        };
        return Err(EndError::Memory(Member::of(stake, value)));
    }
    if passes.len() != set.count as usize || !are_numbered(&passes) {
        return Err(EndError::Lost);
    }
    let told = tell(&set, alloc, &mut passes);
    let pass = passes.remove(who);
    let stake = Stake {
        share: Share::Gathered(set, passes),
        balance,
        aside,
    };
    let last = Member::of(stake, pass);
    match told {
        Ok(report) => Ok((report, last)),
        Err(_) => Err(EndError::Memory(last)),
    }
}

// Reports what is in a set, with all its passes, which stay as they were.
#[tactic(auto, using(vbr_slots::proofs::Lemmas::whole))]
fn tell<N: Kind>(
    set: &VbrSet<N>,
    alloc: Global,
    passes: &mut Vec<Pass>,
) -> Result<N::Report, AllocError>
    requires of_set { AllOf set.now passes.old.items }
    requires all { set.now.passes ≤ length passes.old.items }
    ensures same { passes.new.items ≡ passes.old.items }
    ensures report { IfOk result (ClosesBy N.kind set.now passes.old.items) }
{
    set.report(alloc, passes)
}

// Whether each pass stands at its number.
fn are_numbered(passes: &[Pass]) -> bool
    ensures yes { result ≡ true → AreNumbered passes.now }
    ensures no { result ≡ false → ¬ (AreNumbered passes.now) }
{
    for number in 0..passes.len() {
        if passes[number].who() as usize != number {
            return false;
        }
    }
    true
}
