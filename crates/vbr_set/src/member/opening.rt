//! Opening a set or a map for members.
ghost use Rattle.std.specs.Prelude.{◌≡◌, ◌<◌, ◌≤◌, ◌↔◌, ◌⊎◌, All, [], length, map, IfOk, IsErrOf, None};
ghost use Rattle.std.specs.List.Sorted.{IsStrictlyIncreasing};
ghost use Rattle.vbr_slots.specs.steps.Calls.{made_by};
ghost use Rattle.vbr_slots.specs.views.Views.{TableView, new_passes};
ghost use Rattle.vbr_slots.specs.declared.opening.TheConstants.{MAX_MANY_PASSES};
ghost use Rattle.vbr_set.specs.members.Balances.{balance_of};
ghost use Rattle.vbr_set.specs.calls.Members.{AreNew, as_member};
ghost use Rattle.vbr_set.specs.members.Seats.{AreSeats};
ghost use Rattle.vbr_set.specs.members.Sharing.{HasOthers, IsStake, member_with};

use crate::kind::Kind;
use crate::member::Member;
use crate::member::common::Common;
use crate::member::mailbox::{Mailbox, SeatKnows};
use crate::member::share::Share;
use crate::member::stake::Stake;
use crate::set::VbrSet;
use atomic_table::Seat;
use std::alloc::{AllocError, Global};
use std::sync::Arc;
use vbr_slots::{MAX_PASSES, OpenError, OpenManyError, Pass};
use vbr_words::{Nodes, Shape};

impl<N: Kind> Member<N> {
    /// Opens an empty set or map and returns its members, from 1 to 64 of them, in the order of their
    /// numbers, which begin with 0. They have seen nothing. Later only the close of the last member
    /// takes memory.
    ///
    /// Besides what [`VbrSet::open`] takes, each member takes about 1,200 bytes. No pass has made a step
    /// then.
    ///
    /// # Errors
    ///
    /// Tested in this order; nothing is kept then.
    ///
    /// - Passes: the number of passes is 0 or above 64.
    /// - Memory: there is no room for the words or the members.
    ///
    /// # Example
    ///
    /// ```rattle file=crates/vbr_example/src/claiming.rt
    /// let members = Member::open(alloc, Shape::new(64, 16, MAX_EPOCH)?, 4)?;
    /// ```
    pub fn open(alloc: Global, shape: Shape, passes: u32) -> Result<Vec<Member<N>>, OpenError>
        ensures members { IfOk result
            (λ members. AreNew (N.kind.start shape []) passes members.items) }
        ensures refused { IsErrOf result OpenError.Passes ↔ ((passes ≡ 0) ⊎ (64 < passes)) }
    {
        let _slots = shape.slots();
        Member::<N>::open_with(alloc, shape, passes, &[])
    }

    /// Opens a set with these keys, or a map with these entries, and returns its members, as
    /// [`Member::open`] does for an empty one. The keys ascend, each comes once, and there are no more
    /// of them than slots. The report of the last member's [`Member::close`] lists such keys or
    /// entries, so a set or a map can go on with them and a fresh epoch.
    ///
    /// Time and memory are as for [`VbrSet::open_with`], with about 1,200 bytes more for each member.
    ///
    /// # Errors
    ///
    /// Tested in this order; nothing is kept then.
    ///
    /// - Passes: the number of passes is 0 or above 64.
    /// - Memory: there is no room for the words, the copies or the members.
    ///
    /// # Example
    ///
    /// ```rattle file=crates/vbr_set_tests/src/renewals.rt
    /// let members = Member::open_with(alloc, shape, 2, &report.keys)?;
    /// ```
    pub fn open_with(
        alloc: Global,
        shape: Shape,
        passes: u32,
        items: &[N::Item],
    ) -> Result<Vec<Member<N>>, OpenError>
        requires ascending { IsStrictlyIncreasing (N.kind.keys items.now) }
        requires few { length items.now ≤ shape.slots }
        ensures members { IfOk result (λ members.
            AreNew (N.kind.start shape items.now) passes members.items) }
        ensures refused { IsErrOf result OpenError.Passes ↔ ((passes ≡ 0) ⊎ (64 < passes)) }
    {
        if passes == 0 || passes > MAX_PASSES {
            return Err(OpenError::Passes);
        }
        match Member::<N>::open_many(alloc, shape, passes, items) {
            Ok(members) => Ok(members),
            Err(OpenManyError::Memory) => Err(OpenError::Memory),
            Err(OpenManyError::Passes) => unreachable!(),
        }
    }

    /// Opens a set with these keys, or a map with these entries, as [`Member::open_with`] does, for
    /// more members: from 1 to [`MAX_MANY_PASSES`]. Time and memory are the same.
    ///
    /// # Errors
    ///
    /// Tested in this order; nothing is kept then.
    ///
    /// - Passes: the number of passes is 0 or above [`MAX_MANY_PASSES`].
    /// - Memory: there is no room for the words, the copies or the members.
    ///
    /// # Example
    ///
    /// ```rattle file=crates/vbr_set/src/member/renewing_all.rt
    /// match Member::<N>::open_many(alloc, shape, passes, items) {
    /// ```
    ///
    /// [`MAX_MANY_PASSES`]: crate::MAX_MANY_PASSES
    #[tactic(auto, using(crate::proofs::members::Seats::as_many, crate::proofs::members::Seats::count_of_all))]
    pub fn open_many(
        alloc: Global,
        shape: Shape,
        passes: u32,
        items: &[N::Item],
    ) -> Result<Vec<Member<N>>, OpenManyError>
        requires ascending { IsStrictlyIncreasing (N.kind.keys items.now) }
        requires few { length items.now ≤ shape.slots }
        ensures members { IfOk result (λ members.
            AreNew (N.kind.start shape items.now) passes members.items) }
        ensures refused { IsErrOf result OpenManyError.Passes
            ↔ ((passes ≡ 0) ⊎ (MAX_MANY_PASSES < passes)) }
    {
        let (set, opened) = VbrSet::<N>::open_many(alloc, shape, passes, items)?;
        match hand_out(alloc, set, opened, items.len() as u32) {
            Ok(members) => Ok(members),
            Err(_) => Err(OpenManyError::Memory),
        }
    }
}

impl<N: Nodes> Member<N> {
    // A member with what it has beside its pass.
    pub(crate) fn of(stake: Stake<N>, pass: Pass) -> Member<N>
        requires { IsStake stake pass }
        ensures { result ≡ member_with stake pass }
    {
        let Stake {
            share,
            balance,
            aside,
        } = stake;
        Member {
            before: [0; 16],
            share,
            pass,
            balance,
            aside,
            after: [0; 16],
        }
    }
}

// A mailbox for each of so many passes, and a seat of each of them.
fn make_mailboxes<N: Nodes>(
    alloc: Global,
    set: &VbrSet<N>,
    count: usize,
) -> Result<(Vec<Mailbox<N>>, Vec<Seat<Option<Pass>, SeatKnows>>), AllocError>
    ensures mailboxes { IfOk result
        (λ r. All (λ mailbox. mailbox.table.shared.key ≡ set.now) r.0.items) }
    ensures seats { IfOk result (λ r. AreSeats r.0.items 0 r.1.items) }
    ensures count { IfOk result (λ r. length r.1.items ≡ count) }
{
    let mut mailboxes = Vec::with_capacity(alloc, count)?;
    let mut seats = Vec::with_capacity(alloc, count)?;
    for _ in 0..count {
        let (mailbox, seat) = Mailbox::new(alloc, set)?;
        mailboxes.push(mailbox)?;
        seats.push(seat)?;
    }
    Ok((mailboxes, seats))
}

// The balance that a pass begins with: the number of keys that its set opened with for the first pass,
// else 0.
fn first_balance(pass: &Pass, opened: u32) -> i64
    requires { made_by pass.now.trace ≡ [] }
    ensures { (set : TableView) → opened ≡ length set.start.keys →
        result ≡ balance_of (as_member set pass.now) }
{
    if pass.who() == 0 {
        i64::from(opened)
    } else {
        0
    }
}

// Makes a member with each of the passes of a set, which opened with so many keys. If there is only
// one, it has the set.
pub(crate) fn hand_out<N: Nodes>(
    alloc: Global,
    set: VbrSet<N>,
    mut passes: Vec<Pass>,
    opened: u32,
) -> Result<Vec<Member<N>>, AllocError>
    requires new { passes.items ≡ new_passes set 0 (length passes.items) }
    requires all { set.passes ≡ length passes.items }
    requires opened { opened ≡ length set.start.keys }
    ensures { IfOk result (λ members.
        members.items
        ≡ map (λ pass. record { set = set; pass = pass; aside = None }) passes.items) }
{
    if passes.len() > 1 {
        return share_out(alloc, set, passes, opened);
    }
    let mut members = Vec::with_capacity(alloc, 1)?;
    if let Some(pass) = passes.pop() {
        let stake = Stake {
            share: Share::Gathered(set, passes),
            balance: first_balance(&pass, opened),
            aside: None,
        };
        members.push(Member::of(stake, pass))?;
    }
    Ok(members)
}

// Makes a member, with a share of the set, with each of its passes.
#[tactic(auto, using(crate::proofs::members::Seats::all_seated))]
fn share_out<N: Nodes>(
    alloc: Global,
    set: VbrSet<N>,
    passes: Vec<Pass>,
    opened: u32,
) -> Result<Vec<Member<N>>, AllocError>
    requires new { passes.items ≡ new_passes set 0 (length passes.items) }
    requires others { HasOthers set }
    requires opened { opened ≡ length set.start.keys }
    ensures { IfOk result (λ members.
        members.items
        ≡ map (λ pass. record { set = set; pass = pass; aside = None }) passes.items) }
{
    let (mailboxes, seats) = make_mailboxes(alloc, &set, passes.len())?;
    let mut members = Vec::with_capacity(alloc, passes.len())?;
    let common = Arc::new(
        alloc,
        Common {
            before: [0; 16],
            set,
            mailboxes,
            after: [0; 16],
        },
    )?;
    let mut seats = seats.into_iter();
    for pass in passes {
        let Some(seat) = seats.next() else {
            unreachable!()
        };
        let stake = Stake {
            share: Share::Among(Arc::try_clone(&common)?, seat),
            balance: first_balance(&pass, opened),
            aside: None,
        };
        members.push(Member::of(stake, pass))?;
    }
    Ok(members)
}
