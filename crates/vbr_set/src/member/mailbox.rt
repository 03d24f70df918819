//! A mailbox for one pass of a set to come back to.
ghost use Rattle.std.specs.Prelude.{◌≡◌, [], None, Some, IfOk, IfSome};
ghost use Rattle.vbr_set.specs.members.Mailboxes.{IsIdle};

use crate::set::VbrSet;
use atomic_table::{Play, Seat, Table, TableRule};
use std::alloc::{AllocError, Global};
use vbr_slots::Pass;
use vbr_words::Nodes;

/// What the one seat of a mailbox knows: None at first, then that the slot is out with it, and then
/// which pass lies in the slot. No value of it is made.
pub type SeatKnows = Option<Option<Pass>>;

/// The rule of a mailbox, whose word is 1 once a pass was laid into it.
pub struct HoldsOne;

impl<N: Nodes> TableRule<Option<Pass>, SeatKnows, VbrSet<N>> for HoldsOne {
    ghost use Rattle.std.specs.Prelude.{None};
    ghost use Rattle.vbr_set.specs.members.Mailboxes.{IsMailbox};

    ghost holds = { IsMailbox };

    ghost first = { λ _. None };
}

/// Taking the slot, which is empty.
pub struct TakesEmpty;

impl Play<Option<Pass>, SeatKnows> for TakesEmpty {
    ghost use Rattle.std.specs.Prelude.{◌≡◌, [], ◌∷◌, None, Some};

    ghost then = { λ _ _ _ after. after ≡ (Some None, (0, None) ∷ []) };
}

/// Giving the slot back, with a pass in it.
pub struct Lays;

impl Play<Option<Pass>, SeatKnows> for Lays {
    ghost use Rattle.std.specs.Prelude.{◌≡◌, [], ◌∷◌, Some};
    ghost use Rattle.vbr_slots.specs.views.Views.{PassView};

    ghost then = { λ _ before _ after. (pass : PassView) →
        before.1 ≡ (0, Some pass) ∷ [] → after ≡ (Some (Some pass), []) };
}

/// A mailbox for one pass of a set.
#[derive(Drop)]
pub struct Mailbox<N: Nodes> {
    pub(crate) table: Table<Option<Pass>, SeatKnows, VbrSet<N>, HoldsOne, Global>,
    ghost sized: { (table.shared.table_id.words ≡ 1) × (table.shared.table_id.slots ≡ 1) },
}

impl<N: Nodes> Mailbox<N> {
    /// An empty mailbox, and the right to lay a pass into it.
    pub(crate) fn new(
        alloc: Global,
        set: &VbrSet<N>,
    ) -> Result<(Mailbox<N>, Seat<Option<Pass>, SeatKnows>), AllocError>
        ensures set { IfOk result (λ r. r.0.table.shared.key ≡ set.now) }
        ensures seat { IfOk result (λ r. (r.1.table_id ≡ r.0.table.shared.table_id)
            × (r.1.id ≡ 0) × (r.1.me ≡ (None, []))) }
    {
        let (table, seat) = Table::vacant(alloc, &[0], 1, set)?;
        Ok((Mailbox { table }, seat))
    }

    /// Lays a pass into the mailbox.
    pub(crate) fn put(&self, seat: &mut Seat<Option<Pass>, SeatKnows>, pass: Pass)
        requires seat { (seat.old.table_id ≡ self.now.table.shared.table_id)
            × (seat.old.id ≡ 0) × (seat.old.me ≡ (None, [])) }
        requires ready { IsIdle self.now.table.shared.key pass }
        ensures same { (seat.new.table_id ≡ seat.old.table_id) × (seat.new.id ≡ 0) }
        ensures laid { seat.new.me ≡ (Some (Some pass), []) }
    {
        let shared = &self.table.shared;
        shared.store::<TakesEmpty>(seat, 0, 0);
        drop(shared.exchange(seat, 0, Some(pass)));
        shared.store::<Lays>(seat, 0, 1);
    }

    /// The pass that was laid with this seat.
    pub(crate) fn into_own(self, seat: Seat<Option<Pass>, SeatKnows>) -> Pass
        requires seat { (seat.table_id ≡ self.table.shared.table_id) × (seat.id ≡ 0) }
        requires laid { IfSome seat.me.0 (λ laid. ¬ (laid ≡ None)) × ¬ (seat.me.0 ≡ None) }
        ensures { Some (Some result) ≡ seat.me.0 }
    {
        let Mailbox { table } = self;
        let mut closed = table.close_with(seat);
        let laid = closed.take(0);
        closed.free();
        let Some(pass) = laid else { unreachable!() };
        pass
    }

    /// The pass that was laid into the mailbox, if any was.
    pub(crate) fn into_pass(self) -> Option<Pass>
        ensures { IfSome result (IsIdle self.table.shared.key) }
    {
        let Mailbox { table } = self;
        let mut closed = table.close();
        let word = closed.word(0);
        let laid = closed.take(0);
        closed.free();
        if word == 1 { laid } else { None }
    }
}
