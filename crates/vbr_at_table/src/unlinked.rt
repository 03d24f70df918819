//! A slot that its pass unlinked.
ghost use Rattle.std.specs.Prelude.{◌≡◌};
ghost use Rattle.vbr_machine.specs.Acceptance.{IsUnlinked};
ghost use Rattle.vbr_slots.specs.steps.AtTables.{trace_of};
ghost use Rattle.vbr_slots.specs.views.Views.{knows};

use std::marker::Model;
use vbr_slots::{AtTable, Pass};
use vbr_words::Nodes;

/// A slot that a pass unlinked and has not stamped since. It must be spent, by [`crate::retire`].
pub struct Unlinked {
    slot: u32,
}

impl Model for Unlinked {
    ghost use Rattle.vbr_at_table.specs.hands.Hands.{UnlinkedView};

    ghost Value = { UnlinkedView };

    ghost use Rattle.vbr_at_table.specs.hands.UnlinkedView.{unlinked_of};

    ghost view = { unlinked_of };
}

impl Unlinked {
    /// A slot that the pass unlinked and has not stamped since.
    #[inline]
    pub fn of(pass: &Pass, slot: u32) -> Unlinked
        requires { IsUnlinked ((knows pass.now.trace).own slot) }
        ensures { result ≡ record { slot = slot } }
    {
        let _pass = pass;
        Unlinked { slot }
    }

    /// As [`Unlinked::of`], of a pass at its table.
    #[inline]
    pub fn by<N: Nodes>(at: &AtTable<'_, N>, slot: u32) -> Unlinked
        requires { IsUnlinked ((knows (trace_of at.now)).own slot) }
        ensures { result ≡ record { slot = slot } }
    {
        let _at = at;
        Unlinked { slot }
    }

    /// Its slot.
    #[inline]
    pub fn slot(&self) -> u32
        ensures { result ≡ self.now.slot }
    {
        self.slot
    }

    // Its slot, for good.
    #[inline]
    pub(crate) fn into_slot(self) -> u32
        ensures { result ≡ self.slot }
    {
        let Unlinked { slot } = self;
        slot
    }
}
