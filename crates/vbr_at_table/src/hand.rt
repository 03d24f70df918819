//! A slot in the hand of a pass.
ghost use Rattle.std.specs.Prelude.{◌≡◌, ◌≢◌, ◌<◌, Some, length};
ghost use Rattle.vbr_slots.specs.declared.pass.TheConstants.{POOL};
ghost use Rattle.vbr_slots.specs.steps.AtTables.{pass_of};
ghost use Rattle.vbr_at_table.specs.pools.GivingBack.{PutsBack};
ghost use Rattle.vbr_at_table.specs.hands.Hands.{IsHandOf};

use std::marker::Model;
use vbr_slots::{AtTable, Pass};
use vbr_words::Nodes;

/// A slot in the hand of a pass, with the birth of the incarnation that the pass made there. It must
/// be spent: by a publication and [`Hand::spent`], or by [`crate::give_back`].
pub struct Hand {
    slot: u32,
    birth: u64,
}

impl Model for Hand {
    ghost use Rattle.vbr_at_table.specs.hands.Hands.{HandView};

    ghost Value = { HandView };

    ghost use Rattle.vbr_at_table.specs.hands.HandView.{hand_of};

    ghost view = { hand_of };
}

impl Hand {
    /// Its slot.
    #[inline]
    pub fn slot(&self) -> u32
        ensures { result ≡ self.now.slot }
    {
        self.slot
    }

    /// The epoch of its birth.
    #[inline]
    pub fn birth(&self) -> u64
        ensures { result ≡ self.now.birth }
    {
        self.birth
    }

    /// Ends a hand whose slot isn't in the hand of the pass any more, since it was published.
    #[inline]
    pub fn spent(self, pass: &Pass)
        requires { pass.now.hand ≢ Some self.slot }
    {
        let _pass = pass;
        let Hand { slot: _, birth: _ } = self;
    }

    /// As [`Hand::spent`], of a pass at its table.
    #[inline]
    pub fn spent_by<N: Nodes>(self, at: &AtTable<'_, N>)
        requires { (pass_of at.now).hand ≢ Some self.slot }
    {
        let _at = at;
        let Hand { slot: _, birth: _ } = self;
    }

    /// Puts its slot at the end of the own pool of the pass, which has room for it, as
    /// [`crate::give_back`] does of a pass at its table.
    #[inline]
    pub fn go_back(self, pass: &mut Pass)
        requires hand { IsHandOf pass.old self }
        requires room { length pass.old.pool < POOL }
        ensures { PutsBack pass.old pass.new self.slot }
    {
        pass.law();
        pass.keep(self.into_slot());
    }

    // The slot in the hand of a pass, which was born at this epoch.
    #[inline]
    pub(crate) fn of(slot: u32, birth: u64) -> Hand
        ensures { result ≡ record { slot = slot; birth = birth } }
    {
        Hand { slot, birth }
    }

    // Its slot, for good.
    #[inline]
    pub(crate) fn into_slot(self) -> u32
        ensures { result ≡ self.slot }
    {
        let Hand { slot, birth: _ } = self;
        slot
    }
}
