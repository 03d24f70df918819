//! A slot that a pass has put aside.
ghost use Rattle.std.specs.Prelude.{◌≡◌, None};
ghost use Rattle.vbr_at_table.specs.hands.Aside.{EmptiesHand, IsPutAside, KeepsAllButHand};
ghost use Rattle.vbr_at_table.specs.hands.Hands.{IsHandOf};

use crate::hand::Hand;
use vbr_slots::Pass;

/// A slot that its pass has in hand, and has put aside: the hand of the pass is empty, so it can make any
/// call, and the slot stays as it is, with its incarnation, until it is taken up again.
#[derive(Clone, Copy, Debug, PartialEq, Eq)]
pub struct Aside {
    /// The slot.
    pub slot: u32,
    /// The epoch of the birth of the incarnation there.
    pub birth: u64,
}

impl Aside {
    /// Puts the slot of a hand aside. It is no step.
    #[inline]
    pub fn of(hand: Hand, pass: &mut Pass) -> Aside
        requires hand { IsHandOf pass.old hand }
        ensures empties { EmptiesHand pass.old pass.new }
        ensures aside { IsPutAside pass.new result }
        ensures slot { result.slot ≡ hand.slot }
        ensures birth { result.birth ≡ hand.birth }
    {
        pass.law();
        let aside = Aside {
            slot: hand.slot(),
            birth: hand.birth(),
        };
        pass.set_aside();
        hand.spent(pass);
        aside
    }

    /// Takes the slot in hand again. It is no step.
    #[inline]
    pub fn take_up(self, pass: &mut Pass) -> Hand
        requires aside { IsPutAside pass.old self }
        requires empty_hand { pass.old.hand ≡ None }
        ensures keeps { KeepsAllButHand pass.old pass.new }
        ensures hand { IsHandOf pass.new result }
        ensures slot { result.slot ≡ self.slot }
        ensures birth { result.birth ≡ self.birth }
    {
        pass.take_up(self.slot);
        Hand::of(self.slot, self.birth)
    }
}
