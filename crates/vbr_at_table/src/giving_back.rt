//! Giving back a slot in hand.
ghost use Rattle.std.specs.Prelude.{◌<◌, length};
ghost use Rattle.vbr_slots.specs.declared.pass.TheConstants.{POOL};
ghost use Rattle.vbr_slots.specs.steps.AtTables.{IsSameTable, pass_of};
ghost use Rattle.vbr_at_table.specs.pools.GivingBack.{PutsBack};
ghost use Rattle.vbr_at_table.specs.hands.Hands.{IsHandOf};

use crate::hand::Hand;
use vbr_slots::AtTable;
use vbr_words::Nodes;

/// Puts the slot in the hand of a pass at the end of its own pool, which has room for it. It is no
/// step; that the incarnation there is given up is recorded at the next birth in the slot.
#[inline]
pub fn give_back<N: Nodes>(at: &mut AtTable<'_, N>, hand: Hand)
    requires hand { IsHandOf (pass_of at.old) hand }
    requires room { length (pass_of at.old).pool < POOL }
    ensures table { IsSameTable at.old at.new }
    ensures back { PutsBack (pass_of at.old) (pass_of at.new) hand.slot }
{
    at.law();
    at.keep(hand.into_slot());
}
