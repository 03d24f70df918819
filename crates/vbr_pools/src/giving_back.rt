//! Giving back a slot in hand.
ghost use Rattle.std.specs.Prelude.{◌<◌, length};
ghost use Rattle.vbr_slots.specs.declared.pass.TheConstants.{POOL};
ghost use Rattle.vbr_at_table.specs.pools.GivingBack.{PutsBack};
ghost use Rattle.vbr_at_table.specs.hands.Hands.{IsHandOf};

use vbr_at_table::Hand;
use vbr_slots::Pass;

/// As [`vbr_at_table::give_back`], by a pass; it is no step.
#[inline]
pub fn give_back(pass: &mut Pass, hand: Hand)
    requires hand { IsHandOf pass.old hand }
    requires room { length pass.old.pool < POOL }
    ensures { PutsBack pass.old pass.new hand.slot }
{
    hand.go_back(pass);
}
