//! Linking a new node: an insert.
ghost use Rattle.std.specs.Prelude.{◌≡◌, ◌+◌, Some, IfOk, IfErr};
ghost use Rattle.vbr_words.specs.Words.{link_of};
ghost use Rattle.vbr_machine.specs.Membership.{BirthNamed};
ghost use Rattle.vbr_slots.specs.steps.AtTables.{IsSameTable, trace_of, pass_of};
ghost use Rattle.vbr_slots.specs.views.Views.{knows};
ghost use Rattle.vbr_at_table.specs.hands.Hands.{IsHandOf};
ghost use Rattle.vbr_at_table.specs.answers.Exchanges.{StoresIn, IsGap, GivesBack};
ghost use Rattle.vbr_at_table.specs.reads.Held.{IsHeld, IsSucc, said, said_rollback, said_succ};
ghost use Rattle.vbr_at_table.specs.answers.Records.{PublishesSlot};
ghost use Rattle.vbr_at_table.specs.answers.Values.{FillsEntry, LinksEntry, PutsValue};
ghost use Rattle.vbr_at_table.specs.answers.Values.{steps_to_update, steps_to_value};

use crate::hand::Hand;
use crate::held::Held;
use crate::links::{link_to, link_to_same};
use crate::rollback::Rollback;
use vbr_slots::AtTable;
use vbr_words::Nodes;

// The birth of the node that the link of `pred` names; 0 of none.
#[inline]
fn birth_named<N: Nodes>(at: &AtTable<'_, N>, pred: &Held, succ: Option<&Held>) -> u64
    requires { IsSucc (knows (trace_of at.now)) (said at.now.slots.now pred.now)
        (said_succ at.now.slots.now succ) }
    ensures { BirthNamed (knows (trace_of at.now))
        (link_of (said at.now.slots.now pred.now).word).slot result }
{
    let _at = at;
    match succ {
        Some(node) => node.birth,
        None => 0,
    }
}

// Stores the value of the slot in hand, in one step, if nodes have values.
#[inline(always)]
fn put_value<N: Nodes>(at: &mut AtTable<'_, N>, slot: u32, value: u64)
    requires in_hand { (pass_of at.old).hand ≡ Some slot }
    ensures table { IsSameTable at.old at.new }
    ensures stores { StoresIn (pass_of at.old) (pass_of at.new)
        (steps_to_value (trace_of at.old).start.shape.values) }
    ensures puts { PutsValue (pass_of at.old) (pass_of at.new) slot value }
{
    at.law();
    at.slots.kind();
    if N::VALUES {
        at.store_value(slot, value);
    }
}

// Stores the key of the slot in hand, its value if nodes have values, and the link to what the
// link of `pred` names.
#[inline(always)]
pub(crate) fn fill<N: Nodes>(
    at: &mut AtTable<'_, N>,
    hand: &Hand,
    key: u64,
    value: u64,
    pred: &Held,
    birth: u64,
)
    requires hand { IsHandOf (pass_of at.old) hand.now }
    requires pred { IsHeld (knows (trace_of at.old)) (said at.old.slots.now pred.now) }
    requires birth { BirthNamed (knows (trace_of at.old))
        (link_of (said at.old.slots.now pred.now).word).slot birth }
    ensures table { IsSameTable at.old at.new }
    ensures stores { StoresIn (pass_of at.old) (pass_of at.new)
        (1 + steps_to_value (trace_of at.old).start.shape.values + 1) }
    ensures fills { FillsEntry (pass_of at.old) (pass_of at.new) (said at.old.slots.now pred.now)
        hand.now key value birth }
{
    let layout = at.slots.layout();
    let slot = hand.slot();
    at.law();
    at.store_key(slot, key);
    put_value(at, slot, value);
    at.law();
    let link = link_to_same(pred.word, hand.birth(), birth, layout);
    at.store_link(slot, link);
}

/// Links the slot in hand with this key between `pred` and `succ`: the pass has inserted the key. It
/// takes three steps, and a fourth if nodes have values, for this value. `succ` is the node that the
/// link of `pred` names, if it names one. It does so only if the link of `pred` is still the unmarked
/// one that is held. Else the hand comes back with LostExchange: no call was made, and what the pass
/// knew it knows.
#[inline]
pub fn update<N: Nodes>(
    at: &mut AtTable<'_, N>,
    pred: &Held,
    succ: Option<&Held>,
    key: u64,
    value: u64,
    hand: Hand,
) -> Result<(), (Hand, Rollback)>
    requires gap { IsGap (trace_of at.old) key (said at.old.slots.now pred.now) }
    requires succ { IsSucc (knows (trace_of at.old)) (said at.old.slots.now pred.now)
        (said_succ at.old.slots.now succ) }
    requires hand { IsHandOf (pass_of at.old) hand }
    ensures table { IsSameTable at.old at.new }
    ensures stores { StoresIn (pass_of at.old) (pass_of at.new)
        (steps_to_update (trace_of at.old).start) }
    ensures inserted { IfOk result
        (λ _. LinksEntry (pass_of at.old) (pass_of at.new) key value) }
    ensures published { IfOk result
        (λ _. PublishesSlot (trace_of at.old) (trace_of at.new) hand.slot hand.birth key) }
    ensures lost { IfErr result (λ back.
        GivesBack (pass_of at.old) (pass_of at.new) (said at.old.slots.now pred.now) hand
        (back.0, said_rollback at.old.slots.now back.1)) }
{
    let layout = at.slots.layout();
    let birth = birth_named(at, pred, succ);
    fill(at, &hand, key, value, pred, birth);
    at.law();
    let slot = hand.slot();
    let new = link_to(Some(slot), pred.birth, hand.birth(), layout);
    match at.publish(pred.at, pred.word, slot, new) {
        Ok(()) => {
            hand.spent_by(at);
            Ok(())
        }
        Err(found) => Err((hand, Rollback::LostExchange { found })),
    }
}
