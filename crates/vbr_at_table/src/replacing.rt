//! Replacing a node: its key gets another value.
ghost use Rattle.std.specs.Prelude.{IfOk, IfErr};
ghost use Rattle.vbr_slots.specs.steps.AtTables.{IsSameTable, trace_of, pass_of};
ghost use Rattle.vbr_at_table.specs.answers.Exchanges.{StoresIn, GivesBack};
ghost use Rattle.vbr_at_table.specs.hands.Hands.{IsHandOf};
ghost use Rattle.vbr_at_table.specs.reads.Held.{said, said_marked, said_rollback};
ghost use Rattle.vbr_at_table.specs.answers.Records.{PublishesSlot};
ghost use Rattle.vbr_at_table.specs.answers.Replacing.{IsReplaceable, ReplacesHeld};
ghost use Rattle.vbr_at_table.specs.answers.Values.{steps_to_update};

use crate::hand::Hand;
use crate::held::{Held, Marked};
use crate::links::marked_link_to;
use crate::rollback::Rollback;
use crate::updating::fill;
use vbr_slots::AtTable;
use vbr_words::{At, Nodes};

/// Replaces the node that is held by the slot in hand, with this value, in four steps: in the
/// history the pass has removed the key with the value that was there, and inserted it with this
/// one, next to each other. `key` is the key of the node, its value was checked, and `next_birth`
/// is the birth of what its link names. It does so only if the link of the node is still the
/// unmarked one that is held. Then the node is marked, and its link names the slot that was in
/// hand. Else the hand comes back with LostExchange: no call was made.
#[inline]
pub fn replace<N: Nodes>(
    at: &mut AtTable<'_, N>,
    held: &Held,
    next_birth: u64,
    key: u64,
    value: u64,
    hand: Hand,
) -> Result<Marked, (Hand, Rollback)>
    requires node { IsReplaceable (trace_of at.old) (said at.old.slots.now held.now)
        key next_birth }
    requires hand { IsHandOf (pass_of at.old) hand }
    ensures table { IsSameTable at.old at.new }
    ensures stores { StoresIn (pass_of at.old) (pass_of at.new)
        (steps_to_update (trace_of at.old).start) }
    ensures replaced { IfOk result
        (λ marked. ReplacesHeld (pass_of at.old) (pass_of at.new) (said at.old.slots.now held.now)
        key value (said_marked at.old.slots.now marked)) }
    ensures published { IfOk result
        (λ _. PublishesSlot (trace_of at.old) (trace_of at.new) hand.slot hand.birth key) }
    ensures lost { IfErr result (λ back.
        GivesBack (pass_of at.old) (pass_of at.new) (said at.old.slots.now held.now) hand
        (back.0, said_rollback at.old.slots.now back.1)) }
{
    let At::Slot(slot) = held.at else {
        unreachable!()
    };
    let layout = at.slots.layout();
    fill(at, &hand, key, value, held, next_birth);
    at.law();
    let new = hand.slot();
    let word = marked_link_to(new, held.birth, hand.birth(), layout);
    match at.replace(slot, held.word, new, word) {
        Ok(()) => {
            hand.spent_by(at);
            Ok(Marked {
                slot,
                birth: held.birth,
                word,
                epoch: held.epoch,
            })
        }
        Err(found) => Err((hand, Rollback::LostExchange { found })),
    }
}
