//! Replacing a node: its key gets another value, and the old node leaves its list.
ghost use Rattle.std.specs.Prelude.{◌+◌, ◌≡◌, ◌≤◌, IfOk, IfErr};
ghost use Rattle.vbr_words.specs.Packing.{unpacked};
ghost use Rattle.vbr_at_table.specs.costs.StepCosts.{steps_to_birth};
ghost use Rattle.vbr_list.specs.updates.Inserting.{GivesHandBack, HasHandAndRoom};
ghost use Rattle.vbr_list.specs.calls.Pieces.{GoesOn, pass_in};
ghost use Rattle.vbr_list.specs.updates.Replacing.{HasUnused, KnowsFoundValue, MayStoreNode, PublishesOrKeeps, ReplacesByHand, ReplacesFound, UnlinksReplaced};
ghost use Rattle.vbr_list.specs.updates.Removing.{IsMarkedFor, LeavesWithRoom};
ghost use Rattle.vbr_list.specs.updates.Settling.{LeavesInHand, MaySettle};
ghost use Rattle.vbr_list.specs.calls.Words.{wide_found, wide_held, wide_marked};

use crate::call::PendingCall;
use crate::found::Found;
use vbr_at_table::budget::affords;
use vbr_at_table::{Hand, Held, Marked, birth_after, replace};
use vbr_words::{Layout, Nodes, decode};

// The number of steps to read the birth of what a link names, by the link's word.
#[inline(always)]
fn steps_to_birth(word: u64, layout: Layout) -> u32
    ensures is { result ≡ steps_to_birth (unpacked layout word) }
    ensures few { result ≤ 2 }
{
    if decode(word, layout).slot.is_some() {
        2
    } else {
        0
    }
}

impl<N: Nodes> PendingCall<'_, N> {
    // Replaces the node that was found, whose value was read, by the slot in hand, which gets this
    // value, in at most six steps; the node is then marked. Otherwise the hand comes back.
    #[inline(always)]
    pub(crate) fn replace_found(
        &mut self,
        found: &Found,
        value: u64,
        hand: Hand,
    ) -> Result<Marked, Hand>
        requires read { KnowsFoundValue self.old (wide_found self.old found.now) }
        requires hand { HasHandAndRoom (pass_in self.old) hand }
        requires room { self.old.used + 6 ≤ self.old.budget }
        ensures tries { MayStoreNode self.old self.new }
        ensures had { HasUnused (pass_in self.old) (pass_in self.new) result }
        ensures replaced { IfOk result (λ marked.
            ReplacesFound value self.old self.new (wide_found self.old found.now)
            (wide_marked self.old marked)) }
        ensures by { PublishesOrKeeps self.old self.new hand result }
        ensures back { IfErr result
            (GivesHandBack self.old self.new (wide_found self.old found.now)) }
    {
        self.at.law();
        let Some(cur) = &found.cur else {
            unreachable!()
        };
        let layout = self.at.slots.layout();
        let named = birth_after(&mut self.at, cur);
        self.used += steps_to_birth(cur.word, layout);
        let Ok(birth) = named else {
            return Err(hand);
        };
        self.used += 4;
        match replace(&mut self.at, cur, birth, self.key, value, hand) {
            Ok(marked) => Ok(marked),
            Err((back, _)) => Err(back),
        }
    }

    // Takes the node that was replaced out of its list, if the budget has room.
    #[inline(always)]
    pub(crate) fn unlink_replaced(&mut self, pred: &Held, marked: Marked)
        requires marked { IsMarkedFor self.old (wide_held self.old pred.now)
            (wide_marked self.old marked) }
        ensures goes { GoesOn self.old self.new }
        ensures leaves { LeavesWithRoom self.old self.new marked.slot }
        ensures paid { UnlinksReplaced self.old self.new (wide_held self.old pred.now) marked.slot }
    {
        if affords(self.budget, self.used) {
            self.unlink_marked(pred, marked);
        }
    }

    /// Replaces the node that was found, whose value was read, by the slot in hand, which gets this
    /// value, and takes the old node out of its list, as far as the budget has room. Otherwise the hand
    /// comes back.
    #[inline(always)]
    pub(crate) fn replace_and_unlink(
        &mut self,
        found: &Found,
        value: u64,
        hand: Hand,
    ) -> Result<(), Hand>
        requires read { KnowsFoundValue self.old (wide_found self.old found.now) }
        requires hand { HasHandAndRoom (pass_in self.old) hand }
        requires room { self.old.used + 6 ≤ self.old.budget }
        ensures settles { MaySettle self.old self.new }
        ensures replaced { IfOk result
            (λ _. ReplacesByHand value self.old self.new hand (wide_found self.old found.now)) }
        ensures back { IfErr result
            (LeavesInHand 6 self.old self.new (wide_found self.old found.now) hand) }
    {
        self.at.law();
        let marked = match self.replace_found(found, value, hand) {
            Ok(marked) => marked,
            Err(back) => return Err(back),
        };
        self.unlink_replaced(&found.pred, marked);
        Ok(())
    }
}
