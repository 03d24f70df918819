//! The answer no, to an insert whose key is there or to a remove whose key is absent; and the slot that
//! an insert or a store takes.
ghost use Rattle.std.specs.Prelude.{◌≡◌, ◌+◌, ◌≤◌, false, length, None, IfOk, IfErr};
ghost use Rattle.vbr_slots.specs.steps.Calls.{Quiet};
ghost use Rattle.vbr_at_table.specs.answers.Answering.{KeepsIn};
ghost use Rattle.vbr_at_table.specs.hands.KeptSlots.{TriesWhereEmpty};
ghost use Rattle.vbr_list.specs.updates.Inserting.{AnswersNone, Prepares, Provides, ProvidesNone, denied};
ghost use Rattle.vbr_list.specs.calls.Pieces.{HasRoomForPiece, IsSameCall, Replies, pass_in, trace_in};
ghost use Rattle.vbr_list.specs.traversals.Traversing.{LocatesFor};
ghost use Rattle.vbr_list.specs.calls.Words.{wide_found};

use crate::call::PendingCall;
use crate::found::Found;
use vbr_at_table::{Hand, Refusal, Rollback, confirm_absent, confirm_present, take};
use vbr_machine::Op;
use vbr_words::Nodes;

impl<N: Nodes> PendingCall<'_, N> {
    /// Answers no by what was found, in one step, if the link that shows it is as it was read: an
    /// insert if the key is present, else a remove.
    #[inline]
    pub(crate) fn answer_no(&mut self, found: &Found) -> Result<(), Rollback>
        requires locates { LocatesFor self.old (wide_found self.old found.now) }
        requires room { HasRoomForPiece self.old }
        ensures call { IsSameCall self.old self.new }
        ensures keeps { KeepsIn (pass_in self.old) (pass_in self.new) 1 }
        ensures used { self.new.used ≡ self.old.used + 1 }
        ensures made { IfOk result
            (λ _. Replies (denied found.now.present) self.old self.new false) }
        ensures rolls { IfErr result
            (λ _. AnswersNone self.old self.new (wide_found self.old found.now)) }
    {
        self.at.law();
        self.used += 1;
        if !found.present {
            return confirm_absent(&mut self.at, Op::Remove, self.key, &found.pred);
        }
        let Some(cur) = &found.cur else {
            unreachable!()
        };
        confirm_present(&mut self.at, Op::Insert, cur)
    }

    /// Takes a slot with what is left of the budget.
    #[inline(always)]
    pub(crate) fn provide(&mut self) -> Result<Hand, Refusal>
        requires empty_hand { (pass_in self.old).hand ≡ None }
        ensures prepares { Prepares self.old self.new }
        ensures quiet { Quiet (trace_in self.old) (trace_in self.new) }
        ensures one { length (pass_in self.old).pool ≤ length (pass_in self.new).pool + 1 }
        ensures tries { TriesWhereEmpty (pass_in self.old) (pass_in self.new) }
        ensures hand { IfOk result (Provides self.old self.new) }
        ensures refused { IfErr result (ProvidesNone self.old self.new) }
    {
        let before = self.used;
        let (outcome, made) = take(&mut self.at, self.budget - before);
        self.used += made;
        match outcome {
            Ok(hand) => Ok(hand),
            Err(refusal) => match refusal {
                Refusal::OutOfSteps { used: more } => Err(Refusal::OutOfSteps {
                    used: before + more,
                }),
                Refusal::NoSlot => Err(Refusal::NoSlot),
                Refusal::EpochSpent { epoch } => Err(Refusal::EpochSpent { epoch }),
            },
        }
    }
}
