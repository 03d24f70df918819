//! What a search found is read, and a get is answered by it: for calls on a map that change what is
//! there only if it is as they want it.
ghost use Rattle.std.specs.Prelude.{◌≡◌, ◌+◌, ◌<◌, true, IfOk, IfErr};
ghost use Rattle.vbr_at_table.specs.answers.Answering.{KeepsIn};
ghost use Rattle.vbr_at_table.specs.reads.Reading.{ReadsIn};
ghost use Rattle.vbr_list.specs.calls.Budgets.{steps_where};
ghost use Rattle.vbr_list.specs.updates.Inserting.{AnswersNone};
ghost use Rattle.vbr_list.specs.calls.Pieces.{HasRoomForPiece, IsSameCall, pass_in, trace_in};
ghost use Rattle.vbr_list.specs.look_ups.Telling.{KnowsThere, LosesRead, ReadsFound, TellsThere};
ghost use Rattle.vbr_list.specs.traversals.Traversing.{LocatesFor};
ghost use Rattle.vbr_list.specs.calls.Words.{wide_found};

use crate::call::PendingCall;
use crate::found::Found;
use vbr_at_table::{Rollback, confirm_absent, confirm_present, value_of};
use vbr_machine::Op;
use vbr_words::Nodes;

impl<N: Nodes> PendingCall<'_, N> {
    /// The value of the node that was found, in two steps; none, without a step, if the key is absent.
    #[inline]
    pub(crate) fn read_found(&mut self, found: &Found) -> Result<Option<u64>, Rollback>
        requires values { (trace_in self.old).start.shape.values ≡ true }
        requires locates { LocatesFor self.old (wide_found self.old found.now) }
        requires room { HasRoomForPiece self.old }
        ensures call { IsSameCall self.old self.new }
        ensures used { self.new.used ≡ self.old.used + steps_where found.now.present }
        ensures reads { ReadsIn (pass_in self.old) (pass_in self.new)
            (steps_where found.now.present) }
        ensures found { IfOk result (ReadsFound self.old self.new (wide_found self.old found.now)) }
        ensures lost { IfErr result
            (λ _. LosesRead self.old self.new (wide_found self.old found.now)) }
    {
        self.at.law();
        if !found.present {
            return Ok(None);
        }
        let Some(cur) = &found.cur else {
            unreachable!()
        };
        let read = value_of(&mut self.at, cur);
        self.used += 2;
        match read {
            Ok(value) => Ok(Some(value)),
            Err(rollback) => Err(rollback),
        }
    }

    /// Answers a get with what was there, in one step, if the link that shows it is as it was read: the
    /// value read from the node, or no if the key is absent.
    #[inline]
    pub(crate) fn tell_found(&mut self, found: &Found, there: Option<u64>) -> Result<(), Rollback>
        requires knows { KnowsThere self.old (wide_found self.old found.now) there }
        requires left { self.old.used < self.old.budget }
        ensures call { IsSameCall self.old self.new }
        ensures keeps { KeepsIn (pass_in self.old) (pass_in self.new) 1 }
        ensures used { self.new.used ≡ self.old.used + 1 }
        ensures told { IfOk result (λ _. TellsThere self.old self.new there) }
        ensures lost { IfErr result
            (λ _. AnswersNone self.old self.new (wide_found self.old found.now)) }
    {
        self.at.law();
        self.used += 1;
        if there.is_none() {
            return confirm_absent(&mut self.at, Op::Get, self.key, &found.pred);
        }
        let Some(cur) = &found.cur else {
            unreachable!()
        };
        confirm_present(&mut self.at, Op::Get, cur)
    }
}
