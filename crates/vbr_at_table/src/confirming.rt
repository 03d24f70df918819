//! Answers by one more load of a link word.
ghost use Rattle.std.specs.Prelude.{◌≢◌, OnOk, IfErr};
ghost use Rattle.vbr_machine.specs.declared.history.Op.TheVariants.{Insert, Remove};
ghost use Rattle.vbr_slots.specs.steps.AtTables.{IsSameTable, trace_of, pass_of};
ghost use Rattle.vbr_slots.specs.views.Views.{knows};
ghost use Rattle.vbr_at_table.specs.answers.Answering.{AnswersAbsent, AnswersLookUp};
ghost use Rattle.vbr_at_table.specs.answers.Answering.{FindsAnother, IsAbsent, IsPresent};
ghost use Rattle.vbr_at_table.specs.answers.Answering.{KeepsByLoad};
ghost use Rattle.vbr_at_table.specs.answers.Exchanges.{IsUnmarked};
ghost use Rattle.vbr_at_table.specs.reads.Held.{said, said_rollback};
ghost use Rattle.vbr_at_table.specs.reads.DecidedKeys.{TellsKey};
ghost use Rattle.vbr_at_table.specs.answers.Records.{ShowsEntry};
ghost use Rattle.vbr_at_table.specs.answers.Values.{AnswersEntry, IsAsked, IsOtherIn};

use crate::held::Held;
use crate::rollback::Rollback;
use vbr_machine::Op;
use vbr_slots::AtTable;
use vbr_words::{At, Nodes};

/// Answers, in one step, that the key of a node is present: a look-up with yes, an insert with no, and
/// a get, if nodes have values and the one of this node was checked, with its value. It does so only
/// if the node's link is still the unmarked one that is held. Else it answers LostExchange: no call
/// was made, and what the pass knew it knows.
#[inline]
pub fn confirm_present<N: Nodes>(
    at: &mut AtTable<'_, N>,
    op: Op,
    held: &Held,
) -> Result<(), Rollback>
    requires node { IsPresent (knows (trace_of at.old)) (said at.old.slots.now held.now) }
    requires op { op ≢ Remove }
    requires asked { IsAsked (trace_of at.old) op held.now.at }
    ensures table { IsSameTable at.old at.new }
    ensures keeps { KeepsByLoad (pass_of at.old) (pass_of at.new) }
    ensures answers { OnOk result (AnswersEntry (trace_of at.old) (trace_of at.new) op
        (said at.old.slots.now held.now)) }
    ensures there { OnOk result (ShowsEntry (trace_of at.old) (trace_of at.new)
        (said at.old.slots.now held.now)) }
    ensures lost { IfErr result (λ why.
        FindsAnother (trace_of at.old) (trace_of at.new) (said at.old.slots.now held.now)
        (said_rollback at.old.slots.now why)) }
{
    at.law();
    let At::Slot(slot) = held.at else {
        unreachable!()
    };
    match at.confirm_present(op, slot, held.word) {
        Ok(()) => Ok(()),
        Err(found) => Err(Rollback::LostExchange { found }),
    }
}

/// Answers, in one step, that a key is absent: a look-up or a remove with no, and a get with no, if
/// nodes have values. The key would stand behind `pred` and before what its link names, or what marked
/// nodes lead to from there. It does so only if that link is still the unmarked one that is held:
/// then all nodes between are still marked. Else it answers LostExchange: no call was made, and what the
/// pass knew it knows.
#[inline]
pub fn confirm_absent<N: Nodes>(
    at: &mut AtTable<'_, N>,
    op: Op,
    key: u64,
    pred: &Held,
) -> Result<(), Rollback>
    requires gap { IsAbsent (trace_of at.old).start (knows (trace_of at.old)) key
        (said at.old.slots.now pred.now) }
    requires op { IsOtherIn (trace_of at.old).start Insert op }
    ensures table { IsSameTable at.old at.new }
    ensures keeps { KeepsByLoad (pass_of at.old) (pass_of at.new) }
    ensures answers { OnOk result (AnswersAbsent (trace_of at.old) (trace_of at.new) op key) }
    ensures lost { IfErr result (λ why.
        FindsAnother (trace_of at.old) (trace_of at.new) (said at.old.slots.now pred.now)
        (said_rollback at.old.slots.now why)) }
{
    at.law();
    match at.confirm_absent(op, key, pred.at, pred.word) {
        Ok(()) => Ok(()),
        Err(found) => Err(Rollback::LostExchange { found }),
    }
}

/// Answers a look-up, in one step, by what is held: the key is present there; or it is absent, and
/// would stand behind that place and before what its link names, or what marked nodes lead to from
/// there. It does so only if the link is still the unmarked one that is held; else it answers
/// LostExchange, and no call was made. Which of the two it is can't be foreseen, so it takes no
/// branch.
#[inline]
pub fn confirm_look_up<N: Nodes>(
    at: &mut AtTable<'_, N>,
    key: u64,
    held: &Held,
    present: bool,
) -> Result<(), Rollback>
    requires held { IsUnmarked (knows (trace_of at.old)) (said at.old.slots.now held.now) }
    requires decides { TellsKey (trace_of at.old) key (said at.old.slots.now held.now) present }
    ensures table { IsSameTable at.old at.new }
    ensures keeps { KeepsByLoad (pass_of at.old) (pass_of at.new) }
    ensures answers { OnOk result (AnswersLookUp (trace_of at.old) (trace_of at.new) key present) }
    ensures lost { IfErr result (λ why.
        FindsAnother (trace_of at.old) (trace_of at.new) (said at.old.slots.now held.now)
        (said_rollback at.old.slots.now why)) }
{
    at.law();
    match at.confirm_look_up(present, key, held.at, held.word) {
        Ok(()) => Ok(()),
        Err(found) => Err(Rollback::LostExchange { found }),
    }
}
