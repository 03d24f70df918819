//! Answers by one more load of a link word.
ghost use Rattle.std.specs.Prelude.{◌≢◌, OnOk, IfErr};
ghost use Rattle.vbr_machine.specs.declared.history.Op.TheVariants.{Insert, Remove};
ghost use Rattle.vbr_slots.specs.views.Views.{IsOf, knows};
ghost use Rattle.vbr_at_table.specs.answers.Answering.{AnswersAbsent, AnswersLookUp, AnswersPresent};
ghost use Rattle.vbr_at_table.specs.answers.Answering.{FindsAnother, IsAbsent, IsOther, IsPresent};
ghost use Rattle.vbr_at_table.specs.answers.Answering.{KeepsByLoad};
ghost use Rattle.vbr_at_table.specs.answers.Exchanges.{IsUnmarked};
ghost use Rattle.vbr_at_table.specs.reads.Held.{said, said_rollback};
ghost use Rattle.vbr_at_table.specs.reads.DecidedKeys.{TellsKey};
ghost use Rattle.vbr_at_table.specs.answers.Values.{AnswersEntry, IsAsked, IsOtherIn};

use vbr_at_table::{Held, Rollback};
use vbr_machine::Op;
use vbr_slots::{AtTable, Pass, Slots};
use vbr_words::Nodes;

/// As [`confirm_present_entry`], of an operation of a set.
#[inline]
pub fn confirm_present(slots: &Slots, pass: &mut Pass, op: Op, held: &Held) -> Result<(), Rollback>
    requires own { IsOf pass.old.trace slots.now }
    requires node { IsPresent (knows pass.old.trace) (said slots.now held.now) }
    requires op { IsOther Remove op }
    ensures keeps { KeepsByLoad pass.old pass.new }
    ensures answers { OnOk result (AnswersPresent pass.old.trace pass.new.trace op
        (said slots.now held.now)) }
    ensures lost { IfErr result (λ why. FindsAnother pass.old.trace pass.new.trace
        (said slots.now held.now) (said_rollback slots.now why)) }
{
    confirm_present_entry(slots, pass, op, held)
}

/// As [`vbr_at_table::confirm_present`], by a pass, whose steps are counted.
#[inline]
pub fn confirm_present_entry<N: Nodes>(
    slots: &Slots<N>,
    pass: &mut Pass,
    op: Op,
    held: &Held,
) -> Result<(), Rollback>
    requires own { IsOf pass.old.trace slots.now }
    requires node { IsPresent (knows pass.old.trace) (said slots.now held.now) }
    requires op { op ≢ Remove }
    requires asked { IsAsked pass.old.trace op held.now.at }
    ensures keeps { KeepsByLoad pass.old pass.new }
    ensures answers { OnOk result (AnswersEntry pass.old.trace pass.new.trace op
        (said slots.now held.now)) }
    ensures lost { IfErr result (λ why. FindsAnother pass.old.trace pass.new.trace
        (said slots.now held.now) (said_rollback slots.now why)) }
{
    pass.during(
        |stepper|
            requires own { IsOf stepper.old.trace slots.now }
            requires node { IsPresent (knows stepper.old.trace) (said slots.now held.now) }
            requires op { op ≢ Remove }
            requires asked { IsAsked stepper.old.trace op held.now.at }
        {
            (
                vbr_at_table::confirm_present(&mut AtTable { slots, stepper }, op, held),
                1,
            )
        },
    )
}

/// As [`confirm_absent_entry`], of an operation of a set.
#[inline]
pub fn confirm_absent(
    slots: &Slots,
    pass: &mut Pass,
    op: Op,
    key: u64,
    pred: &Held,
) -> Result<(), Rollback>
    requires own { IsOf pass.old.trace slots.now }
    requires gap { IsAbsent pass.old.trace.start (knows pass.old.trace) key
        (said slots.now pred.now) }
    requires op { IsOther Insert op }
    ensures keeps { KeepsByLoad pass.old pass.new }
    ensures answers { OnOk result (AnswersAbsent pass.old.trace pass.new.trace op key) }
    ensures lost { IfErr result (λ why. FindsAnother pass.old.trace pass.new.trace
        (said slots.now pred.now) (said_rollback slots.now why)) }
{
    confirm_absent_entry(slots, pass, op, key, pred)
}

/// As [`vbr_at_table::confirm_absent`], by a pass, whose steps are counted.
#[inline]
pub fn confirm_absent_entry<N: Nodes>(
    slots: &Slots<N>,
    pass: &mut Pass,
    op: Op,
    key: u64,
    pred: &Held,
) -> Result<(), Rollback>
    requires own { IsOf pass.old.trace slots.now }
    requires gap { IsAbsent pass.old.trace.start (knows pass.old.trace) key
        (said slots.now pred.now) }
    requires op { IsOtherIn pass.old.trace.start Insert op }
    ensures keeps { KeepsByLoad pass.old pass.new }
    ensures answers { OnOk result (AnswersAbsent pass.old.trace pass.new.trace op key) }
    ensures lost { IfErr result (λ why. FindsAnother pass.old.trace pass.new.trace
        (said slots.now pred.now) (said_rollback slots.now why)) }
{
    pass.during(
        |stepper|
            requires own { IsOf stepper.old.trace slots.now }
            requires gap { IsAbsent stepper.old.trace.start (knows stepper.old.trace) key
                (said slots.now pred.now) }
            requires op { IsOtherIn stepper.old.trace.start Insert op }
        {
            (
                vbr_at_table::confirm_absent(&mut AtTable { slots, stepper }, op, key, pred),
                1,
            )
        },
    )
}

/// As [`vbr_at_table::confirm_look_up`], by a pass, whose steps are counted.
#[inline]
pub fn confirm_look_up<N: Nodes>(
    slots: &Slots<N>,
    pass: &mut Pass,
    key: u64,
    held: &Held,
    present: bool,
) -> Result<(), Rollback>
    requires own { IsOf pass.old.trace slots.now }
    requires held { IsUnmarked (knows pass.old.trace) (said slots.now held.now) }
    requires decides { TellsKey pass.old.trace key (said slots.now held.now) present }
    ensures keeps { KeepsByLoad pass.old pass.new }
    ensures answers { OnOk result (AnswersLookUp pass.old.trace pass.new.trace key present) }
    ensures lost { IfErr result (λ why. FindsAnother pass.old.trace pass.new.trace
        (said slots.now held.now) (said_rollback slots.now why)) }
{
    pass.during(
        |stepper|
            requires own { IsOf stepper.old.trace slots.now }
            requires held { IsUnmarked (knows stepper.old.trace) (said slots.now held.now) }
            requires decides { TellsKey stepper.old.trace key (said slots.now held.now) present }
        {
            (
                vbr_at_table::confirm_look_up(&mut AtTable { slots, stepper }, key, held, present),
                1,
            )
        },
    )
}
