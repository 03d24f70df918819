//! Linking a new node: an insert.
ghost use Rattle.std.specs.Prelude.{◌≡◌, IfOk, IfErr};
ghost use Rattle.vbr_slots.specs.steps.Calls.{Took};
ghost use Rattle.vbr_slots.specs.steps.AtTables.{IsSameTable, pass_of, trace_of};
ghost use Rattle.vbr_slots.specs.views.Views.{IsOf, knows};
ghost use Rattle.vbr_at_table.specs.hands.Hands.{IsHandOf};
ghost use Rattle.vbr_at_table.specs.answers.Exchanges.{StoresIn, IsGap, GivesBack, InsertsKey};
ghost use Rattle.vbr_at_table.specs.reads.Held.{IsSucc, said, said_rollback, said_succ};
ghost use Rattle.vbr_at_table.specs.answers.Values.{LinksEntry, steps_to_update};

use vbr_at_table::{Hand, Held, Rollback};
use vbr_slots::{AtTable, Pass, Slots, Stepper};
use vbr_words::Nodes;

/// As [`update_entry`], at a table whose nodes have no values: the pass has inserted the key, in three steps.
#[inline]
pub fn update(
    slots: &Slots,
    pass: &mut Pass,
    pred: &Held,
    succ: Option<&Held>,
    key: u64,
    hand: Hand,
) -> Result<(), (Hand, Rollback)>
    requires own { IsOf pass.old.trace slots.now }
    requires gap { IsGap pass.old.trace key (said slots.now pred.now) }
    requires succ { IsSucc (knows pass.old.trace) (said slots.now pred.now)
        (said_succ slots.now succ) }
    requires hand { IsHandOf pass.old hand }
    ensures stores { StoresIn pass.old pass.new 3 }
    ensures inserted { IfOk result (λ _. InsertsKey pass.old pass.new key) }
    ensures lost { IfErr result (λ back. GivesBack pass.old pass.new (said slots.now pred.now) hand
        (back.0, said_rollback slots.now back.1)) }
{
    slots.kind();
    update_entry(slots, pass, pred, succ, key, 0, hand)
}

/// As [`vbr_at_table::update`], by a pass, whose steps are counted: three, and a fourth if nodes have
/// values, for this value.
#[inline]
pub fn update_entry<N: Nodes>(
    slots: &Slots<N>,
    pass: &mut Pass,
    pred: &Held,
    succ: Option<&Held>,
    key: u64,
    value: u64,
    hand: Hand,
) -> Result<(), (Hand, Rollback)>
    requires own { IsOf pass.old.trace slots.now }
    requires gap { IsGap pass.old.trace key (said slots.now pred.now) }
    requires succ { IsSucc (knows pass.old.trace) (said slots.now pred.now)
        (said_succ slots.now succ) }
    requires hand { IsHandOf pass.old hand }
    ensures stores { StoresIn pass.old pass.new (steps_to_update pass.old.trace.start) }
    ensures inserted { IfOk result (λ _. LinksEntry pass.old pass.new key value) }
    ensures lost { IfErr result (λ back. GivesBack pass.old pass.new (said slots.now pred.now) hand
        (back.0, said_rollback slots.now back.1)) }
{
    pass.during_with(
        (hand, succ),
        |stepper, (hand, succ)|
            requires own { IsOf stepper.old.trace slots.now }
            requires gap { IsGap stepper.old.trace key (said slots.now pred.now) }
            requires succ { IsSucc (knows stepper.old.trace) (said slots.now pred.now)
                (said_succ slots.now succ) }
            requires hand { IsHandOf stepper.old hand }
            ensures took { Took stepper.old.trace stepper.new.trace result.1 }
            ensures stores { StoresIn stepper.old stepper.new
                (steps_to_update stepper.old.trace.start) }
            ensures inserted { IfOk result.0 (λ _. LinksEntry stepper.old stepper.new key value) }
            ensures lost { IfErr result.0 (λ back. GivesBack stepper.old stepper.new
                (said slots.entry.now pred.entry.now) hand
                (back.0, said_rollback slots.entry.now back.1)) }
        { update_by(slots, stepper, pred, succ, key, value, hand) },
    )
}

// As `update_entry`, by what makes the steps, which is lent, and with how many it made.
#[inline]
fn update_by<N: Nodes>(
    slots: &Slots<N>,
    stepper: &mut Stepper,
    pred: &Held,
    succ: Option<&Held>,
    key: u64,
    value: u64,
    hand: Hand,
) -> (Result<(), (Hand, Rollback)>, u32)
    requires own { IsOf stepper.old.trace slots.now }
    requires gap { IsGap stepper.old.trace key (said slots.now pred.now) }
    requires succ { IsSucc (knows stepper.old.trace) (said slots.now pred.now)
        (said_succ slots.now succ) }
    requires hand { IsHandOf stepper.old hand }
    ensures took { Took stepper.old.trace stepper.new.trace result.1 }
    ensures stores { StoresIn stepper.old stepper.new (steps_to_update stepper.old.trace.start) }
    ensures inserted { IfOk result.0 (λ _. LinksEntry stepper.old stepper.new key value) }
    ensures lost { IfErr result.0 (λ back. GivesBack stepper.old stepper.new
        (said slots.now pred.now) hand (back.0, said_rollback slots.now back.1)) }
{
    update_counted(
        &mut AtTable { slots, stepper },
        pred,
        succ,
        key,
        value,
        hand,
    )
}

// As `update_entry`, at its table, and with how many steps it took.
#[inline]
fn update_counted<N: Nodes>(
    at: &mut AtTable<'_, N>,
    pred: &Held,
    succ: Option<&Held>,
    key: u64,
    value: u64,
    hand: Hand,
) -> (Result<(), (Hand, Rollback)>, u32)
    requires gap { IsGap (trace_of at.old) key (said at.old.slots.now pred.now) }
    requires succ { IsSucc (knows (trace_of at.old)) (said at.old.slots.now pred.now)
        (said_succ at.old.slots.now succ) }
    requires hand { IsHandOf (pass_of at.old) hand }
    ensures table { IsSameTable at.old at.new }
    ensures took { Took (trace_of at.old) (trace_of at.new) result.1 }
    ensures stores { StoresIn (pass_of at.old) (pass_of at.new)
        (steps_to_update (trace_of at.old).start) }
    ensures inserted { IfOk result.0
        (λ _. LinksEntry (pass_of at.old) (pass_of at.new) key value) }
    ensures lost { IfErr result.0 (λ back. GivesBack (pass_of at.old) (pass_of at.new)
        (said at.old.slots.now pred.now) hand (back.0, said_rollback at.old.slots.now back.1)) }
{
    let used = steps_to_link(at);
    (vbr_at_table::update(at, pred, succ, key, value, hand), used)
}

// How many steps it takes to link a new node.
#[inline]
fn steps_to_link<N: Nodes>(at: &AtTable<'_, N>) -> u32
    ensures { result ≡ steps_to_update (trace_of at.now).start }
{
    at.slots.kind();
    if N::VALUES { 4 } else { 3 }
}
