//! Values of nodes, if nodes have them.
ghost use Rattle.std.specs.Prelude.{◌≡◌, IfOk, IfErr};
ghost use Rattle.vbr_slots.specs.steps.AtTables.{IsSameTable, pass_of, trace_of};
ghost use Rattle.vbr_slots.specs.views.Views.{knows};
ghost use Rattle.vbr_at_table.specs.reads.Held.{IsHeld, IsSlot, said};
ghost use Rattle.vbr_at_table.specs.reads.Reading.{ReadsIn};
ghost use Rattle.vbr_at_table.specs.answers.Values.{steps_to_update};
ghost use Rattle.vbr_list.specs.calls.Budgets.{steps_to_value_of};
ghost use Rattle.vbr_list.specs.calls.Told.{is_yes};
ghost use Rattle.vbr_list.specs.look_ups.Valuing.{LosesValue, ReadsValue};

use vbr_at_table::{Held, Refusal, Rollback, value_of};
use vbr_slots::{AtTable, Slots};
use vbr_words::Nodes;

/// Reads the value of a node, in two steps, if nodes have values; otherwise it makes no step, and
/// returns 0.
#[inline(always)]
pub(crate) fn value_if_any<N: Nodes>(at: &mut AtTable<'_, N>, node: &Held) -> Result<u64, Rollback>
    requires held { IsHeld (knows (trace_of at.old)) (said at.old.slots.now node.now) }
    requires slot { IsSlot node.now.at }
    ensures table { IsSameTable at.old at.new }
    ensures reads { ReadsIn (pass_of at.old) (pass_of at.new)
        (steps_to_value_of (trace_of at.old).start) }
    ensures value { IfOk result (ReadsValue (pass_of at.old) (pass_of at.new) node.now.at) }
    ensures moved { IfErr result (LosesValue (pass_of at.old) (pass_of at.new)) }
{
    at.slots.kind();
    if N::VALUES { value_of(at, node) } else { Ok(0) }
}

/// The number of steps to read the value of a node, if it has one.
#[inline(always)]
pub(crate) fn steps_to_value_of<N: Nodes>(slots: &Slots<N>) -> u32
    ensures { result ≡ steps_to_value_of slots.now.start }
{
    slots.kind();
    if N::VALUES { 2 } else { 0 }
}

/// The number of steps to link a new node.
#[inline(always)]
pub(crate) fn steps_to_update<N: Nodes>(slots: &Slots<N>) -> u32
    ensures { result ≡ steps_to_update slots.now.start }
{
    slots.kind();
    if N::VALUES { 4 } else { 3 }
}

/// Whether an answer is yes.
#[inline(always)]
pub(crate) fn is_yes(answer: Result<Option<u64>, Refusal>) -> Result<bool, Refusal>
    ensures { result ≡ is_yes answer }
{
    match answer {
        Ok(given) => Ok(given.is_some()),
        Err(refusal) => Err(refusal),
    }
}
