//! Retiring an unlinked slot.
ghost use Rattle.vbr_machine.specs.Acceptance.{IsUnlinked};
ghost use Rattle.vbr_slots.specs.steps.AtTables.{IsSameTable, pass_of, trace_of};
ghost use Rattle.vbr_slots.specs.views.Views.{knows};
ghost use Rattle.vbr_at_table.specs.pools.Retiring.{Retires};

use crate::unlinked::Unlinked;
use vbr_slots::AtTable;
use vbr_slots::pass::POOL;
use vbr_words::Nodes;

/// Stamps a slot that the pass unlinked with an epoch that it reads now, and so after the unlinking,
/// and puts it at the end of its own pool; if that holds 63 slots or more, into the shared pool.
/// The place that stays free is the one for a slot in hand. Returns how many steps it made: 2, or 3
/// if the slot went into the shared pool. It can't fail.
///
/// It is compiled into its callers, so that what a call has in hand stays in registers.
#[inline(always)]
pub fn retire<N: Nodes>(at: &mut AtTable<'_, N>, unlinked: Unlinked) -> u32
    requires unlinked { IsUnlinked ((knows (trace_of at.old)).own unlinked.slot) }
    ensures table { IsSameTable at.old at.new }
    ensures retires { Retires (pass_of at.old) (pass_of at.new) unlinked.slot result }
{
    at.law();
    let slot = unlinked.into_slot();
    let kept = at.pool().len() < POOL - 1;
    at.read_epoch();
    at.store_stamp(slot);
    if kept {
        at.keep_free(slot);
        2
    } else {
        at.raise_outside(slot);
        3
    }
}
