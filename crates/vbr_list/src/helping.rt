//! Helping to unlink a marked node.
ghost use Rattle.std.specs.Prelude.{◌≤◌, IfOk, IfErr};
ghost use Rattle.vbr_slots.specs.steps.AtTables.{IsSameTable, pass_of, trace_of};
ghost use Rattle.vbr_slots.specs.views.Views.{IsOf};
ghost use Rattle.vbr_at_table.specs.reads.Held.{said, said_marked};
ghost use Rattle.vbr_list.specs.traversals.Helping.{GoesIn, Helps, HelpsNone, MayHelp, RetiresMarked};

use vbr_at_table::{Held, Marked, Rollback, retire, steps_to_unlink, unlink};
use vbr_slots::{AtTable, Slots, Stepper};
use vbr_words::Nodes;

/// Unlinks a marked node behind a place and retires it; returns the place with its new link, and the
/// number of steps made, one to six.
#[inline(always)]
pub(crate) fn unlink_and_retire<N: Nodes>(
    at: &mut AtTable<'_, N>,
    pred: &Held,
    marked: Marked,
) -> (Result<Held, Rollback>, u32)
    requires may { MayHelp (trace_of at.old) (said at.old.slots.now pred.now)
        (said_marked at.old.slots.now marked) }
    ensures table { IsSameTable at.old at.new }
    ensures goes { GoesIn (pass_of at.old) (pass_of at.new) result.1 }
    ensures few { result.1 ≤ 6 }
    ensures unlinks { IfOk result.0 (λ place.
        RetiresMarked (pass_of at.old) (pass_of at.new) (said at.old.slots.now pred.now)
        (said_marked at.old.slots.now marked) (said at.old.slots.now place)) }
    ensures lost { IfErr result.0 (HelpsNone (pass_of at.old) (pass_of at.new)
        (said at.old.slots.now pred.now)) }
{
    at.law();
    let layout = at.slots.layout();
    let outcome = unlink(at, pred, marked);
    let used = steps_to_unlink(marked.word, layout, &outcome);
    match outcome {
        Err(rollback) => (Err(rollback), used),
        Ok((unlinked, place)) => {
            at.law();
            (Ok(place), used + retire(at, unlinked))
        }
    }
}

/// Like [`unlink_and_retire`], for a traversal that goes on from the place: it also rolls back if the
/// epoch has moved since.
#[inline(always)]
pub(crate) fn help<N: Nodes>(
    at: &mut AtTable<'_, N>,
    pred: &Held,
    marked: Marked,
) -> (Result<Held, Rollback>, u32)
    requires may { MayHelp (trace_of at.old) (said at.old.slots.now pred.now)
        (said_marked at.old.slots.now marked) }
    ensures table { IsSameTable at.old at.new }
    ensures goes { GoesIn (pass_of at.old) (pass_of at.new) result.1 }
    ensures few { result.1 ≤ 6 }
    ensures helps { IfOk result.0 (λ place.
        Helps (pass_of at.old) (pass_of at.new) (said at.old.slots.now pred.now)
        (said_marked at.old.slots.now marked) (said at.old.slots.now place)) }
    ensures lost { IfErr result.0 (HelpsNone (pass_of at.old) (pass_of at.new)
        (said at.old.slots.now pred.now)) }
{
    let (outcome, used) = unlink_and_retire(at, pred, marked);
    match outcome {
        Err(rollback) => (Err(rollback), used),
        Ok(place) => {
            at.count_help();
            let now = at.epoch();
            if now != place.epoch {
                return (Err(Rollback::EpochMoved { now }), used);
            }
            (Ok(place), used)
        }
    }
}

// Like `help`, in a function of its own.
#[inline(never)]
fn help_apart<N: Nodes>(
    slots: &Slots<N>,
    stepper: &mut Stepper,
    pred: Held,
    marked: Marked,
) -> (Result<Held, Rollback>, u32)
    requires own { IsOf stepper.old.trace slots.now }
    requires may { MayHelp stepper.old.trace (said slots.now pred)
        (said_marked slots.now marked) }
    ensures goes { GoesIn stepper.old stepper.new result.1 }
    ensures few { result.1 ≤ 6 }
    ensures helps { IfOk result.0 (λ place. Helps stepper.old stepper.new (said slots.now pred)
        (said_marked slots.now marked) (said slots.now place)) }
    ensures lost { IfErr result.0 (HelpsNone stepper.old stepper.new (said slots.now pred)) }
{
    help(&mut AtTable { slots, stepper }, &pred, marked)
}

/// Like [`help`], but what makes the steps is lent, so that a traversal that meets no marked node keeps
/// all of its own in registers.
#[inline(always)]
pub(crate) fn help_by_copy<N: Nodes>(
    at: &mut AtTable<'_, N>,
    pred: Held,
    marked: Marked,
) -> (Result<Held, Rollback>, u32)
    requires may { MayHelp (trace_of at.old) (said at.old.slots.now pred)
        (said_marked at.old.slots.now marked) }
    ensures table { IsSameTable at.old at.new }
    ensures goes { GoesIn (pass_of at.old) (pass_of at.new) result.1 }
    ensures few { result.1 ≤ 6 }
    ensures helps { IfOk result.0 (λ place.
        Helps (pass_of at.old) (pass_of at.new) (said at.old.slots.now pred)
        (said_marked at.old.slots.now marked) (said at.old.slots.now place)) }
    ensures lost { IfErr result.0 (HelpsNone (pass_of at.old) (pass_of at.new)
        (said at.old.slots.now pred)) }
{
    let slots = at.slots;
    help_apart(slots, at.stepper, pred, marked)
}
