//! Checkpoints and checked reads.
ghost use Rattle.std.specs.Prelude.{◌≡◌, ◌<◌, true, IfOk, IfErr};
ghost use Rattle.vbr_slots.specs.steps.AtTables.{IsSameTable, pass_of, trace_of};
ghost use Rattle.vbr_slots.specs.views.Views.{knows};
ghost use Rattle.vbr_at_table.specs.costs.StepCosts.{steps_to_birth};
ghost use Rattle.vbr_at_table.specs.reads.Held.{IsHeld, IsSlot, said, said_if};
ghost use Rattle.vbr_at_table.specs.reads.Moments.{ShowsBirth};
ghost use Rattle.vbr_at_table.specs.reads.Reading.{IsCheckpoint, IsHeadRead, IsKeyRead, IsNextRead};
ghost use Rattle.vbr_at_table.specs.reads.Reading.{BirthMoved, IsBirthRead, ReadsIn, RollsBack, steps_to_next};
ghost use Rattle.vbr_at_table.specs.answers.Values.{IsValueRead};

use crate::held::{Checkpoint, Held};
use crate::rollback::Rollback;
use vbr_slots::AtTable;
use vbr_words::{At, Nodes, decode};

/// Reads the epoch, in one step: a checkpoint to roll back to. It can't fail.
#[inline]
pub fn checkpoint<N: Nodes>(at: &mut AtTable<'_, N>) -> Checkpoint
    ensures table { IsSameTable at.old at.new }
    ensures reads { ReadsIn (pass_of at.old) (pass_of at.new) 1 }
    ensures point { IsCheckpoint (pass_of at.old) (pass_of at.new) result.epoch }
{
    at.law();
    Checkpoint {
        epoch: at.read_epoch(),
    }
}

/// Loads the birth that a slot shows, whoever has the slot, in one step. It can't fail, and the pass learns
/// nothing by it.
#[inline]
pub fn birth_shown<N: Nodes>(at: &mut AtTable<'_, N>, slot: u32) -> u64
    requires slot { slot < at.old.slots.now.start.shape.slots }
    ensures table { IsSameTable at.old at.new }
    ensures reads { ReadsIn (pass_of at.old) (pass_of at.new) 1 }
    ensures shown { ShowsBirth (trace_of at.old) (trace_of at.new) slot result }
{
    at.law();
    at.peek_birth(slot)
}

/// Reads the head of a bucket, in two steps.
///
/// EpochMoved is its one error: the epoch is another one than the checkpoint's, and nothing is held
/// any more but the heads.
#[inline]
pub fn first<N: Nodes>(
    at: &mut AtTable<'_, N>,
    point: &Checkpoint,
    bucket: u32,
) -> Result<Held, Rollback>
    requires point { point.now.epoch ≡ (knows (trace_of at.old)).epoch }
    requires bucket { bucket < at.old.slots.now.start.shape.buckets }
    ensures table { IsSameTable at.old at.new }
    ensures reads { ReadsIn (pass_of at.old) (pass_of at.new) 2 }
    ensures head { IfOk result (λ head.
        IsHeadRead (pass_of at.old) (pass_of at.new) bucket (said at.old.slots.now head)) }
    ensures moved { IfErr result (RollsBack (pass_of at.old) (pass_of at.new)) }
{
    at.law();
    let place = At::Head(bucket);
    let (word, read) = at.read_link(place);
    if !read.stays {
        return Err(Rollback::EpochMoved { now: read.epoch });
    }
    Ok(Held {
        at: place,
        birth: 0,
        word,
        epoch: read.epoch,
    })
}

/// Reads the node that a link names, in three steps; a link to none needs no step, and gives none.
///
/// EpochMoved is its one error, as of [`first`].
#[inline]
pub fn next<N: Nodes>(at: &mut AtTable<'_, N>, held: &Held) -> Result<Option<Held>, Rollback>
    requires held { IsHeld (knows (trace_of at.old)) (said at.old.slots.now held.now) }
    ensures table { IsSameTable at.old at.new }
    ensures reads { ReadsIn (pass_of at.old) (pass_of at.new)
        (steps_to_next (said at.old.slots.now held.now)) }
    ensures next { IfOk result (λ found.
        IsNextRead (pass_of at.old) (pass_of at.new) (said at.old.slots.now held.now)
        (said_if at.old.slots.now found)) }
    ensures moved { IfErr result (RollsBack (pass_of at.old) (pass_of at.new)) }
{
    at.law();
    let Some(slot) = decode(held.word, at.slots.layout()).slot else {
        return Ok(None);
    };
    let (birth, word, read) = at.read_node(slot);
    if !read.stays {
        return Err(Rollback::EpochMoved { now: read.epoch });
    }
    Ok(Some(Held {
        at: At::Slot(slot),
        birth,
        word,
        epoch: read.epoch,
    }))
}

/// Reads the key of a node, in two steps.
///
/// EpochMoved is its one error, as of [`first`].
#[inline]
pub fn key_of<N: Nodes>(at: &mut AtTable<'_, N>, node: &Held) -> Result<u64, Rollback>
    requires held { IsHeld (knows (trace_of at.old)) (said at.old.slots.now node.now) }
    requires slot { IsSlot node.now.at }
    ensures table { IsSameTable at.old at.new }
    ensures reads { ReadsIn (pass_of at.old) (pass_of at.new) 2 }
    ensures key { IfOk result (IsKeyRead (pass_of at.old) (pass_of at.new) node.now.at) }
    ensures moved { IfErr result (RollsBack (pass_of at.old) (pass_of at.new)) }
{
    at.law();
    let At::Slot(slot) = node.at else {
        unreachable!()
    };
    let (key, read) = at.read_key(slot);
    if !read.stays {
        return Err(Rollback::EpochMoved { now: read.epoch });
    }
    Ok(key)
}

/// Reads the value of a node, in two steps, at a table whose nodes have values.
///
/// EpochMoved is its one error, as of [`first`].
#[inline]
pub fn value_of<N: Nodes>(at: &mut AtTable<'_, N>, node: &Held) -> Result<u64, Rollback>
    requires values { at.old.slots.now.start.shape.values ≡ true }
    requires held { IsHeld (knows (trace_of at.old)) (said at.old.slots.now node.now) }
    requires slot { IsSlot node.now.at }
    ensures table { IsSameTable at.old at.new }
    ensures reads { ReadsIn (pass_of at.old) (pass_of at.new) 2 }
    ensures value { IfOk result (IsValueRead (pass_of at.old) (pass_of at.new) node.now.at) }
    ensures moved { IfErr result (RollsBack (pass_of at.old) (pass_of at.new)) }
{
    at.law();
    let At::Slot(slot) = node.at else {
        unreachable!()
    };
    let (value, read) = at.read_value(slot);
    if !read.stays {
        return Err(Rollback::EpochMoved { now: read.epoch });
    }
    Ok(value)
}

/// The birth of the node that the link of what is held names, in two steps; 0 of none, without a
/// step. EpochMoved says that the epoch is another one than the one under which it is held.
#[inline]
pub fn birth_after<N: Nodes>(at: &mut AtTable<'_, N>, held: &Held) -> Result<u64, Rollback>
    requires held { IsHeld (knows (trace_of at.old)) (said at.old.slots.now held.now) }
    ensures table { IsSameTable at.old at.new }
    ensures reads { ReadsIn (pass_of at.old) (pass_of at.new)
        (steps_to_birth (said at.old.slots.now held.now).word) }
    ensures birth { IfOk result (IsBirthRead (pass_of at.old) (pass_of at.new)
        (said at.old.slots.now held.now).word) }
    ensures moved { IfErr result (BirthMoved (pass_of at.old) (pass_of at.new)
        (said at.old.slots.now held.now).word) }
{
    at.law();
    let Some(slot) = decode(held.word, at.slots.layout()).slot else {
        return Ok(0);
    };
    let birth = at.load_birth(slot);
    let now = at.read_epoch();
    if now != held.epoch {
        return Err(Rollback::EpochMoved { now });
    }
    Ok(birth)
}
