//! Unlinking a marked node.
ghost use Rattle.std.specs.Prelude.{◌≡◌, ◌≤◌, IfOk, IfErr};
ghost use Rattle.vbr_slots.specs.steps.AtTables.{IsSameTable, trace_of, pass_of};
ghost use Rattle.vbr_slots.specs.views.Views.{knows};
ghost use Rattle.vbr_at_table.specs.answers.Exchanges.{StaysIn, UnlinksNode, UnlinksNone, IsUnmarked};
ghost use Rattle.vbr_at_table.specs.reads.Held.{HoldsMarked, Names, said, said_marked, said_rollback};
ghost use Rattle.vbr_words.specs.Packing.{unpacked};
ghost use Rattle.vbr_at_table.specs.costs.StepCosts.{steps_to_unlink};

use crate::held::{Held, Marked};
use crate::links::link_to_same;
use crate::reading::birth_after;
use crate::rollback::Rollback;
use crate::unlinked::Unlinked;
use vbr_slots::AtTable;
use vbr_words::{At, Layout, Nodes, decode};

/// Unlinks a marked node behind `pred`, whose link names it: the slot is the pass's, to be retired,
/// and `pred` comes back with its new link, which names what the marked link named. It does so only
/// if the link of `pred` is still the unmarked one that is held; else no slot is unlinked.
///
/// It makes one step, and two before that if the marked link names a node.
///
/// LostExchange says that another link stood there, and EpochMoved, that the epoch is another one
/// than the one under which they are held: then nothing is held any more but the heads.
#[inline]
pub fn unlink<N: Nodes>(
    at: &mut AtTable<'_, N>,
    pred: &Held,
    marked: Marked,
) -> Result<(Unlinked, Held), Rollback>
    requires pred { IsUnmarked (knows (trace_of at.old)) (said at.old.slots.now pred.now) }
    requires marked { HoldsMarked (knows (trace_of at.old)) (said_marked at.old.slots.now marked) }
    requires names { Names (said at.old.slots.now pred.now) marked.slot }
    ensures table { IsSameTable at.old at.new }
    ensures stays { StaysIn (pass_of at.old) (pass_of at.new)
        (steps_to_unlink (said_marked at.old.slots.now marked).word result) }
    ensures unlinked { IfOk result (λ told.
        UnlinksNode (pass_of at.old) (pass_of at.new) (said at.old.slots.now pred.now)
        (said_marked at.old.slots.now marked) (told.0, said at.old.slots.now told.1)) }
    ensures failed { IfErr result (λ why.
        UnlinksNone (pass_of at.old) (pass_of at.new) (said at.old.slots.now pred.now)
        (said_rollback at.old.slots.now why)) }
{
    let node = Held {
        at: At::Slot(marked.slot),
        birth: marked.birth,
        word: marked.word,
        epoch: marked.epoch,
    };
    let layout = at.slots.layout();
    let next_birth = birth_after(at, &node)?;
    at.law();
    let new = link_to_same(marked.word, pred.birth, next_birth, layout);
    match at.unlink(pred.at, pred.word, marked.slot, new) {
        Ok(()) => {
            at.law();
            let unlinked = Unlinked::by(at, marked.slot);
            Ok((unlinked, Held { word: new, ..*pred }))
        }
        Err(found) => Err(Rollback::LostExchange { found }),
    }
}

/// How many steps an unlinking made, if the word of the marked link was this.
#[inline]
pub fn steps_to_unlink(
    word: u64,
    layout: Layout,
    outcome: &Result<(Unlinked, Held), Rollback>,
) -> u32
    ensures is { result ≡ steps_to_unlink (unpacked layout word) outcome.now }
    ensures few { result ≤ 3 }
{
    let loads = if decode(word, layout).slot.is_some() {
        2
    } else {
        0
    };
    match outcome {
        Err(Rollback::EpochMoved { now: _ }) => loads,
        _ => loads + 1,
    }
}
