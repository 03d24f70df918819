//! Taking a slot for a new incarnation.
ghost use Rattle.std.specs.Prelude.{◌≡◌, ◌≢◌, ◌≤◌, ◌-◌, [], length, get_or, IfOk, IfErr, Some, None};
ghost use Rattle.vbr_slots.specs.steps.AtTables.{IsSameTable, pass_of, trace_of};
ghost use Rattle.vbr_slots.specs.steps.Calls.{Took};
ghost use Rattle.vbr_slots.specs.views.Views.{IsOf, knows};
ghost use Rattle.vbr_at_table.specs.pools.Pieces.{told_steps};
ghost use Rattle.vbr_at_table.specs.pools.Pieces.{HasSlots, LooksForSlot, WinsNone};
ghost use Rattle.vbr_at_table.specs.pools.Pieces.{Chooses, ChoosesNone, IsChosen};
ghost use Rattle.vbr_at_table.specs.pools.Pieces.{IsScanned, IsStampedBelow, IsStampedFrom, Scans, ScansPart};
ghost use Rattle.vbr_at_table.specs.pools.Pieces.{BearsNone, IsBorn};
ghost use Rattle.vbr_at_table.specs.pools.Refusals.{RefusesTake};
ghost use Rattle.vbr_at_table.specs.pools.Taking.{IsTaken, Takes};

use crate::budget::affords;
use crate::hand::Hand;
use crate::refusal::Refusal;
use vbr_slots::{AtTable, Slots, Stepper};
use vbr_words::Nodes;
use vbr_words::flags::{FLAGS, next_flag};

/// Takes a slot, and gives birth to a new incarnation there, above the slot's stamp: a slot of the
/// own pool, the oldest that may be born in; or, if that pool is empty, the first of the shared
/// pool on a way once round its flag words, which begins where the pass looked last. It waits for
/// nobody.
///
/// The call makes at most `budget` steps. It goes in pieces, and tests before each whether the budget
/// has room for it; if not, it answers OutOfSteps. It looks in the shared pool only if the own
/// pool is empty: NoSlot, if nothing is there. It advances the epoch only if no slot of the own pool
/// is stamped below the epoch that it read: EpochSpent, if that is the last. That is tested last, when
/// the budget had room to advance it. A flag that it won stays in the own pool after a refusal. It wins one
/// at most, and only if the pass had no slot that it may give birth in.
///
/// With slots in the own pool a budget of 80 is enough, whatever others do; with none, one of
/// w + 13 + g is, where w is the number of flag words, and g the number of slots that other passes take
/// out of the shared pool meanwhile. Of passes that take slots only as here, g is below their number,
/// while no insert or store of theirs is answered yes.
///
/// It returns how many steps it made.
#[inline(always)]
pub fn take<N: Nodes>(at: &mut AtTable<'_, N>, budget: u32) -> (Result<Hand, Refusal>, u32)
    requires empty_hand { (pass_of at.old).hand ≡ None }
    ensures table { IsSameTable at.old at.new }
    ensures took { Took (trace_of at.old) (trace_of at.new) result.1 }
    ensures takes { Takes (pass_of at.old) (pass_of at.new) budget }
    ensures taken { IfOk result.0 (IsTaken (pass_of at.old) (pass_of at.new)) }
    ensures refused { IfErr result.0 (RefusesTake (pass_of at.old) (pass_of at.new) budget) }
{
    match take_on(at, budget) {
        Ok((hand, used)) => (Ok(hand), used),
        Err((refusal, used)) => (Err(refusal), used),
    }
}

// Takes a slot piece by piece. Returns the hand, or why there is none, each with how many steps were made.
#[inline(always)]
fn take_on<N: Nodes>(at: &mut AtTable<'_, N>, budget: u32) -> Result<(Hand, u32), (Refusal, u32)>
    requires empty_hand { (pass_of at.old).hand ≡ None }
    ensures table { IsSameTable at.old at.new }
    ensures took { Took (trace_of at.old) (trace_of at.new) (told_steps result) }
    ensures takes { Takes (pass_of at.old) (pass_of at.new) budget }
    ensures taken { IfOk result (λ r. IsTaken (pass_of at.old) (pass_of at.new) r.0) }
    ensures refused { IfErr result (λ e. RefusesTake (pass_of at.old) (pass_of at.new) budget e.0) }
{
    let used = win_slot(at, budget)?;
    let (place, used) = choose(at, budget, used)?;
    bear(at, place, budget, used)
}

// Sees to it that the own pool has a slot: if it is empty, takes one out of the shared pool. Returns how
// many steps were used.
#[inline(always)]
fn win_slot<N: Nodes>(at: &mut AtTable<'_, N>, budget: u32) -> Result<u32, (Refusal, u32)>
    requires empty_hand { (pass_of at.old).hand ≡ None }
    ensures table { IsSameTable at.old at.new }
    ensures probes { LooksForSlot (pass_of at.old) (pass_of at.new) }
    ensures won { IfOk result (HasSlots (pass_of at.old) (pass_of at.new) budget) }
    ensures none { IfErr result (WinsNone (pass_of at.old) (pass_of at.new) budget) }
{
    if at.pool().is_empty() {
        let slots = at.slots;
        return win_shared(slots, at.stepper, budget);
    }
    Ok(0)
}

// Takes a slot out of the shared pool into the own one, which is empty. It goes once round the flag words,
// and begins with the word of the slot that the pass tried last. It probes the first slot of each, and
// then the lowest whose flag it found there, until the word has none. Returns how many steps were used.
// Few calls need it, so it stands apart from them.
#[cold]
#[inline(never)]
fn win_shared<N: Nodes>(
    slots: &Slots<N>,
    stepper: &mut Stepper,
    budget: u32,
) -> Result<u32, (Refusal, u32)>
    requires own { IsOf stepper.old.trace slots.now }
    requires empty_pool { stepper.old.pool ≡ [] }
    requires empty_hand { stepper.old.hand ≡ None }
    ensures probes { LooksForSlot stepper.old stepper.new }
    ensures won { IfOk result (HasSlots stepper.old stepper.new budget) }
    ensures none { IfErr result (WinsNone stepper.old stepper.new budget) }
{
    let mut at = AtTable { slots, stepper };
    at.law();
    // Each probe is a step, and one that is lost shows the flags of sixty-four slots.
    let start = at.last_tried() / FLAGS * FLAGS;
    let mut probes = 0;
    let mut slot = start;
    let mut end = at.slots.shape().slots();
    while slot < end {
        if !affords(budget, probes) {
            return Err((Refusal::OutOfSteps { used: probes }, probes));
        }
        probes += 1;
        match at.take_flag(slot) {
            Ok(()) => {
                at.law();
                at.keep(slot);
                return Ok(probes);
            }
            Err(found) => {
                slot = next_flag(found, slot);
                if slot >= at.slots.shape().slots() {
                    slot = 0;
                    end = start;
                }
            }
        }
    }
    Err((Refusal::NoSlot, probes))
}

// Reads the epoch and chooses the oldest slot of the own pool that is stamped below it. If there is none,
// advances the epoch, if it is still that one and not the last, and chooses the oldest slot. Returns
// the slot with its place in the pool, and how many steps were used.
#[inline(always)]
fn choose<N: Nodes>(
    at: &mut AtTable<'_, N>,
    budget: u32,
    used: u32,
) -> Result<((usize, u32), u32), (Refusal, u32)>
    requires some { (pass_of at.old).pool ≢ [] }
    requires empty_hand { (pass_of at.old).hand ≡ None }
    requires within { used ≤ budget }
    ensures table { IsSameTable at.old at.new }
    ensures chooses { Chooses (pass_of at.old) (pass_of at.new) }
    ensures chosen { IfOk result (IsChosen (pass_of at.old) (pass_of at.new) budget used) }
    ensures none { IfErr result (ChoosesNone (pass_of at.old) (pass_of at.new) budget used) }
{
    if !affords(budget, used) {
        return Err((Refusal::OutOfSteps { used }, used));
    }
    let epoch = at.read_epoch();
    let (found, used) = scan(at, epoch, budget, used + 1)?;
    at.law();
    if let Some(place) = found {
        return Ok((place, used));
    }
    if !affords(budget, used) {
        return Err((Refusal::OutOfSteps { used }, used));
    }
    if epoch == at.slots.shape().last_epoch() {
        return Err((Refusal::EpochSpent { epoch }, used));
    }
    let is_won = at.advance(epoch);
    at.stepper.count_advance(is_won);
    at.read_epoch();
    Ok(((0, at.pool()[0]), used + 2))
}

// The oldest slot of the own pool that is stamped below an epoch, with its place there, if there is one;
// and how many steps were used. It is the first, unless no epoch has passed since that came.
#[inline(always)]
fn scan<N: Nodes>(
    at: &mut AtTable<'_, N>,
    epoch: u64,
    budget: u32,
    used: u32,
) -> Result<(Option<(usize, u32)>, u32), (Refusal, u32)>
    requires some { (pass_of at.old).pool ≢ [] }
    requires within { used ≤ budget }
    ensures table { IsSameTable at.old at.new }
    ensures scans { Scans (pass_of at.old) (pass_of at.new) }
    ensures scanned { IfOk result (IsScanned (pass_of at.old) (pass_of at.new) epoch budget used
        (length (pass_of at.old).pool)) }
    ensures part { IfErr result (ScansPart (pass_of at.old) (pass_of at.new) budget used
        (length (pass_of at.old).pool)) }
{
    if !affords(budget, used) {
        return Err((Refusal::OutOfSteps { used }, used));
    }
    let slot = at.pool()[0];
    let stamp = at.load_stamp(slot);
    if stamp < epoch {
        return Ok((Some((0, slot)), used + 1));
    }
    let slots = at.slots;
    scan_others(slots, at.stepper, epoch, budget, used + 1)
}

// As `scan`, from the second slot on, if the first isn't stamped below the epoch. Few calls need it, so it
// stands apart from them.
#[cold]
#[inline(never)]
fn scan_others<N: Nodes>(
    slots: &Slots<N>,
    stepper: &mut Stepper,
    epoch: u64,
    budget: u32,
    mut used: u32,
) -> Result<(Option<(usize, u32)>, u32), (Refusal, u32)>
    requires own { IsOf stepper.old.trace slots.now }
    requires some { stepper.old.pool ≢ [] }
    requires first { IsStampedFrom stepper.old epoch (get_or stepper.old.pool 0 0) }
    requires within { used ≤ budget }
    ensures scans { Scans stepper.old stepper.new }
    ensures scanned { IfOk result (IsScanned stepper.old stepper.new epoch budget used
        (length stepper.old.pool - 1)) }
    ensures part { IfErr result (ScansPart stepper.old stepper.new budget used
        (length stepper.old.pool - 1)) }
{
    let mut at = AtTable { slots, stepper };
    for i in 1..at.pool().len() {
        if !affords(budget, used) {
            return Err((Refusal::OutOfSteps { used }, used));
        }
        let slot = at.pool()[i];
        let stamp = at.load_stamp(slot);
        used += 1;
        if stamp < epoch {
            return Ok((Some((i, slot)), used));
        }
    }
    Ok((None, used))
}

// Gives birth to an incarnation in a slot of the own pool that is stamped below the epoch. Returns the
// hand, and how many steps were used.
#[inline(always)]
fn bear<N: Nodes>(
    at: &mut AtTable<'_, N>,
    place: (usize, u32),
    budget: u32,
    used: u32,
) -> Result<(Hand, u32), (Refusal, u32)>
    requires within { used ≤ budget }
    requires below { IsStampedBelow (pass_of at.old) (knows (trace_of at.old)).epoch (Some place) }
    requires empty_hand { (pass_of at.old).hand ≡ None }
    ensures table { IsSameTable at.old at.new }
    ensures born { IfOk result (IsBorn (pass_of at.old) (pass_of at.new) place.1 budget used) }
    ensures none { IfErr result (BearsNone (pass_of at.old) (pass_of at.new) budget used) }
{
    if !affords(budget, used) {
        return Err((Refusal::OutOfSteps { used }, used));
    }
    at.law();
    let (index, slot) = place;
    let birth = at.store_birth_at(index, slot);
    Ok((Hand::of(slot, birth), used + 1))
}
