//! Taking slots into the own pool ahead of the calls that need them.
ghost use Rattle.std.specs.Prelude.{◌≡◌, ◌<◌, ◌≤◌};
ghost use Rattle.vbr_slots.specs.steps.AtTables.{IsSameTable, pass_of};
ghost use Rattle.vbr_words.specs.declared.link.TheConstants.{MAX_SLOTS};
ghost use Rattle.vbr_at_table.specs.pools.Reserving.{IsNextToTry, Reserves, ReservesFrom, TopsUp, most_kept};

use vbr_slots::AtTable;
use vbr_slots::pass::POOL;
use vbr_words::Nodes;
use vbr_words::flags::{FLAGS, next_flag};

/// Takes slots out of the shared pool until the own pool has `wanted`, or 63 if that is less; fewer, if it
/// finds no more on a way once round the slots, which begins with the flag word of the slot that the pass
/// tried last. Returns how many it took, and how many steps it made: at most one for each slot that it took, one
/// for each flag word, and one for each slot that others took out of the shared pool meanwhile. It makes no call
/// on the set and changes no list.
///
/// A pass with r slots in reserve that inserts after each remove advances the epoch once in about r + 1
/// inserts: by then the slot that it retired first is stamped below the epoch.
pub fn reserve<N: Nodes>(at: &mut AtTable<'_, N>, wanted: u32) -> (u32, u32)
    ensures table { IsSameTable at.old at.new }
    ensures reserves { Reserves (pass_of at.old) (pass_of at.new) wanted result.0 result.1 }
{
    let before = at.pool().len();
    let most = most_kept(wanted);
    let slots = at.slots.shape().slots();
    let start = at.last_tried() / FLAGS * FLAGS;
    let first = reserve_from(at, start, slots, most, slots);
    let second = reserve_from(at, 0, start, most, slots);
    let taken = at.pool().len() - before;
    (taken as u32, first + second)
}

/// Takes slots out of the shared pool as [`reserve`] does, but tries no more than `probes` times. If it stops
/// for that, the own pool may have fewer than `wanted`, and the next top-up goes on: the way begins after the slot
/// that the pass tried last. Returns how many slots it took, and how many steps it made, one for each try. A
/// pass that has what is wanted makes none. It makes no call on the set and changes no list.
///
/// With two tries after each insert that takes one slot, the own pool grows by a slot for each insert, while
/// flags are set one after the other.
#[inline]
pub fn top_up<N: Nodes>(at: &mut AtTable<'_, N>, wanted: u32, probes: u32) -> (u32, u32)
    ensures table { IsSameTable at.old at.new }
    ensures tops_up { TopsUp (pass_of at.old) (pass_of at.new) wanted probes result.0 result.1 }
{
    let before = at.pool().len();
    let most = most_kept(wanted);
    let slots = at.slots.shape().slots();
    let start = at.last_tried() + 1;
    let first = reserve_from(at, start, slots, most, probes);
    let second = reserve_from(at, 0, start, most, probes - first);
    let taken = at.pool().len() - before;
    (taken as u32, first + second)
}

// How many slots the own pool has then: as many as are wanted, but for the place that is for a hand.
fn most_kept(wanted: u32) -> usize
    ensures { result ≡ most_kept wanted }
{
    (wanted as usize).min(POOL - 1)
}

// Takes slots from one up to another until the own pool has so many, or so many tries were made. Returns how many.
// Of each flag word it tries one slot after the other, until one is lost: that shows the word, and from then on it
// tries those whose flags were set there.
fn reserve_from<N: Nodes>(
    at: &mut AtTable<'_, N>,
    from: u32,
    to: u32,
    most: usize,
    probes: u32,
) -> u32
    requires most { most < POOL }
    requires to { to ≤ (pass_of at.old).trace.start.shape.slots }
    ensures table { IsSameTable at.old at.new }
    ensures reserves { ReservesFrom (pass_of at.old) (pass_of at.new) from to most probes result }
{
    let _slots = at.slots.shape().slots();
    let mut used = 0;
    let mut slot = from;
    let mut shown = None;
    while slot < to && used < probes && at.pool().len() < most {
        used += 1;
        match at.take_flag(slot) {
            Ok(()) => {
                at.law();
                at.keep(slot);
                (slot, shown) = behind(slot, shown);
            }
            Err(found) => {
                (slot, shown) = behind(slot, Some(found));
            }
        }
    }
    used
}

// Where the tries go on behind a slot: with the next one of its word, or the next one whose flag is set in the word,
// if that was shown; if there is none, with the first slot of the next word, of which nothing was shown.
fn behind(slot: u32, shown: Option<u64>) -> (u32, Option<u64>)
    requires { slot ≤ MAX_SLOTS }
    ensures { IsNextToTry slot shown result }
{
    let past = (slot / FLAGS + 1) * FLAGS;
    let between = match shown {
        None => 0,
        Some(word) => next_flag(word >> (slot % FLAGS) >> 1, 0),
    };
    let next = slot + 1 + between;
    if next < past {
        (next, shown)
    } else {
        (past, None)
    }
}
