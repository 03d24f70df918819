// Looking through reads.
ghost use Rattle.std.specs.Prelude.{◌≡◌, ◌↔◌, IsTrue};
ghost use Rattle.vbr_machine.specs.Knowledge.{knows_link, birth_in, key_in, value_in, marked_in, holds, holds_at, birth_at, birth_of};
ghost use Rattle.vbr_world.specs.MarkedWalks.{EndsAt, LeadsOn};
ghost use Rattle.vbr_machine.specs.Acceptance.{IsNextHeld, KnowsKeyAt, KnowsKeyOf, past_marked, LeadsToKey, IsBehind, IsBefore, LeadsAbove, next_of_marked};

use crate::world::start::Start;
use vbr_machine::Read;
use vbr_words::{At, Link};

// Whether a link is among the reads at a place.
pub fn knows_link(reads: &[Read], place: At, link: Link) -> bool
    ensures { result ≡ knows_link reads.now place link }
{
    for read in reads {
        if let Read::LinkAt(here, found) = read {
            if *here == place && *found == link {
                return true;
            }
        }
    }
    false
}

// The first birth of a slot among the reads.
pub fn birth_in(reads: &[Read], slot: u32) -> Option<u64>
    ensures { result ≡ birth_in reads.now slot }
{
    for read in reads {
        if let Read::BirthOf(of, birth) = read {
            if *of == slot {
                return Some(*birth);
            }
        }
    }
    None
}

// The first key of a slot among the reads.
pub fn key_in(reads: &[Read], slot: u32) -> Option<u64>
    ensures { result ≡ key_in reads.now slot }
{
    for read in reads {
        if let Read::KeyOf(of, key) = read {
            if *of == slot {
                return Some(*key);
            }
        }
    }
    None
}

// The first value of a slot among the reads.
pub fn value_in(reads: &[Read], slot: u32) -> Option<u64>
    ensures { result ≡ value_in reads.now slot }
{
    for read in reads {
        if let Read::ValueOf(of, value) = read {
            if *of == slot {
                return Some(*value);
            }
        }
    }
    None
}

// The first marked link of a slot among the reads.
pub fn marked_in(reads: &[Read], slot: u32) -> Option<Link>
    ensures { result ≡ marked_in reads.now slot }
{
    for read in reads {
        if let Read::LinkAt(place, link) = read {
            if *place == At::Slot(slot) && link.mark {
                return Some(*link);
            }
        }
    }
    None
}

// Whether a slot is held: a link among the reads names it.
pub fn holds(reads: &[Read], slot: u32) -> bool
    ensures { result ≡ holds reads.now slot }
{
    for read in reads {
        if let Read::LinkAt(_, link) = read {
            if link.slot == Some(slot) {
                return true;
            }
        }
    }
    false
}

// Whether a place is held: a head always is.
pub fn holds_at(reads: &[Read], place: At) -> bool
    ensures { result ≡ holds_at reads.now place }
{
    match place {
        At::Head(_) => true,
        At::Slot(slot) => holds(reads, slot),
    }
}

// The birth at a place, if it is known: 0 for a head.
pub fn birth_at(reads: &[Read], place: At) -> Option<u64>
    ensures { result ≡ birth_at reads.now place }
{
    match place {
        At::Head(_) => Some(0),
        At::Slot(slot) => birth_in(reads, slot),
    }
}

// The birth of what a link names, if it is known: 0 for none.
pub fn birth_of(reads: &[Read], next: Option<u32>) -> Option<u64>
    ensures { result ≡ birth_of reads.now next }
{
    match next {
        None => Some(0),
        Some(slot) => birth_in(reads, slot),
    }
}

// Whether what a link names, if anything, is held with a checked birth.
pub fn is_next_held(reads: &[Read], next: Option<u32>) -> bool
    ensures { IsTrue result ↔ IsNextHeld reads.now next }
{
    match next {
        None => true,
        Some(slot) => holds(reads, slot) && birth_in(reads, slot).is_some(),
    }
}

// Whether the key at a place is among the reads, if the place is a slot.
pub fn knows_key_at(reads: &[Read], place: At) -> bool
    ensures { IsTrue result ↔ KnowsKeyAt reads.now place }
{
    match place {
        At::Head(_) => true,
        At::Slot(slot) => key_in(reads, slot).is_some(),
    }
}

// Whether the key of what a link names is among the reads, if it names a slot.
pub fn knows_key_of(reads: &[Read], next: Option<u32>) -> bool
    ensures { IsTrue result ↔ KnowsKeyOf reads.now next }
{
    match next {
        None => true,
        Some(slot) => key_in(reads, slot).is_some(),
    }
}

// The slot that the first marked link of a slot names, if one is among the reads.
pub fn next_of_marked(reads: &[Read], slot: u32) -> Option<u32>
    ensures { result ≡ next_of_marked (marked_in reads.now slot) }
{
    match marked_in(reads, slot) {
        None => None,
        Some(link) => link.slot,
    }
}

// Whether the key stands behind a place: in its bucket, and above its key if it is a slot.
#[tactic(auto, unfolding(vbr_words::specs::Buckets::bucket_of))]
pub fn is_behind(start: &Start, reads: &[Read], place: At, key: u64) -> bool
    ensures { IsTrue result ↔ IsBehind start.now reads.now place key }
{
    match place {
        At::Head(bucket) => start.bucket_of(key) == bucket,
        At::Slot(slot) => {
            let before = key_in(reads, slot).unwrap_or(0);
            start.bucket_of(key) == start.bucket_of(before) && before < key
        }
    }
}

// Whether the key stands before what a link names, if it names a slot.
pub fn is_before(reads: &[Read], key: u64, next: Option<u32>) -> bool
    ensures { IsTrue result ↔ IsBefore reads.now key next }
{
    match next {
        None => true,
        Some(slot) => key < key_in(reads, slot).unwrap_or(0),
    }
}

// Past a slot whose marked link is among the reads, to what that link names; another slot isn't
// passed.
pub fn past_marked(reads: &[Read], next: Option<u32>) -> Option<u32>
    ensures { result ≡ past_marked reads.now next }
{
    let slot = next?;
    match marked_in(reads, slot) {
        None => next,
        Some(marked) => marked.slot,
    }
}

// Whether a walk ends at what a link names: at none, or at a slot before which this key stands, or if
// no key is given, at one whose key is among the reads.
fn ends_at(reads: &[Read], above: Option<u64>, next: Option<u32>) -> bool
    ensures { IsTrue result ↔ EndsAt reads.now above next }
{
    match above {
        None => knows_key_of(reads, next),
        Some(key) => is_before(reads, key, next),
    }
}

// Whether in at most so many turns marked links lead from what a link names to where a walk ends. The
// walk is given up if it stands still.
fn leads(reads: &[Read], most: u32, above: Option<u64>, next: Option<u32>) -> bool
    ensures { IsTrue result ↔ LeadsOn most reads.now above next }
{
    let mut here = next;
    for _ in 0..most {
        if ends_at(reads, above, here) {
            return true;
        }
        let there = past_marked(reads, here);
        if there == here {
            return false;
        }
        here = there;
    }
    ends_at(reads, above, here)
}

// Whether in at most so many turns marked links lead from what a link names to none, or to a slot
// whose key is among the reads.
pub fn leads_to_key(reads: &[Read], most: u32, next: Option<u32>) -> bool
    ensures { IsTrue result ↔ LeadsToKey most reads.now next }
{
    leads(reads, most, None, next)
}

// Whether in at most so many turns marked links lead from what a link names to none, or to a slot
// before which the key stands.
pub fn leads_above(reads: &[Read], most: u32, key: u64, next: Option<u32>) -> bool
    ensures { IsTrue result ↔ LeadsAbove most reads.now key next }
{
    leads(reads, most, Some(key), next)
}
