//! The plain set.
use crate::refusals::round::is_right;
use std::alloc::Global;
use vbr_machine::{Op, PlainSet};

// So many keys that the set grows several times.
const KEYS: u64 = 40;

// So few that they grow the set once.
const FEW_KEYS: u64 = 5;

// How often a call is made: two refusals that follow one another are got over.
const ATTEMPTS: u32 = 3;

// Whether the set has just the keys below this one.
fn has_below(set: &mut PlainSet, end: u64) -> bool {
    let mut is_so = true;
    for key in 0..KEYS {
        is_so = is_so && set.apply(Op::Has, key) == Ok(key < end);
    }
    is_so
}

// Inserts the next key, and says whether memory was refused.
fn insert(set: &mut PlainSet, key: u64) -> Option<bool> {
    for refusals in 0..ATTEMPTS {
        match set.apply(Op::Insert, key) {
            Ok(added) => return added.then_some(refusals > 0),
            Err(_) if has_below(set, key) => {}
            Err(_) => return None,
        }
    }
    None
}

// The keys, and whether memory was refused.
fn keys_of(set: &PlainSet) -> Option<(Vec<u64>, bool)> {
    for refusals in 0..ATTEMPTS {
        if let Ok(keys) = set.keys() {
            return Some((keys, refusals > 0));
        }
    }
    None
}

// Inserts the keys below this one in their order, and says whether memory was refused.
fn insert_below(set: &mut PlainSet, end: u64) -> Option<bool> {
    let mut refused = false;
    for key in 0..end {
        refused |= insert(set, key)?;
    }
    Some(refused)
}

// Inserts many keys.
fn inserts(alloc: Global) -> Option<bool> {
    let mut set = PlainSet::new(alloc);
    let refused = insert_below(&mut set, KEYS)?;
    has_below(&mut set, KEYS).then_some(refused)
}

#[test]
fn plain_set_inserts(rt: HostRuntime) {
    is_right(&rt, inserts(rt.alloc()));
}

// Lists a few keys.
fn lists(alloc: Global) -> Option<bool> {
    let mut set = PlainSet::new(alloc);
    let refused = insert_below(&mut set, FEW_KEYS)?;
    let (keys, refused_keys) = keys_of(&set)?;
    let is_whole = keys.iter().copied().eq(0..FEW_KEYS);
    is_whole.then_some(refused | refused_keys)
}

#[test]
fn plain_set_keys(rt: HostRuntime) {
    is_right(&rt, lists(rt.alloc()));
}
