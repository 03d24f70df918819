//! Tests of the player and of the program, and the totals of a run, which they compare.
mod devices;
mod gates;
mod maps;

use std::process::Abort;
use vbr_run::{MapTotals, Totals};

/// Compares totals: how many operations were answered yes, by kind, and how many were refused; the
/// epoch; and the keys that are left.
pub fn expect_totals(rt: &impl Abort, totals: &Totals, counts: [u64; 4], epoch: u64, keys: &[u64]) {
    let [inserted, removed, found, refused] = counts;
    assert!(rt; totals.inserted == inserted && totals.removed == removed);
    assert!(rt; totals.found == found && totals.refused == refused);
    assert!(rt; totals.epoch == epoch && totals.keys.as_slice() == keys);
}

/// Compares totals of a map in the same way, with the entries that are left.
pub fn expect_map_totals(
    rt: &impl Abort,
    totals: &MapTotals,
    counts: [u64; 4],
    epoch: u64,
    entries: &[(u64, u64)],
) {
    let [inserted, removed, found, refused] = counts;
    assert!(rt; totals.inserted == inserted && totals.removed == removed);
    assert!(rt; totals.found == found && totals.refused == refused);
    assert!(rt; totals.epoch == epoch && totals.entries.as_slice() == entries);
}
