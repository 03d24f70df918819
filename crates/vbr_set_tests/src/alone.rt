//! A set or a map with one pass.
ghost use Rattle.std.specs.Prelude.{◌≡◌, ◌≤◌, length, IfOk};
ghost use Rattle.std.specs.List.Sorted.{IsStrictlyIncreasing};
ghost use Rattle.vbr_slots.specs.views.Views.{IsOf, new_pass};

use std::alloc::Global;
use std::process::Abort;
use std::test::Fail;
use vbr_set::set::VbrSet;
use vbr_set::{Kind, MapReport, Pass, Shape, VbrMap};

/// Opens a set or a map with these items and one pass.
pub fn open_alone<N: Kind>(
    alloc: Global,
    shape: Shape,
    items: &[N::Item],
) -> Result<(VbrSet<N>, Pass), Fail>
    requires ascending { IsStrictlyIncreasing (N.kind.keys items.now) }
    requires few { length items.now ≤ shape.slots }
    ensures count { IfOk result (λ r. r.0.passes ≡ 1) }
    ensures pass { IfOk result (λ r. r.1 ≡ new_pass r.0 0) }
{
    let (set, mut passes) = VbrSet::<N>::open_with(alloc, shape, 1, items)?;
    let pass = passes.pop().ok_or("no pass")?;
    Ok((set, pass))
}

/// Compares the entries of a report, and how many nodes it says are linked and marked and how many slots are free.
pub fn expect_report(
    rt: &impl Abort,
    report: &MapReport,
    entries: &[(u64, u64)],
    counts: (u32, u32, u32),
) {
    assert_eq!(rt; report.entries.as_slice(), entries);
    assert_eq!(rt; (report.live, report.marked, report.free), counts);
}

/// Closes a map with its one pass, and compares the entries that are left, and how many nodes are linked
/// and marked and how many slots are free.
pub fn expect_left(
    rt: &impl Abort,
    alloc: Global,
    map: VbrMap,
    pass: Pass,
    entries: &[(u64, u64)],
    counts: (u32, u32, u32),
) -> Result<(), Fail>
    requires count { map.passes ≡ 1 }
    requires own { IsOf pass.trace map }
{
    let report = map.close(alloc, Vec::from_array(alloc, [pass])?)?;
    expect_report(rt, &report, entries, counts);
    Ok(())
}
