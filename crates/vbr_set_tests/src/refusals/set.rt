//! The set; and how a set or a map is opened with items, reported and closed.
ghost use Rattle.std.specs.Prelude.{◌≡◌, ◌≤◌, None, length, IfSome};
ghost use Rattle.std.specs.List.Sorted.{IsStrictlyIncreasing};
ghost use Rattle.vbr_slots.specs.runs.Closing.{AllOf};
ghost use Rattle.vbr_slots.specs.views.Views.{IsOf, new_passes};

use crate::refusals::round::is_right;
use std::alloc::Global;
use vbr_set::{CloseError, Kind, OpenError, Pass, Report, Shape, VbrSet, set};
use vbr_words::Keys;

// How often a call is made: two refusals that follow one another are got over.
const ATTEMPTS: u32 = 3;

// A set or a map with these items and its two passes, and whether memory was refused.
pub fn open_with<N: Kind>(
    alloc: Global,
    shape: Shape,
    items: &[N::Item],
) -> Option<(set::VbrSet<N>, Vec<Pass>, bool)>
    requires ascending { IsStrictlyIncreasing (N.kind.keys items.now) }
    requires few { length items.now ≤ shape.slots }
    ensures count { IfSome result (λ r. r.0.passes ≡ 2) }
    ensures passes { IfSome result (λ r. r.1.items ≡ new_passes r.0 0 2) }
{
    for refusals in 0..ATTEMPTS {
        match set::VbrSet::<N>::open_with(alloc, shape, 2, items) {
            Ok((set, passes)) => return Some((set, passes, refusals > 0)),
            Err(OpenError::Memory) => {}
            Err(OpenError::Passes) => return None,
        }
    }
    None
}

// The report of a set or a map that is closed, and whether memory was refused.
pub fn close<N: Kind>(
    set: set::VbrSet<N>,
    alloc: Global,
    passes: Vec<Pass>,
) -> Option<(N::Report, bool)>
    requires { AllOf set passes.items }
{
    match set.close(alloc, passes) {
        Ok(report) => Some((report, false)),
        Err(CloseError::Memory(set, passes)) => match set.close(alloc, passes) {
            Ok(report) => Some((report, true)),
            Err(CloseError::Memory(set, passes)) => Some((set.close(alloc, passes).ok()?, true)),
            Err(CloseError::Missing(..)) => None,
        },
        Err(CloseError::Missing(..)) => None,
    }
}

// What is in a set or a map that stays open, and whether memory was refused.
pub fn tell<N: Kind>(
    set: &set::VbrSet<N>,
    alloc: Global,
    passes: &mut Vec<Pass>,
) -> Option<(N::Report, bool)>
    requires of_set { AllOf set.now passes.old.items }
    requires all { set.now.passes ≤ length passes.old.items }
    ensures { passes.new.items ≡ passes.old.items }
{
    match set.report(alloc, passes) {
        Ok(report) => Some((report, false)),
        Err(_) => match set.report(alloc, passes) {
            Ok(report) => Some((report, true)),
            Err(_) => Some((set.report(alloc, passes).ok()?, true)),
        },
    }
}

// An empty set with its two passes, and whether memory was refused.
fn open(alloc: Global, shape: Shape) -> Option<(VbrSet, Vec<Pass>, bool)>
    ensures count { IfSome result (λ r. r.0.passes ≡ 2) }
    ensures passes { IfSome result (λ r. r.1.items ≡ new_passes r.0 0 2) }
{
    match VbrSet::open(alloc, shape, 2) {
        Ok((set, passes)) => Some((set, passes, false)),
        Err(OpenError::Memory) => {
            let (set, passes) = VbrSet::open(alloc, shape, 2).ok()?;
            Some((set, passes, true))
        }
        Err(OpenError::Passes) => None,
    }
}

// Inserts a key, and says whether it was absent.
fn insert(set: &VbrSet, pass: &mut Pass, key: u64) -> bool
    requires own { IsOf pass.old.trace set.now }
    requires empty_hand { pass.old.hand ≡ None }
    ensures { IsOf pass.new.trace set.now }
{
    set.insert(pass, key, 100) == Ok(true)
}

// Whether reports are those of one key, and then of two.
fn have_one_and_two(told: &Report, last: &Report) -> bool {
    told.keys.as_slice() == [9].as_slice()
        && (told.epoch, told.live, told.marked, told.free) == (1, 1, 0, 3)
        && last.keys.as_slice() == [2, 9].as_slice()
}

// Opens a set, makes a call, reports what is in it, makes another, and closes it.
fn tells_and_closes(alloc: Global) -> Option<bool> {
    let shape = Shape::new(4, 2, 10).ok()?;
    let (set, mut passes, refused) = open(alloc, shape)?;
    let is_first = insert(&set, &mut passes[1], 9);
    let (report, refused_report) = tell(&set, alloc, &mut passes)?;
    let is_second = insert(&set, &mut passes[0], 2);
    let (last, refused_close) = close(set, alloc, passes)?;
    let is_told = have_one_and_two(&report, &last);
    (is_first && is_second && is_told).then_some(refused | refused_report | refused_close)
}

#[test]
fn set_tells_and_closes(rt: HostRuntime) {
    is_right(&rt, tells_and_closes(rt.alloc()));
}

// Inserts a key, removes it, and inserts another, and says whether each was so answered.
fn insert_and_remove(set: &VbrSet, pass: &mut Pass) -> bool
    requires own { IsOf pass.old.trace set.now }
    requires empty_hand { pass.old.hand ≡ None }
    ensures { IsOf pass.new.trace set.now }
{
    set.insert(pass, 1, 100) == Ok(true)
        && set.remove(pass, 1, 100) == Ok(true)
        && set.insert(pass, 2, 100) == Ok(true)
}

// Opens a set, makes three calls, and closes it.
fn opens_and_closes(alloc: Global) -> Option<bool> {
    let shape = Shape::new(1, 1, 10).ok()?;
    let (set, mut passes, refused) = open(alloc, shape)?;
    let is_answered = insert_and_remove(&set, &mut passes[0]);
    let (report, refused_close) = close(set, alloc, passes)?;
    let is_told = report.keys.as_slice() == [2].as_slice()
        && (report.epoch, report.live, report.marked, report.free) == (2, 1, 0, 0);
    (is_answered && is_told).then_some(refused | refused_close)
}

#[test]
fn set_opens_and_closes(rt: HostRuntime) {
    is_right(&rt, opens_and_closes(rt.alloc()));
}

// Whether a report is that of three keys in four slots.
pub fn has_three(report: &Report) -> bool {
    report.keys.as_slice() == [2, 5, 9].as_slice()
        && (report.epoch, report.live, report.marked, report.free) == (1, 3, 0, 1)
}

// Opens a set with three keys, and closes it at once.
fn opens_with_three_and_closes(alloc: Global) -> Option<bool> {
    let shape = Shape::new(4, 2, 10).ok()?;
    let (set, passes, refused) = open_with::<Keys>(alloc, shape, &[2, 5, 9])?;
    let (report, refused_close) = close(set, alloc, passes)?;
    has_three(&report).then_some(refused | refused_close)
}

#[test]
fn set_opens_with_three_and_closes(rt: HostRuntime) {
    is_right(&rt, opens_with_three_and_closes(rt.alloc()));
}
