//! Renewals of a set and of a map.
ghost use Rattle.std.specs.Prelude.{◌≡◌, ◌≤◌, length, IfSome};
ghost use Rattle.std.specs.List.Sorted.{IsStrictlyIncreasing};
ghost use Rattle.vbr_slots.specs.runs.Closing.{AllOf};
ghost use Rattle.vbr_slots.specs.views.Views.{new_passes};

use crate::refusals::maps::ENTRIES;
use crate::refusals::round::is_right;
use crate::refusals::set::{close, open_with};
use crate::refusals::{maps, set};
use std::alloc::Global;
use vbr_set::set::VbrSet;
use vbr_set::{Kind, MapReport, Pass, RenewError, Report, Shape};
use vbr_words::{Entries, Keys};

// Nodes of a set or a map that is renewed.
trait Renewed: Kind {
    // Whether a report is that of its three items in four slots.
    fn has_three(report: &Self::Report) -> bool;
}

impl Renewed for Keys {
    fn has_three(report: &Report) -> bool {
        set::has_three(report)
    }
}

impl Renewed for Entries {
    fn has_three(report: &MapReport) -> bool {
        maps::has_three(report)
    }
}

// A fresh set with the three items that are in this one, which has this shape, and whether memory was refused.
// If nothing is left of the set, its report lists them, and they go on.
fn renew<N: Renewed>(
    alloc: Global,
    set: VbrSet<N>,
    passes: Vec<Pass>,
    shape: Shape,
    items: &[N::Item],
) -> Option<(VbrSet<N>, Vec<Pass>, bool)>
    requires own { AllOf set passes.items }
    requires two { set.passes ≡ 2 }
    requires ascending { IsStrictlyIncreasing (N.kind.keys items.now) }
    requires few { length items.now ≤ shape.slots }
    ensures { IfSome result (λ r. r.1.items ≡ new_passes r.0 0 2) }
{
    match set.renew(alloc, passes) {
        Ok((set, passes)) => Some((set, passes, false)),
        Err(RenewError::Missing(..)) => None,
        Err(RenewError::Memory(set, passes)) => {
            let (set, passes) = renew_again(alloc, set, passes)?;
            Some((set, passes, true))
        }
        Err(RenewError::Closed(report)) => {
            let (set, passes, _) = open_with::<N>(alloc, shape, items)?;
            N::has_three(&report).then_some((set, passes, true))
        }
    }
}

// The same if it was refused once. A refusal that follows comes before anything is changed.
fn renew_again<N: Kind>(
    alloc: Global,
    set: VbrSet<N>,
    passes: Vec<Pass>,
) -> Option<(VbrSet<N>, Vec<Pass>)>
    requires own { AllOf set passes.items }
    requires two { set.passes ≡ 2 }
    ensures { IfSome result (λ r. r.1.items ≡ new_passes r.0 0 2) }
{
    match set.renew(alloc, passes) {
        Ok(renewed) => Some(renewed),
        Err(RenewError::Memory(set, passes)) => set.renew(alloc, passes).ok(),
        Err(_) => None,
    }
}

// Opens a set with three items, renews it, and closes it.
fn renews_and_closes<N: Renewed>(alloc: Global, items: &[N::Item]) -> Option<bool>
    requires ascending { IsStrictlyIncreasing (N.kind.keys items.now) }
    requires three { length items.now ≡ 3 }
{
    let shape = Shape::new(4, 2, 10).ok()?;
    let (set, passes, refused) = open_with::<N>(alloc, shape, items)?;
    let (set, passes, refused_renewal) = renew(alloc, set, passes, shape, items)?;
    let (report, refused_close) = close(set, alloc, passes)?;
    N::has_three(&report).then_some(refused | refused_renewal | refused_close)
}

#[test]
fn set_is_renewed(rt: HostRuntime) {
    is_right(&rt, renews_and_closes::<Keys>(rt.alloc(), &[2, 5, 9]));
}

#[test]
fn map_is_renewed_with_keys(rt: HostRuntime) {
    is_right(&rt, renews_and_closes::<Entries>(rt.alloc(), &ENTRIES));
}
