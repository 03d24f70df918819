//! The item that stands for a node towards C: its key, or its entry.
ghost use Rattle.std.specs.Prelude.{◌≡◌, ℕ, ◌<◌, ◌≤◌, ◌++◌, ◌⊎◌, List, true, false, drop, length, map, IfOk, IsErrOf};
ghost use Rattle.std.specs.List.Sorted.{IsStrictlyIncreasing};
ghost use Rattle.vbr_words.specs.Dimensions.{Dimensions};
ghost use Rattle.vbr_machine.specs.Start.{start_with};
ghost use Rattle.vbr_slots.specs.declared.opening.TheConstants.{MAX_MANY_PASSES};
ghost use Rattle.vbr_set.specs.calls.Members.{AreNew};
ghost use Rattle.vbr_handles.specs.Listings.{Listing};
ghost use Rattle.vbr_handles.specs.Opening.{CanOpen};

use crate::report_numbers::ReportNumbers;
use std::alloc::Global;
use vbr_set::member::Member;
use vbr_set::{Kind, OpenManyError};
use vbr_words::Shape;

/// What is listed of a node of a kind: its key, or its key with its value. A set or a map opens with such
/// items, and its report lists them.
pub trait Listed<N: Kind>: Copy {
    ghost listing: { Listing N.Report Self };

    ghost key: { Self → ℕ };

    /// Its key.
    fn key(&self) -> u64
        ensures { result ≡ key self.now };

    /// Opens a set of these keys, or a map of these entries, and gives its members, from 1 to
    /// [`vbr_set::MAX_MANY_PASSES`] of them.
    fn open(
        alloc: Global,
        shape: Shape,
        passes: u32,
        items: &[Self],
    ) -> Result<Vec<Member<N>>, OpenManyError>
        requires { CanOpen (listing.keys items.now) shape.slots }
        ensures members { IfOk result (λ members. AreNew (start_with
            (record shape { values = listing.values })
            (listing.keys items.now) (listing.payloads items.now)) passes members.items) }
        ensures refused { IsErrOf result OpenManyError.Passes
            → ((passes ≡ 0) ⊎ (MAX_MANY_PASSES < passes)) };

    /// The numbers of a report.
    fn numbers(report: &N::Report) -> ReportNumbers
        ensures { result ≡ listing.numbers report.now };

    /// The number of keys that a report lists.
    fn count(report: &N::Report) -> usize
        ensures { result ≡ length (listing.items report.now) };

    /// Writes what a report lists to the front of an array.
    fn write(report: &N::Report, items: &mut [Self])
        requires { length (listing.items report.now) ≤ length items.old }
        ensures { items.new
            ≡ listing.items report.now ++ drop (length (listing.items report.now)) items.old };

    /// Whether the keys ascend, each above the one before, and there are no more of them than slots.
    final fn can_open(items: &[Self], slots: u32) -> bool
        ensures yes { result ≡ true → CanOpen (listing.keys items.now) slots }
        ensures no { result ≡ false → ¬ (CanOpen (listing.keys items.now) slots) }
    {
        items.len() <= slots as usize && ascend::<N, Self>(items)
    }

    ghost restarts: { (shape : Dimensions) (report : N.Report) →
        N.kind.start shape (N.kind.contents report).listed.items
        ≡ start_with (record shape { values = listing.values })
        (listing.keys (listing.items report)) (listing.payloads (listing.items report)) };

    ghost as_many: { (report : N.Report) →
        length (listing.items report) ≡ length (N.kind.contents report).listed.items };

    ghost same_keys: { (report : N.Report) →
        listing.keys (listing.items report) ≡ N.kind.keys (N.kind.contents report).listed.items };

    ghost keys: { (items : List Self) → listing.keys items ≡ map key items };
}

// Whether the keys of items ascend, each above the one before.
fn ascend<N: Kind, I: Listed<N>>(items: &[I]) -> bool
    ensures ascending { result ≡ true → IsStrictlyIncreasing (I.listing.keys items.now) }
    ensures not { result ≡ false → ¬ (IsStrictlyIncreasing (I.listing.keys items.now)) }
{
    for i in 1..items.len() {
        if items[i - 1].key() >= items[i].key() {
            return false;
        }
    }
    true
}
