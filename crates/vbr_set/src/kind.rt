//! What the kind of nodes decides of a set or a map.
ghost use Rattle.std.specs.Prelude.{◌≡◌, ℕ, ◌<◌, ◌≤◌, ◌↔◌, ◌⊎◌, List, [], length, IfOk, IsErrOf};
ghost use Rattle.std.specs.List.Sorted.{IsStrictlyIncreasing};
ghost use Rattle.vbr_words.specs.Dimensions.{Dimensions};
ghost use Rattle.vbr_words.specs.Places.{words_in};
ghost use Rattle.vbr_machine.specs.Accounts.{incarnations_after};
ghost use Rattle.vbr_machine.specs.History.{set_after};
ghost use Rattle.vbr_machine.specs.Incarnations.{Incarnations};
ghost use Rattle.vbr_machine.specs.Keys.{AreKeysOf};
ghost use Rattle.vbr_machine.specs.Opened.{opening_keys};
ghost use Rattle.vbr_machine.specs.Start.{Start, IsStart};
ghost use Rattle.vbr_machine.specs.declared.event.Event.{Event};
ghost use Rattle.vbr_machine.specs.declared.history.Call.{Call};
ghost use Rattle.vbr_slots.specs.runs.Openings.{OpensAs};
ghost use Rattle.vbr_slots.specs.runs.Rule.{with_opened};
ghost use Rattle.vbr_slots.specs.views.Views.{PassView, TableView};
ghost use Rattle.vbr_slots.specs.declared.opening.TheConstants.{MAX_MANY_PASSES};
ghost use Rattle.vbr_slots.specs.declared.rule.Opened.{Opened};
ghost use Rattle.vbr_set.specs.reports.Closing.{ReportsLegally};
ghost use Rattle.vbr_set.specs.reports.Contents.{TellsEnd};
ghost use Rattle.vbr_set.specs.reports.Kinds.{KindOf};
ghost use Rattle.vbr_set.specs.reports.Walking.{AreAfter};

mod entries;
mod keys;

use crate::contents::Contents;
use std::alloc::Global;
use vbr_slots::{OpenManyError, Pass, Slots};
use vbr_words::{Nodes, Shape};

// What an opening of slots returns: the slots with their passes, or why there are none.
pub(crate) type OpenedSlots<N> = Result<(Slots<N>, Vec<Pass>), OpenManyError>;

/// What the kind of nodes decides: a set has [`vbr_words::Keys`], and a map [`vbr_words::Entries`]. All
/// that a set and a map have in common is written once, over a kind.
pub trait Kind: Nodes + Sized {
    /// What a set or a map opens with and what its report lists: a key, or a key with its value.
    type Item: Copy;

    /// What it held when it was closed.
    type Report: Drop;

    ghost kind: { KindOf Self.Item Self.Report };

    ghost shown: { Incarnations → ℕ → Self.Item };

    /// Opens slots with these items, the keys of which ascend, and with so many passes, from 1 to
    /// [`vbr_slots::MAX_MANY_PASSES`].
    fn open_slots(
        alloc: Global,
        shape: Shape,
        passes: u32,
        items: &[Self::Item],
    ) -> OpenedSlots<Self>
        requires ascending { IsStrictlyIncreasing (kind.keys items.now) }
        requires few { length items.now ≤ shape.slots }
        ensures opened { IfOk result (λ r.
            OpensAs (kind.start shape items.now) passes r.0 r.1.items) }
        ensures refused { IsErrOf result OpenManyError.Passes
            ↔ ((passes ≡ 0) ⊎ (MAX_MANY_PASSES < passes)) };

    /// The item of the node of a slot, by the words of a closed table.
    fn read(shape: &Shape, words: &[u64], slot: u32) -> Self::Item
        requires words { length words.now ≡ words_in shape.now }
        requires slot { slot < shape.now.slots }
        requires values { shape.now.values ≡ Self.VALUES }
        ensures { (opened : Opened) (run : List Event) →
            let start = with_opened shape.now opened in
            AreAfter start words.now run → result ≡ shown (incarnations_after start run) slot };

    /// The report of what the words of a closed table say.
    fn report(told: Contents<Self::Item>) -> Self::Report
        ensures { (table : TableView) (passes : List PassView) →
            table.start.shape.values ≡ Self.VALUES → (end : TellsEnd shown table passes told) →
            ReportsLegally kind table.start end.ends.run result };

    /// What a report lists, ascending by key.
    fn items(report: &Self::Report) -> &[Self::Item]
        ensures { result.now ≡ (kind.contents report.now).listed.items };

    ghost no_keys: { kind.keys [] ≡ [] };

    ghost counts: { (shape : Dimensions) (items : List Self.Item) →
        length (kind.start shape items).keys ≡ length items };

    ghost ascends: { (start : Start) (calls : List Call) (items : List Self.Item) →
        kind.lists start calls items → IsStrictlyIncreasing (kind.keys items) };

    ghost lists_keys: { (start : Start) (calls : List Call) (items : List Self.Item) →
        kind.lists start calls items →
        AreKeysOf (kind.keys items) (set_after (opening_keys start) calls) };

    ghost reopens: { (start : Start) (items : List Self.Item) → IsStart start →
        start.shape.values ≡ Self.VALUES →
        kind.start start.shape items ≡ kind.with_items start items };
}
