//! The nodes of a map: it opens with entries, and its report lists entries.
ghost use Rattle.std.specs.Prelude.{◌≡◌, List, refl, true};
ghost use Rattle.vbr_slots.specs.views.Views.{PassView, TableView};
ghost use Rattle.vbr_set.specs.reports.Closing.{ReportsLegally};
ghost use Rattle.vbr_set.specs.reports.Contents.{TellsEnd, entry_in_slot};
ghost use Rattle.vbr_set.specs.reports.Kinds.{as_map};
ghost use Rattle.vbr_set.specs.reports.KindLaws.{counts_entries, entries_ascend, keys_of_entries, map_reopens};

use crate::contents::Contents;
use crate::kind::{Kind, OpenedSlots};
use crate::report::MapReport;
use std::alloc::Global;
use vbr_machine::laws::a_run_is_a_map;
use vbr_slots::Slots;
use vbr_words::{Entries, Place, Shape, place_index};

impl Kind for Entries {
    type Item = (u64, u64);

    type Report = MapReport;

    ghost kind = { as_map };

    ghost shown = { entry_in_slot };

    #[inline]
    fn open_slots(
        alloc: Global,
        shape: Shape,
        passes: u32,
        entries: &[(u64, u64)],
    ) -> OpenedSlots<Entries> {
        Slots::open_many_with_entries(alloc, shape, passes, entries)
    }

    #[inline]
    fn read(shape: &Shape, words: &[u64], slot: u32) -> (u64, u64) {
        (
            words[place_index(shape, Place::Key(slot))],
            words[place_index(shape, Place::Value(slot))],
        )
    }

    fn report(told: Contents<(u64, u64)>) -> MapReport
        ensures { (table : TableView) (passes : List PassView) →
            table.start.shape.values ≡ true → (end : TellsEnd entry_in_slot table passes told) →
            ReportsLegally as_map table.start end.ends.run result }
    {
        a_run_is_a_map();
        let Contents {
            listed: mut entries,
            epoch,
            live,
            marked,
            free,
        } = told;
        entries.sort_unstable_by_key(|entry| entry.0);
        MapReport {
            entries,
            epoch,
            live,
            marked,
            free,
        }
    }

    #[inline]
    fn items(report: &MapReport) -> &[(u64, u64)] {
        &report.entries
    }

    ghost no_keys = { refl };

    ghost counts = { counts_entries };

    ghost ascends = { entries_ascend };

    ghost lists_keys = { keys_of_entries };

    ghost reopens = { map_reopens };
}
