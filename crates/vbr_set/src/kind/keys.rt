//! The nodes of a set: it opens with keys, and its report lists keys.
ghost use Rattle.std.specs.Prelude.{◌≡◌, List, false, refl};
ghost use Rattle.vbr_machine.specs.Nodes.{key_in_slot};
ghost use Rattle.vbr_slots.specs.views.Views.{PassView, TableView};
ghost use Rattle.vbr_set.specs.reports.Closing.{ReportsLegally};
ghost use Rattle.vbr_set.specs.reports.Contents.{TellsEnd};
ghost use Rattle.vbr_set.specs.reports.Kinds.{as_set};
ghost use Rattle.vbr_set.specs.reports.KindLaws.{counts_keys, keys_ascend, keys_of_keys, set_reopens};

use crate::contents::Contents;
use crate::kind::{Kind, OpenedSlots};
use crate::report::Report;
use std::alloc::Global;
use vbr_slots::Slots;
use vbr_words::{Keys, Place, Shape, place_index};

impl Kind for Keys {
    type Item = u64;

    type Report = Report;

    ghost kind = { as_set };

    ghost shown = { key_in_slot };

    #[inline]
    fn open_slots(alloc: Global, shape: Shape, passes: u32, keys: &[u64]) -> OpenedSlots<Keys> {
        Slots::open_many(alloc, shape, passes, keys)
    }

    #[inline]
    fn read(shape: &Shape, words: &[u64], slot: u32) -> u64 {
        words[place_index(shape, Place::Key(slot))]
    }

    fn report(told: Contents<u64>) -> Report
        ensures { (table : TableView) (passes : List PassView) →
            table.start.shape.values ≡ false → (end : TellsEnd key_in_slot table passes told) →
            ReportsLegally as_set table.start end.ends.run result }
    {
        let Contents {
            listed: mut keys,
            epoch,
            live,
            marked,
            free,
        } = told;
        keys.sort_unstable();
        Report {
            keys,
            epoch,
            live,
            marked,
            free,
        }
    }

    #[inline]
    fn items(report: &Report) -> &[u64] {
        &report.keys
    }

    ghost no_keys = { refl };

    ghost counts = { counts_keys };

    ghost ascends = { keys_ascend };

    ghost lists_keys = { keys_of_keys };

    ghost reopens = { set_reopens };
}
