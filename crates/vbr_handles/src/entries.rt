//! A map lists entries.
ghost use Rattle.std.specs.Prelude.{◌≡◌, map, IfOk};
ghost use Rattle.vbr_handles.specs.Listings.{as_entries, as_pair};
ghost use Rattle.vbr_handles.specs.ListedKeys.{as_many_entries, each_key_of_entries, entries_restart, same_keys_of_entries};

use crate::entry::Entry;
use crate::items::Listed;
use crate::report_numbers::ReportNumbers;
use std::alloc::{AllocError, Global};
use vbr_set::{MapMember, MapReport, OpenManyError};
use vbr_words::{Entries, Shape};

impl Listed<Entries> for Entry {
    ghost listing = { as_entries };

    ghost key = { λ entry. entry.key };

    fn key(&self) -> u64 {
        self.key
    }

    fn open(
        alloc: Global,
        shape: Shape,
        passes: u32,
        entries: &[Entry],
    ) -> Result<Vec<MapMember>, OpenManyError> {
        let Ok(pairs) = pairs_of(alloc, entries) else {
            return Err(OpenManyError::Memory);
        };
        MapMember::open_many(alloc, shape, passes, &pairs)
    }

    fn numbers(report: &MapReport) -> ReportNumbers {
        ReportNumbers::new(report.epoch, report.live, report.marked, report.free)
    }

    fn count(report: &MapReport) -> usize {
        report.entries.len()
    }

    fn write(report: &MapReport, entries: &mut [Entry]) {
        for i in 0..report.entries.len() {
            let (key, value) = report.entries[i];
            entries[i] = Entry { key, value };
        }
    }

    ghost restarts = { entries_restart };

    ghost as_many = { as_many_entries };

    ghost same_keys = { same_keys_of_entries };

    ghost keys = { each_key_of_entries };
}

// Entries as pairs.
fn pairs_of(alloc: Global, entries: &[Entry]) -> Result<Vec<(u64, u64)>, AllocError>
    ensures { IfOk result (λ pairs. pairs.items ≡ map as_pair entries.now) }
{
    Ok(
        entries
            .iter()
            .map(|entry| (entry.key, entry.value))
            .collect(alloc)?,
    )
}
