//! A set lists keys.
ghost use Rattle.vbr_handles.specs.Listings.{as_keys};
ghost use Rattle.vbr_handles.specs.ListedKeys.{as_many_listed, each_key, keys_restart, same_keys_listed};

use crate::items::Listed;
use crate::report_numbers::ReportNumbers;
use std::alloc::Global;
use vbr_set::{Member, OpenManyError, Report};
use vbr_words::{Keys, Shape};

impl Listed<Keys> for u64 {
    ghost listing = { as_keys };

    ghost key = { λ key. key };

    fn key(&self) -> u64 {
        *self
    }

    fn open(
        alloc: Global,
        shape: Shape,
        passes: u32,
        keys: &[u64],
    ) -> Result<Vec<Member>, OpenManyError> {
        Member::open_many(alloc, shape, passes, keys)
    }

    fn numbers(report: &Report) -> ReportNumbers {
        ReportNumbers::new(report.epoch, report.live, report.marked, report.free)
    }

    fn count(report: &Report) -> usize {
        report.keys.len()
    }

    fn write(report: &Report, keys: &mut [u64]) {
        keys[..report.keys.len()].copy_from_slice(&report.keys);
    }

    ghost restarts = { keys_restart };

    ghost as_many = { as_many_listed };

    ghost same_keys = { same_keys_listed };

    ghost keys = { each_key };
}
