//! Four threads that claim pages by a set that they share.
use crate::worker::Worker;
use anyhow::bail;
use std::alloc::Global;
use std::thread::{Threads, for_each_mut};
use vbr_set::{MAX_EPOCH, Member, Report, Shape};

/// The pages that each of four workers came upon; some are the same.
const FOUND: [[u64; 4]; 4] = [[1, 2, 3, 5], [2, 4, 6, 8], [3, 5, 8, 13], [13, 10, 8, 1]];

/// Lets four workers claim pages, each in a thread of its own, and answers how many were claimed,
/// with the report on the set in the end.
pub fn claim_pages<R: Threads + Sync>(rt: &R, alloc: Global) -> anyhow::Result<(u32, Report)> {
    let members = Member::open(alloc, Shape::new(64, 16, MAX_EPOCH)?, 4)?;
    let mut workers = Vec::with_capacity(alloc, members.len())?;
    for (member, pages) in members.into_iter().zip(FOUND.iter()) {
        workers.push(Worker::new(member, pages))?;
    }
    for_each_mut(
        rt,
        workers.as_mut_slice(),
        FOUND.len(),
        &|_, worker| worker.claim_all(),
    );
    let mut claimed = 0u32;
    let mut report = None;
    for worker in workers {
        claimed = claimed.saturating_add(worker.claimed?);
        report = worker.member.close(alloc)?;
    }
    match report {
        Some(report) => Ok((claimed, report)),
        None => bail!("a member is still in use"),
    }
}
