//! A worker that goes over all pages while others use them, and frees those that it comes upon.
ghost use Rattle.std.specs.Prelude.{IfOk};
ghost use Rattle.vbr_example.specs.Sweeping.{HasSwept};

use crate::worker::BUDGET;
use anyhow::bail;
use std::alloc::Global;
use std::thread::{Threads, join};
use vbr_list::laws::{
    an_iteration_begins, an_iteration_ends, an_iteration_goes_on, an_iteration_waits,
};
use vbr_set::{Cursor, MAX_EPOCH, Member, Refusal, Shape};

/// The pages that are claimed in the beginning.
const CLAIMED: [u64; 5] = [3, 4, 19, 20, 35];

/// Frees each page that it comes upon, and answers how many it came upon. It comes upon each page that is
/// claimed all the while, once, though it makes calls of its own on its way: what the calls of an iteration
/// give together doesn't ask that there are none in between.
pub fn free_all(member: &mut Member) -> Result<u64, Refusal>
    ensures { IfOk result (HasSwept member.old.pass.trace member.new.pass.trace) }
{
    member.pass().law();
    an_iteration_begins();
    an_iteration_goes_on();
    an_iteration_waits();
    an_iteration_ends();
    let mut cursor = Cursor::first();
    let mut count = 0u64;
    loop {
        let next = member.next_key(&mut cursor, BUDGET)?;
        cursor.law();
        let Some(page) = next else { return Ok(count) };
        member.remove(page, BUDGET)?;
        count = count.saturating_add(1);
    }
}

/// Lets one worker free all pages in a thread of its own while another looks them up, and answers how many
/// it came upon.
pub fn sweep_pages<R: Threads + Sync>(rt: &R, alloc: Global) -> anyhow::Result<u64> {
    let shape = Shape::new(64 + 2 * 64, 16, MAX_EPOCH)?;
    let mut members = Member::open_with(alloc, shape, 2, &CLAIMED)?;
    let (Some(reader), Some(sweeper)) = (members.pop(), members.pop()) else {
        bail!("there are two members")
    };
    let (mut reader, mut sweeper) = (reader, sweeper);
    let (count, looked) = join(
        rt,
        move || free_all(&mut sweeper),
        move || reader.has(CLAIMED[0], BUDGET),
    );
    looked?;
    Ok(count?)
}
