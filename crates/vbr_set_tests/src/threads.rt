//! Threads that make calls on one set.
ghost use Rattle.std.specs.Prelude.{◌<◌};

use crate::worker::{KEYS, Worker};
use std::alloc::Global;
use std::test::Fail;
use std::thread::for_each_mut;
use vbr_set::{MAX_EPOCH, Member, Refusal, Shape};

// Whether the inserts of a key that were answered yes are as many as the removes, and one more if
// the key is in the set now.
fn is_balanced(workers: &mut [Worker], key: usize) -> Result<bool, Refusal>
    requires { key < KEYS }
{
    let mut inserted = 0u32;
    let mut removed = 0u32;
    for worker in workers.iter() {
        inserted = inserted.saturating_add(worker.inserted[key]);
        removed = removed.saturating_add(worker.removed[key]);
    }
    let mut present = false;
    if let Some(worker) = workers.first_mut() {
        present = worker.finds(key as u64)?;
    }
    Ok(inserted == removed.saturating_add(u32::from(present)))
}

// Four members of a set of one list, each with random numbers of its own.
fn open_workers(alloc: Global, seed: u64) -> Result<Vec<Worker>, Fail>
    requires { seed < 100 }
{
    let mut workers = Vec::with_capacity(alloc, 4)?;
    for member in Member::open(alloc, Shape::new(16, 1, MAX_EPOCH)?, 4)? {
        let random = 4 * seed + u64::from(member.pass().who());
        workers
            .push(Worker::new(member, random))
            .ok()
            .ok_or("no room")?;
    }
    Ok(workers)
}

/// Four threads make calls at random on a set of one list, and none runs out of steps. The answers
/// that they get to inserts and removes of each key are balanced.
#[test]
fn four_threads_share_a_list(rt: HostRuntime) -> Result<(), Fail> {
    for seed in 0..100 {
        let mut workers = open_workers(rt.alloc(), seed)?;
        for_each_mut(
            &rt,
            workers.as_mut_slice(),
            4,
            &|_, worker| worker.play(200),
        );
        for key in 0..KEYS {
            assert!(rt; is_balanced(workers.as_mut_slice(), key)?);
        }
        assert!(rt; workers.iter().all(|worker| worker.tired == 0));
    }
    Ok(())
}
