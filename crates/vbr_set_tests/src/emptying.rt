//! Four threads empty a list, each of every fourth key, from the greatest on. So they remove neighbours
//! at the same time, and nobody comes by a node again whose removal has ended.
use std::alloc::Global;
use std::test::Fail;
use std::thread::for_each_mut;
use vbr_set::{EndError, MAX_EPOCH, Member, Refusal, Report, Shape};

const BUDGET: u32 = 1_000_000;

// How many keys each thread removes; the threads are four.
const SHARE: u64 = 16;

// A member that removes every fourth key, beginning with its own number, and how many it has removed.
#[derive(Drop)]
struct Emptier {
    member: Member,
    removed: u64,
}

impl Emptier {
    fn fill(&mut self) -> Result<(), Refusal> {
        for key in 0..4 * SHARE {
            self.member.insert(key, BUDGET)?;
        }
        Ok(())
    }

    fn remove(&mut self, key: u64) {
        if let Ok(true) = self.member.remove(key, BUDGET) {
            self.removed = self.removed.saturating_add(1);
        }
    }

    fn empty(&mut self) {
        let first = u64::from(self.member.pass().who());
        for i in 0..SHARE {
            self.remove(first.saturating_add(4 * (SHARE - 1 - i)));
        }
    }
}

// Ends the set of the members, and returns its report.
fn end(alloc: Global, emptiers: Vec<Emptier>) -> Result<Option<Report>, EndError> {
    let mut report = None;
    for emptier in emptiers {
        report = emptier.member.close(alloc)?;
    }
    Ok(report)
}

/// Each key is removed once, and each removed node has left the list.
#[test]
fn four_threads_empty_a_list(rt: HostRuntime) -> Result<(), Fail> {
    let shape = Shape::new(64, 1, MAX_EPOCH)?;
    for _ in 0..300 {
        let members = Member::open(rt.alloc(), shape, 4)?;
        let mut emptiers: Vec<Emptier> = members
            .into_iter()
            .map(|member| Emptier { member, removed: 0 })
            .collect(rt.alloc())?;
        if let Some(first) = emptiers.first_mut() {
            first.fill()?;
        }
        for_each_mut(
            &rt,
            emptiers.as_mut_slice(),
            4,
            &|_, emptier| emptier.empty(),
        );
        assert!(rt; emptiers.iter().all(|emptier| emptier.removed == SHARE));
        let report = end(rt.alloc(), emptiers)?.expect(&rt, "it is closed");
        assert_eq!(rt; (report.live, report.marked, report.free), (0, 0, 64));
    }
    Ok(())
}
