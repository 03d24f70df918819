//! Threads that go over all keys while others insert and remove some of them.
use std::alloc::Global;
use std::test::Fail;
use std::thread::for_each_mut;
use vbr_set::{MAX_EPOCH, Member, Shape};

const BUDGET: u32 = 100_000;

const EVENS: [u64; 10] = [0, 2, 4, 6, 8, 10, 12, 14, 16, 18];

// A member that lists all keys, or inserts and removes odd ones; and how often it was wrong.
#[derive(Drop)]
struct Comer {
    member: Member,
    alloc: Global,
    lists: bool,
    wrong: u32,
}

// Whether all keys ascend, and how many are even.
fn evens_among(keys: &[u64]) -> Option<usize> {
    let mut evens = 0usize;
    let mut next = 0u64;
    for i in 0..keys.len() {
        if keys[i] < next {
            return None;
        }
        next = keys[i].saturating_add(1);
        if keys[i] % 2 == 0 {
            evens = evens.saturating_add(1);
        }
    }
    Some(evens)
}

impl Comer {
    // The even keys are there all the while, so each list has them, and a count is of ten keys or of up to
    // ten more; and in one bucket keys ascend.
    fn list(&mut self) {
        let listed = match self.member.keys_now(self.alloc, BUDGET) {
            Ok(keys) => evens_among(&keys) == Some(EVENS.len()),
            Err(_) => false,
        };
        let counted = match self.member.count_now(BUDGET) {
            Ok(count) => (10..=20).contains(&count),
            Err(_) => false,
        };
        if !listed || !counted {
            self.wrong = self.wrong.saturating_add(1);
        }
    }

    fn come_and_go(&mut self, round: u64) {
        let key = round % 10 * 2 + 1;
        let came = self.member.insert(key, BUDGET);
        let went = self.member.remove(key, BUDGET);
        if came.is_err() || went.is_err() {
            self.wrong = self.wrong.saturating_add(1);
        }
    }

    fn play(&mut self, rounds: u64) {
        for round in 0..rounds {
            if self.lists {
                self.list();
            } else {
                self.come_and_go(round);
            }
        }
    }
}

/// Two threads list all keys of one list of nodes while two others insert and remove the odd ones: each list
/// has each even key once, and ascends.
#[test]
fn what_stays_is_listed(rt: HostRuntime) -> Result<(), Fail> {
    let shape = Shape::new(10 + 10 + 4 * 64, 1, MAX_EPOCH)?;
    let members = Member::open_with(rt.alloc(), shape, 4, &EVENS)?;
    let mut comers = Vec::with_capacity(rt.alloc(), 4)?;
    for member in members {
        let comer = Comer {
            lists: member.pass().who() % 2 == 0,
            member,
            alloc: rt.alloc(),
            wrong: 0,
        };
        comers.push(comer).ok().ok_or("no room")?;
    }
    for_each_mut(&rt, comers.as_mut_slice(), 4, &|_, comer| comer.play(5_000));
    assert!(rt; comers.iter().all(|comer| comer.wrong == 0));
    Ok(())
}
