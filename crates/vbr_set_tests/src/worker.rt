//! A worker of a test: it makes calls at random on a set of few keys, and counts the answers.
ghost use Rattle.std.specs.Prelude.{◌<◌};

use vbr_set::{Member, Refusal};

/// How many keys the workers share, from 0 on.
pub const KEYS: usize = 8;

const BUDGET: u32 = 1_000_000;

/// A member of a set, and how often its inserts and removes of each key were answered yes.
#[derive(Drop)]
pub struct Worker {
    member: Member,
    random: u64,
    pub inserted: [u32; KEYS],
    pub removed: [u32; KEYS],
    /// How many calls ran out of steps.
    pub tired: u32,
}

impl Worker {
    /// A worker that has made no call, with the seed of its random numbers.
    pub fn new(member: Member, seed: u64) -> Worker {
        Worker {
            member,
            random: seed,
            inserted: [0; KEYS],
            removed: [0; KEYS],
            tired: 0,
        }
    }

    /// Makes so many calls.
    pub fn play(&mut self, calls: u32) {
        for _ in 0..calls {
            self.call();
        }
    }

    /// Whether a key is in the set.
    pub fn finds(&mut self, key: u64) -> Result<bool, Refusal> {
        self.member.has(key, BUDGET)
    }

    fn call(&mut self) {
        self.random = self
            .random
            .wrapping_mul(6_364_136_223_846_793_005)
            .wrapping_add(1_442_695_040_888_963_407);
        let place = (self.random >> 33) as usize % KEYS;
        let key = place as u64;
        let answer = match (self.random >> 40) % 3 {
            0 => self.insert(key, place),
            1 => self.remove(key, place),
            _ => self.finds(key),
        };
        if let Err(Refusal::OutOfSteps { used: _ }) = answer {
            self.tired = self.tired.saturating_add(1);
        }
    }

    fn insert(&mut self, key: u64, place: usize) -> Result<bool, Refusal>
        requires { place < KEYS }
    {
        let added = self.member.insert(key, BUDGET)?;
        count(&mut self.inserted, place, added);
        Ok(added)
    }

    fn remove(&mut self, key: u64, place: usize) -> Result<bool, Refusal>
        requires { place < KEYS }
    {
        let removed = self.member.remove(key, BUDGET)?;
        count(&mut self.removed, place, removed);
        Ok(removed)
    }
}

// Counts an answer that is yes.
fn count(counts: &mut [u32; KEYS], place: usize, is_yes: bool)
    requires { place < KEYS }
{
    if is_yes {
        counts[place] = counts[place].saturating_add(1);
    }
}
