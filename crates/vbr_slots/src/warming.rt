//! Loads that are no steps: they bring words into the cache before a pass reads them.
ghost use Rattle.std.specs.Prelude.{◌≡◌, ◌+◌, ◌-◌, ◌*◌, ◌^◌, ◌<◌, ◌≤◌, length, min};
ghost use Rattle.vbr_words.specs.Places.{IsIn};

use crate::slots::Slots;
use vbr_words::{Nodes, Place, decode, place_index_in};

/// How many keys [`Slots::warm`] takes at once.
pub const BATCH: usize = 16;

// With fewer slots the words are in the cache of a processor as it is.
const LARGE: u32 = 16_384;

impl<N: Nodes> Slots<N> {
    /// Brings into the cache what look-ups of some keys begin with, the first [`BATCH`] of these: the head of
    /// each key's bucket, then the node that it names, and then the one that this names. None of these loads
    /// waits for that of another, so the memory serves them side by side. In a small table it does nothing.
    ///
    /// It returns how many loads it made: none in a table of fewer than 16,384 slots, and else one for each of these
    /// keys, and up to four more. They are loads without a seat, so they are no steps, no pass learns of them, and
    /// what they find is used for nothing else: a link says which slot is loaded next, if it is one of the table.
    pub fn warm(&self, keys: &[u64]) -> u32
        ensures small { self.now.start.shape.slots < LARGE → result ≡ 0 }
        ensures heads { LARGE ≤ self.now.start.shape.slots → min (length keys.now) BATCH ≤ result }
        ensures most { result ≤ 5 * min (length keys.now) BATCH }
    {
        if self.opening.shape.slots() < LARGE {
            return 0;
        }
        let count = keys.len().min(BATCH);
        let mut loads = 0;
        let mut links = [0; BATCH];
        'heads: for i in 0..count {
            links[i] = self.peek_head(keys[i], &mut loads);
        }
        'nodes: for i in 0..count {
            links[i] = self.peek_node(links[i], &mut loads);
        }
        'next: for i in 0..count {
            self.peek_node(links[i], &mut loads);
        }
        loads
    }

    // Loads the head of the bucket of a key.
    #[inline(always)]
    fn peek_head(&self, key: u64, loads: &mut u32) -> u64
        requires { loads.old < 2 ^ 16 }
        ensures { loads.new ≡ loads.old + 1 }
    {
        let place = Place::Head(self.opening.shape.bucket_of(key));
        self.peek(place, loads)
    }

    // Loads the last and the first word of the node that a link word names, and so all lines that it lies on.
    // The first is its link, which is returned; if there is no node, what was given.
    #[inline(always)]
    fn peek_node(&self, word: u64, loads: &mut u32) -> u64
        requires { loads.old < 2 ^ 16 }
        ensures counted { loads.old ≤ loads.new }
        ensures most { loads.new ≤ loads.old + 2 }
    {
        let Some(slot) = decode(word, self.layout()).slot else {
            return word;
        };
        if slot >= self.opening.shape.slots() {
            return word;
        }
        let last = if N::VALUES {
            Place::Value(slot)
        } else {
            Place::Key(slot)
        };
        self.peek(last, loads);
        self.peek(Place::LinkOf(slot), loads)
    }

    // The load of a word without a seat, which is counted: all loads here go through it.
    #[inline(always)]
    fn peek(&self, place: Place, loads: &mut u32) -> u64
        requires place { IsIn self.now.start.shape place }
        requires few { loads.old < 2 ^ 32 - 1 }
        ensures { loads.new ≡ loads.old + 1 }
    {
        *loads += 1;
        self.table
            .shared
            .peek(place_index_in::<N>(&self.opening.shape, place))
    }
}
