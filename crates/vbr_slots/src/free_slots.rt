//! How many slots the shared pool has, by loads that are no steps.
ghost use Rattle.std.specs.Prelude.{◌≤◌};

use crate::slots::Slots;
use vbr_words::flags::flag_words;
use vbr_words::{Nodes, Place, place_index_in};

impl<N: Nodes> Slots<N> {
    /// How many slots lie in the shared pool, for those who operate a program. It loads one word for each 64 slots, without
    /// a seat. So these loads are no steps, and no pass learns of them. What other passes take and give meanwhile may be
    /// counted or not: no contract says more than the bound, and tests do.
    pub fn free_about(&self) -> u32
        ensures { result ≤ self.now.start.shape.slots }
    {
        let shape = &self.opening.shape;
        let mut free: u32 = 0;
        for number in 0..flag_words(shape) {
            let place = place_index_in::<N>(shape, Place::Flags(number));
            let flags = self.table.shared.peek(place);
            free = free.saturating_add(flags.count_ones());
        }
        free.min(shape.slots())
    }
}
