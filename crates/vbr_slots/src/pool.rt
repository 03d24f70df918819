//! The own pool of a pass.
ghost use Rattle.std.specs.Prelude.{◌≡◌, ◌<◌, ◌≤◌, ◌++◌, [], ◌∷◌, length, drop, remove};

use crate::pass::POOL;
use arrayvec::ArrayVec;
use std::marker::Model;

// The room for slots and for those that have left in front. It is twice what a pool may hold, so the
// slots are moved to the front once for many that leave there.
const ROOM: usize = 2 * POOL;

/// Slots in the order in which they came, the oldest first. Those before `first` have left.
#[derive(Drop)]
pub struct Pool {
    pub(crate) cells: ArrayVec<u32, ROOM>,
    pub(crate) first: usize,
}

impl Model for Pool {
    ghost use Rattle.vbr_slots.specs.pools.Pools.{PoolView};

    ghost Value = { PoolView };

    ghost use Rattle.vbr_slots.specs.views.PoolView.{pool_of, IsInRoom};

    ghost view = { pool_of };

    ghost invariant = { IsInRoom };
}

impl Pool {
    // A pool with no slot.
    pub(crate) fn new() -> Pool
        ensures { result.items ≡ [] }
    {
        Pool {
            cells: ArrayVec::new(),
            first: 0,
        }
    }

    // The law of own pools. It does nothing.
    #[inline]
    pub(crate) fn law(&self)
        ensures { length self.now.items ≤ POOL }
    {
        let _first = self.first;
    }

    // Its slots.
    #[inline]
    pub(crate) fn as_slice(&self) -> &[u32]
        ensures value { result.now ≡ self.now.items }
        ensures fits { length result.now ≤ POOL }
    {
        &self.cells.as_slice()[self.first..]
    }

    // Puts a slot at the end.
    #[inline]
    pub(crate) fn push(&mut self, slot: u32)
        requires { length self.old.items < POOL }
        ensures items { self.new.items ≡ self.old.items ++ slot ∷ [] }
    {
        if self.cells.is_full() {
            self.push_moved(slot);
        } else {
            self.cells.push(slot);
        }
    }

    // As `push`, if the cells are full: first moves the slots to their front.
    #[inline(never)]
    fn push_moved(&mut self, slot: u32)
        requires { length self.old.items < POOL }
        ensures items { self.new.items ≡ self.old.items ++ slot ∷ [] }
    {
        self.cells = cells_from(&self.cells, self.first);
        self.first = 0;
        self.cells.push(slot);
    }

    // Takes out the slot at a place. The first leaves at once, and no slot moves.
    #[inline]
    pub(crate) fn remove(&mut self, index: usize)
        requires { index < length self.old.items }
        ensures items { self.new.items ≡ remove self.old.items index }
    {
        let _len = self.cells.len();
        if index == 0 {
            self.first += 1;
        } else {
            self.remove_moved(index);
        }
    }

    // As `remove`, if others stand before it: those behind it move.
    #[inline(never)]
    fn remove_moved(&mut self, index: usize)
        requires { index < length self.old.items }
        ensures items { self.new.items ≡ remove self.old.items index }
    {
        let _len = self.cells.len();
        self.cells.remove(self.first + index);
    }
}

// The slots from a place on, in cells that begin with them.
#[inline]
fn cells_from(cells: &ArrayVec<u32, ROOM>, first: usize) -> ArrayVec<u32, ROOM>
    requires { first ≤ length cells.now.items }
    ensures { result.items ≡ drop first cells.now.items }
{
    let mut moved = ArrayVec::new();
    let outcome = moved.try_extend_from_slice(&cells.as_slice()[first..]);
    if outcome.is_err() {
        unreachable!()
    }
    moved
}
