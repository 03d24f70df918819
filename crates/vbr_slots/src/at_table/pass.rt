//! What a pass has at its table: its law, its epoch and its own pool.
ghost use Rattle.std.specs.Prelude.{◌≡◌, ◌<◌, ◌≤◌, ◌⊎◌, [], ◌∷◌, ◌++◌, length, Some, Contains};
ghost use Rattle.vbr_machine.specs.Acceptance.{IsFree};
ghost use Rattle.vbr_slots.specs.steps.AtTables.{IsSameTable, pass_of, trace_of};
ghost use Rattle.vbr_slots.specs.steps.PassLaw.{PassLaw};
ghost use Rattle.vbr_slots.specs.pools.Pools.{OwnPool, hand_without};
ghost use Rattle.vbr_slots.specs.pools.Tried.{last_tried};
ghost use Rattle.vbr_slots.specs.views.Views.{IsOf, knows};

use crate::at_table::AtTable;
use crate::pass::POOL;
use crate::slots::Slots;
use crate::stepper::{Stepper, put};
use vbr_words::Nodes;

impl<N: Nodes> Slots<N> {
    // A pass at this table, by what makes its steps.
    #[inline]
    pub(crate) fn at<'c>(&'c self, stepper: &'c mut Stepper) -> AtTable<'c, N>
        requires own { IsOf stepper.old.trace self.now }
        ensures same_reference { result.stepper.ghost_name ≡ stepper.entry.ghost_name }
        ensures slots { result.slots ≡ self.entry }
        ensures pass { pass_of result ≡ stepper.old }
    {
        AtTable {
            slots: self,
            stepper,
        }
    }
}

impl<N: Nodes> AtTable<'_, N> {
    /// The law of passes, as [`crate::Pass::law`]. It does nothing.
    #[inline]
    pub fn law(&self)
        ensures { PassLaw (pass_of self.now) }
    {
        self.stepper.law();
    }

    /// The last epoch that the pass read; 1 at the opening.
    #[inline]
    pub fn epoch(&self) -> u64
        ensures { result ≡ (knows (trace_of self.now)).epoch }
    {
        let stepper = &*self.stepper;
        stepper.runner.epoch()
    }

    /// The pass's own pool, the oldest slot first.
    #[inline]
    pub fn pool(&self) -> &[u32]
        ensures pool { result.now ≡ (pass_of self.now).pool }
        ensures own { OwnPool (trace_of self.now).start (knows (trace_of self.now))
            (pass_of self.now).pool (pass_of self.now).hand }
        ensures room { length (pass_of self.now).pool ≤ POOL }
    {
        let stepper = &*self.stepper;
        stepper.pool.as_slice()
    }

    /// The slot that the pass tried last to take out of the shared pool; at the opening the one with which it
    /// begins, 0 if keys aren't spread.
    #[inline]
    pub fn last_tried(&self) -> u32
        ensures tried { result ≡ last_tried (trace_of self.now) }
        ensures low { result < (trace_of self.now).start.shape.slots }
    {
        let stepper = &*self.stepper;
        stepper.tried
    }

    /// As [`crate::Pass::keep`].
    #[inline]
    pub fn keep(&mut self, slot: u32)
        requires slot { slot < (trace_of self.old).start.shape.slots }
        requires kept { IsFree ((knows (trace_of self.old)).own slot)
            ⊎ ((pass_of self.old).hand ≡ Some slot) }
        requires outside { ¬ (Contains (pass_of self.old).pool slot) }
        requires room { length (pass_of self.old).pool < POOL }
        ensures table { IsSameTable self.old self.new }
        ensures trace { trace_of self.new ≡ trace_of self.old }
        ensures pool { (pass_of self.new).pool ≡ (pass_of self.old).pool ++ slot ∷ [] }
        ensures hand { (pass_of self.new).hand ≡ hand_without slot (pass_of self.old).hand }
    {
        let stepper = &mut *self.stepper;
        put(&mut stepper.pool, &mut stepper.hand, slot);
    }

    /// As [`AtTable::keep`], for a free slot: the hand, which has another or none, stays.
    #[inline]
    pub fn keep_free(&mut self, slot: u32)
        requires slot { slot < (trace_of self.old).start.shape.slots }
        requires free { IsFree ((knows (trace_of self.old)).own slot) }
        requires outside { ¬ (Contains (pass_of self.old).pool slot) }
        requires room { length (pass_of self.old).pool < POOL }
        ensures table { IsSameTable self.old self.new }
        ensures trace { trace_of self.new ≡ trace_of self.old }
        ensures pool { (pass_of self.new).pool ≡ (pass_of self.old).pool ++ slot ∷ [] }
        ensures hand { (pass_of self.new).hand ≡ (pass_of self.old).hand }
    {
        self.law();
        let stepper = &mut *self.stepper;
        stepper.pool.push(slot);
    }
}
