//! A pass: the right to make steps under one number.
ghost use Rattle.std.specs.Fn.{FnOnceTakesAtMut};
ghost use Rattle.std.specs.Prelude.{◌≡◌, ◌<◌, ◌≤◌, ◌⊎◌, [], ◌∷◌, ◌+◌, ◌++◌, length, Some, None, Contains};
ghost use Rattle.vbr_machine.specs.Acceptance.{IsFree, IsInHand};
ghost use Rattle.vbr_machine.specs.Runs.{IsRun};
ghost use Rattle.vbr_slots.specs.pools.Forsaking.{Forsakes};
ghost use Rattle.vbr_slots.specs.steps.Lending.{Lends, LendsWith, TakesWith, TellsSteps, TellsStepsWith};
ghost use Rattle.vbr_slots.specs.steps.PassLaw.{PassLaw};
ghost use Rattle.vbr_slots.specs.pools.Pools.{OwnPool, hand_without};
ghost use Rattle.vbr_slots.specs.views.Views.{counted_steps, knows, steps_of};

use crate::stepper::{Stepper, put};
use crate::tally::Tally;
use std::marker::Model;

/// How many slots the own pool of a pass has room for.
pub const POOL: usize = 64;

/// The right to make steps at a table under one number, in one thread at a time. It has a pool of
/// slots of its own, and at most one slot in hand.
///
/// A pass that is dropped takes its own slots out for good, and its table can't be closed any more.
#[derive(Drop)]
pub struct Pass {
    pub(crate) stepper: Stepper,
    pub(crate) steps: u64,
}

impl Model for Pass {
    ghost use Rattle.vbr_slots.specs.views.Views.{PassView};

    ghost Value = { PassView };

    ghost use Rattle.vbr_slots.specs.views.PassView.{lent_of, IsExact};

    ghost view = { lent_of };

    ghost invariant = { IsExact };
}

impl Pass {
    /// Its number, from 0.
    #[inline]
    pub fn who(&self) -> u32
        ensures who { result ≡ self.now.trace.who }
        ensures low { result < self.now.trace.passes }
        ensures is_run { IsRun self.now.trace.start self.now.trace.passes self.now.trace.seen }
    {
        self.stepper.runner.who
    }

    /// The law of passes: what always holds of one, for the proofs of its callers. It does nothing.
    #[inline]
    pub fn law(&self)
        ensures { PassLaw self.now }
    {
        self.stepper.law();
    }

    /// How many slots its table has.
    #[inline]
    pub fn slots(&self) -> u32
        ensures { result ≡ self.now.trace.start.shape.slots }
    {
        self.stepper.runner.opening.shape.slots()
    }

    /// How many steps it has made since the opening: its own events in what it has seen. After 2^64
    /// steps the count begins anew, so the difference of two counts is right all the same.
    #[inline]
    pub fn steps(&self) -> u64
        ensures { result ≡ counted_steps (steps_of self.now.trace) }
    {
        self.steps
    }

    /// What it counted for those who operate a program, since the opening.
    #[inline]
    pub fn tally(&self) -> Tally {
        self.stepper.tally()
    }

    /// The last epoch that it read; 1 at the opening.
    #[inline]
    pub fn epoch(&self) -> u64
        ensures { result ≡ (knows self.now.trace).epoch }
    {
        self.stepper.runner.epoch()
    }

    /// Its own pool, the oldest slot first.
    #[inline]
    pub fn pool(&self) -> &[u32]
        ensures pool { result.now ≡ self.now.pool }
        ensures own { OwnPool self.now.trace.start (knows self.now.trace)
            self.now.pool self.now.hand }
        ensures room { length self.now.pool ≤ POOL }
    {
        self.stepper.pool.as_slice()
    }

    /// The slot in its hand: born by it, and neither published nor given back.
    #[inline]
    pub fn in_hand(&self) -> Option<u32>
        ensures { result ≡ self.now.hand }
    {
        self.stepper.hand
    }

    /// Puts a slot at the end of its own pool: one that it owns and that is free, or the one in its
    /// hand, which is then given back. It is no step.
    #[inline]
    pub fn keep(&mut self, slot: u32)
        requires slot { slot < self.old.trace.start.shape.slots }
        requires kept { IsFree ((knows self.old.trace).own slot) ⊎ (self.old.hand ≡ Some slot) }
        requires outside { ¬ (Contains self.old.pool slot) }
        requires room { length self.old.pool < POOL }
        ensures trace { self.new.trace ≡ self.old.trace }
        ensures pool { self.new.pool ≡ self.old.pool ++ slot ∷ [] }
        ensures hand { self.new.hand ≡ hand_without slot self.old.hand }
    {
        put(&mut self.stepper.pool, &mut self.stepper.hand, slot);
    }

    /// Puts the slot in its hand aside: the hand is empty then, and the slot, if there was one, stays the
    /// pass's own with its incarnation, outside its pool. It is no step.
    #[inline]
    pub fn set_aside(&mut self)
        ensures trace { self.new.trace ≡ self.old.trace }
        ensures pool { self.new.pool ≡ self.old.pool }
        ensures hand { self.new.hand ≡ None }
    {
        self.stepper.hand = None;
    }

    /// Takes a slot that was put aside into its hand again. It is no step.
    #[inline]
    pub fn take_up(&mut self, slot: u32)
        requires slot { slot < self.old.trace.start.shape.slots }
        requires in_hand { IsInHand ((knows self.old.trace).own slot) }
        requires outside { ¬ (Contains self.old.pool slot) }
        requires empty { self.old.hand ≡ None }
        ensures trace { self.new.trace ≡ self.old.trace }
        ensures pool { self.new.pool ≡ self.old.pool }
        ensures hand { self.new.hand ≡ Some slot }
    {
        self.stepper.hand = Some(slot);
    }

    /// Gives up the slots of its own pool and the one in its hand, for good: they stay its own, and nobody has them
    /// any more while the table is open. It is no step, and the pass knows what it knew. It is for a pass whose
    /// caller ended in the middle of a call: whatever it had made, it goes on from there.
    pub fn forsake_slots(&mut self)
        ensures { Forsakes self.old self.new }
    {
        self.stepper.forsake_slots();
    }

    /// Lends what makes its steps, and then counts once how many the work says that it made: its result
    /// is what the work gives beside that number.
    #[inline]
    pub fn during<R, W: FnOnce(&mut Stepper) -> (R, u32)>(&mut self, work: W) -> R
        requires takes { FnOnceTakesAtMut W.FnOnce work self.old }
        requires counts { TellsSteps W.FnOnce work self.old }
        ensures { Lends W.FnOnce work self.old self.new result }
    {
        let (result, used) = work(&mut self.stepper);
        self.steps = steps_after(self.steps, used);
        result
    }

    /// As [`Pass::during`], for work that takes a value for good.
    #[inline]
    pub fn during_with<A, R, W: FnOnce(&mut Stepper, A) -> (R, u32)>(
        &mut self,
        given: A,
        work: W,
    ) -> R
        requires takes { TakesWith W.FnOnce work self.old given }
        requires counts { TellsStepsWith W.FnOnce work self.old given }
        ensures { LendsWith W.FnOnce work self.old self.new given result }
    {
        let (result, used) = work(&mut self.stepper, given);
        self.steps = steps_after(self.steps, used);
        result
    }
}

// A count after so many more steps.
#[inline]
pub(crate) fn steps_after(steps: u64, more: u32) -> u64
    ensures { result ≡ counted_steps (steps + more) }
{
    steps.wrapping_add(u64::from(more))
}
