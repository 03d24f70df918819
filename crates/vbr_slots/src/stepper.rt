//! All that a pass has but the count of its steps: its seat, its own pool and its hand.
ghost use Rattle.std.specs.List.{position_from};
ghost use Rattle.std.specs.Prelude.{◌≡◌, ◌==◌, ◌<◌, [], ◌∷◌, ◌++◌, length, get_or};
ghost use Rattle.vbr_slots.specs.pools.Forsaking.{Forsakes};
ghost use Rattle.vbr_slots.specs.steps.PassLaw.{PassLaw};
ghost use Rattle.vbr_slots.specs.pools.Pools.{hand_without, without};

use crate::pass::POOL;
use crate::pool::Pool;
use crate::runner::Runner;
use crate::tally::Tally;
use std::marker::Model;

/// What makes the steps of a pass, and counts none. It has the pass's own pool and its hand. The pass
/// lends it for a call at its table ([`crate::AtTable`]), and then counts the steps of the whole call at
/// once ([`crate::Pass::during`]).
#[derive(Drop)]
pub struct Stepper {
    pub(crate) runner: Runner,
    pub(crate) pool: Pool,
    pub(crate) hand: Option<u32>,
    pub(crate) tried: u32,
    pub(crate) tally: Tally,
}

impl Model for Stepper {
    ghost use Rattle.vbr_slots.specs.views.Views.{PassView};

    ghost Value = { PassView };

    ghost use Rattle.vbr_slots.specs.views.StepperView.{view_of, IsWell};

    ghost view = { view_of };

    ghost invariant = { IsWell };
}

impl Stepper {
    // The law of passes. It does nothing.
    #[inline]
    pub(crate) fn law(&self)
        ensures { PassLaw self.now }
    {
        let _who = self.runner.who;
        self.pool.law();
    }

    /// What it counted since the opening.
    #[inline]
    pub fn tally(&self) -> Tally {
        self.tally
    }

    /// Counts an advance of the epoch, if it won that. It is no step.
    #[inline]
    pub fn count_advance(&mut self, is_won: bool)
        ensures { self.new ≡ self.old }
    {
        self.tally.advances = self.tally.advances.wrapping_add(u64::from(is_won));
    }

    // Gives up the slots of its own pool and its hand.
    pub(crate) fn forsake_slots(&mut self)
        ensures { Forsakes self.old self.new }
    {
        self.pool = Pool::new();
        self.hand = None;
    }

    // Takes a slot out of its own pool, if it is there.
    #[inline(always)]
    pub(crate) fn leave_pool(&mut self, slot: u32)
        ensures trace { self.new.trace ≡ self.old.trace }
        ensures pool { self.new.pool ≡ without slot self.old.pool }
        ensures hand { self.new.hand ≡ self.old.hand }
    {
        if let Some(index) = position_in(self.pool.as_slice(), slot) {
            self.pool.remove(index);
        }
    }

    // Takes the slot at a place out of its own pool.
    #[inline(always)]
    pub(crate) fn leave_place(&mut self, index: usize, slot: u32)
        requires place { index < length self.old.pool }
        requires slot { get_or self.old.pool index 0 ≡ slot }
        ensures trace { self.new.trace ≡ self.old.trace }
        ensures pool { self.new.pool ≡ without slot self.old.pool }
        ensures hand { self.new.hand ≡ self.old.hand }
    {
        let _slot = slot;
        self.pool.remove(index);
    }

    // Takes a slot out of its own pool or its hand, wherever it is.
    #[inline]
    pub(crate) fn leave(&mut self, slot: u32)
        ensures trace { self.new.trace ≡ self.old.trace }
        ensures pool { self.new.pool ≡ without slot self.old.pool }
        ensures hand { self.new.hand ≡ hand_without slot self.old.hand }
    {
        self.leave_pool(slot);
        let_go(&mut self.hand, slot);
    }
}

// Takes a slot out of a hand, if it is there.
#[inline]
fn let_go(hand: &mut Option<u32>, slot: u32)
    ensures { hand.new ≡ hand_without slot hand.old }
{
    if *hand == Some(slot) {
        *hand = None;
    }
}

// Puts a slot at the end of a pool, and out of this hand if it is there.
#[inline]
pub(crate) fn put(pool: &mut Pool, hand: &mut Option<u32>, slot: u32)
    requires { length pool.old.items < POOL }
    ensures pool { pool.new.items ≡ pool.old.items ++ slot ∷ [] }
    ensures hand { hand.new ≡ hand_without slot hand.old }
{
    let_go(hand, slot);
    pool.push(slot);
}

// The position of a slot in a pool.
#[inline]
fn position_in(pool: &[u32], slot: u32) -> Option<usize>
    ensures { result ≡ position_from (λ x. x == slot) 0 pool.now }
{
    pool.iter().position(|pooled| *pooled == slot)
}
