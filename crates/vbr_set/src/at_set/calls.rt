//! The calls of a caller at its set: inserts, removes and look-ups.
ghost use Rattle.vbr_machine.specs.declared.history.Op.TheVariants.{Insert, Remove, Has};
ghost use Rattle.vbr_set.specs.calls.AtSets.{IsSameSet, member_after, member_at};
ghost use Rattle.vbr_set.specs.calls.Members.{Called};

use crate::at_set::{AtSet, between_laws};
use vbr_list::{Refusal, has, insert, remove};
use vbr_words::Nodes;

impl AtSet<'_> {
    /// Adds a key, in at most `budget` steps, and returns whether it was absent. The call takes effect
    /// at one of its steps: the exchange that links the new node (Michael 2002), or a load that finds
    /// the link of the key's node as it was read.
    ///
    /// While the other passes stand still, a budget of 18n + 82 is enough, or of 18n + w + 20 if that
    /// is more, with n nodes in the key's bucket and w = slots / 64, rounded up. An answered call then
    /// took at most 18n + 77 steps, or 18n + w + 15. With a slot in the pass's own pool and 18n + 82
    /// steps the call is answered, unless the epoch is spent, and took at most 18n + 77. It advances
    /// the epoch at most once, and only if no slot that it could take is stamped below it (Sheffi,
    /// Herlihy and Petrank 2021). What it unlinked is retired when it ends, answered or not, into the
    /// pass's own pool while that has room.
    ///
    /// # Errors
    ///
    /// After any of these the pass has made no call and has no slot in hand, and no history has the
    /// call.
    ///
    /// - OutOfSteps: the steps made leave fewer than eight of the budget.
    /// - NoSlot: the key was absent, the own pool was empty, and each slot was outside the shared pool
    ///   at a moment of the call.
    /// - EpochSpent: the key was absent, the epoch is the last, and each slot of the own pool is stamped
    ///   with it. The budget had room to advance it.
    ///
    /// # Example
    ///
    /// ```rattle file=crates/vbr_set/src/set/calls.rt
    /// AtSet { set: self, pass }.insert(key, budget)
    /// ```
    #[inline]
    pub fn insert(&mut self, key: u64, budget: u32) -> Result<bool, Refusal>
        ensures same { IsSameSet self.old self.new }
        ensures told { Called Insert (member_at self.old) (member_after self.old self.new)
            key budget result }
    {
        between_laws!(self.set, self.pass, insert(key, budget))
    }

    /// Takes a key out, in at most `budget` steps, and returns whether it was there. The call takes
    /// effect at one of its steps: the exchange that marks the node (Michael 2002), or a load that
    /// finds a link as it was read. If the answer is yes, the node has left its list, through this call
    /// or another, unless fewer than eight steps of the budget are left. What this call unlinked is
    /// retired when it ends, answered or not, into the pass's own pool while that has room.
    ///
    /// While the other passes stand still, a budget of 9n + 11 is enough, with n nodes in the key's
    /// bucket, and an answered call took at most 9n + 10 steps; with 9n + 12, a yes leaves fewer nodes
    /// there. It never advances the epoch.
    ///
    /// # Errors
    ///
    /// After any of these the pass has made no call and has no slot in hand, and no history has the
    /// call.
    ///
    /// - OutOfSteps: the steps made leave fewer than eight of the budget.
    ///
    /// # Example
    ///
    /// ```rattle file=crates/vbr_set/src/set/calls.rt
    /// AtSet { set: self, pass }.remove(key, budget)
    /// ```
    #[inline]
    pub fn remove(&mut self, key: u64, budget: u32) -> Result<bool, Refusal>
        ensures same { IsSameSet self.old self.new }
        ensures told { Called Remove (member_at self.old) (member_after self.old self.new)
            key budget result }
    {
        between_laws!(self.set, self.pass, remove(key, budget))
    }
}

impl<N: Nodes> AtSet<'_, N> {
    /// Returns whether a key is in the set, in at most `budget` steps. The call takes effect at one of
    /// its loads.
    ///
    /// A look-up writes nothing that another thread can see: each of its steps is a load. It passes a
    /// removed node that is still in its list in three steps, and leaves it to inserts and removes. In
    /// this it differs from the search of Michael 2002, which unlinks such nodes. Its reads are checked
    /// as in Sheffi, Herlihy and Petrank 2021.
    ///
    /// While the other passes stand still, a budget of 5n + 11 is enough, with n nodes in the key's
    /// bucket, and an answered call took at most 5n + 4 steps.
    ///
    /// # Errors
    ///
    /// After any of these the pass has made no call and has no slot in hand, and no history has the
    /// call.
    ///
    /// - OutOfSteps: the steps made leave fewer than eight of the budget.
    ///
    /// # Example
    ///
    /// ```rattle file=crates/vbr_set/src/set/calls.rt
    /// AtSet { set: self, pass }.has(key, budget)
    /// ```
    #[inline]
    pub fn has(&mut self, key: u64, budget: u32) -> Result<bool, Refusal>
        ensures same { IsSameSet self.old self.new }
        ensures told { Called Has (member_at self.old) (member_after self.old self.new)
            key budget result }
    {
        between_laws!(self.set, self.pass, has(key, budget))
    }
}
