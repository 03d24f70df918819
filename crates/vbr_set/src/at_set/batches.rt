//! Look-ups in batches by a caller at its set.
ghost use Rattle.std.specs.Prelude.{◌≡◌, length};
ghost use Rattle.vbr_machine.specs.declared.history.Op.TheVariants.{Has};
ghost use Rattle.vbr_set.specs.calls.AtSets.{IsSameSet, LooksUpAt, member_at};
ghost use Rattle.vbr_set.specs.calls.Batches.{GetsAll, HasAll};
ghost use Rattle.vbr_set.specs.calls.MapCalls.{GetsEntry};
ghost use Rattle.vbr_set.specs.calls.Members.{Called};

use crate::at_set::AtSet;
use crate::batches::{LooksUp, Warms, look_up_all};
use vbr_list::Refusal;
use vbr_words::{Entries, Nodes};

impl<N: Nodes> Warms for AtSet<'_, N> {
    #[inline(always)]
    fn warm(&mut self, keys: &[u64]) {
        self.set.warm(keys);
    }
}

impl<N: Nodes> LooksUp<Result<bool, Refusal>> for AtSet<'_, N> {
    ghost told = { λ m n key budget answer. LooksUpAt (Called Has) m n key budget answer };

    #[inline(always)]
    fn look_up(&mut self, key: u64, budget: u32) -> Result<bool, Refusal> {
        self.has(key, budget)
    }
}

impl LooksUp<Result<Option<u64>, Refusal>> for AtSet<'_, Entries> {
    ghost told = { λ m n key budget answer. LooksUpAt GetsEntry m n key budget answer };

    #[inline(always)]
    fn look_up(&mut self, key: u64, budget: u32) -> Result<Option<u64>, Refusal> {
        self.get(key, budget)
    }
}

impl<N: Nodes> AtSet<'_, N> {
    /// Looks keys up in their order, each in at most `budget` steps, and writes each answer at the
    /// place of its key. Each is a call [`AtSet::has`] of its own, so a refusal of one says nothing of
    /// the keys after it. There are as many answers as keys.
    ///
    /// It is meant for many keys of a large set. Before it looks up a batch of them, it loads the words
    /// where these look-ups begin, so that they wait for memory side by side. These loads don't count
    /// as steps.
    ///
    /// # Example
    ///
    /// ```rattle file=crates/vbr_set_tests/src/batches.rt
    /// member.has_all(&keys, &mut answers, BUDGET);
    /// ```
    #[inline(always)]
    pub fn has_all(&mut self, keys: &[u64], answers: &mut [Result<bool, Refusal>], budget: u32)
        requires as_many { length answers.old ≡ length keys.now }
        ensures same { IsSameSet self.old self.new }
        ensures told { HasAll (member_at self.old) (member_at self.new) keys.now budget
            answers.new }
    {
        look_up_all(self, keys, answers, budget);
    }
}

impl AtSet<'_, Entries> {
    /// Like [`AtSet::has_all`], with the value of each key that is there: each answer is what a `get`
    /// of the key returns.
    #[inline(always)]
    pub fn get_all(
        &mut self,
        keys: &[u64],
        answers: &mut [Result<Option<u64>, Refusal>],
        budget: u32,
    )
        requires as_many { length answers.old ≡ length keys.now }
        ensures same { IsSameSet self.old self.new }
        ensures told { GetsAll (member_at self.old) (member_at self.new) keys.now budget
            answers.new }
    {
        look_up_all(self, keys, answers, budget);
    }
}
