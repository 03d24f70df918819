//! Look-ups in batches by a member.
ghost use Rattle.std.specs.Prelude.{◌≡◌, length};
ghost use Rattle.vbr_machine.specs.declared.history.Op.TheVariants.{Has};
ghost use Rattle.vbr_set.specs.calls.Batches.{GetsAll, HasAll};
ghost use Rattle.vbr_set.specs.calls.MapCalls.{GetsEntry};
ghost use Rattle.vbr_set.specs.calls.Members.{Called};

use crate::batches::{LooksUp, Warms, look_up_all};
use crate::member::Member;
use vbr_list::Refusal;
use vbr_words::{Entries, Nodes};

impl<N: Nodes> Warms for Member<N> {
    #[inline(always)]
    fn warm(&mut self, keys: &[u64]) {
        self.share.set().warm(keys);
    }
}

impl<N: Nodes> LooksUp<Result<bool, Refusal>> for Member<N> {
    ghost told = { λ m n key budget answer.
        Called Has m n key budget answer × (n.aside ≡ m.aside) };

    #[inline(always)]
    fn look_up(&mut self, key: u64, budget: u32) -> Result<bool, Refusal> {
        self.has(key, budget)
    }
}

impl LooksUp<Result<Option<u64>, Refusal>> for Member<Entries> {
    ghost told = { λ m n key budget answer.
        GetsEntry m n key budget answer × (n.aside ≡ m.aside) };

    #[inline(always)]
    fn look_up(&mut self, key: u64, budget: u32) -> Result<Option<u64>, Refusal> {
        self.get(key, budget)
    }
}

impl<N: Nodes> Member<N> {
    /// [`AtSet::has_all`] by its pass.
    pub fn has_all(&mut self, keys: &[u64], answers: &mut [Result<bool, Refusal>], budget: u32)
        requires { length answers.old ≡ length keys.now }
        ensures told { HasAll self.old self.new keys.now budget answers.new }
        ensures aside { self.new.aside ≡ self.old.aside }
    {
        look_up_all(self, keys, answers, budget);
    }
}

impl Member<Entries> {
    /// [`AtSet::get_all`] by its pass.
    pub fn get_all(
        &mut self,
        keys: &[u64],
        answers: &mut [Result<Option<u64>, Refusal>],
        budget: u32,
    )
        requires { length answers.old ≡ length keys.now }
        ensures told { GetsAll self.old self.new keys.now budget answers.new }
        ensures aside { self.new.aside ≡ self.old.aside }
    {
        look_up_all(self, keys, answers, budget);
    }
}
