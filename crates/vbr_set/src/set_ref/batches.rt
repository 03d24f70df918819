//! Look-ups in batches by a pass with a reference to its set.
ghost use Rattle.std.specs.Prelude.{◌≡◌, length};
ghost use Rattle.vbr_set.specs.calls.Batches.{GetsAll, HasAll};

use crate::at_set::at_set;
use crate::set_ref::VbrSetRef;
use vbr_list::Refusal;
use vbr_words::{Entries, Nodes};

impl<N: Nodes> VbrSetRef<'_, N> {
    /// [`AtSet::has_all`] by its pass.
    pub fn has_all(&mut self, keys: &[u64], answers: &mut [Result<bool, Refusal>], budget: u32)
        requires { length answers.old ≡ length keys.now }
        ensures { HasAll self.old self.new keys.now budget answers.new }
    {
        at_set!(self.set, self.pass).has_all(keys, answers, budget);
    }
}

impl VbrSetRef<'_, Entries> {
    /// [`AtSet::get_all`] by its pass.
    pub fn get_all(
        &mut self,
        keys: &[u64],
        answers: &mut [Result<Option<u64>, Refusal>],
        budget: u32,
    )
        requires { length answers.old ≡ length keys.now }
        ensures { GetsAll self.old self.new keys.now budget answers.new }
    {
        at_set!(self.set, self.pass).get_all(keys, answers, budget);
    }
}
