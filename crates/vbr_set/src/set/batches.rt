//! Look-ups in batches by a pass beside its set.
ghost use Rattle.std.specs.Prelude.{◌≡◌, None, length};
ghost use Rattle.vbr_slots.specs.views.Views.{IsOf};
ghost use Rattle.vbr_set.specs.calls.Batches.{GetsAll, HasAll};
ghost use Rattle.vbr_set.specs.calls.Members.{as_member};

use crate::at_set::AtSet;
use crate::set::VbrSet;
use vbr_list::Refusal;
use vbr_slots::Pass;
use vbr_words::{Entries, Nodes};

impl<N: Nodes> VbrSet<N> {
    /// [`AtSet::has_all`] by a pass.
    pub fn has_all(
        &self,
        pass: &mut Pass,
        keys: &[u64],
        answers: &mut [Result<bool, Refusal>],
        budget: u32,
    )
        requires own { IsOf pass.old.trace self.now }
        requires empty_hand { pass.old.hand ≡ None }
        requires as_many { length answers.old ≡ length keys.now }
        ensures own { IsOf pass.new.trace self.now }
        ensures empty_hand { pass.new.hand ≡ None }
        ensures told { HasAll (as_member self.now pass.old) (as_member self.now pass.new)
            keys.now budget answers.new }
    {
        AtSet { set: self, pass }.has_all(keys, answers, budget);
    }
}

impl VbrSet<Entries> {
    /// [`AtSet::get_all`] by a pass.
    pub fn get_all(
        &self,
        pass: &mut Pass,
        keys: &[u64],
        answers: &mut [Result<Option<u64>, Refusal>],
        budget: u32,
    )
        requires own { IsOf pass.old.trace self.now }
        requires empty_hand { pass.old.hand ≡ None }
        requires as_many { length answers.old ≡ length keys.now }
        ensures own { IsOf pass.new.trace self.now }
        ensures empty_hand { pass.new.hand ≡ None }
        ensures told { GetsAll (as_member self.now pass.old) (as_member self.now pass.new)
            keys.now budget answers.new }
    {
        AtSet { set: self, pass }.get_all(keys, answers, budget);
    }
}
