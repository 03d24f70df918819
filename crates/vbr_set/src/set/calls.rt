//! The calls on a set by a pass beside it.
ghost use Rattle.std.specs.Prelude.{◌≡◌, None};
ghost use Rattle.vbr_machine.specs.declared.history.Op.TheVariants.{Insert, Remove, Has};
ghost use Rattle.vbr_slots.specs.views.Views.{IsOf};
ghost use Rattle.vbr_set.specs.calls.Members.{Called, as_member};

use crate::at_set::AtSet;
use crate::set::VbrSet;
use vbr_list::Refusal;
use vbr_slots::Pass;
use vbr_words::Nodes;

impl VbrSet {
    /// [`AtSet::insert`] by a pass.
    #[inline]
    pub fn insert(&self, pass: &mut Pass, key: u64, budget: u32) -> Result<bool, Refusal>
        requires own { IsOf pass.old.trace self.now }
        requires empty_hand { pass.old.hand ≡ None }
        ensures { Called Insert (as_member self.now pass.old) (as_member self.now pass.new)
            key budget result }
    {
        AtSet { set: self, pass }.insert(key, budget)
    }

    /// [`AtSet::remove`] by a pass.
    #[inline]
    pub fn remove(&self, pass: &mut Pass, key: u64, budget: u32) -> Result<bool, Refusal>
        requires own { IsOf pass.old.trace self.now }
        requires empty_hand { pass.old.hand ≡ None }
        ensures { Called Remove (as_member self.now pass.old) (as_member self.now pass.new)
            key budget result }
    {
        AtSet { set: self, pass }.remove(key, budget)
    }
}

impl<N: Nodes> VbrSet<N> {
    /// [`AtSet::has`] by a pass.
    #[inline]
    pub fn has(&self, pass: &mut Pass, key: u64, budget: u32) -> Result<bool, Refusal>
        requires own { IsOf pass.old.trace self.now }
        requires empty_hand { pass.old.hand ≡ None }
        ensures { Called Has (as_member self.now pass.old) (as_member self.now pass.new)
            key budget result }
    {
        AtSet { set: self, pass }.has(key, budget)
    }
}
