//! Giving the slots of a pass with a reference to its set back.
ghost use Rattle.std.specs.Prelude.{◌≡◌};
ghost use Rattle.vbr_at_table.specs.pools.GivingSlotsBack.{GivesSlotsBack};

use crate::set_ref::VbrSetRef;
use vbr_words::Nodes;

impl<'s, N: Nodes> VbrSetRef<'s, N> {
    /// [`VbrSet::give_slots_back`] by its pass.
    pub fn give_slots_back(&mut self) -> u32
        ensures set { self.new.set ≡ self.old.set }
        ensures gives { GivesSlotsBack self.old.pass self.new.pass result }
    {
        self.set.give_slots_back(&mut self.pass)
    }
}
