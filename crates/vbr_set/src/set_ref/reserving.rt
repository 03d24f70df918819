//! A reserve of slots for a pass with a reference to its set.
ghost use Rattle.std.specs.Prelude.{◌≡◌, ℕ};
ghost use Rattle.vbr_at_table.specs.pools.Reserving.{Reserves, TopsUp};

use crate::set_ref::VbrSetRef;
use vbr_words::Nodes;

impl<'s, N: Nodes> VbrSetRef<'s, N> {
    /// [`VbrSet::reserve`] by its pass.
    pub fn reserve(&mut self, wanted: u32) -> u32
        ensures set { self.new.set ≡ self.old.set }
        ensures reserves { (steps : ℕ)
            × Reserves self.old.pass self.new.pass wanted result steps }
    {
        self.set.reserve(&mut self.pass, wanted)
    }

    /// [`VbrSet::top_up`] by its pass.
    pub fn top_up(&mut self, wanted: u32, probes: u32) -> u32
        ensures set { self.new.set ≡ self.old.set }
        ensures tops_up { (steps : ℕ)
            × TopsUp self.old.pass self.new.pass wanted probes result steps }
    {
        self.set.top_up(&mut self.pass, wanted, probes)
    }
}
