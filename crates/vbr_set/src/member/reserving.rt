//! A reserve of slots for a member.
#![tactic(auto, using(vbr_at_table::proofs::Lemmas::kept_aside))]

ghost use Rattle.std.specs.Prelude.{◌≡◌, ℕ};
ghost use Rattle.vbr_at_table.specs.pools.Reserving.{Reserves, TopsUp};

use crate::member::Member;
use vbr_words::Nodes;

impl<N: Nodes> Member<N> {
    /// [`VbrSet::reserve`] by its pass.
    pub fn reserve(&mut self, wanted: u32) -> u32
        ensures set { self.new.set ≡ self.old.set }
        ensures reserves { (steps : ℕ)
            × Reserves self.old.pass self.new.pass wanted result steps }
        ensures aside { self.new.aside ≡ self.old.aside }
    {
        self.share.set().reserve(&mut self.pass, wanted)
    }

    /// [`VbrSet::top_up`] by its pass.
    #[inline]
    pub fn top_up(&mut self, wanted: u32, probes: u32) -> u32
        ensures set { self.new.set ≡ self.old.set }
        ensures tops_up { (steps : ℕ)
            × TopsUp self.old.pass self.new.pass wanted probes result steps }
        ensures aside { self.new.aside ≡ self.old.aside }
    {
        self.share.set().top_up(&mut self.pass, wanted, probes)
    }
}
