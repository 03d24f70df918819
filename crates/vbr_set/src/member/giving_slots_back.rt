//! Giving the slots of a member back.
ghost use Rattle.std.specs.Prelude.{◌≡◌, None};
ghost use Rattle.vbr_slots.specs.pools.Forsaking.{Forsakes};
ghost use Rattle.vbr_at_table.specs.pools.GivingSlotsBack.{GivesSlotsBack};

use crate::member::Member;
use vbr_words::Nodes;

impl<N: Nodes> Member<N> {
    /// Puts all slots that the member keeps to itself into the shared pool, one step for each, and
    /// returns their number: [`VbrSet::give_slots_back`] by its pass. Between two calls a member keeps
    /// up to 64 slots for its next inserts. If it won't insert for a while, this lets others have them.
    /// It makes no call, and can't fail. A slot that the member holds isn't among them, and stays
    /// ([`Member::let_go`]).
    ///
    /// # Example
    ///
    /// ```rattle file=crates/vbr_set_tests/src/given_back.rt
    /// let given = one.give_slots_back();
    /// ```
    ///
    /// [`VbrSet::give_slots_back`]: crate::VbrSet::give_slots_back
    #[tactic(auto, using(vbr_at_table::proofs::Lemmas::kept_aside))]
    pub fn give_slots_back(&mut self) -> u32
        ensures set { self.new.set ≡ self.old.set }
        ensures gives { GivesSlotsBack self.old.pass self.new.pass result }
        ensures aside { self.new.aside ≡ self.old.aside }
    {
        self.share.set().give_slots_back(&mut self.pass)
    }

    /// Gives up the slots that the member keeps to itself, and the one that it holds, for good: nobody
    /// has them until its set is closed or renewed. It makes no step. It is for a member whose caller
    /// ended in the middle of a call, and so may not have written what it has
    /// ([`Pass::forsake_slots`]).
    pub fn forsake_slots(&mut self)
        ensures set { self.new.set ≡ self.old.set }
        ensures forsakes { Forsakes self.old.pass self.new.pass }
        ensures aside { self.new.aside ≡ None }
    {
        self.pass.forsake_slots();
        self.aside = None;
    }
}
