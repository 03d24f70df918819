//! The calls on a member.
ghost use Rattle.std.specs.Prelude.{◌≡◌, ◌≤◌};
ghost use Rattle.vbr_machine.specs.declared.history.Op.TheVariants.{Insert, Remove, Has};
ghost use Rattle.vbr_set.specs.calls.Members.{Called};
ghost use Rattle.vbr_slots.specs.views.Views.{IsOf};

use crate::at_set::at_set;
use crate::member::Member;
use crate::member::counting::one_if_yes;
use vbr_list::Refusal;
use vbr_slots::Pass;
use vbr_words::{Nodes, Shape};

impl Member {
    /// [`AtSet::insert`] by its pass.
    #[inline]
    pub fn insert(&mut self, key: u64, budget: u32) -> Result<bool, Refusal>
        ensures told { Called Insert self.old self.new key budget result }
        ensures aside { self.new.aside ≡ self.old.aside }
    {
        let answer = at_set!(self.share.set(), self.pass).insert(key, budget);
        self.balance = self.balance.wrapping_add(one_if_yes(&answer));
        answer
    }

    /// [`AtSet::remove`] by its pass.
    #[inline]
    pub fn remove(&mut self, key: u64, budget: u32) -> Result<bool, Refusal>
        ensures told { Called Remove self.old self.new key budget result }
        ensures aside { self.new.aside ≡ self.old.aside }
    {
        let answer = at_set!(self.share.set(), self.pass).remove(key, budget);
        self.balance = self.balance.wrapping_sub(one_if_yes(&answer));
        answer
    }
}

impl<N: Nodes> Member<N> {
    /// [`AtSet::has`] by its pass.
    #[inline]
    pub fn has(&mut self, key: u64, budget: u32) -> Result<bool, Refusal>
        ensures told { Called Has self.old self.new key budget result }
        ensures aside { self.new.aside ≡ self.old.aside }
    {
        at_set!(self.share.set(), self.pass).has(key, budget)
    }

    /// The shape of its set.
    #[inline]
    pub fn shape(&self) -> Shape
        ensures { result ≡ self.now.set.start.shape }
    {
        self.share.set().shape()
    }

    /// How many slots lie in the shared pool of its set, as [`crate::VbrSet::free_about`] counts them.
    pub fn free_about(&self) -> u32
        ensures { result ≤ self.now.set.start.shape.slots }
    {
        self.share.set().free_about()
    }

    /// The number of passes that its set was opened with.
    #[inline]
    pub fn passes(&self) -> u32
        ensures { result ≡ self.now.set.passes }
    {
        self.share.set().count
    }

    /// Its pass, which has its number, its steps and its own pool.
    #[inline]
    pub fn pass(&self) -> &Pass
        ensures pass { result.now ≡ self.now.pass }
        ensures own { IsOf self.now.pass.trace self.now.set }
    {
        &self.pass
    }
}
