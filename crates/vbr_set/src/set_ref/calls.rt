//! The calls of a pass with a reference to its set.
ghost use Rattle.std.specs.Prelude.{◌≡◌, None};
ghost use Rattle.vbr_machine.specs.declared.history.Op.TheVariants.{Insert, Remove, Has};
ghost use Rattle.vbr_slots.specs.views.Views.{IsOf};
ghost use Rattle.vbr_set.specs.histories.Meetings.{HasMet};
ghost use Rattle.vbr_set.specs.calls.Members.{Called, as_member};
ghost use Rattle.vbr_set.specs.histories.Tokens.{CatchesUp, IsTokenOf};

use crate::at_set::at_set;
use crate::set::VbrSet;
use crate::set_ref::VbrSetRef;
use vbr_list::Refusal;
use vbr_slots::{Pass, Seen};
use vbr_words::{Nodes, Shape};

impl<N: Nodes> VbrSet<N> {
    /// Puts a pass beside a reference to its set. From then on its calls ask nothing of their caller.
    /// It makes no step, and can't fail.
    ///
    /// # Example
    ///
    /// ```rattle file=crates/vbr_set_tests/src/seventy_slots.rt
    /// let mut caller = set.with_pass(pass);
    /// ```
    #[inline]
    pub fn with_pass(&self, pass: Pass) -> VbrSetRef<'_, N>
        requires own { IsOf pass.trace self.now }
        requires empty_hand { pass.hand ≡ None }
        ensures { result ≡ as_member self.now pass }
    {
        VbrSetRef { set: self, pass }
    }
}

impl<'s> VbrSetRef<'s> {
    /// [`AtSet::insert`] by its pass.
    #[inline]
    pub fn insert(&mut self, key: u64, budget: u32) -> Result<bool, Refusal>
        ensures { Called Insert self.old self.new key budget result }
    {
        at_set!(self.set, self.pass).insert(key, budget)
    }

    /// [`AtSet::remove`] by its pass.
    #[inline]
    pub fn remove(&mut self, key: u64, budget: u32) -> Result<bool, Refusal>
        ensures { Called Remove self.old self.new key budget result }
    {
        at_set!(self.set, self.pass).remove(key, budget)
    }
}

impl<'s, N: Nodes> VbrSetRef<'s, N> {
    /// [`AtSet::has`] by its pass.
    #[inline]
    pub fn has(&mut self, key: u64, budget: u32) -> Result<bool, Refusal>
        ensures { Called Has self.old self.new key budget result }
    {
        at_set!(self.set, self.pass).has(key, budget)
    }

    /// [`VbrSet::meet`] by its pass and the other's.
    #[inline]
    pub fn meet(&mut self, other: &mut VbrSetRef<N>)
        requires { other.old.set ≡ self.old.set }
        ensures set { self.new.set ≡ self.old.set }
        ensures same { other.new ≡ other.old }
        ensures meets { HasMet self.old.pass other.old.pass self.new.pass }
    {
        self.set.meet(&mut self.pass, &mut other.pass);
    }

    /// [`VbrSet::seen`] by its pass.
    #[inline]
    pub fn seen(&mut self) -> Seen
        ensures same { self.new ≡ self.old }
        ensures tells { IsTokenOf self.old.set self.old.pass.trace result }
    {
        self.set.seen(&mut self.pass)
    }

    /// [`VbrSet::seen_again`].
    #[inline]
    pub fn seen_again(&self, token: &mut Seen) -> Seen
        requires { token.old.table ≡ self.now.set.table }
        ensures same { token.new ≡ token.old }
        ensures again { result ≡ token.old }
    {
        self.set.seen_again(token)
    }

    /// [`VbrSet::catch_up`] by its pass.
    #[inline]
    pub fn catch_up(&mut self, token: Seen)
        requires { token.table ≡ self.old.set.table }
        ensures set { self.new.set ≡ self.old.set }
        ensures catches { CatchesUp self.old.set self.old.pass token self.new.pass }
    {
        self.set.catch_up(&mut self.pass, token);
    }

    /// The shape of its set.
    #[inline]
    pub fn shape(&self) -> Shape
        ensures { result ≡ self.now.set.start.shape }
    {
        self.set.shape()
    }

    /// Its pass, which has its number, its steps and its own pool.
    #[inline]
    pub fn pass(&self) -> &Pass
        ensures pass { result.now ≡ self.now.pass }
        ensures own { IsOf self.now.pass.trace self.now.set }
    {
        &self.pass
    }

    /// Gives its pass back, as [`VbrSet::close`] takes it. It makes no step, and can't fail.
    ///
    /// # Example
    ///
    /// ```rattle file=crates/vbr_set_tests/src/seventy_slots.rt
    /// (caller.into_pass(), done)
    /// ```
    #[inline]
    pub fn into_pass(self) -> Pass
        ensures pass { result ≡ self.entry.pass }
        ensures own { IsOf result.trace self.entry.set }
        ensures empty_hand { result.hand ≡ None }
    {
        self.pass
    }
}
