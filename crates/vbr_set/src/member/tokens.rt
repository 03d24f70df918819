//! Tokens of what a member has seen.
ghost use Rattle.std.specs.Prelude.{◌≡◌};
ghost use Rattle.vbr_set.specs.histories.Tokens.{CatchesUp, IsTokenOf};

use crate::member::Member;
use vbr_slots::Seen;
use vbr_words::Nodes;

impl<N: Nodes> Member<N> {
    /// [`VbrSet::seen`] by its pass.
    #[inline]
    pub fn seen(&mut self) -> Seen
        ensures same { self.new ≡ self.old }
        ensures tells { IsTokenOf self.old.set self.old.pass.trace result }
    {
        self.share.set().seen(&mut self.pass)
    }

    /// [`VbrSet::seen_again`].
    #[inline]
    pub fn seen_again(&self, token: &mut Seen) -> Seen
        requires { token.old.table ≡ self.now.set.table }
        ensures same { token.new ≡ token.old }
        ensures again { result ≡ token.old }
    {
        self.share.set().seen_again(token)
    }

    /// [`VbrSet::catch_up`] by its pass.
    #[inline]
    #[tactic(auto, using(crate::proofs::members::MembersAside::caught_aside))]
    pub fn catch_up(&mut self, token: Seen)
        requires { token.table ≡ self.old.set.table }
        ensures set { self.new.set ≡ self.old.set }
        ensures catches { CatchesUp self.old.set self.old.pass token self.new.pass }
        ensures aside { self.new.aside ≡ self.old.aside }
    {
        self.share.set().catch_up(&mut self.pass, token);
    }
}
