//! Tokens of what a pass has seen.
ghost use Rattle.std.specs.Prelude.{◌≡◌};
ghost use Rattle.vbr_slots.specs.views.Views.{IsOf};
ghost use Rattle.vbr_set.specs.histories.Tokens.{CatchesUp, IsTokenOf};

use crate::set::VbrSet;
use vbr_slots::{Pass, Seen};
use vbr_words::Nodes;

impl<N: Nodes> VbrSet<N> {
    /// Returns a token of what the pass has seen, including its answered calls. It makes no step, and
    /// the pass stays as it was; it costs one load, whose value is dropped. It can't fail. A token has
    /// no bytes, and may be sent, kept in a lock, or dropped; the set can be closed without it.
    ///
    /// # Example
    ///
    /// ```rattle file=crates/vbr_set_tests/src/tokens.rt
    /// let answer = one.insert(key, 100);
    /// (answer, one.seen())
    /// ...
    /// other.catch_up(token);
    /// ```
    #[inline]
    pub fn seen(&self, pass: &mut Pass) -> Seen
        requires own { IsOf pass.old.trace self.now }
        ensures same { pass.new ≡ pass.old }
        ensures tells { IsTokenOf self.now pass.old.trace result }
    {
        self.slots.seen(pass)
    }

    /// Returns another token of the same, for one more taker. It makes no step; it costs one load,
    /// whose value is dropped. It can't fail.
    #[inline]
    pub fn seen_again(&self, token: &mut Seen) -> Seen
        requires own { token.old.table ≡ self.now.table }
        ensures same { token.new ≡ token.old }
        ensures again { result ≡ token.old }
    {
        self.slots.seen_again(token)
    }

    /// Lets the pass see all that was done before, and so all that the token holds; the token is spent.
    /// From now on each answered call of the pass stands after all calls that the token holds, in one
    /// legal history. It makes no step, and the pass knows what it knew; it costs two loads, whose
    /// values are dropped. It can't fail. The token must be of this set: a renewed set is another one.
    #[inline]
    pub fn catch_up(&self, pass: &mut Pass, token: Seen)
        requires own { IsOf pass.old.trace self.now }
        requires token { token.table ≡ self.now.table }
        ensures catches { CatchesUp self.now pass.old token pass.new }
    {
        pass.law();
        self.slots.catch_up(pass, token);
    }
}
