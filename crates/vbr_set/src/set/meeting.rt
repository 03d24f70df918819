//! The meeting of two passes.
ghost use Rattle.std.specs.Prelude.{◌≡◌};
ghost use Rattle.vbr_slots.specs.views.Views.{IsOf};
ghost use Rattle.vbr_set.specs.histories.Meetings.{HasMet};

use crate::set::VbrSet;
use vbr_slots::Pass;
use vbr_words::Nodes;

impl<N: Nodes> VbrSet<N> {
    /// Lets the pass see all that the other has seen: the two then share one legal history, in which
    /// the other has exactly the calls that it has made. It makes one step, a load of the epoch,
    /// counted for the pass; the other stays as it was. It can't fail. Only a meeting says that the
    /// other has made no call outside that history; a token ([`VbrSet::seen`]) can't. Michael 2002 and
    /// Sheffi, Herlihy and Petrank 2021 have no such call.
    ///
    /// [`VbrSet::seen`]: crate::VbrSet::seen
    ///
    /// # Example
    ///
    /// ```rattle file=crates/vbr_set/src/set_ref/calls.rt
    /// self.set.meet(&mut self.pass, &mut other.pass);
    /// ```
    #[inline]
    pub fn meet(&self, pass: &mut Pass, other: &mut Pass)
        requires own { IsOf pass.old.trace self.now }
        requires other { IsOf other.old.trace self.now }
        ensures same { other.new ≡ other.old }
        ensures meets { HasMet pass.old other.old pass.new }
    {
        pass.law();
        self.slots.meet(pass, other);
    }
}
