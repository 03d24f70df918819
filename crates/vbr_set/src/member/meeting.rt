//! The meeting of two members.
ghost use Rattle.std.specs.Prelude.{◌≡◌};
ghost use Rattle.vbr_set.specs.histories.Meetings.{HasMet};

use crate::member::Member;
use vbr_words::Nodes;

impl<N: Nodes> Member<N> {
    /// [`VbrSet::meet`] by its pass and the other's.
    #[inline]
    pub fn meet(&mut self, other: &mut Member<N>)
        requires { other.old.set ≡ self.old.set }
        ensures set { self.new.set ≡ self.old.set }
        ensures same { other.new ≡ other.old }
        ensures meets { HasMet self.old.pass other.old.pass self.new.pass }
        ensures aside { self.new.aside ≡ self.old.aside }
    {
        self.share.set().meet(&mut self.pass, &mut other.pass);
    }
}
