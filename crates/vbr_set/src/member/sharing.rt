//! The set that a member has a share of.
ghost use Rattle.std.specs.Prelude.{◌≡◌};
ghost use Rattle.vbr_set.specs.members.Sharing.{set_shared};

use crate::member::share::Share;
use crate::set::VbrSet;
use vbr_words::Nodes;

impl<N: Nodes> Share<N> {
    /// The set.
    #[inline]
    pub(crate) fn set(&self) -> &VbrSet<N>
        ensures { result.now ≡ set_shared self.now }
    {
        match self {
            Share::Among(common, _) => &common.set,
            Share::Alone(set, _) => set,
            Share::Gathered(set, _) => set,
        }
    }
}
