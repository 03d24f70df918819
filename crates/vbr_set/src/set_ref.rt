//! A pass with a reference to its set.
pub mod batches;
pub mod calls;
pub mod giving_slots_back;
pub mod iterating;
pub mod map_calls;
pub mod record_calls;
pub mod reserving;

use crate::set::VbrSet;
use std::marker::Model;
use vbr_slots::Pass;
use vbr_words::{Keys, Nodes};

/// A pass with a reference to its set: what a thread needs to make calls on a set that another thread
/// owns.
///
/// Its calls ask nothing of their caller, and promise what a [`Member`]'s calls promise.
/// [`VbrSet::with_pass`] makes it, and [`VbrSetRef::into_pass`] gives the pass back, for
/// [`VbrSet::close`]. If it is dropped, its pass is lost, and the set can't be closed any more.
///
/// It has no lines of the cache of its own, as a [`Member`] has.
///
/// [`Member`]: crate::Member
#[derive(Drop)]
pub struct VbrSetRef<'s, N: Nodes = Keys> {
    pub(crate) set: &'s VbrSet<N>,
    pub(crate) pass: Pass,
}

impl<'s, N: Nodes> Model for VbrSetRef<'s, N> {
    ghost use Rattle.vbr_set.specs.calls.Members.{MemberView};

    ghost Value = { MemberView };

    ghost use Rattle.vbr_set.specs.calls.SetRefView.{set_ref_view, IsSetRef};

    ghost view = { set_ref_view };

    ghost invariant = { IsSetRef };
}
