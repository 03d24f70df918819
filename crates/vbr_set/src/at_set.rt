//! A caller at its set. It has every call; a member, and a pass beside its set, make theirs through it.
pub mod batches;
pub mod calls;
pub mod iterating;
pub mod map_calls;
pub mod record_calls;

ghost use Rattle.std.specs.Prelude.{◌≡◌, None};
ghost use Rattle.vbr_slots.specs.views.Views.{IsOf};

use crate::set::VbrSet;
use vbr_slots::Pass;
use vbr_words::{Keys, Nodes};

// A caller at its set, for one call. It is a macro because a function can't lend on what it was lent.
macro_rules! at_set {
    ($set:expr, $pass:expr) => {
        $crate::at_set::AtSet {
            set: $set,
            pass: &mut $pass,
        }
    };
}

// A call by a pass of a set, which says its law before and after it.
macro_rules! between_laws {
    ($set:expr, $pass:expr, $call:ident($($argument:expr),*)) => {{
        let set = $set;
        $pass.law();
        let answer = $call(&set.slots, $pass, $($argument),*);
        $pass.law();
        answer
    }};
}

pub(crate) use at_set;
pub(crate) use between_laws;

/// A caller at its set: a pass with no slot in hand, and a reference to the set, lent for a call or more.
#[derive(Drop)]
pub struct AtSet<'c, N: Nodes = Keys> {
    /// The set.
    pub set: &'c VbrSet<N>,
    /// The pass that makes the calls.
    pub pass: &'c mut Pass,
    ghost own: { IsOf pass.now.trace set.now },
    ghost empty_hand: { pass.now.hand ≡ None },
}
