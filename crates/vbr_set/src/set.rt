//! The set, and the map.
pub mod batches;
pub mod calls;
pub mod closing;
pub mod giving_slots_back;
pub mod iterating;
pub mod map_calls;
pub mod meeting;
pub mod opening;
pub mod record_calls;
pub mod renewing;
pub mod reporting;
pub mod reporting_slots;
pub mod reserving;
pub mod tokens;

ghost use Rattle.std.specs.Prelude.{◌≡◌, ◌≤◌};

use std::marker::Model;
use vbr_slots::Slots;
use vbr_words::{Keys, Nodes, Shape};

/// A set of `u64` keys, shared by the passes that were opened with it; or a map from such keys to `u64`
/// values, if its nodes are [`vbr_words::Entries`].
#[derive(Drop)]
pub struct VbrSet<N: Nodes = Keys> {
    pub(crate) slots: Slots<N>,
    // how many passes it was opened with
    pub(crate) count: u32,
}

impl<N: Nodes> Model for VbrSet<N> {
    ghost use Rattle.std.specs.Prelude.{◌≡◌};
    ghost use Rattle.vbr_slots.specs.views.Views.{TableView};

    ghost Value = { TableView };

    ghost view = { λ s. s.slots };

    ghost invariant = { λ s. (s.count ≡ s.slots.passes) × (s.slots.start.shape.values ≡ N.VALUES) };
}

impl<N: Nodes> VbrSet<N> {
    /// Its shape.
    #[inline]
    pub fn shape(&self) -> Shape
        ensures { result ≡ self.now.start.shape }
    {
        self.slots.shape()
    }

    /// How many slots lie in the shared pool, as [`Slots::free_about`] counts them.
    pub fn free_about(&self) -> u32
        ensures { result ≤ self.now.start.shape.slots }
    {
        self.slots.free_about()
    }

    // Brings into the cache what look-ups of these keys begin with, like [`Slots::warm`].
    #[inline]
    pub(crate) fn warm(&self, keys: &[u64]) {
        self.slots.warm(keys);
    }
}
