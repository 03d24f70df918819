//! A call in progress.
ghost use Rattle.std.specs.Prelude.{◌≡◌, ◌<◌, ◌≤◌};
ghost use Rattle.vbr_words.specs.Buckets.{bucket_of};

use vbr_slots::{AtTable, Slots};
use vbr_words::{Keys, Nodes};

/// A call in progress: the pass at its table, the key, the key's bucket, and how many steps of the
/// budget are used. Its methods are the pieces of calls. Its steps aren't counted in the pass until it
/// ends.
#[derive(Drop)]
pub(crate) struct PendingCall<'c, N: Nodes = Keys> {
    pub(crate) at: AtTable<'c, N>,
    pub(crate) key: u64,
    pub(crate) bucket: u32,
    pub(crate) budget: u32,
    pub(crate) used: u32,
    ghost of_key: { bucket ≡ bucket_of at.stepper.now.trace.start.shape key },
    ghost in_shape: { bucket < at.slots.now.start.shape.buckets },
    ghost within: { used ≤ budget },
}

/// The bucket of a key at a table.
#[inline(always)]
pub(crate) fn bucket_at<N: Nodes>(slots: &Slots<N>, key: u64) -> u32
    ensures of_key { result ≡ bucket_of slots.now.start.shape key }
    ensures in_shape { result < slots.now.start.shape.buckets }
{
    slots.shape().bucket_of(key)
}

/// Begins a call for a key at a table, by what makes the steps of its pass, with a budget of which so
/// many steps are already used. It is a macro because a function can't lend on what it was lent.
macro_rules! begin {
    ($slots:expr, $stepper:expr, $key:expr, $budget:expr, $used:expr) => {
        $crate::call::PendingCall {
            at: vbr_slots::AtTable {
                slots: $slots,
                stepper: $stepper,
            },
            key: $key,
            bucket: $crate::call::bucket_at($slots, $key),
            budget: $budget,
            used: $used,
        }
    };
}

pub(crate) use begin;
