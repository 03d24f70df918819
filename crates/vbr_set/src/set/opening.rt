//! Opening a set or a map.
ghost use Rattle.std.specs.Prelude.{◌≡◌, ◌<◌, ◌≤◌, ◌↔◌, ◌⊎◌, [], length, IfOk, IsErrOf};
ghost use Rattle.std.specs.List.Sorted.{IsStrictlyIncreasing};
ghost use Rattle.vbr_slots.specs.views.Views.{new_passes};
ghost use Rattle.vbr_slots.specs.declared.opening.TheConstants.{MAX_MANY_PASSES};

use crate::kind::Kind;
use crate::set::VbrSet;
use std::alloc::Global;
use vbr_slots::{MAX_PASSES, OpenError, OpenManyError, Pass};
use vbr_words::Shape;

impl<N: Kind> VbrSet<N> {
    /// Opens an empty set or map, with so many passes, from 1 to 64. They stand in the order of their
    /// numbers, which begin with 0, and have seen nothing. Later only [`VbrSet::close`] takes memory.
    /// It takes 8 * (2 + buckets + 4 * slots + slots / 64) bytes, the last part rounded up, and in a
    /// map 8 more for each slot. Each pass takes 616 more, and the words are taken once more while it
    /// runs. No pass has made a step then. Each slot is in the shared pool, which the passes take from
    /// and put back into (Sheffi, Herlihy and Petrank 2021).
    ///
    /// # Errors
    ///
    /// Tested in this order; nothing is kept then.
    ///
    /// - Passes: the number of passes is 0 or above 64.
    /// - Memory: there is no room for the words or the passes.
    ///
    /// # Example
    ///
    /// ```rattle file=crates/vbr_set_tests/src/set.rt
    /// match VbrSet::open(alloc, shape, passes) {
    /// ```
    pub fn open(
        alloc: Global,
        shape: Shape,
        passes: u32,
    ) -> Result<(VbrSet<N>, Vec<Pass>), OpenError>
        ensures table { IfOk result (λ r.
            (r.0.start ≡ N.kind.start shape []) × (r.0.passes ≡ passes)) }
        ensures passes { IfOk result (λ r. r.1.items ≡ new_passes r.0 0 passes) }
        ensures refused { IsErrOf result OpenError.Passes ↔ ((passes ≡ 0) ⊎ (64 < passes)) }
    {
        let _slots = shape.slots();
        VbrSet::<N>::open_with(alloc, shape, passes, &[])
    }

    /// Opens a set with these keys, or a map with these entries, and so many passes, as
    /// [`VbrSet::open`] opens an empty one: they are there before any call. The keys ascend, each comes
    /// once, and there are no more of them than slots. Key number i, from 0, stands in slot i, and the
    /// other slots are in the shared pool.
    ///
    /// It takes time in proportion to the number of words and of keys: for each key it reads three words
    /// and writes five, in a map six, in no order of memory. Besides what [`VbrSet::open`] takes it takes a
    /// copy of the keys while it runs, 8 bytes for each; of entries it takes two copies, 32 bytes for each.
    ///
    /// # Errors
    ///
    /// Tested in this order; nothing is kept then.
    ///
    /// - Passes: the number of passes is 0 or above 64.
    /// - Memory: there is no room for the words, the copies or the passes.
    ///
    /// # Example
    ///
    /// ```rattle file=crates/vbr_set_tests/src/renewals.rt
    /// match VbrSet::open_with(alloc, shape, 2, keys) {
    /// ```
    pub fn open_with(
        alloc: Global,
        shape: Shape,
        passes: u32,
        items: &[N::Item],
    ) -> Result<(VbrSet<N>, Vec<Pass>), OpenError>
        requires ascending { IsStrictlyIncreasing (N.kind.keys items.now) }
        requires few { length items.now ≤ shape.slots }
        ensures table { IfOk result (λ r.
            (r.0.start ≡ N.kind.start shape items.now) × (r.0.passes ≡ passes)) }
        ensures passes { IfOk result (λ r. r.1.items ≡ new_passes r.0 0 passes) }
        ensures refused { IsErrOf result OpenError.Passes ↔ ((passes ≡ 0) ⊎ (64 < passes)) }
    {
        if passes == 0 || passes > MAX_PASSES {
            return Err(OpenError::Passes);
        }
        match VbrSet::<N>::open_many(alloc, shape, passes, items) {
            Ok(opened) => Ok(opened),
            Err(OpenManyError::Memory) => Err(OpenError::Memory),
            Err(OpenManyError::Passes) => unreachable!(),
        }
    }

    /// Opens a set with these keys, or a map with these entries, as [`VbrSet::open_with`] does, with
    /// more passes: from 1 to [`MAX_MANY_PASSES`]. Time and memory are the same, 616 bytes for each
    /// pass. More passes cost no call a step; closing, reporting and renewing the set go over all of
    /// them.
    ///
    /// # Errors
    ///
    /// Tested in this order; nothing is kept then.
    ///
    /// - Passes: the number of passes is 0 or above [`MAX_MANY_PASSES`].
    /// - Memory: there is no room for the words, the copies or the passes.
    ///
    /// # Example
    ///
    /// ```rattle file=crates/vbr_set/src/set/renewing.rt
    /// match VbrSet::<N>::open_many(alloc, shape, count, N::items(&report)) {
    /// ```
    ///
    /// [`MAX_MANY_PASSES`]: crate::MAX_MANY_PASSES
    pub fn open_many(
        alloc: Global,
        shape: Shape,
        passes: u32,
        items: &[N::Item],
    ) -> Result<(VbrSet<N>, Vec<Pass>), OpenManyError>
        requires ascending { IsStrictlyIncreasing (N.kind.keys items.now) }
        requires few { length items.now ≤ shape.slots }
        ensures table { IfOk result (λ r.
            (r.0.start ≡ N.kind.start shape items.now) × (r.0.passes ≡ passes)) }
        ensures passes { IfOk result (λ r. r.1.items ≡ new_passes r.0 0 passes) }
        ensures refused { IsErrOf result OpenManyError.Passes
            ↔ ((passes ≡ 0) ⊎ (MAX_MANY_PASSES < passes)) }
    {
        let (slots, opened) = N::open_slots(alloc, shape, passes, items)?;
        let set = VbrSet {
            slots,
            count: passes,
        };
        Ok((set, opened))
    }
}
