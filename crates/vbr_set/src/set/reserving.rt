//! Taking slots into a pass's own pool ahead of its inserts.
ghost use Rattle.std.specs.Prelude.{ℕ};
ghost use Rattle.vbr_slots.specs.steps.Calls.{Took};
ghost use Rattle.vbr_slots.specs.views.Views.{IsOf};
ghost use Rattle.vbr_at_table.specs.pools.Reserving.{Reserves, TopsUp};

use crate::set::VbrSet;
use vbr_slots::{AtTable, Pass, Slots, Stepper};
use vbr_words::Nodes;

impl<N: Nodes> VbrSet<N> {
    /// Takes slots out of the shared pool until the pass's own pool has `wanted`, or 63 if that is
    /// less, and returns how many it took: fewer only if one round over all slots finds no more. It
    /// makes at most one step for each slot that it took, one for each 64 slots of the set, and one for
    /// each slot that others took out of the shared pool meanwhile. It makes no call, changes no list
    /// and can't fail.
    ///
    /// An insert advances the epoch if each slot of the own pool was retired at the current epoch. So a
    /// pass with r slots in reserve that takes a key out before each insert advances it in about one of
    /// r + 1 inserts, and not in each. The slots belong to the pass until it gives them back
    /// ([`VbrSet::give_slots_back`]). They count among the 64 slots that each pass may keep to itself.
    ///
    /// [`VbrSet::give_slots_back`]: crate::VbrSet::give_slots_back
    ///
    /// # Example
    ///
    /// ```rattle file=crates/vbr_set/src/member/reserving.rt
    /// self.share.set().reserve(&mut self.pass, wanted)
    /// ```
    pub fn reserve(&self, pass: &mut Pass, wanted: u32) -> u32
        requires own { IsOf pass.old.trace self.now }
        ensures { (steps : ℕ) × Reserves pass.old pass.new wanted result steps }
    {
        let slots = &self.slots;
        pass.during(
            |stepper|
                requires own { IsOf stepper.old.trace slots.now }
            { reserve_by(slots, stepper, wanted) },
        )
    }

    /// Takes slots as [`VbrSet::reserve`] does, but tries no more than `probes` times, a step for each,
    /// and returns how many it took. It takes fewer than wanted if all tries were made, or after one
    /// pass over all slots. The next top-up goes on after the slot that the pass tried last. A pass
    /// that has what is wanted makes no step.
    ///
    /// After each insert two tries are enough: the reserve grows while flags are set one after the other.
    ///
    /// # Example
    ///
    /// ```rattle file=crates/vbr_set/src/member/reserving.rt
    /// self.share.set().top_up(&mut self.pass, wanted, probes)
    /// ```
    #[inline]
    pub fn top_up(&self, pass: &mut Pass, wanted: u32, probes: u32) -> u32
        requires own { IsOf pass.old.trace self.now }
        ensures { (steps : ℕ) × TopsUp pass.old pass.new wanted probes result steps }
    {
        let slots = &self.slots;
        pass.during(
            |stepper|
                requires own { IsOf stepper.old.trace slots.now }
            { top_up_by(slots, stepper, wanted, probes) },
        )
    }
}

// The number of slots taken, and of steps.
fn reserve_by<N: Nodes>(slots: &Slots<N>, stepper: &mut Stepper, wanted: u32) -> (u32, u32)
    requires own { IsOf stepper.old.trace slots.now }
    ensures took { Took stepper.old.trace stepper.new.trace result.1 }
    ensures reserves { Reserves stepper.old stepper.new wanted result.0 result.1 }
{
    vbr_at_table::reserve(&mut AtTable { slots, stepper }, wanted)
}

// The number of slots that a top-up took, and of steps.
fn top_up_by<N: Nodes>(
    slots: &Slots<N>,
    stepper: &mut Stepper,
    wanted: u32,
    probes: u32,
) -> (u32, u32)
    requires own { IsOf stepper.old.trace slots.now }
    ensures took { Took stepper.old.trace stepper.new.trace result.1 }
    ensures tops_up { TopsUp stepper.old stepper.new wanted probes result.0 result.1 }
{
    vbr_at_table::top_up(&mut AtTable { slots, stepper }, wanted, probes)
}
