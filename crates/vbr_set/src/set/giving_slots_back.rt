//! Giving the slots of a pass's own pool back.
ghost use Rattle.vbr_slots.specs.steps.Calls.{Took};
ghost use Rattle.vbr_slots.specs.views.Views.{IsOf};
ghost use Rattle.vbr_at_table.specs.pools.GivingSlotsBack.{GivesSlotsBack};

use crate::set::VbrSet;
use vbr_slots::{AtTable, Pass, Slots, Stepper};
use vbr_words::Nodes;

impl<N: Nodes> VbrSet<N> {
    /// Puts all slots of the pass's own pool into the shared pool, one step for each, and returns their
    /// number. From there any pass may take them for its inserts. It makes no call, changes no list and
    /// can't fail.
    ///
    /// # Example
    ///
    /// ```rattle file=crates/vbr_set/src/member/giving_slots_back.rt
    /// self.share.set().give_slots_back(&mut self.pass)
    /// ```
    pub fn give_slots_back(&self, pass: &mut Pass) -> u32
        requires own { IsOf pass.old.trace self.now }
        ensures { GivesSlotsBack pass.old pass.new result }
    {
        let slots = &self.slots;
        pass.during(
            |stepper|
                requires own { IsOf stepper.old.trace slots.now }
            { give_back_by(slots, stepper) },
        )
    }
}

// The number of slots given back, and the number of steps, which is the same.
fn give_back_by<N: Nodes>(slots: &Slots<N>, stepper: &mut Stepper) -> (u32, u32)
    requires own { IsOf stepper.old.trace slots.now }
    ensures took { Took stepper.old.trace stepper.new.trace result.1 }
    ensures gives { GivesSlotsBack stepper.old stepper.new result.0 }
{
    let shared = vbr_at_table::give_slots_back(&mut AtTable { slots, stepper });
    (shared, shared)
}
