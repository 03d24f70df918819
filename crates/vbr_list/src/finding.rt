//! Finding where a key stands.
ghost use Rattle.std.specs.Prelude.{◌≡◌, None, IfOk, IfErr, IfSome, IfNone};
ghost use Rattle.vbr_slots.specs.steps.Calls.{Took};
ghost use Rattle.vbr_slots.specs.views.Views.{IsOf};
ghost use Rattle.vbr_at_table.specs.hands.KeptSlots.{TakesNoSlot};
ghost use Rattle.vbr_list.specs.traversals.Found.{FindGivesUp, FindsIn};
ghost use Rattle.vbr_list.specs.calls.Pieces.{GoesOn, HasRoomForPiece};
ghost use Rattle.vbr_list.specs.traversals.Traversing.{SearchFinds, SearchTires};
ghost use Rattle.vbr_list.specs.calls.Words.{wide_found, said_found};

use crate::call::{PendingCall, begin};
use crate::found::Found;
use crate::traversal::Stop;
use vbr_at_table::Refusal;
use vbr_at_table::budget::affords;
use vbr_slots::{Pass, Slots, Stepper};
use vbr_words::Nodes;

impl<N: Nodes> PendingCall<'_, N> {
    /// Traverses until it comes to the key; none if the budget has no room for one more piece.
    #[inline(always)]
    pub(crate) fn search(&mut self) -> Option<Found>
        ensures goes { GoesOn self.old self.new }
        ensures found { IfSome result (λ told.
            SearchFinds self.old self.new (wide_found self.old told)) }
        ensures tired { IfNone result (SearchTires self.old self.new) }
    {
        self.at.law();
        loop {
            match self.traverse() {
                Ok(found) => return Some(found),
                Err(Stop::Again) => self.at.count_restart(),
                Err(Stop::Tired) => return None,
            }
        }
    }

    /// Like `search`, and the budget then has room for one more piece.
    #[inline(always)]
    pub(crate) fn reach(&mut self) -> Option<Found>
        ensures goes { GoesOn self.old self.new }
        ensures found { IfSome result (λ told.
            SearchFinds self.old self.new (wide_found self.old told)) }
        ensures room { IfSome result (λ _. HasRoomForPiece self.new) }
        ensures tired { IfNone result (SearchTires self.old self.new) }
    {
        let found = self.search()?;
        if !affords(self.budget, self.used) {
            return None;
        }
        Some(found)
    }
}

/// Finds where a key stands, or would stand, in the list of its bucket, in at most `budget` steps: the
/// last unmarked place before it, and the node behind that, which both stood so at moments of the call.
/// It unlinks and retires the marked nodes that it meets, and makes no call. The own pool then has what
/// it had, each slot that the pass could take, and what the call unlinked while it had room.
///
/// Its only refusal is OutOfSteps. While the other passes stand still, a budget of 9n + 11 is enough,
/// with n nodes in the key's bucket, and a find takes at most 9n + 3 steps.
pub fn find<N: Nodes>(
    slots: &Slots<N>,
    pass: &mut Pass,
    key: u64,
    budget: u32,
) -> Result<Found, Refusal>
    requires own { IsOf pass.old.trace slots.now }
    requires empty_hand { pass.old.hand ≡ None }
    ensures hand { pass.new.hand ≡ None }
    ensures takes_no_slot { TakesNoSlot pass.old pass.new }
    ensures found { IfOk result (λ told.
        FindsIn pass.old pass.new key budget (said_found slots.now told)) }
    ensures tired { IfErr result (FindGivesUp pass.old pass.new key budget) }
{
    pass.during(
        |stepper|
            requires own { IsOf stepper.old.trace slots.now }
            requires empty_hand { stepper.old.hand ≡ None }
        { find_by(slots, stepper, key, budget) },
    )
}

// Like `find`, but the pass counts no step; also returns the number of steps.
fn find_by<N: Nodes>(
    slots: &Slots<N>,
    stepper: &mut Stepper,
    key: u64,
    budget: u32,
) -> (Result<Found, Refusal>, u32)
    requires own { IsOf stepper.old.trace slots.now }
    requires empty_hand { stepper.old.hand ≡ None }
    ensures took { Took stepper.old.trace stepper.new.trace result.1 }
    ensures hand { stepper.new.hand ≡ None }
    ensures takes_no_slot { TakesNoSlot stepper.old stepper.new }
    ensures found { IfOk result.0 (λ told.
        FindsIn stepper.old stepper.new key budget (said_found slots.now told)) }
    ensures tired { IfErr result.0 (FindGivesUp stepper.old stepper.new key budget) }
{
    let mut call = begin!(slots, stepper, key, budget, 0);
    call.at.law();
    match call.search() {
        Some(found) => (Ok(found), call.used),
        None => (Err(Refusal::OutOfSteps { used: call.used }), call.used),
    }
}
