//! The ample budget of calls that may take a slot.
ghost use Rattle.std.specs.Prelude.{◌≡◌};
ghost use Rattle.vbr_handles.specs.AmpleBudgets.{budget_among, budget_of};

use vbr_set::member::Member;
use vbr_words::Nodes;

/// The steps of the ample budget, for calls that are given none.
pub const AMPLE_STEPS: u32 = 400_000;

/// With so many slots it leaves 137,856 steps besides a search through the words of all flags.
pub const AMPLE_SLOTS: u32 = 16_777_216;

/// The budget that a number of steps stands for in a call that may take a slot: [`AMPLE_STEPS`] stands
/// for itself and a step more for each 64 slots above [`AMPLE_SLOTS`]; any other number is the budget
/// itself.
#[inline(always)]
pub(crate) fn budget_of<N: Nodes>(member: &Member<N>, steps: u32) -> u32
    ensures { result ≡ budget_of member.now steps }
{
    let slots = member.pass().slots();
    if slots > AMPLE_SLOTS {
        return budget_among(slots, steps);
    }
    steps
}

// The same, by the number of slots.
#[cold]
#[inline(never)]
fn budget_among(slots: u32, steps: u32) -> u32
    ensures { result ≡ budget_among slots steps }
{
    if steps == AMPLE_STEPS {
        AMPLE_STEPS + slots.saturating_sub(AMPLE_SLOTS) / 64
    } else {
        steps
    }
}
