//! The reserve that a handle keeps by itself: after a call that adds a key it takes slots up to that
//! number.
ghost use Rattle.std.specs.Prelude.{◌≡◌, ◌&&◌, true, false};
ghost use Rattle.vbr_slots.specs.views.Views.{Trace, counted_steps, steps_of};
ghost use Rattle.vbr_handles.specs.ToppingUp.{TopsUpWhere, has_added, has_stored_new, lacks_slots, left_of, reserve_of};

use vbr_set::Refusal;
use vbr_set::member::Member;
use vbr_words::Nodes;

/// The most slots that a handle keeps in reserve by itself.
pub const MOST: u32 = 32;

/// A reserve is at most the share of a handle in the slots, divided by this number; and if no more than
/// this part of it is lacking, it isn't topped up.
pub const PARTS: u32 = 8;

/// Makes a call, by the member of an owner, that may add a key, and then tops the reserve of the handle up. If there is no
/// member, or it holds a slot, the function returns the number that says so.
macro_rules! adding {
    ($owner:expr, $steps:expr, $has_added:ident; $answer:ident = $call:ident($($given:expr),*)) => {
        $crate::lent_member::return_if_empty!($owner, $crate::coded_calls::EMPTY);
        let member = $owner.member_mut();
        if $crate::coded_calls::holds_slot(member) {
            return $crate::coded_calls::HELD;
        }
        let budget = $crate::ample::budget_of(member, $steps);
        let before = member.pass().steps();
        let $answer = member.$call($($given,)* budget);
        $crate::coded_calls::topping_up::top_up_after(member, $has_added(&$answer), budget, before);
    };
}

pub(crate) use adding;

/// Tops the reserve of a member up after a call that added a key, if more than an eighth of it is
/// lacking. It makes as many tries as slots are then lacking at the least, or as many as the call left
/// steps of its budget, if these are fewer. The pass had counted `before` steps when the call began.
/// Otherwise it does nothing.
///
/// So a set that is filled is topped up once in a few inserts, since what comes between two calls keeps the
/// processor from loading ahead.
#[inline(always)]
pub(crate) fn top_up_after<N: Nodes>(
    member: &mut Member<N>,
    has_added: bool,
    budget: u32,
    before: u64,
)
    ensures { (p : Trace) → before ≡ counted_steps (steps_of p) →
        TopsUpWhere (has_added && lacks_slots member.old) budget p member.old member.new }
{
    if has_added && !has_most(member) {
        top_up_where_lacking(member, budget, before);
    }
}

// Whether a member has so many slots in reserve that no more than an eighth is lacking, however large it is meant to
// be: so the number of slots needn't be divided.
#[inline(always)]
fn has_most<N: Nodes>(member: &Member<N>) -> bool
    ensures { result ≡ true → lacks_slots member.now ≡ false }
{
    member.pass().pool().len() as u32 >= MOST - MOST / PARTS
}

// `top_up_after` after a call that added a key.
#[inline(never)]
fn top_up_where_lacking<N: Nodes>(member: &mut Member<N>, budget: u32, before: u64)
    ensures { (p : Trace) → before ≡ counted_steps (steps_of p) →
        TopsUpWhere (lacks_slots member.old) budget p member.old member.new }
{
    if lacks_slots(member) {
        let left = left_of(budget, before, member.pass().steps());
        let wanted = reserve_of(member);
        member.top_up(wanted, left.min(wanted / PARTS + 1));
        member.pass().law();
    }
}

// Whether a member lacks more slots of its reserve than an eighth of it.
fn lacks_slots<N: Nodes>(member: &Member<N>) -> bool
    ensures { result ≡ lacks_slots member.now }
{
    let kept = member.pass().pool().len() as u32;
    let wanted = reserve_of(member);
    kept + wanted / PARTS < wanted
}

// How many steps are left of a budget.
fn left_of(budget: u32, before: u64, since: u64) -> u32
    ensures { result ≡ left_of budget before since }
{
    u64::from(budget).saturating_sub(since.wrapping_sub(before)) as u32
}

/// How many slots a member keeps in reserve.
pub(crate) fn reserve_of<N: Nodes>(member: &Member<N>) -> u32
    ensures { result ≡ reserve_of member.now.set }
{
    member.pass().law();
    (member.shape().slots() / member.passes() / PARTS).min(MOST)
}

/// Whether an insert added its key.
pub(crate) fn has_added(answer: &Result<bool, Refusal>) -> bool
    ensures { result ≡ has_added answer.now }
{
    matches!(answer, Ok(true))
}

/// Whether a store added its key.
pub(crate) fn has_stored_new(answer: &Result<Option<u64>, Refusal>) -> bool
    ensures { result ≡ has_stored_new answer.now }
{
    matches!(answer, Ok(None))
}
