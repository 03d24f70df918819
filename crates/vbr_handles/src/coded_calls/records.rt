//! The calls on handles for a program that keeps a record of its own beside each slot, with their
//! answers as numbers: the calls on a set, and on both kinds. A slot that is taken, or an entry, is
//! written if the answer is yes, otherwise nothing is.
ghost use Rattle.std.specs.Prelude.{◌≡◌};
ghost use Rattle.vbr_list.specs.calls.Told.{is_yes};
ghost use Rattle.vbr_handles.specs.Codes.{call_code, hold_code, held_call_code, let_go_code};
ghost use Rattle.vbr_handles.specs.HeldSlots.{MakesRoom, TellsHold, TellsInsertHeld, TellsLetGo, WritesSlot, has_added_held};
ghost use Rattle.vbr_handles.specs.Incarnations.{TellsHasNamed, TellsIfStill, TellsRemoveKeyNamed, entry_named};
ghost use Rattle.vbr_handles.specs.Iterating.{TellsNextNamedKey};
ghost use Rattle.vbr_handles.specs.ValueCalls.{WritesGiven};

use crate::ample::budget_of;
use crate::coded_calls::iterating::next_here;
use crate::coded_calls::topping_up::top_up_after;
use crate::coded_calls::{EMPTY, HELD, NO, OUT_OF_STEPS, YES, call_code};
use crate::cursor::HandleCursor;
use crate::incarnation::Incarnation;
use crate::lent_member::return_if_empty;
use crate::owner::Owner;
use vbr_list::Entry;
use vbr_set::member::Member;
use vbr_set::{HeldRefusal, HoldRefusal, Refusal};
use vbr_slots::pass::POOL;
use vbr_words::{Keys, Nodes};

/// Takes a slot by the member of a handle, which then holds it, and writes which it is ([`Member::hold`]).
pub fn hold<N: Nodes>(owner: &mut Owner<Member<N>>, slot: &mut u32, steps: u32) -> i32
    ensures { TellsHold owner.old.member owner.new.member steps slot.old slot.new result }
{
    return_if_empty!(owner, EMPTY);
    let member = owner.member_mut();
    let budget = budget_of(member, steps);
    give_slot(member.hold(budget), slot)
}

/// Lets go of the slot that the member of a handle holds ([`Member::let_go`]).
pub fn let_go<N: Nodes>(owner: &mut Owner<Member<N>>) -> i32
    ensures { TellsLetGo owner.old.member owner.new.member result }
{
    return_if_empty!(owner, EMPTY);
    let_go_code(owner.member_mut().let_go())
}

/// Adds a key by the slot that the member of a handle holds, and then tops the reserve of the handle up
/// ([`topping_up`]). If the own pool of the pass is full, as no call of a handle leaves it while a slot
/// is held, it gives those slots back first, one step for each.
///
/// [`topping_up`]: crate::coded_calls::topping_up
pub fn insert_held(owner: &mut Owner<Member<Keys>>, key: u64, budget: u32) -> i32
    ensures { TellsInsertHeld owner.old.member owner.new.member key budget result }
{
    return_if_empty!(owner, EMPTY);
    let member = owner.member_mut();
    make_room(member);
    let before = member.pass().steps();
    let answer = member.insert_held(key, budget);
    top_up_after(member, has_added_held(&answer), budget, before);
    held_call_code(answer)
}

/// Looks a key up by the member of a handle, and writes where it stands (`get_entry` of [`Member`]).
pub fn get_entry(
    owner: &mut Owner<Member<Keys>>,
    key: u64,
    at: &mut Incarnation,
    budget: u32,
) -> i32
    ensures { TellsHasNamed owner.old.member owner.new.member key budget
        (entry_named at.old) (entry_named at.new) result }
{
    return_if_empty!(owner, EMPTY);
    give_incarnation(owner.member_mut().get_entry(key, budget), at)
}

/// Takes a key out by the member of a handle if its node is this entry's (`remove_exactly` of
/// [`Member`]).
pub fn remove_entry(owner: &mut Owner<Member<Keys>>, key: u64, at: &Incarnation, budget: u32) -> i32
    ensures { TellsRemoveKeyNamed owner.old.member owner.new.member key (entry_named at.now) budget
        result }
{
    return_if_empty!(owner, EMPTY);
    call_code(owner.member_mut().remove_exactly(key, &at.entry(), budget))
}

/// Finds the next key at a cursor by the member of a handle of this opening, and writes it and where it stands
/// (`next_named` of [`Member`]).
pub fn next_at(
    owner: &mut Owner<Member<Keys>>,
    opening: u32,
    cursor: &mut HandleCursor,
    key: &mut u64,
    at: &mut Incarnation,
    budget: u32,
) -> i32
    ensures { TellsNextNamedKey owner.old.member owner.new.member opening
        cursor.old cursor.new budget
        (key.old, entry_named at.old) (key.new, entry_named at.new) result }
{
    next_here!(owner, opening, cursor, budget, answer = next_named);
    give_named(answer, key, at)
}

/// Whether the slot of an entry still shows its birth, by the member of a handle
/// ([`Member::is_still`]).
pub fn is_still<N: Nodes>(owner: &mut Owner<Member<N>>, at: &Incarnation) -> i32
    ensures { TellsIfStill owner.old.member owner.new.member (entry_named at.now) result }
{
    return_if_empty!(owner, EMPTY);
    call_code(Ok(owner.member_mut().is_still(&at.entry())))
}

// Gives the slots of a member's own pool back if that is full.
pub(crate) fn make_room<N: Nodes>(member: &mut Member<N>)
    ensures { MakesRoom member.old member.new }
{
    if member.pass().pool().len() >= POOL {
        member.give_slots_back();
    }
}

// Writes the slot of an answer, if it has one, and returns the number of the answer.
fn give_slot(answer: Result<u32, HoldRefusal>, slot: &mut u32) -> i32
    ensures code { result ≡ hold_code answer }
    ensures writes { WritesSlot answer slot.old slot.new }
{
    match answer {
        Ok(taken) => {
            *slot = taken;
            YES
        }
        Err(HoldRefusal::Held) => HELD,
        Err(HoldRefusal::Refused(refusal)) => call_code(Err(refusal)),
    }
}

// Writes the entry of an answer, if it has one, and returns the number of the answer.
pub(crate) fn give_incarnation(answer: Result<Option<Entry>, Refusal>, at: &mut Incarnation) -> i32
    ensures code { result ≡ call_code (is_yes answer) }
    ensures writes { WritesGiven answer (entry_named at.old) (entry_named at.new) }
{
    match answer {
        Ok(Some(entry)) => {
            *at = Incarnation::of(entry);
            YES
        }
        Ok(None) => NO,
        Err(refusal) => call_code(Err(refusal)),
    }
}

// Writes the key and the entry of an answer, if it has them, and returns the number of the answer.
pub(crate) fn give_named(
    answer: Result<Option<(u64, Entry)>, Refusal>,
    key: &mut u64,
    at: &mut Incarnation,
) -> i32
    ensures code { result ≡ call_code (is_yes answer) }
    ensures writes { WritesGiven answer (key.old, entry_named at.old)
        (key.new, entry_named at.new) }
{
    match answer {
        Ok(Some((given, entry))) => {
            *key = given;
            *at = Incarnation::of(entry);
            YES
        }
        Ok(None) => NO,
        Err(refusal) => call_code(Err(refusal)),
    }
}

fn let_go_code(held: bool) -> i32
    ensures { result ≡ let_go_code held }
{
    if held { YES } else { HELD }
}

pub(crate) fn held_call_code(answer: Result<bool, HeldRefusal>) -> i32
    ensures { result ≡ held_call_code answer }
{
    match answer {
        Ok(true) => YES,
        Ok(false) => NO,
        Err(HeldRefusal::OutOfSteps { used: _ }) => OUT_OF_STEPS,
        Err(HeldRefusal::NotHeld | HeldRefusal::Full) => HELD,
    }
}

// Whether an insert by a slot that is held added its key.
pub(crate) fn has_added_held(answer: &Result<bool, HeldRefusal>) -> bool
    ensures { result ≡ has_added_held answer.now }
{
    matches!(answer, Ok(true))
}
