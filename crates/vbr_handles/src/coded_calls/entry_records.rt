//! The calls on the handles of a map for a program that keeps a record of its own beside each slot,
//! with their answers as numbers. A value and an entry are written if the answer is yes, otherwise
//! nothing is.
ghost use Rattle.std.specs.Prelude.{◌≡◌};
ghost use Rattle.vbr_list.specs.calls.Told.{is_yes};
ghost use Rattle.vbr_handles.specs.Codes.{call_code, held_call_code};
ghost use Rattle.vbr_handles.specs.HeldSlots.{TellsInsertEntryHeld, TellsPutHeld, TellsReplaceHeld, has_put_new};
ghost use Rattle.vbr_handles.specs.Incarnations.{TellsGetNamed, TellsRemoveNamed, entry_named};
ghost use Rattle.vbr_handles.specs.Iterating.{TellsNextNamed};
ghost use Rattle.vbr_handles.specs.ValueCalls.{WritesGiven};

use crate::coded_calls::iterating::next_here;
use crate::coded_calls::records::{
    give_incarnation, give_named, has_added_held, held_call_code, make_room,
};
use crate::coded_calls::topping_up::top_up_after;
use crate::coded_calls::{EMPTY, NO, YES, call_code};
use crate::cursor::HandleCursor;
use crate::incarnation::Incarnation;
use crate::lent_member::return_if_empty;
use crate::owner::Owner;
use vbr_set::{HeldRefusal, MapMember, Refusal};

/// Adds a key with its value by the slot that the member of a handle holds, as [`records::insert_held`] adds a key.
///
/// [`records::insert_held`]: crate::coded_calls::records::insert_held
pub fn insert_held(owner: &mut Owner<MapMember>, key: u64, value: u64, budget: u32) -> i32
    ensures { TellsInsertEntryHeld owner.old.member owner.new.member key value budget result }
{
    return_if_empty!(owner, EMPTY);
    let member = owner.member_mut();
    make_room(member);
    let before = member.pass().steps();
    let answer = member.insert_held(key, value, budget);
    top_up_after(member, has_added_held(&answer), budget, before);
    held_call_code(answer)
}

/// Gives a key a value by the slot that the member of a handle holds, whether the key is there or not,
/// and writes the value that it had. If it added the key, it then tops the reserve of the handle up. It
/// makes room as [`insert_held`] does.
pub fn put_held(
    owner: &mut Owner<MapMember>,
    key: u64,
    value: u64,
    there: &mut u64,
    budget: u32,
) -> i32
    ensures { TellsPutHeld owner.old.member owner.new.member key value budget
        there.old there.new result }
{
    return_if_empty!(owner, EMPTY);
    let member = owner.member_mut();
    make_room(member);
    let before = member.pass().steps();
    let answer = member.put_held(key, value, budget);
    top_up_after(member, has_put_new(&answer), budget, before);
    give_held(answer, there)
}

/// Puts the slot that the member of a handle holds, with a value, in the place of this entry's node
/// (`replace_held` of [`MapMember`]). It makes room as [`insert_held`] does.
pub fn replace_held(
    owner: &mut Owner<MapMember>,
    key: u64,
    at: &Incarnation,
    value: u64,
    budget: u32,
) -> i32
    ensures { TellsReplaceHeld owner.old.member owner.new.member key (entry_named at.now) value
        budget result }
{
    return_if_empty!(owner, EMPTY);
    let member = owner.member_mut();
    make_room(member);
    held_call_code(member.replace_held(key, &at.entry(), value, budget))
}

/// Looks a key up by the member of a handle, and writes where it stands, with its value (`get_entry` of
/// [`MapMember`]).
pub fn get_entry(owner: &mut Owner<MapMember>, key: u64, at: &mut Incarnation, budget: u32) -> i32
    ensures { TellsGetNamed owner.old.member owner.new.member key budget
        (entry_named at.old) (entry_named at.new) result }
{
    return_if_empty!(owner, EMPTY);
    give_incarnation(owner.member_mut().get_entry(key, budget), at)
}

/// Takes a key out by the member of a handle if its node is this entry's (`remove_exactly` of
/// [`MapMember`]).
pub fn remove_entry(owner: &mut Owner<MapMember>, key: u64, at: &Incarnation, budget: u32) -> i32
    ensures { TellsRemoveNamed owner.old.member owner.new.member key (entry_named at.now) budget
        result }
{
    return_if_empty!(owner, EMPTY);
    taken_code(owner.member_mut().remove_exactly(key, &at.entry(), budget))
}

/// Finds the next key at a cursor by the member of a handle of this opening, and writes it and where it stands, with
/// its value (`next_named` of [`MapMember`]).
pub fn next_at(
    owner: &mut Owner<MapMember>,
    opening: u32,
    cursor: &mut HandleCursor,
    key: &mut u64,
    at: &mut Incarnation,
    budget: u32,
) -> i32
    ensures { TellsNextNamed owner.old.member owner.new.member opening
        cursor.old cursor.new budget
        (key.old, entry_named at.old) (key.new, entry_named at.new) result }
{
    next_here!(owner, opening, cursor, budget, answer = next_named);
    give_named(answer, key, at)
}

// Writes the value of an answer, if it has one, and returns the number of the answer.
fn give_held(answer: Result<Option<u64>, HeldRefusal>, there: &mut u64) -> i32
    ensures code { result ≡ held_call_code (is_yes answer) }
    ensures writes { WritesGiven answer there.old there.new }
{
    match answer {
        Ok(Some(given)) => {
            *there = given;
            YES
        }
        Ok(None) => NO,
        Err(refusal) => held_call_code(Err(refusal)),
    }
}

// The number of the answer, by whether it has a value.
fn taken_code(answer: Result<Option<u64>, Refusal>) -> i32
    ensures { result ≡ call_code (is_yes answer) }
{
    match answer {
        Ok(Some(_)) => YES,
        Ok(None) => NO,
        Err(refusal) => call_code(Err(refusal)),
    }
}

// Whether a put by a slot that is held added its key.
fn has_put_new(answer: &Result<Option<u64>, HeldRefusal>) -> bool
    ensures { result ≡ has_put_new answer.now }
{
    matches!(answer, Ok(None))
}
