//! The calls on the handles of a map with their answers as numbers. A value is written if the answer is
//! yes, otherwise nothing is. While its member holds a slot, an insert and a store do nothing.
ghost use Rattle.std.specs.Prelude.{◌≡◌};
ghost use Rattle.vbr_list.specs.calls.Told.{is_yes};
ghost use Rattle.vbr_list.specs.updates.Outcomes.{ChangedIfExpected, there_in};
ghost use Rattle.vbr_handles.specs.Calls.{TellsInsertEntry};
ghost use Rattle.vbr_handles.specs.Codes.{call_code, exchange_code};
ghost use Rattle.vbr_handles.specs.ValueCalls.{TellsExchange, TellsFetchAdd, TellsGetEntry, TellsGetOrInsert, TellsPut, TellsRemoveEntry, TellsRemoveIf, TellsReplace, WritesGiven};

use crate::ample::budget_of;
use crate::coded_calls::topping_up::{adding, has_added, has_stored_new};
use crate::coded_calls::{EMPTY, HELD, NO, OTHER, YES, call_code, holds_slot};
use crate::lent_member::return_if_empty;
use crate::owner::Owner;
use vbr_set::{MapMember, Outcome, Refusal};

/// Adds a key with its value by the member of a handle, and then tops the reserve of the handle up.
pub fn insert(owner: &mut Owner<MapMember>, key: u64, value: u64, steps: u32) -> i32
    ensures { TellsInsertEntry owner.old.member owner.new.member key value steps result }
{
    adding!(owner, steps, has_added; answer = insert(key, value));
    call_code(answer)
}

/// Takes a key out by the member of a handle, and writes the value that was stored with it.
pub fn remove(owner: &mut Owner<MapMember>, key: u64, value: &mut u64, budget: u32) -> i32
    ensures { TellsRemoveEntry owner.old.member owner.new.member key budget value.old value.new
        result }
{
    return_if_empty!(owner, EMPTY);
    give(owner.member_mut().remove(key, budget), value)
}

/// Looks a key up by the member of a handle, and writes the value that is stored with it.
pub fn get(owner: &mut Owner<MapMember>, key: u64, value: &mut u64, budget: u32) -> i32
    ensures { TellsGetEntry owner.old.member owner.new.member key budget value.old value.new
        result }
{
    return_if_empty!(owner, EMPTY);
    give(owner.member_mut().get(key, budget), value)
}

/// Gives a key another value, if it is there, by the member of a handle, and writes the one that it
/// had.
pub fn replace(
    owner: &mut Owner<MapMember>,
    key: u64,
    value: u64,
    there: &mut u64,
    steps: u32,
) -> i32
    ensures { TellsReplace owner.old.member owner.new.member key value steps there.old there.new
        result }
{
    return_if_empty!(owner, EMPTY);
    let member = owner.member_mut();
    if holds_slot(member) {
        return HELD;
    }
    let budget = budget_of(member, steps);
    give(member.replace(key, value, budget), there)
}

/// Gives a key a value by the member of a handle, whether it is there or not, and writes the one that
/// it had. If it added the key, it then tops the reserve of the handle up.
pub fn put(owner: &mut Owner<MapMember>, key: u64, value: u64, there: &mut u64, steps: u32) -> i32
    ensures { TellsPut owner.old.member owner.new.member key value steps there.old there.new
        result }
{
    adding!(owner, steps, has_stored_new; answer = put(key, value));
    give(answer, there)
}

/// Adds a number modulo 2^64 to the value of a key by the member of a handle, or inserts the key with it
/// if it is absent, and writes the value that it had. If it added the key, it then tops the reserve of
/// the handle up.
pub fn fetch_add(
    owner: &mut Owner<MapMember>,
    key: u64,
    delta: u64,
    there: &mut u64,
    steps: u32,
) -> i32
    ensures { TellsFetchAdd owner.old.member owner.new.member key delta steps there.old there.new
        result }
{
    adding!(owner, steps, has_stored_new; answer = fetch_add(key, delta));
    give(answer, there)
}

/// Gives an absent key a value by the member of a handle, and then tops the reserve of the handle up;
/// if the key is there, it writes its value.
pub fn get_or_insert(
    owner: &mut Owner<MapMember>,
    key: u64,
    value: u64,
    there: &mut u64,
    steps: u32,
) -> i32
    ensures { TellsGetOrInsert owner.old.member owner.new.member key value steps
        there.old there.new result }
{
    adding!(owner, steps, has_stored_new; answer = get_or_insert(key, value));
    give(answer, there)
}

/// Gives a key another value by the member of a handle if it has the expected one, and writes what it
/// had.
pub fn compare_exchange(
    owner: &mut Owner<MapMember>,
    key: u64,
    expected: u64,
    value: u64,
    there: &mut u64,
    steps: u32,
) -> i32
    ensures { TellsExchange owner.old.member owner.new.member key expected value steps
        there.old there.new result }
{
    return_if_empty!(owner, EMPTY);
    let member = owner.member_mut();
    if holds_slot(member) {
        return HELD;
    }
    let budget = budget_of(member, steps);
    give_outcome(
        member.compare_exchange(key, expected, value, budget),
        expected,
        there,
    )
}

/// Takes a key out by the member of a handle if it has the expected value, and writes what it had.
pub fn remove_if(
    owner: &mut Owner<MapMember>,
    key: u64,
    expected: u64,
    there: &mut u64,
    budget: u32,
) -> i32
    ensures { TellsRemoveIf owner.old.member owner.new.member key expected budget
        there.old there.new result }
{
    return_if_empty!(owner, EMPTY);
    give_outcome(
        owner.member_mut().remove_if(key, expected, budget),
        expected,
        there,
    )
}

// Writes the value that was there, if any, and returns the number of the outcome.
fn give_outcome(answer: Result<Outcome, Refusal>, expected: u64, there: &mut u64) -> i32
    requires changed { ChangedIfExpected expected answer }
    ensures code { result ≡ exchange_code expected (there_in answer) }
    ensures writes { WritesGiven (there_in answer) there.old there.new }
{
    match answer {
        Ok(Outcome::Changed(_)) => {
            *there = expected;
            YES
        }
        Ok(Outcome::Unchanged(Some(value))) => {
            *there = value;
            OTHER
        }
        Ok(Outcome::Unchanged(None)) => NO,
        Err(refusal) => call_code(Err(refusal)),
    }
}

// Writes the value of an answer, if it has one, and returns the number of the answer.
pub(crate) fn give(answer: Result<Option<u64>, Refusal>, value: &mut u64) -> i32
    ensures code { result ≡ call_code (is_yes answer) }
    ensures writes { WritesGiven answer value.old value.new }
{
    match answer {
        Ok(Some(given)) => {
            *value = given;
            YES
        }
        Ok(None) => NO,
        Err(refusal) => call_code(Err(refusal)),
    }
}
