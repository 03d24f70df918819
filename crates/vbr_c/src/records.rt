//! The calls for a program that keeps a record of its own beside each slot: of a set, and of a map.
//! A handle holds at most one slot. While it holds one, calls that would take another are refused: -14.
ghost use Rattle.std.specs.Prelude.{◌≡◌};
ghost use Rattle.vbr_handles.specs.HeldSlots.{TellsHold, TellsInsertEntryHeld, TellsInsertHeld, TellsLetGo, TellsPutHeld, TellsReplaceHeld};
ghost use Rattle.vbr_handles.specs.Iterating.{TellsNextNamed, TellsNextNamedKey};
ghost use Rattle.vbr_handles.specs.Incarnations.{TellsGetNamed, TellsHasNamed, TellsIfStill, TellsRemoveKeyNamed, TellsRemoveNamed, entry_named};

use vbr_handles::coded_calls::{entry_records, records};
use vbr_handles::{Handle, HandleCursor, Incarnation, MapHandle};

/// `vbr_hold_within` of vbr.h.
#[unsafe(no_mangle)]
pub extern "C" fn vbr_hold_within(handle: &mut Handle, slot: &mut u32, budget: u32) -> i32
    ensures holds { TellsHold handle.old.owned.member handle.new.owned.member budget
        slot.old slot.new result }
    ensures steps { handle.new.steps ≡ handle.old.steps }
    ensures opening { handle.new.opening ≡ handle.old.opening }
{
    records::hold(handle.owned.owner_mut(), slot, budget)
}

/// `vbr_map_hold_within` of vbr.h.
#[unsafe(no_mangle)]
pub extern "C" fn vbr_map_hold_within(handle: &mut MapHandle, slot: &mut u32, budget: u32) -> i32
    ensures holds { TellsHold handle.old.owned.member handle.new.owned.member budget
        slot.old slot.new result }
    ensures steps { handle.new.steps ≡ handle.old.steps }
    ensures opening { handle.new.opening ≡ handle.old.opening }
{
    records::hold(handle.owned.owner_mut(), slot, budget)
}

/// `vbr_let_go` of vbr.h.
#[unsafe(no_mangle)]
pub extern "C" fn vbr_let_go(handle: &mut Handle) -> i32
    ensures lets_go { TellsLetGo handle.old.owned.member handle.new.owned.member result }
    ensures steps { handle.new.steps ≡ handle.old.steps }
    ensures opening { handle.new.opening ≡ handle.old.opening }
{
    records::let_go(handle.owned.owner_mut())
}

/// `vbr_map_let_go` of vbr.h.
#[unsafe(no_mangle)]
pub extern "C" fn vbr_map_let_go(handle: &mut MapHandle) -> i32
    ensures lets_go { TellsLetGo handle.old.owned.member handle.new.owned.member result }
    ensures steps { handle.new.steps ≡ handle.old.steps }
    ensures opening { handle.new.opening ≡ handle.old.opening }
{
    records::let_go(handle.owned.owner_mut())
}

/// `vbr_insert_held_within` of vbr.h.
#[unsafe(no_mangle)]
pub extern "C" fn vbr_insert_held_within(handle: &mut Handle, key: u64, budget: u32) -> i32
    ensures called { TellsInsertHeld handle.old.owned.member handle.new.owned.member
        key budget result }
    ensures steps { handle.new.steps ≡ handle.old.steps }
    ensures opening { handle.new.opening ≡ handle.old.opening }
{
    records::insert_held(handle.owned.owner_mut(), key, budget)
}

/// `vbr_map_insert_held_within` of vbr.h.
#[unsafe(no_mangle)]
pub extern "C" fn vbr_map_insert_held_within(
    handle: &mut MapHandle,
    key: u64,
    value: u64,
    budget: u32,
) -> i32
    ensures called { TellsInsertEntryHeld handle.old.owned.member handle.new.owned.member
        key value budget result }
    ensures steps { handle.new.steps ≡ handle.old.steps }
    ensures opening { handle.new.opening ≡ handle.old.opening }
{
    entry_records::insert_held(handle.owned.owner_mut(), key, value, budget)
}

/// `vbr_map_put_held_within` of vbr.h.
#[unsafe(no_mangle)]
pub extern "C" fn vbr_map_put_held_within(
    handle: &mut MapHandle,
    key: u64,
    value: u64,
    there: &mut u64,
    budget: u32,
) -> i32
    ensures called { TellsPutHeld handle.old.owned.member handle.new.owned.member key value budget
        there.old there.new result }
    ensures steps { handle.new.steps ≡ handle.old.steps }
    ensures opening { handle.new.opening ≡ handle.old.opening }
{
    entry_records::put_held(handle.owned.owner_mut(), key, value, there, budget)
}

/// `vbr_map_replace_held_within` of vbr.h.
#[unsafe(no_mangle)]
pub extern "C" fn vbr_map_replace_held_within(
    handle: &mut MapHandle,
    key: u64,
    at: &Incarnation,
    value: u64,
    budget: u32,
) -> i32
    ensures called { TellsReplaceHeld handle.old.owned.member handle.new.owned.member
        key (entry_named at.now) value budget result }
    ensures steps { handle.new.steps ≡ handle.old.steps }
    ensures opening { handle.new.opening ≡ handle.old.opening }
{
    entry_records::replace_held(handle.owned.owner_mut(), key, at, value, budget)
}

/// `vbr_get_entry_within` of vbr.h.
#[unsafe(no_mangle)]
pub extern "C" fn vbr_get_entry_within(
    handle: &mut Handle,
    key: u64,
    at: &mut Incarnation,
    budget: u32,
) -> i32
    ensures called { TellsHasNamed handle.old.owned.member handle.new.owned.member key budget
        (entry_named at.old) (entry_named at.new) result }
    ensures steps { handle.new.steps ≡ handle.old.steps }
    ensures opening { handle.new.opening ≡ handle.old.opening }
{
    records::get_entry(handle.owned.owner_mut(), key, at, budget)
}

/// `vbr_map_get_entry_within` of vbr.h.
#[unsafe(no_mangle)]
pub extern "C" fn vbr_map_get_entry_within(
    handle: &mut MapHandle,
    key: u64,
    at: &mut Incarnation,
    budget: u32,
) -> i32
    ensures called { TellsGetNamed handle.old.owned.member handle.new.owned.member key budget
        (entry_named at.old) (entry_named at.new) result }
    ensures steps { handle.new.steps ≡ handle.old.steps }
    ensures opening { handle.new.opening ≡ handle.old.opening }
{
    entry_records::get_entry(handle.owned.owner_mut(), key, at, budget)
}

/// `vbr_remove_entry_within` of vbr.h.
#[unsafe(no_mangle)]
pub extern "C" fn vbr_remove_entry_within(
    handle: &mut Handle,
    key: u64,
    at: &Incarnation,
    budget: u32,
) -> i32
    ensures called { TellsRemoveKeyNamed handle.old.owned.member handle.new.owned.member
        key (entry_named at.now) budget result }
    ensures steps { handle.new.steps ≡ handle.old.steps }
    ensures opening { handle.new.opening ≡ handle.old.opening }
{
    records::remove_entry(handle.owned.owner_mut(), key, at, budget)
}

/// `vbr_map_remove_entry_within` of vbr.h.
#[unsafe(no_mangle)]
pub extern "C" fn vbr_map_remove_entry_within(
    handle: &mut MapHandle,
    key: u64,
    at: &Incarnation,
    budget: u32,
) -> i32
    ensures called { TellsRemoveNamed handle.old.owned.member handle.new.owned.member
        key (entry_named at.now) budget result }
    ensures steps { handle.new.steps ≡ handle.old.steps }
    ensures opening { handle.new.opening ≡ handle.old.opening }
{
    entry_records::remove_entry(handle.owned.owner_mut(), key, at, budget)
}

/// `vbr_next_at_within` of vbr.h.
#[unsafe(no_mangle)]
pub extern "C" fn vbr_next_at_within(
    handle: &mut Handle,
    cursor: &mut HandleCursor,
    key: &mut u64,
    at: &mut Incarnation,
    budget: u32,
) -> i32
    ensures next { TellsNextNamedKey handle.old.owned.member handle.new.owned.member
        handle.old.opening cursor.old cursor.new budget
        (key.old, entry_named at.old) (key.new, entry_named at.new) result }
    ensures steps { handle.new.steps ≡ handle.old.steps }
    ensures opening { handle.new.opening ≡ handle.old.opening }
{
    let opening = handle.opening;
    records::next_at(handle.owned.owner_mut(), opening, cursor, key, at, budget)
}

/// `vbr_map_next_at_within` of vbr.h.
#[unsafe(no_mangle)]
pub extern "C" fn vbr_map_next_at_within(
    handle: &mut MapHandle,
    cursor: &mut HandleCursor,
    key: &mut u64,
    at: &mut Incarnation,
    budget: u32,
) -> i32
    ensures next { TellsNextNamed handle.old.owned.member handle.new.owned.member
        handle.old.opening cursor.old cursor.new budget
        (key.old, entry_named at.old) (key.new, entry_named at.new) result }
    ensures steps { handle.new.steps ≡ handle.old.steps }
    ensures opening { handle.new.opening ≡ handle.old.opening }
{
    let opening = handle.opening;
    entry_records::next_at(handle.owned.owner_mut(), opening, cursor, key, at, budget)
}

/// `vbr_is_still` of vbr.h.
#[unsafe(no_mangle)]
pub extern "C" fn vbr_is_still(handle: &mut Handle, at: &Incarnation) -> i32
    ensures asked { TellsIfStill handle.old.owned.member handle.new.owned.member
        (entry_named at.now) result }
    ensures steps { handle.new.steps ≡ handle.old.steps }
    ensures opening { handle.new.opening ≡ handle.old.opening }
{
    records::is_still(handle.owned.owner_mut(), at)
}

/// `vbr_map_is_still` of vbr.h.
#[unsafe(no_mangle)]
pub extern "C" fn vbr_map_is_still(handle: &mut MapHandle, at: &Incarnation) -> i32
    ensures asked { TellsIfStill handle.old.owned.member handle.new.owned.member
        (entry_named at.now) result }
    ensures steps { handle.new.steps ≡ handle.old.steps }
    ensures opening { handle.new.opening ≡ handle.old.opening }
{
    records::is_still(handle.owned.owner_mut(), at)
}
