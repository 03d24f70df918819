//! The calls on a map: the calls on a set ([`crate::set`]), with entries in place of keys and with
//! values. A refusal has the same number and meaning as there.
ghost use Rattle.std.specs.Prelude.{◌≡◌, None, length};
ghost use Rattle.vbr_machine.specs.declared.history.Op.TheVariants.{Has};
ghost use Rattle.vbr_handles.specs.Batches.{TellsGetAll, TellsHasAll};
ghost use Rattle.vbr_handles.specs.Calls.{TellsCall, TellsInsertEntry};
ghost use Rattle.vbr_handles.specs.GivingSlotsBack.{ClosesMapHandle};
ghost use Rattle.vbr_handles.specs.Iterating.{TellsNextEntry};
ghost use Rattle.vbr_handles.specs.ValueCalls.{TellsExchange, TellsFetchAdd, TellsGetEntry, TellsGetOrInsert, TellsPut, TellsRemoveEntry, TellsRemoveIf, TellsReplace};
ghost use Rattle.vbr_handles.specs.Opening.{AreEmpty, entries_start};
ghost use Rattle.vbr_handles.specs.OpeningCodes.{TellsMapOpeningMany, TellsMapOpeningWith};
ghost use Rattle.vbr_handles.specs.AllHandles.{KeepMapOpenings, KeepMapSteps, map_members_in};
ghost use Rattle.vbr_handles.specs.Renewals.{TellsMapRenewal};
ghost use Rattle.vbr_handles.specs.Reports.{TellsMapCloseAll, TellsMapReport, TellsMapReportSlots};
ghost use Rattle.vbr_set.specs.members.AllMembers.{AreOfOneSet};
ghost use Rattle.vbr_handles.specs.Shown.{IsSeedOf, balance_shown, buckets_of, epoch_of_handle, last_epoch_of, slots_of};

use crate::numbers;
use std::alloc::Global;
use vbr_handles::coded_calls::{batches, entries, giving_slots_back, iterating};
use vbr_handles::{Entry, Found, HandleCursor, MapHandle, ReportNumbers, accessors, coded_calls};
use vbr_words::Entries;

/// `vbr_map_open_seeded` of vbr.h.
#[unsafe(no_mangle)]
pub extern "C" fn vbr_map_open_seeded(
    alloc: Global,
    handles: &mut [MapHandle],
    slots: u32,
    buckets: u32,
    last_epoch: u64,
    seed: u64,
    entries: &[Entry],
) -> i32
    ensures opens { TellsMapOpeningWith handles.old handles.new (entries_start
        (record { slots = slots; buckets = buckets; last_epoch = last_epoch; seed = seed })
        entries.now) result }
    ensures steps { KeepMapSteps handles.old handles.new }
{
    let numbers = numbers!(slots, buckets, last_epoch, seed);
    coded_calls::open_with::<Entries, Entry, MapHandle>(alloc, handles, numbers, entries)
}

/// `vbr_map_open_many_seeded` of vbr.h.
#[unsafe(no_mangle)]
pub extern "C" fn vbr_map_open_many_seeded(
    alloc: Global,
    handles: &mut [MapHandle],
    slots: u32,
    buckets: u32,
    last_epoch: u64,
    seed: u64,
    entries: &[Entry],
) -> i32
    ensures opens { TellsMapOpeningMany handles.old handles.new
        (entries_start
        (record { slots = slots; buckets = buckets; last_epoch = last_epoch; seed = seed })
        entries.now) result }
    ensures steps { KeepMapSteps handles.old handles.new }
{
    let numbers = numbers!(slots, buckets, last_epoch, seed);
    coded_calls::open_many::<Entries, Entry, MapHandle>(alloc, handles, numbers, entries)
}

/// `vbr_map_insert_within` of vbr.h.
#[unsafe(no_mangle)]
pub extern "C" fn vbr_map_insert_within(
    handle: &mut MapHandle,
    key: u64,
    value: u64,
    budget: u32,
) -> i32
    ensures called { TellsInsertEntry handle.old.owned.member handle.new.owned.member
        key value budget result }
    ensures steps { handle.new.steps ≡ handle.old.steps }
    ensures opening { handle.new.opening ≡ handle.old.opening }
{
    entries::insert(handle.owned.owner_mut(), key, value, budget)
}

/// `vbr_map_remove_within` of vbr.h.
#[unsafe(no_mangle)]
pub extern "C" fn vbr_map_remove_within(
    handle: &mut MapHandle,
    key: u64,
    value: &mut u64,
    budget: u32,
) -> i32
    ensures called { TellsRemoveEntry handle.old.owned.member handle.new.owned.member
        key budget value.old value.new result }
    ensures steps { handle.new.steps ≡ handle.old.steps }
    ensures opening { handle.new.opening ≡ handle.old.opening }
{
    entries::remove(handle.owned.owner_mut(), key, value, budget)
}

/// `vbr_map_get_within` of vbr.h.
#[unsafe(no_mangle)]
pub extern "C" fn vbr_map_get_within(
    handle: &mut MapHandle,
    key: u64,
    value: &mut u64,
    budget: u32,
) -> i32
    ensures called { TellsGetEntry handle.old.owned.member handle.new.owned.member
        key budget value.old value.new result }
    ensures steps { handle.new.steps ≡ handle.old.steps }
    ensures opening { handle.new.opening ≡ handle.old.opening }
{
    entries::get(handle.owned.owner_mut(), key, value, budget)
}

/// `vbr_map_replace_within` of vbr.h.
#[unsafe(no_mangle)]
pub extern "C" fn vbr_map_replace_within(
    handle: &mut MapHandle,
    key: u64,
    value: u64,
    there: &mut u64,
    budget: u32,
) -> i32
    ensures called { TellsReplace handle.old.owned.member handle.new.owned.member key value budget
        there.old there.new result }
    ensures steps { handle.new.steps ≡ handle.old.steps }
    ensures opening { handle.new.opening ≡ handle.old.opening }
{
    entries::replace(handle.owned.owner_mut(), key, value, there, budget)
}

/// `vbr_map_put_within` of vbr.h.
#[unsafe(no_mangle)]
pub extern "C" fn vbr_map_put_within(
    handle: &mut MapHandle,
    key: u64,
    value: u64,
    there: &mut u64,
    budget: u32,
) -> i32
    ensures called { TellsPut handle.old.owned.member handle.new.owned.member key value budget
        there.old there.new result }
    ensures steps { handle.new.steps ≡ handle.old.steps }
    ensures opening { handle.new.opening ≡ handle.old.opening }
{
    entries::put(handle.owned.owner_mut(), key, value, there, budget)
}

/// `vbr_map_fetch_add_within` of vbr.h.
#[unsafe(no_mangle)]
pub extern "C" fn vbr_map_fetch_add_within(
    handle: &mut MapHandle,
    key: u64,
    delta: u64,
    there: &mut u64,
    budget: u32,
) -> i32
    ensures called { TellsFetchAdd handle.old.owned.member handle.new.owned.member
        key delta budget there.old there.new result }
    ensures steps { handle.new.steps ≡ handle.old.steps }
    ensures opening { handle.new.opening ≡ handle.old.opening }
{
    entries::fetch_add(handle.owned.owner_mut(), key, delta, there, budget)
}

/// `vbr_map_get_or_insert_within` of vbr.h.
#[unsafe(no_mangle)]
pub extern "C" fn vbr_map_get_or_insert_within(
    handle: &mut MapHandle,
    key: u64,
    value: u64,
    there: &mut u64,
    budget: u32,
) -> i32
    ensures called { TellsGetOrInsert handle.old.owned.member handle.new.owned.member
        key value budget there.old there.new result }
    ensures steps { handle.new.steps ≡ handle.old.steps }
    ensures opening { handle.new.opening ≡ handle.old.opening }
{
    entries::get_or_insert(handle.owned.owner_mut(), key, value, there, budget)
}

/// `vbr_map_compare_exchange_within` of vbr.h.
#[unsafe(no_mangle)]
pub extern "C" fn vbr_map_compare_exchange_within(
    handle: &mut MapHandle,
    key: u64,
    expected: u64,
    value: u64,
    there: &mut u64,
    budget: u32,
) -> i32
    ensures called { TellsExchange handle.old.owned.member handle.new.owned.member
        key expected value budget there.old there.new result }
    ensures steps { handle.new.steps ≡ handle.old.steps }
    ensures opening { handle.new.opening ≡ handle.old.opening }
{
    entries::compare_exchange(
        handle.owned.owner_mut(),
        key,
        expected,
        value,
        there,
        budget,
    )
}

/// `vbr_map_remove_if_within` of vbr.h.
#[unsafe(no_mangle)]
pub extern "C" fn vbr_map_remove_if_within(
    handle: &mut MapHandle,
    key: u64,
    expected: u64,
    there: &mut u64,
    budget: u32,
) -> i32
    ensures called { TellsRemoveIf handle.old.owned.member handle.new.owned.member
        key expected budget there.old there.new result }
    ensures steps { handle.new.steps ≡ handle.old.steps }
    ensures opening { handle.new.opening ≡ handle.old.opening }
{
    entries::remove_if(handle.owned.owner_mut(), key, expected, there, budget)
}

/// `vbr_map_has_within` of vbr.h.
#[unsafe(no_mangle)]
pub extern "C" fn vbr_map_has_within(handle: &mut MapHandle, key: u64, budget: u32) -> i32
    ensures called { TellsCall Has handle.old.owned.member handle.new.owned.member
        key budget result }
    ensures steps { handle.new.steps ≡ handle.old.steps }
    ensures opening { handle.new.opening ≡ handle.old.opening }
{
    coded_calls::has(handle.owned.owner_mut(), key, budget)
}

/// `vbr_map_has_all_within` of vbr.h.
#[unsafe(no_mangle)]
pub extern "C" fn vbr_map_has_all_within(
    handle: &mut MapHandle,
    keys: &[u64],
    answers: &mut [i32],
    budget: u32,
)
    requires { length answers.old ≡ length keys.now }
    ensures called { TellsHasAll handle.old.owned.member handle.new.owned.member
        keys.now budget answers.new }
    ensures steps { handle.new.steps ≡ handle.old.steps }
    ensures opening { handle.new.opening ≡ handle.old.opening }
{
    batches::has_all(handle.owned.owner_mut(), keys, answers, budget);
}

/// `vbr_map_get_all_within` of vbr.h.
#[unsafe(no_mangle)]
pub extern "C" fn vbr_map_get_all_within(
    handle: &mut MapHandle,
    keys: &[u64],
    found: &mut [Found],
    budget: u32,
)
    requires { length found.old ≡ length keys.now }
    ensures called { TellsGetAll handle.old.owned.member handle.new.owned.member
        keys.now budget found.new }
    ensures steps { handle.new.steps ≡ handle.old.steps }
    ensures opening { handle.new.opening ≡ handle.old.opening }
{
    batches::get_all(handle.owned.owner_mut(), keys, found, budget);
}

/// `vbr_map_epoch` of vbr.h.
#[unsafe(no_mangle)]
pub extern "C" fn vbr_map_epoch(handle: &mut MapHandle) -> u64
    ensures same { handle.new.owned.member ≡ handle.old.owned.member }
    ensures epoch { result ≡ epoch_of_handle handle.old.owned.member }
    ensures steps { handle.new.steps ≡ handle.old.steps }
    ensures opening { handle.new.opening ≡ handle.old.opening }
{
    accessors::epoch(handle.owned.owner_mut())
}

/// `vbr_map_last_epoch` of vbr.h.
#[unsafe(no_mangle)]
pub extern "C" fn vbr_map_last_epoch(handle: &mut MapHandle) -> u64
    ensures same { handle.new.owned.member ≡ handle.old.owned.member }
    ensures last { result ≡ last_epoch_of handle.old.owned.member }
    ensures steps { handle.new.steps ≡ handle.old.steps }
    ensures opening { handle.new.opening ≡ handle.old.opening }
{
    accessors::last_epoch(handle.owned.owner_mut())
}

/// `vbr_map_slots` of vbr.h.
#[unsafe(no_mangle)]
pub extern "C" fn vbr_map_slots(handle: &mut MapHandle) -> u32
    ensures same { handle.new.owned.member ≡ handle.old.owned.member }
    ensures slots { result ≡ slots_of handle.old.owned.member }
    ensures steps { handle.new.steps ≡ handle.old.steps }
    ensures opening { handle.new.opening ≡ handle.old.opening }
{
    accessors::slots(handle.owned.owner_mut())
}

/// `vbr_map_buckets` of vbr.h.
#[unsafe(no_mangle)]
pub extern "C" fn vbr_map_buckets(handle: &mut MapHandle) -> u32
    ensures same { handle.new.owned.member ≡ handle.old.owned.member }
    ensures buckets { result ≡ buckets_of handle.old.owned.member }
    ensures steps { handle.new.steps ≡ handle.old.steps }
    ensures opening { handle.new.opening ≡ handle.old.opening }
{
    accessors::buckets(handle.owned.owner_mut())
}

/// `vbr_map_seed` of vbr.h.
#[unsafe(no_mangle)]
pub extern "C" fn vbr_map_seed(handle: &mut MapHandle) -> u64
    ensures same { handle.new.owned.member ≡ handle.old.owned.member }
    ensures seed { IsSeedOf handle.old.owned.member result }
    ensures steps { handle.new.steps ≡ handle.old.steps }
    ensures opening { handle.new.opening ≡ handle.old.opening }
{
    accessors::seed(handle.owned.owner_mut())
}

/// `vbr_map_balance` of vbr.h.
#[unsafe(no_mangle)]
pub extern "C" fn vbr_map_balance(handle: &mut MapHandle) -> i64
    ensures same { handle.new.owned.member ≡ handle.old.owned.member }
    ensures balance { result ≡ balance_shown handle.old.owned.member }
    ensures steps { handle.new.steps ≡ handle.old.steps }
    ensures opening { handle.new.opening ≡ handle.old.opening }
{
    accessors::balance(handle.owned.owner_mut())
}

/// `vbr_map_close` of vbr.h.
#[unsafe(no_mangle)]
pub extern "C" fn vbr_map_close(
    alloc: Global,
    handle: &mut MapHandle,
    entries: &mut [Entry],
    report: &mut ReportNumbers,
) -> i32
    ensures closes { ClosesMapHandle handle.old.owned.member handle.new.owned.member
        entries.old entries.new report.old report.new result }
    ensures steps { handle.new.steps ≡ handle.old.steps }
    ensures opening { handle.new.opening ≡ handle.old.opening }
{
    giving_slots_back::close::<Entries, Entry>(alloc, handle.owned.owner_mut(), entries, report)
}

/// `vbr_map_close_all` of vbr.h.
#[unsafe(no_mangle)]
pub extern "C" fn vbr_map_close_all(
    alloc: Global,
    handles: &mut [MapHandle],
    entries: &mut [Entry],
    report: &mut ReportNumbers,
) -> i32
    requires { AreOfOneSet (map_members_in handles.old) }
    ensures closes { TellsMapCloseAll handles.old handles.new entries.old entries.new
        report.old report.new result }
    ensures steps { KeepMapSteps handles.old handles.new }
    ensures openings { KeepMapOpenings handles.old handles.new }
{
    coded_calls::close_all::<Entries, Entry, MapHandle>(alloc, handles, entries, report)
}

/// `vbr_map_report_all` of vbr.h.
#[unsafe(no_mangle)]
pub extern "C" fn vbr_map_report_all(
    alloc: Global,
    handles: &mut [MapHandle],
    entries: &mut [Entry],
    report: &mut ReportNumbers,
) -> i32
    requires { AreOfOneSet (map_members_in handles.old) }
    ensures reports { TellsMapReport handles.old handles.new entries.old entries.new
        report.old report.new result }
    ensures steps { KeepMapSteps handles.old handles.new }
    ensures openings { KeepMapOpenings handles.old handles.new }
{
    coded_calls::report_all::<Entries, Entry, MapHandle>(alloc, handles, entries, report)
}

/// `vbr_map_report_slots` of vbr.h.
#[unsafe(no_mangle)]
pub extern "C" fn vbr_map_report_slots(
    alloc: Global,
    handles: &mut [MapHandle],
    entries: &mut [Entry],
    slots: &mut [u32],
    report: &mut ReportNumbers,
) -> i32
    requires one_set { AreOfOneSet (map_members_in handles.old) }
    requires room { length slots.old ≡ length entries.old }
    ensures reports { TellsMapReportSlots handles.old handles.new entries.old entries.new
        slots.old slots.new report.old report.new result }
    ensures steps { KeepMapSteps handles.old handles.new }
    ensures openings { KeepMapOpenings handles.old handles.new }
{
    coded_calls::report_all_with_slots::<Entries, Entry, MapHandle>(
        alloc, handles, entries, slots, report,
    )
}

/// `vbr_map_renew_all_seeded` of vbr.h.
#[unsafe(no_mangle)]
pub extern "C" fn vbr_map_renew_all_seeded(
    alloc: Global,
    handles: &mut [MapHandle],
    slots: u32,
    buckets: u32,
    last_epoch: u64,
    seed: u64,
) -> i32
    requires { AreOfOneSet (map_members_in handles.old) }
    ensures renews { TellsMapRenewal handles.old handles.new
        (record { slots = slots; buckets = buckets; last_epoch = last_epoch; seed = seed }) result }
    ensures steps { KeepMapSteps handles.old handles.new }
{
    let numbers = numbers!(slots, buckets, last_epoch, seed);
    coded_calls::renew_all::<Entries, Entry, MapHandle>(alloc, handles, numbers)
}

/// `vbr_map_drop` of vbr.h.
#[unsafe(no_mangle)]
pub extern "C" fn vbr_map_drop(alloc: Global, handle: &mut MapHandle)
    ensures empty { handle.new.owned.member ≡ None }
    ensures steps { handle.new.steps ≡ handle.old.steps }
    ensures opening { handle.new.opening ≡ handle.old.opening }
{
    vbr_handles::abandon(alloc, handle.owned.owner_mut());
}

/// `vbr_map_end_all` of vbr.h.
#[unsafe(no_mangle)]
pub extern "C" fn vbr_map_end_all(alloc: Global, handles: &mut [MapHandle])
    ensures empty { AreEmpty (λ (handle : MapHandle). handle.owned.member) handles.new }
    ensures steps { KeepMapSteps handles.old handles.new }
    ensures openings { KeepMapOpenings handles.old handles.new }
{
    vbr_handles::abandon_all::<Entries, MapHandle>(alloc, handles);
}

/// `vbr_map_next_within` of vbr.h.
#[unsafe(no_mangle)]
pub extern "C" fn vbr_map_next_within(
    handle: &mut MapHandle,
    cursor: &mut HandleCursor,
    entry: &mut Entry,
    budget: u32,
) -> i32
    ensures next { TellsNextEntry handle.old.owned.member handle.new.owned.member
        handle.old.opening cursor.old cursor.new budget
        (entry.old.key, entry.old.value) (entry.new.key, entry.new.value) result }
    ensures steps { handle.new.steps ≡ handle.old.steps }
    ensures opening { handle.new.opening ≡ handle.old.opening }
{
    let opening = handle.opening;
    iterating::next_entry(handle.owned.owner_mut(), opening, cursor, entry, budget)
}
