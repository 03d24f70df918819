//! The calls on a set.
ghost use Rattle.std.specs.Prelude.{◌≡◌, None, length};
ghost use Rattle.vbr_machine.specs.declared.history.Op.TheVariants.{Remove, Has};
ghost use Rattle.vbr_handles.specs.Batches.{TellsHasAll};
ghost use Rattle.vbr_handles.specs.Calls.{TellsCall, TellsInsert};
ghost use Rattle.vbr_handles.specs.GivingSlotsBack.{ClosesHandle};
ghost use Rattle.vbr_handles.specs.Iterating.{TellsNext};
ghost use Rattle.vbr_handles.specs.Opening.{AreEmpty, spread_start};
ghost use Rattle.vbr_handles.specs.OpeningCodes.{TellsOpeningMany, TellsOpeningWith};
ghost use Rattle.vbr_handles.specs.AllHandles.{KeepOpenings, KeepSteps, members_in};
ghost use Rattle.vbr_handles.specs.Renewals.{TellsRenewal};
ghost use Rattle.vbr_handles.specs.Reports.{TellsCloseAll, TellsReport, TellsReportSlots};
ghost use Rattle.vbr_set.specs.members.AllMembers.{AreOfOneSet};
ghost use Rattle.vbr_handles.specs.Shown.{IsSeedOf, balance_shown, buckets_of, epoch_of_handle, last_epoch_of, slots_of};

use crate::numbers;
use std::alloc::Global;
use vbr_handles::coded_calls::{batches, giving_slots_back, iterating};
use vbr_handles::{Handle, HandleCursor, ReportNumbers, accessors, coded_calls};
use vbr_words::Keys;

/// `vbr_open_seeded` of vbr.h.
#[unsafe(no_mangle)]
pub extern "C" fn vbr_open_seeded(
    alloc: Global,
    handles: &mut [Handle],
    slots: u32,
    buckets: u32,
    last_epoch: u64,
    seed: u64,
    keys: &[u64],
) -> i32
    ensures opens { TellsOpeningWith handles.old handles.new (spread_start
        (record { slots = slots; buckets = buckets; last_epoch = last_epoch; seed = seed })
        keys.now) result }
    ensures steps { KeepSteps handles.old handles.new }
{
    let numbers = numbers!(slots, buckets, last_epoch, seed);
    coded_calls::open_with::<Keys, u64, Handle>(alloc, handles, numbers, keys)
}

/// `vbr_open_many_seeded` of vbr.h.
#[unsafe(no_mangle)]
pub extern "C" fn vbr_open_many_seeded(
    alloc: Global,
    handles: &mut [Handle],
    slots: u32,
    buckets: u32,
    last_epoch: u64,
    seed: u64,
    keys: &[u64],
) -> i32
    ensures opens { TellsOpeningMany handles.old handles.new
        (spread_start
        (record { slots = slots; buckets = buckets; last_epoch = last_epoch; seed = seed })
        keys.now) result }
    ensures steps { KeepSteps handles.old handles.new }
{
    let numbers = numbers!(slots, buckets, last_epoch, seed);
    coded_calls::open_many::<Keys, u64, Handle>(alloc, handles, numbers, keys)
}

/// `vbr_insert_within` of vbr.h.
#[unsafe(no_mangle)]
pub extern "C" fn vbr_insert_within(handle: &mut Handle, key: u64, budget: u32) -> i32
    ensures called { TellsInsert handle.old.owned.member handle.new.owned.member
        key budget result }
    ensures steps { handle.new.steps ≡ handle.old.steps }
    ensures opening { handle.new.opening ≡ handle.old.opening }
{
    coded_calls::insert(handle.owned.owner_mut(), key, budget)
}

/// `vbr_remove_within` of vbr.h.
#[unsafe(no_mangle)]
pub extern "C" fn vbr_remove_within(handle: &mut Handle, key: u64, budget: u32) -> i32
    ensures called { TellsCall Remove handle.old.owned.member handle.new.owned.member
        key budget result }
    ensures steps { handle.new.steps ≡ handle.old.steps }
    ensures opening { handle.new.opening ≡ handle.old.opening }
{
    coded_calls::remove(handle.owned.owner_mut(), key, budget)
}

/// `vbr_has_within` of vbr.h.
#[unsafe(no_mangle)]
pub extern "C" fn vbr_has_within(handle: &mut Handle, key: u64, budget: u32) -> i32
    ensures called { TellsCall Has handle.old.owned.member handle.new.owned.member
        key budget result }
    ensures steps { handle.new.steps ≡ handle.old.steps }
    ensures opening { handle.new.opening ≡ handle.old.opening }
{
    coded_calls::has(handle.owned.owner_mut(), key, budget)
}

/// `vbr_has_all_within` of vbr.h.
#[unsafe(no_mangle)]
pub extern "C" fn vbr_has_all_within(
    handle: &mut Handle,
    keys: &[u64],
    answers: &mut [i32],
    budget: u32,
)
    requires { length answers.old ≡ length keys.now }
    ensures called { TellsHasAll handle.old.owned.member handle.new.owned.member
        keys.now budget answers.new }
    ensures steps { handle.new.steps ≡ handle.old.steps }
    ensures opening { handle.new.opening ≡ handle.old.opening }
{
    batches::has_all(handle.owned.owner_mut(), keys, answers, budget);
}

/// `vbr_epoch` of vbr.h.
#[unsafe(no_mangle)]
pub extern "C" fn vbr_epoch(handle: &mut Handle) -> u64
    ensures same { handle.new.owned.member ≡ handle.old.owned.member }
    ensures epoch { result ≡ epoch_of_handle handle.old.owned.member }
    ensures steps { handle.new.steps ≡ handle.old.steps }
    ensures opening { handle.new.opening ≡ handle.old.opening }
{
    accessors::epoch(handle.owned.owner_mut())
}

/// `vbr_last_epoch` of vbr.h.
#[unsafe(no_mangle)]
pub extern "C" fn vbr_last_epoch(handle: &mut Handle) -> u64
    ensures same { handle.new.owned.member ≡ handle.old.owned.member }
    ensures last { result ≡ last_epoch_of handle.old.owned.member }
    ensures steps { handle.new.steps ≡ handle.old.steps }
    ensures opening { handle.new.opening ≡ handle.old.opening }
{
    accessors::last_epoch(handle.owned.owner_mut())
}

/// `vbr_slots` of vbr.h.
#[unsafe(no_mangle)]
pub extern "C" fn vbr_slots(handle: &mut Handle) -> u32
    ensures same { handle.new.owned.member ≡ handle.old.owned.member }
    ensures slots { result ≡ slots_of handle.old.owned.member }
    ensures steps { handle.new.steps ≡ handle.old.steps }
    ensures opening { handle.new.opening ≡ handle.old.opening }
{
    accessors::slots(handle.owned.owner_mut())
}

/// `vbr_buckets` of vbr.h.
#[unsafe(no_mangle)]
pub extern "C" fn vbr_buckets(handle: &mut Handle) -> u32
    ensures same { handle.new.owned.member ≡ handle.old.owned.member }
    ensures buckets { result ≡ buckets_of handle.old.owned.member }
    ensures steps { handle.new.steps ≡ handle.old.steps }
    ensures opening { handle.new.opening ≡ handle.old.opening }
{
    accessors::buckets(handle.owned.owner_mut())
}

/// `vbr_seed` of vbr.h.
#[unsafe(no_mangle)]
pub extern "C" fn vbr_seed(handle: &mut Handle) -> u64
    ensures same { handle.new.owned.member ≡ handle.old.owned.member }
    ensures seed { IsSeedOf handle.old.owned.member result }
    ensures steps { handle.new.steps ≡ handle.old.steps }
    ensures opening { handle.new.opening ≡ handle.old.opening }
{
    accessors::seed(handle.owned.owner_mut())
}

/// `vbr_balance` of vbr.h.
#[unsafe(no_mangle)]
pub extern "C" fn vbr_balance(handle: &mut Handle) -> i64
    ensures same { handle.new.owned.member ≡ handle.old.owned.member }
    ensures balance { result ≡ balance_shown handle.old.owned.member }
    ensures steps { handle.new.steps ≡ handle.old.steps }
    ensures opening { handle.new.opening ≡ handle.old.opening }
{
    accessors::balance(handle.owned.owner_mut())
}

/// `vbr_close` of vbr.h.
#[unsafe(no_mangle)]
pub extern "C" fn vbr_close(
    alloc: Global,
    handle: &mut Handle,
    keys: &mut [u64],
    report: &mut ReportNumbers,
) -> i32
    ensures closes { ClosesHandle handle.old.owned.member handle.new.owned.member keys.old keys.new
        report.old report.new result }
    ensures steps { handle.new.steps ≡ handle.old.steps }
    ensures opening { handle.new.opening ≡ handle.old.opening }
{
    giving_slots_back::close::<Keys, u64>(alloc, handle.owned.owner_mut(), keys, report)
}

/// `vbr_close_all` of vbr.h.
#[unsafe(no_mangle)]
pub extern "C" fn vbr_close_all(
    alloc: Global,
    handles: &mut [Handle],
    keys: &mut [u64],
    report: &mut ReportNumbers,
) -> i32
    requires { AreOfOneSet (members_in handles.old) }
    ensures closes { TellsCloseAll handles.old handles.new keys.old keys.new
        report.old report.new result }
    ensures steps { KeepSteps handles.old handles.new }
    ensures openings { KeepOpenings handles.old handles.new }
{
    coded_calls::close_all::<Keys, u64, Handle>(alloc, handles, keys, report)
}

/// `vbr_report_all` of vbr.h.
#[unsafe(no_mangle)]
pub extern "C" fn vbr_report_all(
    alloc: Global,
    handles: &mut [Handle],
    keys: &mut [u64],
    report: &mut ReportNumbers,
) -> i32
    requires { AreOfOneSet (members_in handles.old) }
    ensures reports { TellsReport handles.old handles.new keys.old keys.new
        report.old report.new result }
    ensures steps { KeepSteps handles.old handles.new }
    ensures openings { KeepOpenings handles.old handles.new }
{
    coded_calls::report_all::<Keys, u64, Handle>(alloc, handles, keys, report)
}

/// `vbr_report_slots` of vbr.h.
#[unsafe(no_mangle)]
pub extern "C" fn vbr_report_slots(
    alloc: Global,
    handles: &mut [Handle],
    keys: &mut [u64],
    slots: &mut [u32],
    report: &mut ReportNumbers,
) -> i32
    requires one_set { AreOfOneSet (members_in handles.old) }
    requires room { length slots.old ≡ length keys.old }
    ensures reports { TellsReportSlots handles.old handles.new keys.old keys.new
        slots.old slots.new report.old report.new result }
    ensures steps { KeepSteps handles.old handles.new }
    ensures openings { KeepOpenings handles.old handles.new }
{
    coded_calls::report_all_with_slots::<Keys, u64, Handle>(alloc, handles, keys, slots, report)
}

/// `vbr_renew_all_seeded` of vbr.h.
#[unsafe(no_mangle)]
pub extern "C" fn vbr_renew_all_seeded(
    alloc: Global,
    handles: &mut [Handle],
    slots: u32,
    buckets: u32,
    last_epoch: u64,
    seed: u64,
) -> i32
    requires { AreOfOneSet (members_in handles.old) }
    ensures renews { TellsRenewal handles.old handles.new
        (record { slots = slots; buckets = buckets; last_epoch = last_epoch; seed = seed }) result }
    ensures steps { KeepSteps handles.old handles.new }
{
    let numbers = numbers!(slots, buckets, last_epoch, seed);
    coded_calls::renew_all::<Keys, u64, Handle>(alloc, handles, numbers)
}

/// `vbr_drop` of vbr.h.
#[unsafe(no_mangle)]
pub extern "C" fn vbr_drop(alloc: Global, handle: &mut Handle)
    ensures empty { handle.new.owned.member ≡ None }
    ensures steps { handle.new.steps ≡ handle.old.steps }
    ensures opening { handle.new.opening ≡ handle.old.opening }
{
    vbr_handles::abandon(alloc, handle.owned.owner_mut());
}

/// `vbr_end_all` of vbr.h.
#[unsafe(no_mangle)]
pub extern "C" fn vbr_end_all(alloc: Global, handles: &mut [Handle])
    ensures empty { AreEmpty (λ (handle : Handle). handle.owned.member) handles.new }
    ensures steps { KeepSteps handles.old handles.new }
    ensures openings { KeepOpenings handles.old handles.new }
{
    vbr_handles::abandon_all::<Keys, Handle>(alloc, handles);
}

/// `vbr_next_within` of vbr.h.
#[unsafe(no_mangle)]
pub extern "C" fn vbr_next_within(
    handle: &mut Handle,
    cursor: &mut HandleCursor,
    key: &mut u64,
    budget: u32,
) -> i32
    ensures next { TellsNext handle.old.owned.member handle.new.owned.member
        handle.old.opening cursor.old cursor.new budget key.old key.new result }
    ensures steps { handle.new.steps ≡ handle.old.steps }
    ensures opening { handle.new.opening ≡ handle.old.opening }
{
    let opening = handle.opening;
    iterating::next_key(handle.owned.owner_mut(), opening, cursor, key, budget)
}
