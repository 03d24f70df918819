//! The calls on handles with their answers as numbers, as C gets them: 1 is yes, 0 is no or done, 2
//! means that another value than the expected one was there, and refusals are negative.
ghost use Rattle.std.specs.Prelude.{◌≡◌, ◌≤◌, ◌++◌, drop, is_some, length, map, IfOk};
ghost use Rattle.vbr_machine.specs.declared.history.Op.TheVariants.{Remove, Has};
ghost use Rattle.vbr_slots.specs.declared.opening.TheConstants.{MAX_MANY_PASSES, MAX_PASSES};
ghost use Rattle.vbr_set.specs.members.AllMembers.{AreOfOneSet};
ghost use Rattle.vbr_set.specs.reports.Closing.{ClosesBy};
ghost use Rattle.vbr_handles.specs.AllHandles.{members_by};
ghost use Rattle.vbr_handles.specs.Codes.{call_code, close_all_code, close_code, open_code, renew_all_code};
ghost use Rattle.vbr_handles.specs.Calls.{TellsCall, TellsInsert};
ghost use Rattle.vbr_handles.specs.Listings.{with_slots};
ghost use Rattle.vbr_handles.specs.Opening.{listed_start};
ghost use Rattle.vbr_handles.specs.OpeningCodes.{TellsOpeningBy};
ghost use Rattle.vbr_handles.specs.Renewals.{TellsRenewalBy};
ghost use Rattle.vbr_handles.specs.Reports.{TellsCloseAllBy, TellsCloseBy, TellsReportBy, TellsReportSlotsBy, WritesAll, WritesSlots};

pub mod batches;
pub mod entries;
pub mod entry_records;
pub mod forsaking;
pub mod giving_slots_back;
pub mod iterating;
pub mod records;
pub mod reserving;
pub mod topping_up;

use crate::closing::CloseRefusal;
use crate::closing_all::CloseAllRefusal;
use crate::coded_calls::topping_up::{adding, has_added};
use crate::handle_of::HandleOf;
use crate::items::Listed;
use crate::lent_member::return_if_empty;
use crate::opening::{OpenRefusal, ShapeNumbers};
use crate::owner::Owner;
use crate::renewing_all::RenewAllRefusal;
use crate::report_numbers::ReportNumbers;
use std::alloc::Global;
use vbr_set::member::Member;
use vbr_set::{Kind, Refusal, ReportWithSlots};
use vbr_words::{Keys, Nodes};

const NO: i32 = 0;

const YES: i32 = 1;

const OTHER: i32 = 2;

const OUT_OF_STEPS: i32 = -1;

const NO_SLOT: i32 = -2;

const EPOCH_SPENT: i32 = -3;

const EMPTY: i32 = -4;

const IN_USE: i32 = -5;

const BAD_SHAPE: i32 = -6;

const BAD_COUNT: i32 = -7;

const NO_MEMORY: i32 = -8;

const LOST: i32 = -9;

const BAD_KEYS: i32 = -10;

const NO_ROOM: i32 = -11;

const MISSING: i32 = -12;

const MIXED: i32 = -13;

const HELD: i32 = -14;

const RESHAPED: i32 = -15;

/// Opens a set of these keys for handles, or a map of these entries, as [`crate::open_with`] does.
pub fn open_with<N: Kind, I: Listed<N>, H: HandleOf<N>>(
    alloc: Global,
    handles: &mut [H],
    numbers: ShapeNumbers,
    items: &[I],
) -> i32
    ensures opens { TellsOpeningBy H.member H.opening MAX_PASSES handles.old handles.new
        (listed_start I.listing numbers items.now) result }
    ensures steps { map H.steps handles.new ≡ map H.steps handles.old }
{
    open_code(crate::opening::open_with::<N, I, H>(alloc, handles, numbers, items))
}

/// Opens a set of these keys for many handles, or a map of these entries, as [`crate::open_many`] does.
pub fn open_many<N: Kind, I: Listed<N>, H: HandleOf<N>>(
    alloc: Global,
    handles: &mut [H],
    numbers: ShapeNumbers,
    items: &[I],
) -> i32
    ensures opens { TellsOpeningBy H.member H.opening MAX_MANY_PASSES handles.old handles.new
        (listed_start I.listing numbers items.now) result }
    ensures steps { map H.steps handles.new ≡ map H.steps handles.old }
{
    open_code(crate::opening::open_many::<N, I, H>(alloc, handles, numbers, items))
}

/// Adds a key by the member of a handle, and then tops the reserve of the handle up ([`topping_up`]).
/// While the member holds a slot it does nothing.
pub fn insert(owner: &mut Owner<Member<Keys>>, key: u64, steps: u32) -> i32
    ensures { TellsInsert owner.old.member owner.new.member key steps result }
{
    adding!(owner, steps, has_added; answer = insert(key));
    call_code(answer)
}

/// Takes a key out by the member of a handle.
pub fn remove(owner: &mut Owner<Member<Keys>>, key: u64, budget: u32) -> i32
    ensures { TellsCall Remove owner.old.member owner.new.member key budget result }
{
    return_if_empty!(owner, EMPTY);
    call_code(owner.member_mut().remove(key, budget))
}

/// Looks a key up by the member of a handle, of a set or of a map.
pub fn has<N: Nodes>(owner: &mut Owner<Member<N>>, key: u64, budget: u32) -> i32
    ensures { TellsCall Has owner.old.member owner.new.member key budget result }
{
    return_if_empty!(owner, EMPTY);
    call_code(owner.member_mut().has(key, budget))
}

/// Closes a handle, as [`crate::close`] does, and writes the report if there is one. The items that it
/// lists are written to the front of the array if all have room, otherwise only the numbers are
/// written.
pub fn close<N: Kind, I: Listed<N>>(
    alloc: Global,
    owner: &mut Owner<Member<N>>,
    items: &mut [I],
    told: &mut ReportNumbers,
) -> i32
    ensures { TellsCloseBy I.listing (ClosesBy N.kind) owner.old.member owner.new.member
        items.old items.new told.old told.new result }
{
    let answer = crate::closing::close::<N, I>(alloc, owner, items.len());
    match &answer {
        Ok(Some(report)) => {
            I::write(report, items);
            *told = I::numbers(report);
        }
        Err(CloseRefusal::Room(report)) => *told = I::numbers(report),
        _ => {}
    }
    close_code(&answer)
}

/// Closes all handles of a set or of a map, as [`crate::close_all`] does, and writes the report as
/// [`close`] does.
pub fn close_all<N: Kind, I: Listed<N>, H: HandleOf<N>>(
    alloc: Global,
    handles: &mut [H],
    items: &mut [I],
    told: &mut ReportNumbers,
) -> i32
    requires { AreOfOneSet (members_by H.member handles.old) }
    ensures closes { TellsCloseAllBy I.listing (ClosesBy N.kind) H.member handles.old handles.new
        items.old items.new told.old told.new result }
    ensures steps { map H.steps handles.new ≡ map H.steps handles.old }
    ensures openings { map H.opening handles.new ≡ map H.opening handles.old }
{
    let answer = crate::closing_all::close_all::<N, I, H>(alloc, handles, items.len());
    write_all::<N, I>(&answer, items, told);
    close_all_code(&answer)
}

/// Reports what is in a set or a map by all its handles at once, as [`crate::report_all`] does, and
/// writes the report as [`close`] does.
pub fn report_all<N: Kind, I: Listed<N>, H: HandleOf<N>>(
    alloc: Global,
    handles: &mut [H],
    items: &mut [I],
    told: &mut ReportNumbers,
) -> i32
    requires { AreOfOneSet (members_by H.member handles.old) }
    ensures reports { TellsReportBy I.listing (ClosesBy N.kind) H.member handles.old handles.new
        items.old items.new told.old told.new result }
    ensures steps { map H.steps handles.new ≡ map H.steps handles.old }
    ensures openings { map H.opening handles.new ≡ map H.opening handles.old }
{
    let answer = crate::closing_all::report_all::<N, I, H>(alloc, handles, items.len());
    write_all::<N, I>(&answer, items, told);
    close_all_code(&answer)
}

/// Reports what is in a set or a map by all its handles at once, as [`report_all`] does. It also writes
/// the slot of each key, or of each entry, to `slots`, at the place that the item has in `items`. If
/// the report isn't written whole, no slot is.
pub fn report_all_with_slots<N: Kind, I: Listed<N>, H: HandleOf<N>>(
    alloc: Global,
    handles: &mut [H],
    items: &mut [I],
    slots: &mut [u32],
    told: &mut ReportNumbers,
) -> i32
    requires one_set { AreOfOneSet (members_by H.member handles.old) }
    requires room { length slots.old ≡ length items.old }
    ensures reports { TellsReportSlotsBy I.listing N.kind H.member handles.old handles.new
        items.old items.new slots.old slots.new told.old told.new result }
    ensures steps { map H.steps handles.new ≡ map H.steps handles.old }
    ensures openings { map H.opening handles.new ≡ map H.opening handles.old }
{
    let room = items.len();
    let answer = crate::closing_all::report_all_with_slots::<N, I, H>(alloc, handles, room);
    write_with_slots::<N, I>(&answer, items, slots, told);
    close_all_code(&answer)
}

/// Moves all handles of a set or of a map to a fresh one, as [`crate::renew_all`] does.
pub fn renew_all<N: Kind, I: Listed<N>, H: HandleOf<N>>(
    alloc: Global,
    handles: &mut [H],
    numbers: ShapeNumbers,
) -> i32
    requires { AreOfOneSet (members_by H.member handles.old) }
    ensures renews { TellsRenewalBy N.kind I.listing H.member H.opening handles.old handles.new
        numbers result }
    ensures steps { map H.steps handles.new ≡ map H.steps handles.old }
{
    renew_all_code(crate::renewing_all::renew_all::<N, I, H>(alloc, handles, numbers))
}

// Writes the report of all handles, or only its numbers if it has no room.
fn write_all<N: Kind, I: Listed<N>>(
    answer: &Result<N::Report, CloseAllRefusal<N::Report>>,
    items: &mut [I],
    told: &mut ReportNumbers,
)
    requires { IfOk answer.now (λ report. length (I.listing.items report) ≤ length items.old) }
    ensures { WritesAll I.listing answer.now items.old items.new told.old told.new }
{
    match answer {
        Ok(report) => {
            I::write(report, items);
            *told = I::numbers(report);
        }
        Err(CloseAllRefusal::Room(report)) => *told = I::numbers(report),
        _ => {}
    }
}

// Writes a report with its slots, or only its numbers if it has no room.
fn write_with_slots<N: Kind, I: Listed<N>>(
    answer: &Result<ReportWithSlots<N::Report>, CloseAllRefusal<ReportWithSlots<N::Report>>>,
    items: &mut [I],
    slots: &mut [u32],
    told: &mut ReportNumbers,
)
    requires items { IfOk answer.now (λ full.
        length (I.listing.items full.report) ≤ length items.old) }
    requires slots { IfOk answer.now (λ full. length full.slots.items ≤ length slots.old) }
    ensures report { WritesAll (with_slots I.listing) answer.now
        items.old items.new told.old told.new }
    ensures slots { WritesSlots answer.now slots.old slots.new }
{
    match answer {
        Ok(full) => {
            I::write(&full.report, items);
            write_slots(&full.slots, slots);
            *told = I::numbers(&full.report);
        }
        Err(CloseAllRefusal::Room(full)) => *told = I::numbers(&full.report),
        _ => {}
    }
}

// Writes slots to the front of an array.
fn write_slots(told: &[u32], slots: &mut [u32])
    requires { length told.now ≤ length slots.old }
    ensures { slots.new ≡ told.now ++ drop (length told.now) slots.old }
{
    slots[..told.len()].copy_from_slice(told);
}

// Whether a member holds a slot.
#[inline(always)]
fn holds_slot<N: Nodes>(member: &Member<N>) -> bool
    ensures { result ≡ is_some member.now.aside }
{
    member.held().is_some()
}

fn open_code(answer: Result<(), OpenRefusal>) -> i32
    ensures { result ≡ open_code answer }
{
    match answer {
        Ok(()) => NO,
        Err(OpenRefusal::InUse) => IN_USE,
        Err(OpenRefusal::Shape) => BAD_SHAPE,
        Err(OpenRefusal::Passes) => BAD_COUNT,
        Err(OpenRefusal::Keys) => BAD_KEYS,
        Err(OpenRefusal::Memory) => NO_MEMORY,
    }
}

fn call_code(answer: Result<bool, Refusal>) -> i32
    ensures { result ≡ call_code answer }
{
    match answer {
        Ok(true) => YES,
        Ok(false) => NO,
        Err(Refusal::OutOfSteps { used: _ }) => OUT_OF_STEPS,
        Err(Refusal::NoSlot) => NO_SLOT,
        Err(Refusal::EpochSpent { epoch: _ }) => EPOCH_SPENT,
    }
}

fn close_code<R>(answer: &Result<Option<R>, CloseRefusal<R>>) -> i32
    ensures { result ≡ close_code answer.now }
{
    match answer {
        Ok(None) => NO,
        Ok(Some(_)) => YES,
        Err(CloseRefusal::Empty) => EMPTY,
        Err(CloseRefusal::Lost) => LOST,
        Err(CloseRefusal::Memory) => NO_MEMORY,
        Err(CloseRefusal::Room(_)) => NO_ROOM,
    }
}

fn close_all_code<R>(answer: &Result<R, CloseAllRefusal<R>>) -> i32
    ensures { result ≡ close_all_code answer.now }
{
    match answer {
        Ok(_) => YES,
        Err(CloseAllRefusal::Empty) => EMPTY,
        Err(CloseAllRefusal::Mixed) => MIXED,
        Err(CloseAllRefusal::Missing) => MISSING,
        Err(CloseAllRefusal::Memory) => NO_MEMORY,
        Err(CloseAllRefusal::Room(_)) => NO_ROOM,
    }
}

fn renew_all_code(answer: Result<(), RenewAllRefusal>) -> i32
    ensures { result ≡ renew_all_code answer }
{
    match answer {
        Ok(()) => NO,
        Err(RenewAllRefusal::Shape) => BAD_SHAPE,
        Err(RenewAllRefusal::Empty) => EMPTY,
        Err(RenewAllRefusal::Mixed) => MIXED,
        Err(RenewAllRefusal::Missing) => MISSING,
        Err(RenewAllRefusal::Room) => NO_ROOM,
        Err(RenewAllRefusal::Memory) => NO_MEMORY,
    }
}
