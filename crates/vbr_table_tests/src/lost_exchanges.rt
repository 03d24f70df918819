//! Stores that lose their exchange: pass 1 stands before it, with a slot in hand, while pass 0 is first, and goes on
//! over what that left.
ghost use Rattle.std.specs.Prelude.{◌≡◌, None, IfOk, IfErr};
ghost use Rattle.vbr_table_tests.specs.Names.{GivesBack, IsHandOf, IsOf, IsReplaceable, IsSameTable, Keeps};
ghost use Rattle.vbr_table_tests.specs.Names.{KeepsOwn, ReplacesHeld, Took, knows, pass_of, said, said_marked};
ghost use Rattle.vbr_table_tests.specs.Names.{said_rollback, trace_of};
ghost use Rattle.vbr_table_tests.specs.Buckets.{HasEntryLists};

use crate::entries;
use crate::entries::Made;
use crate::lost_stores::{one_entry, read_entry};
use crate::rows::{Call, Row, play};
use crate::running_table::{close_two, expect_pass, expect_pool, expect_words};
use std::alloc::Global;
use std::process::Abort;
use std::test::Fail;
use vbr_access::{Held, Marked, Rollback, confirm_present_entry, unlink};
use vbr_at_table::replace;
use vbr_list::{Wanted, get};
use vbr_machine::Op;
use vbr_pools::{Hand, give_back, retire, take};
use vbr_slots::{AtTable, Pass, Slots, Stepper};
use vbr_words::Entries;

// What pass 0 does first, call by call, each with its budget; and the link word that it leaves in slot 0.
#[derive(Clone, Copy)]
struct First<'a> {
    calls: &'a [(u32, Made)],
    found: u64,
}

// Pass 0 gives the key 207, in slot 2, and the old node leaves its list.
const REPLACED: First<'static> = First {
    calls: &[(100, Made::Store(7, 207, Wanted::Present, Ok(Some(107))))],
    found: 15,
};

// Pass 0 does the same, and has no steps left to unlink the old node, which stands in its list, marked.
const STILL_LINKED: First<'static> = First {
    calls: &[(34, Made::Store(7, 207, Wanted::Present, Ok(Some(107))))],
    found: 15,
};

// Pass 0 gives the key 207, in slot 2, and then 107 again, in slot 0, for which it moves the epoch.
const BACK: First<'static> = First {
    calls: &[
        (100, Made::Store(7, 207, Wanted::Present, Ok(Some(107)))),
        (100, Made::Store(7, 107, Wanted::Present, Ok(Some(207)))),
    ],
    found: 16,
};

// Pass 0 removes the key.
const REMOVED: First<'static> = First {
    calls: &[(100, Made::Remove(7, Ok(Some(107))))],
    found: 12,
};

// Pass 0 inserts another key behind the node, in slot 2.
const INSERTED: First<'static> = First {
    calls: &[(100, Made::Insert(9, 109, Ok(true)))],
    found: 11,
};

// Replaces a node of key 7 that names none, at its table; and in how many steps: the key, the value, the link and the
// exchange.
fn replace_at(
    at: &mut AtTable<'_, Entries>,
    node: &Held,
    value: u64,
    hand: Hand,
) -> (Result<Marked, (Hand, Rollback)>, u32)
    requires node { IsReplaceable (trace_of at.old) (said at.old.slots.now node.now) 7 0 }
    requires hand { IsHandOf (pass_of at.old) hand }
    ensures table { IsSameTable at.old at.new }
    ensures took { Took (trace_of at.old) (trace_of at.new) result.1 }
    ensures keeps { Keeps (knows (trace_of at.old)) (knows (trace_of at.new)) }
    ensures replaced { IfOk result.0 (λ marked. ReplacesHeld (pass_of at.old) (pass_of at.new)
        (said at.old.slots.now node.now) 7 value (said_marked at.old.slots.now marked)) }
    ensures lost { IfErr result.0 (λ back. GivesBack (pass_of at.old) (pass_of at.new)
        (said at.old.slots.now node.now) hand (back.0, said_rollback at.old.slots.now back.1)) }
{
    (replace(at, node, 0, 7, value, hand), 4)
}

// The same by what makes the steps, which is lent.
fn replace_by(
    slots: &Slots<Entries>,
    stepper: &mut Stepper,
    node: &Held,
    value: u64,
    hand: Hand,
) -> (Result<Marked, (Hand, Rollback)>, u32)
    requires own { IsOf stepper.old.trace slots.now }
    requires node { IsReplaceable stepper.old.trace (said slots.now node.now) 7 0 }
    requires hand { IsHandOf stepper.old hand }
    ensures took { Took stepper.old.trace stepper.new.trace result.1 }
    ensures keeps { Keeps (knows stepper.old.trace) (knows stepper.new.trace) }
    ensures replaced { IfOk result.0 (λ marked. ReplacesHeld stepper.old stepper.new
        (said slots.now node.now) 7 value (said_marked slots.now marked)) }
    ensures lost { IfErr result.0 (λ back. GivesBack stepper.old stepper.new
        (said slots.now node.now) hand (back.0, said_rollback slots.now back.1)) }
{
    replace_at(&mut AtTable { slots, stepper }, node, value, hand)
}

// The same by a pass, whose steps are counted.
fn replace_entry(
    slots: &Slots<Entries>,
    pass: &mut Pass,
    node: &Held,
    value: u64,
    hand: Hand,
) -> Result<Marked, (Hand, Rollback)>
    requires own { IsOf pass.old.trace slots.now }
    requires node { IsReplaceable pass.old.trace (said slots.now node.now) 7 0 }
    requires hand { IsHandOf pass.old hand }
    ensures keeps { Keeps (knows pass.old.trace) (knows pass.new.trace) }
    ensures replaced { IfOk result (λ marked. ReplacesHeld pass.old pass.new
        (said slots.now node.now) 7 value (said_marked slots.now marked)) }
    ensures lost { IfErr result (λ back. GivesBack pass.old pass.new
        (said slots.now node.now) hand (back.0, said_rollback slots.now back.1)) }
{
    pass.during_with(
        hand,
        |stepper, hand|
            requires own { IsOf stepper.old.trace slots.now }
            requires node { IsReplaceable stepper.old.trace (said slots.now node.now) 7 0 }
            requires hand { IsHandOf stepper.old hand }
            ensures took { Took stepper.old.trace stepper.new.trace result.1 }
            ensures keeps { Keeps (knows stepper.old.trace) (knows stepper.new.trace) }
            ensures replaced { IfOk result.0 (λ marked. ReplacesHeld stepper.old stepper.new
                (said slots.entry.now node.entry.now) 7 value
                (said_marked slots.entry.now marked)) }
            ensures lost { IfErr result.0 (λ back. GivesBack stepper.old stepper.new
                (said slots.entry.now node.entry.now) hand
                (back.0, said_rollback slots.entry.now back.1)) }
        { replace_by(slots, stepper, node, value, hand) },
    )
}

// Finds 107 in slot 0, takes slot 1, and finds 107 again, as a compare_exchange of 107 does: 10 steps, 5 and 10. A
// replacement reads no value before it takes the slot, which is 2 steps fewer.
fn stand_before_exchange(rt: &impl Abort, slots: &Slots<Entries>, pass: &mut Pass) -> (Held, Hand)
    requires own { IsOf pass.old.trace slots.now }
    requires shape { HasEntryLists slots.now }
    requires empty_hand { pass.old.hand ≡ None }
    ensures own { IsOf pass.new.trace slots.now }
    ensures node { IsReplaceable pass.new.trace (said slots.now result.0) 7 0 }
    ensures hand { IsHandOf pass.new result.1 }
{
    read_entry(rt, slots, pass, (0, 107));
    let hand = take(slots, pass, 100).expect(rt, "a slot is in the shared pool");
    assert_eq!(rt; (hand.slot(), hand.birth()), (1, 1));
    let (_, node) = read_entry(rt, slots, pass, (0, 107));
    (node, hand)
}

// The exchange of the node is lost, in four steps, to this link word, and the hand comes back.
fn lose_exchange(
    rt: &impl Abort,
    slots: &Slots<Entries>,
    pass: &mut Pass,
    node: &Held,
    hand: Hand,
    found: u64,
) -> Hand
    requires own { IsOf pass.old.trace slots.now }
    requires node { IsReplaceable pass.old.trace (said slots.now node.now) 7 0 }
    requires hand { IsHandOf pass.old hand }
    ensures own { IsOf pass.new.trace slots.now }
    ensures hand { IsHandOf pass.new result }
{
    match replace_entry(slots, pass, node, 307, hand) {
        Ok(_) => panic!(rt; "replaced twice"),
        Err((back, told)) => {
            assert_eq!(rt; told, Rollback::LostExchange { found });
            back
        }
    }
}

// Makes the calls of a pass one after another.
fn make_all(rt: &impl Abort, slots: &Slots<Entries>, pass: &mut Pass, calls: &[(u32, Made)])
    requires own { IsOf pass.old.trace slots.now }
    requires empty_hand { pass.old.hand ≡ None }
    ensures own { IsOf pass.new.trace slots.now }
    ensures empty_hand { pass.new.hand ≡ None }
{
    for (budget, call) in calls {
        call.make(rt, slots, pass, *budget);
    }
}

// Pass 1 loses its exchange to what pass 0 does first, after 29 steps, and has its slot in hand.
fn lose(rt: &impl Abort, slots: &Slots<Entries>, a: &mut Pass, b: &mut Pass, first: First) -> Hand
    requires shape { HasEntryLists slots.now }
    requires first { IsOf a.old.trace slots.now × (a.old.hand ≡ None) }
    requires second { IsOf b.old.trace slots.now × (b.old.hand ≡ None) }
    ensures first { IsOf a.new.trace slots.now × (a.new.hand ≡ None) }
    ensures second { IsOf b.new.trace slots.now }
    ensures hand { IsHandOf b.new result }
{
    let (node, hand) = stand_before_exchange(rt, slots, b);
    make_all(rt, slots, a, first.calls);
    let back = lose_exchange(rt, slots, b, &node, hand, first.found);
    expect_pass(rt, b, (1, 1, 29));
    back
}

// Gives a slot back to an empty pool.
fn put_back(rt: &impl Abort, pass: &mut Pass, hand: Hand)
    requires hand { IsHandOf pass.old hand }
    ensures trace { pass.new.trace ≡ pass.old.trace }
    ensures empty_hand { pass.new.hand ≡ None }
{
    assert!(rt; pass.pool().is_empty());
    give_back(pass, hand);
}

// Pass 1 loses its exchange, gives its slot back, and these rows are made; gives the words of the closing.
fn words_left(
    rt: &impl Abort,
    alloc: Global,
    first: First,
    rows: &[Row<Made>],
) -> Result<Vec<u64>, Fail> {
    let (slots, mut a, mut b) = one_entry(rt, alloc, 3)?;
    let hand = lose(rt, &slots, &mut a, &mut b, first);
    put_back(rt, &mut b, hand);
    play(rt, &slots, &mut a, &mut b, rows);
    Ok(close_two(alloc, slots, a, b).ok_or("not closed")?)
}

// A store of 307 by pass 1 that goes on after its lost exchange to what pass 0 did first: the least budget that is
// enough, and the steps that it makes with that.
type Stored<'a> = (First<'a>, u32, u64);

// Makes the store after the lost exchange, which answers the value that is there.
fn expect_stored(
    rt: &impl Abort,
    alloc: Global,
    wanted: Wanted,
    there: Option<u64>,
    stored: Stored,
) -> Result<(), Fail> {
    let (first, least, steps) = stored;
    entries::expect_stored(
        |rows| {
            words_left(rt, alloc, first, rows)?;
            Ok(())
        },
        [1, 0],
        (7, 307, wanted),
        there,
        (least, steps),
    )
}

/// A replacement that was lost to another goes on over the new node: a search takes 8 steps, the slot that was given
/// back 3, a second search 8, the value 2, and the exchange 4. It answers the value that the other one stored. If
/// the old node still stands, it is helped out first, in 8 steps.
#[test]
fn a_replacement_after_another(rt: HostRuntime) -> Result<(), Fail> {
    for stored in [(REPLACED, 27, 25), (STILL_LINKED, 35, 33)] {
        expect_stored(&rt, rt.alloc(), Wanted::Present, Some(207), stored)?;
    }
    Ok(())
}

/// A compare_exchange that had found its value, and lost its exchange to a replacement, answers the value that it
/// finds then, by a get: a search takes 8 steps, the value 2, and a load 1.
#[test]
fn a_compare_exchange_after_a_replacement(rt: HostRuntime) -> Result<(), Fail> {
    for stored in [(REPLACED, 16, 11), (STILL_LINKED, 24, 19)] {
        expect_stored(&rt, rt.alloc(), Wanted::Value(107), Some(207), stored)?;
    }
    Ok(())
}

/// The same node comes back in the same slot, with the value that was expected: its birth is another one, so the
/// exchange is lost. The value is found again and exchanged then: a search takes 8 steps, the value 2, a slot 3, a
/// second search 8, the value 2, and the exchange 4.
#[test]
fn a_compare_exchange_after_the_same_value(rt: HostRuntime) -> Result<(), Fail> {
    let stored = (BACK, 29, 27);
    expect_stored(&rt, rt.alloc(), Wanted::Value(107), Some(107), stored)
}

/// An insert behind the node changes its link, so the exchange is lost, but not what is there: the value is exchanged
/// then, in 2 steps more, for the birth of the node behind.
#[test]
fn an_exchange_after_an_insert(rt: HostRuntime) -> Result<(), Fail> {
    for (wanted, least, steps) in [(Wanted::Value(107), 29, 29), (Wanted::Present, 27, 27)] {
        expect_stored(&rt, rt.alloc(), wanted, Some(107), (INSERTED, least, steps))?;
    }
    Ok(())
}

/// The key was removed, so it is found absent, in a search of 3 steps, and a load answers a get.
#[test]
fn an_exchange_after_a_remove(rt: HostRuntime) -> Result<(), Fail> {
    for wanted in [Wanted::Value(107), Wanted::Present] {
        expect_stored(&rt, rt.alloc(), wanted, None, (REMOVED, 11, 4))?;
    }
    Ok(())
}

// The words of the closing if pass 0's replacement alone has changed the map: 207 is in slot 2, and slot 0, which
// names it, is marked and unlinked. Slot 1 was filled in hand. After the epoch, the shape and the head, there are
// link, birth, stamp, key and value of each slot; and the flags.
const REPLACED_ONCE: [u64; 19] = [
    1, 43, 11, 15, 1, 1, 7, 107, 8, 1, 0, 7, 307, 8, 1, 0, 7, 207, 0,
];

// The words once pass 1 has then put 307, in slot 1, in the place of 207: slot 2, which names it, is marked and
// unlinked too.
const REPLACED_TWICE: [u64; 19] = [
    1, 43, 10, 15, 1, 1, 7, 107, 8, 1, 0, 7, 307, 14, 1, 1, 7, 207, 0,
];

// Makes a call of pass 1 after its lost exchange, and compares the own pools, of pass 0 and of pass 1, and the words
// of the closing.
fn expect_left(
    rt: &impl Abort,
    alloc: Global,
    first: First,
    call: (u32, Made),
    pools: [&[u32]; 2],
    words: [u64; 19],
) -> Result<(), Fail> {
    let (budget, made) = call;
    let [of_first, of_second] = pools;
    let rows = [
        Row::Call(1, budget, made),
        Row::Pool(0, of_first),
        Row::Pool(1, of_second),
    ];
    let told = words_left(rt, alloc, first, &rows)?;
    assert_eq!(rt; told.as_slice(), words.as_slice());
    Ok(())
}

/// After a lost compare_exchange what was in hand goes back to the own pool. After a lost replacement the new node is in
/// that slot; with 8 steps more than the least budget its old node leaves too, and its slot is with the pass that unlinked
/// it. So is the slot of the first node.
#[test]
fn what_a_lost_store_leaves(rt: HostRuntime) -> Result<(), Fail> {
    let exchange = Made::Store(7, 307, Wanted::Value(107), Ok(Some(207)));
    let replacement = Made::Store(7, 307, Wanted::Present, Ok(Some(207)));
    let rows: [(First, (u32, Made), [&[u32]; 2], [u64; 19]); 4] = [
        (REPLACED, (16, exchange), [&[0], &[1]], REPLACED_ONCE),
        (STILL_LINKED, (24, exchange), [&[], &[1, 0]], REPLACED_ONCE),
        (REPLACED, (33, replacement), [&[0], &[2]], REPLACED_TWICE),
        (
            STILL_LINKED,
            (41, replacement),
            [&[], &[0, 2]],
            REPLACED_TWICE,
        ),
    ];
    for (first, call, pools, words) in rows {
        expect_left(&rt, rt.alloc(), first, call, pools, words)?;
    }
    Ok(())
}

// Answers a get by a node, in one step.
fn answer_get(rt: &impl Abort, slots: &Slots<Entries>, pass: &mut Pass, node: &Held)
    requires own { IsOf pass.old.trace slots.now }
    requires node { IsReplaceable pass.old.trace (said slots.now node.now) 7 0 }
    ensures own { IsOf pass.new.trace slots.now }
    ensures keeps { KeepsOwn pass.old pass.new }
{
    let told = confirm_present_entry(slots, pass, Op::Get, node);
    assert_eq!(rt; told, Ok(()));
}

// Pass 1 goes on with its slot in hand: it finds 207 in slot 2, in 10 steps. Either it replaces that in 4, and takes the
// old node out of its list in 5; or it answers a get, in one, and gives its slot back.
fn go_on(rt: &impl Abort, slots: &Slots<Entries>, pass: &mut Pass, hand: Hand, replaces: bool)
    requires own { IsOf pass.old.trace slots.now }
    requires shape { HasEntryLists slots.now }
    requires hand { IsHandOf pass.old hand }
    ensures own { IsOf pass.new.trace slots.now }
{
    let (head, node) = read_entry(rt, slots, pass, (2, 207));
    if !replaces {
        answer_get(rt, slots, pass, &node);
        put_back(rt, pass, hand);
        expect_pass(rt, pass, (1, 1, 40));
        expect_pool(rt, pass, &[1]);
        return;
    }
    let marked = match replace_entry(slots, pass, &node, 307, hand) {
        Ok(marked) => marked,
        Err(_refused) => panic!(rt; "not replaced"),
    };
    let (unlinked, _) = unlink(slots, pass, &head, marked).expect(rt, "the node is linked");
    assert_eq!(rt; unlinked.slot(), 2);
    retire(slots, pass, unlinked);
    expect_pass(rt, pass, (1, 1, 48));
    expect_pool(rt, pass, &[2]);
}

// Pass 1 loses its exchange and goes on, step by step. Compares the value that a get of pass 0 then finds, and the words
// of the closing.
fn expect_step_by_step(
    rt: &impl Abort,
    alloc: Global,
    replaces: bool,
    value: u64,
    words: &[u64],
) -> Result<(), Fail> {
    let (slots, mut a, mut b) = one_entry(rt, alloc, 3)?;
    let hand = lose(rt, &slots, &mut a, &mut b, REPLACED);
    go_on(rt, &slots, &mut b, hand, replaces);
    assert_eq!(rt; get(&slots, &mut a, 7, 100), Ok(Some(value)));
    expect_words(rt, alloc, slots, a, b, words);
    Ok(())
}

/// Step by step, with the slot in hand: the exchange is lost, and the next one, over the new node, is won.
#[test]
fn a_lost_replacement_step_by_step(rt: HostRuntime) -> Result<(), Fail> {
    expect_step_by_step(&rt, rt.alloc(), true, 307, &REPLACED_TWICE)
}

/// Step by step, with the slot in hand: the value that was expected has gone, so nothing is changed, and the slot goes
/// back.
#[test]
fn a_lost_compare_exchange_step_by_step(rt: HostRuntime) -> Result<(), Fail> {
    expect_step_by_step(&rt, rt.alloc(), false, 207, &REPLACED_ONCE)
}
