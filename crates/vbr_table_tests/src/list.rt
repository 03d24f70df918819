//! The list of one bucket: worked calls, with their steps.
ghost use Rattle.std.specs.Prelude.{◌≡◌, ◌<◌, false, None, IfOk};
ghost use Rattle.vbr_words.specs.Words.{link_of};
ghost use Rattle.vbr_slots.specs.views.Views.{IsOf, knows};
ghost use Rattle.vbr_at_table.specs.reads.Held.{IsHeld, HoldsMarked, Names, said, said_marked};

use crate::entries;
use crate::retiring::{read_one, read_value};
use crate::rows::{
    Call, Row, expect, expect_alone, expect_answer, expect_left, helped_away, with_17_steps,
};
use crate::running_table::{expect_pass, open_two, shape_of};
use std::alloc::Global;
use std::process::Abort;
use std::test::Fail;
use vbr_access::{Held, Marked, Rollback, mark_entry, unlink};
use vbr_list::{Refusal, find, has, insert, remove};
use vbr_slots::{Pass, Slots};
use vbr_words::shape::MAX_EPOCH;
use vbr_words::{At, Keys, Nodes};

// A call on a set, with its key, and what it is answered.
#[derive(Clone, Copy)]
enum Made {
    Insert(u64, Result<bool, Refusal>),
    Remove(u64, Result<bool, Refusal>),
    Has(u64, Result<bool, Refusal>),
    // A find: where it ends, what stands there, whether that has the key, and how many steps it took.
    Find(u64, (At, Option<At>, bool, u32)),
}

// Where a find ends, and what it finds there.
fn found_at(
    slots: &Slots,
    pass: &mut Pass,
    key: u64,
    budget: u32,
) -> Result<(At, Option<At>, bool, u32), Refusal>
    requires own { IsOf pass.old.trace slots.now }
    requires empty_hand { pass.old.hand ≡ None }
    ensures own { IsOf pass.new.trace slots.now }
    ensures hand { pass.new.hand ≡ None }
{
    let found = find(slots, pass, key, budget)?;
    let cur = match found.cur {
        Some(cur) => Some(cur.at),
        None => None,
    };
    Ok((found.pred.at, cur, found.present, found.used))
}

impl Call for Made {
    type Nodes = Keys;

    fn make<R: Abort>(self, rt: &R, slots: &Slots, pass: &mut Pass, budget: u32) {
        match self {
            Made::Insert(key, answer) => {
                expect_answer(rt, insert(slots, pass, key, budget), answer, "insert", key);
            }
            Made::Remove(key, answer) => {
                expect_answer(rt, remove(slots, pass, key, budget), answer, "remove", key);
            }
            Made::Has(key, answer) => {
                expect_answer(rt, has(slots, pass, key, budget), answer, "has", key);
            }
            Made::Find(key, wanted) => {
                assert_eq!(rt; found_at(slots, pass, key, budget), Ok(wanted));
            }
        }
    }
}

/// A slot is used again after its stamp: the epoch rises to 2.
#[test]
fn a_slot_is_used_again(rt: HostRuntime) -> Result<(), Fail> {
    let calls = [
        Made::Insert(1, Ok(true)),
        Made::Remove(1, Ok(true)),
        Made::Insert(2, Ok(true)),
        Made::Has(1, Ok(false)),
        Made::Has(2, Ok(true)),
    ];
    expect_alone(&rt, rt.alloc(), 10, &calls, 2, &[])
}

/// In the last epoch a slot that is stamped with it isn't used again.
#[test]
fn the_last_epoch_is_spent(rt: HostRuntime) -> Result<(), Fail> {
    let spent = Err(Refusal::EpochSpent { epoch: 1 });
    let calls = [
        Made::Insert(1, Ok(true)),
        Made::Remove(1, Ok(true)),
        Made::Insert(2, spent),
        Made::Has(1, Ok(false)),
    ];
    expect_alone(&rt, rt.alloc(), 1, &calls, 1, &[0])
}

/// In a full set an absent key is refused, and a present one is answered no.
#[test]
fn a_present_key_in_a_full_set(rt: HostRuntime) -> Result<(), Fail> {
    let calls = [
        Made::Insert(1, Ok(true)),
        Made::Insert(2, Err(Refusal::NoSlot)),
        Made::Insert(1, Ok(false)),
    ];
    expect_alone(&rt, rt.alloc(), 10, &calls, 1, &[])
}

/// A thousand rounds on one slot advance the epoch to a thousand.
#[test]
fn a_thousand_rounds_on_one_slot(rt: HostRuntime) -> Result<(), Fail> {
    let round = [
        Row::Call(0, 100, Made::Insert(9, Ok(true))),
        Row::Call(0, 100, Made::Remove(9, Ok(true))),
    ];
    let mut rows = Vec::new(rt.alloc());
    for _ in 0..1000 {
        rows.extend_from_slice(&round)?;
    }
    rows.extend_from_slice(&[Row::Epoch(0, 1000), Row::Pool(0, &[0])])?;
    expect(&rt, rt.alloc(), (1, 1, MAX_EPOCH), &rows)
}

/// The greatest and the least key.
#[test]
fn the_greatest_and_least_keys(rt: HostRuntime) -> Result<(), Fail> {
    let rows = [
        Row::Call(0, 100, Made::Insert(u64::MAX, Ok(true))),
        Row::Call(0, 100, Made::Insert(0, Ok(true))),
        Row::Call(0, 100, Made::Has(0, Ok(true))),
        Row::Call(0, 100, Made::Has(u64::MAX, Ok(true))),
        Row::Call(
            0,
            100,
            Made::Find(1, (At::Slot(1), Some(At::Slot(0)), false, 13)),
        ),
    ];
    expect(&rt, rt.alloc(), (2, 1, 10), &rows)
}

/// With budgets below a piece no step is made.
#[test]
fn budgets_below_a_piece(rt: HostRuntime) -> Result<(), Fail> {
    let tired = Err(Refusal::OutOfSteps { used: 0 });
    for budget in 0..8 {
        let rows = [
            Row::Call(0, budget, Made::Insert(1, tired)),
            Row::Steps(0),
            Row::Call(0, budget, Made::Has(1, tired)),
            Row::Steps(0),
            Row::Call(0, budget, Made::Remove(1, tired)),
            Row::Steps(0),
        ];
        expect(&rt, rt.alloc(), (1, 1, 10), &rows)?;
    }
    Ok(())
}

/// With budgets of 8 to 10 a look-up gives up before its second piece; 11 are enough for it.
#[test]
fn budgets_below_two_pieces(rt: HostRuntime) -> Result<(), Fail> {
    let tired = Err(Refusal::OutOfSteps { used: 3 });
    let rows = [
        Row::Call(0, 8, Made::Has(1, tired)),
        Row::Steps(3),
        Row::Call(0, 9, Made::Has(1, tired)),
        Row::Steps(3),
        Row::Call(0, 10, Made::Has(1, tired)),
        Row::Steps(3),
        Row::Call(0, 11, Made::Has(1, Ok(false))),
        Row::Steps(4),
    ];
    expect(&rt, rt.alloc(), (1, 1, 10), &rows)
}

/// With 17 steps an insert takes its slot and is refused after 10, and the next one makes 12.
#[test]
fn a_budget_of_17(rt: HostRuntime) -> Result<(), Fail> {
    let tired = Err(Refusal::OutOfSteps { used: 10 });
    let rows = with_17_steps(Made::Insert(1, tired), Made::Insert(1, Ok(true)), 12);
    let words = [1, 21, 5, 4, 1, 0, 1, 0];
    expect_left(&rt, rt.alloc(), &rows, &words)
}

/// With 18 steps it is enough for the first one, which makes 13.
#[test]
fn a_budget_of_18(rt: HostRuntime) -> Result<(), Fail> {
    let rows = [Row::Call(0, 18, Made::Insert(1, Ok(true))), Row::Steps(13)];
    expect(&rt, rt.alloc(), (1, 1, 10), &rows)
}

/// A remove that can't unlink within its budget leaves the marked node, and another pass unlinks it.
#[test]
fn a_marked_node_is_helped_away(rt: HostRuntime) -> Result<(), Fail> {
    let insert = Made::Insert(7, Ok(true));
    let (remove, absent) = (Made::Remove(7, Ok(true)), Made::Remove(7, Ok(false)));
    let rows = helped_away(insert, remove, 9, absent);
    let words = [1, 21, 0, 6, 1, 1, 7, 0];
    expect_left(&rt, rt.alloc(), &rows, &words)
}

// Reads the one node, which has key 7, and 107 if it has a value, and marks it. The head comes with it, as it was
// read before.
fn mark_one<N: Nodes>(
    rt: &impl Abort,
    slots: &Slots<N>,
    pass: &mut Pass,
) -> Result<(Held, Marked), Rollback>
    requires own { IsOf pass.old.trace slots.now }
    requires bucket { 0 < slots.now.start.shape.buckets }
    ensures own { IsOf pass.new.trace slots.now }
    ensures head { IfOk result (λ r. IsHeld (knows pass.new.trace) (said slots.now r.0)) }
    ensures unmarked { IfOk result (λ r. (link_of (said slots.now r.0).word).mark ≡ false) }
    ensures marked { IfOk result (λ r. HoldsMarked (knows pass.new.trace)
        (said_marked slots.now r.1)) }
    ensures names { IfOk result (λ r. Names (said slots.now r.0) r.1.slot) }
{
    let (head, node) = read_one(rt, slots, pass);
    read_value(rt, slots, pass, &node);
    let marked = mark_entry(slots, pass, &node)?;
    Ok((head, marked))
}

// Pass 1 marks the node of key 7, pass 0 finds the key absent, unlinks the node and inserts the key again, and then
// pass 1 goes on. Compares how many steps pass 1 made in all.
fn stand_behind_a_mark<R: Abort, C: Call>(
    rt: &R,
    alloc: Global,
    insert: C,
    absent: C,
    steps: u64,
) -> Result<(), Fail> {
    let shape = shape_of::<C::Nodes>((1, 1, 10))?;
    let (slots, mut a, mut b) = open_two::<C::Nodes>(alloc, shape).expect(rt, "there is memory");
    insert.make(rt, &slots, &mut a, 100);
    let (head, marked) = mark_one(rt, &slots, &mut b)?;
    absent.make(rt, &slots, &mut a, 100);
    insert.make(rt, &slots, &mut a, 100);
    match unlink(&slots, &mut b, &head, marked) {
        Err(rollback) => { assert!(rt; rollback == Rollback::LostExchange { found: 9 }) }
        Ok(_) => panic!(rt; "unlinked twice"),
    }
    expect_pass(rt, &b, (1, 1, steps));
    Ok(())
}

/// A pass stands still between its mark and its unlinking. Another one unlinks the node and uses the
/// slot again: the exchange through the old link is lost. If the node has a value, that was read before the mark,
/// in 2 steps.
#[test]
fn a_standing_pass_loses_its_exchange(rt: HostRuntime) -> Result<(), Fail> {
    let (insert, absent) = (Made::Insert(7, Ok(true)), Made::Has(7, Ok(false)));
    stand_behind_a_mark(&rt, rt.alloc(), insert, absent, 10)?;
    let insert = entries::Made::Insert(7, 107, Ok(true));
    let absent = entries::Made::Get(7, Ok(None));
    stand_behind_a_mark(&rt, rt.alloc(), insert, absent, 12)
}
