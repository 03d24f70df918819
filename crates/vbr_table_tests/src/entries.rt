//! The list of one bucket, of nodes with values: worked calls of a map, with their steps.
ghost use Rattle.std.specs.Prelude.{None};

use crate::rows::{
    Call, Row, expect, expect_alone, expect_answer, expect_left, helped_away, with_17_steps,
};
use std::process::Abort;
use std::test::Fail;
use vbr_list::{Refusal, Wanted, get, has, insert_entry, remove_entry, store};
use vbr_slots::{Pass, Slots};
use vbr_words::Entries;

/// A call of a map, with its key, and what it is answered.
#[derive(Clone, Copy)]
pub enum Made {
    Insert(u64, u64, Result<bool, Refusal>),
    Remove(u64, Result<Option<u64>, Refusal>),
    Get(u64, Result<Option<u64>, Refusal>),
    Has(u64, Result<bool, Refusal>),
    Store(u64, u64, Wanted, Result<Option<u64>, Refusal>),
    // A store that is refused for want of steps, after however many.
    Tired(u64, u64, Wanted),
}

// Compares the value that a call for a key is answered.
fn expect_value(
    rt: &impl Abort,
    told: Result<Option<u64>, Refusal>,
    answer: Result<Option<u64>, Refusal>,
    made: &str,
    key: u64,
) {
    assert_eq!(rt; told, answer, "{made} {key}");
}

// Compares a refusal for want of steps.
fn expect_tired(rt: &impl Abort, told: Result<Option<u64>, Refusal>) {
    assert!(rt; matches!(told, Err(Refusal::OutOfSteps { .. })));
}

impl Call for Made {
    type Nodes = Entries;

    fn make<R: Abort>(self, rt: &R, slots: &Slots<Entries>, pass: &mut Pass, budget: u32) {
        match self {
            Made::Insert(key, value, answer) => {
                let told = insert_entry(slots, pass, key, value, budget);
                expect_answer(rt, told, answer, "insert", key);
            }
            Made::Remove(key, answer) => {
                let told = remove_entry(slots, pass, key, budget);
                expect_value(rt, told, answer, "remove", key);
            }
            Made::Get(key, answer) => {
                let told = get(slots, pass, key, budget);
                expect_value(rt, told, answer, "get", key);
            }
            Made::Has(key, answer) => {
                let told = has(slots, pass, key, budget);
                expect_answer(rt, told, answer, "has", key);
            }
            Made::Store(key, value, wanted, answer) => {
                let told = store(slots, pass, key, value, wanted, budget);
                expect_value(rt, told, answer, "store", key);
            }
            Made::Tired(key, value, wanted) => {
                let told = store(slots, pass, key, value, wanted, budget);
                expect_tired(rt, told);
            }
        }
    }
}

/// Makes a store of the first of these passes with each budget that is too few and with the least that is enough, each
/// time on a table of its own, by rows that are played there: refused it leaves the map as it was, as the other pass
/// finds, and else it answers the value that is there, in so many steps.
pub fn expect_stored<F: Fn(&[Row<Made>]) -> Result<(), Fail>>(
    play: F,
    passes: [u32; 2],
    store: (u64, u64, Wanted),
    there: Option<u64>,
    enough: (u32, u64),
) -> Result<(), Fail>
    requires { F.IsAlwaysCallable play }
{
    let ([who, other], (key, value, wanted), (least, steps)) = (passes, store, enough);
    for budget in 0..least {
        play(&[
            Row::Call(who, budget, Made::Tired(key, value, wanted)),
            Row::Call(other, 100, Made::Get(key, Ok(there))),
        ])?;
    }
    play(&[
        Row::Call(who, least, Made::Store(key, value, wanted, Ok(there))),
        Row::Steps(steps),
    ])
}

/// A key keeps the value of its insert: an insert of a present key is answered no, and changes nothing.
#[test]
fn values_come_back(rt: HostRuntime) -> Result<(), Fail> {
    let rows = [
        Row::Call(0, 100, Made::Insert(5, 70, Ok(true))),
        Row::Call(0, 100, Made::Insert(5, 71, Ok(false))),
        Row::Call(1, 100, Made::Get(5, Ok(Some(70)))),
        Row::Call(0, 100, Made::Remove(5, Ok(Some(70)))),
        Row::Call(1, 100, Made::Get(5, Ok(None))),
        Row::Call(0, 100, Made::Remove(5, Ok(None))),
        Row::Call(0, 100, Made::Insert(5, 71, Ok(true))),
        Row::Call(1, 100, Made::Get(5, Ok(Some(71)))),
        Row::Call(1, 100, Made::Has(5, Ok(true))),
        Row::Call(0, 100, Made::Insert(6, 0, Ok(true))),
        Row::Call(0, 100, Made::Get(6, Ok(Some(0)))),
    ];
    expect(&rt, rt.alloc(), (4, 2, 10), &rows)
}

/// A slot is used again after its stamp, with another key and another value.
#[test]
fn a_slot_is_used_again(rt: HostRuntime) -> Result<(), Fail> {
    let calls = [
        Made::Insert(1, u64::MAX, Ok(true)),
        Made::Remove(1, Ok(Some(u64::MAX))),
        Made::Insert(2, 102, Ok(true)),
        Made::Get(1, Ok(None)),
        Made::Get(2, Ok(Some(102))),
    ];
    expect_alone(&rt, rt.alloc(), 10, &calls, 2, &[])
}

/// In the last epoch a slot that is stamped with it isn't used again.
#[test]
fn the_last_epoch_is_spent(rt: HostRuntime) -> Result<(), Fail> {
    let spent = Err(Refusal::EpochSpent { epoch: 1 });
    let calls = [
        Made::Insert(1, 0, Ok(true)),
        Made::Remove(1, Ok(Some(0))),
        Made::Insert(2, 0, spent),
        Made::Get(1, Ok(None)),
    ];
    expect_alone(&rt, rt.alloc(), 1, &calls, 1, &[0])
}

/// In a full map an absent key is refused, and a present one is answered no and keeps its value.
#[test]
fn a_present_key_in_a_full_map(rt: HostRuntime) -> Result<(), Fail> {
    let calls = [
        Made::Insert(1, 101, Ok(true)),
        Made::Insert(2, 102, Err(Refusal::NoSlot)),
        Made::Insert(1, 201, Ok(false)),
        Made::Get(1, Ok(Some(101))),
    ];
    expect_alone(&rt, rt.alloc(), 10, &calls, 1, &[])
}

/// With budgets below a piece no step is made.
#[test]
fn budgets_below_a_piece(rt: HostRuntime) -> Result<(), Fail> {
    let used = Refusal::OutOfSteps { used: 0 };
    for budget in 0..8 {
        let rows = [
            Row::Call(0, budget, Made::Insert(1, 0, Err(used))),
            Row::Steps(0),
            Row::Call(0, budget, Made::Remove(1, Err(used))),
            Row::Steps(0),
            Row::Call(0, budget, Made::Get(1, Err(used))),
            Row::Steps(0),
            Row::Call(0, budget, Made::Has(1, Err(used))),
            Row::Steps(0),
        ];
        expect(&rt, rt.alloc(), (1, 1, 10), &rows)?;
    }
    Ok(())
}

/// A get of an absent key makes the steps of a look-up; one of a present key makes two more, for the
/// value.
#[test]
fn the_steps_of_a_get(rt: HostRuntime) -> Result<(), Fail> {
    let rows = [
        Row::Call(0, 10, Made::Get(1, Err(Refusal::OutOfSteps { used: 3 }))),
        Row::Steps(3),
        Row::Call(0, 11, Made::Get(1, Ok(None))),
        Row::Steps(4),
        Row::Call(0, 100, Made::Insert(1, 101, Ok(true))),
        Row::Call(1, 15, Made::Get(1, Err(Refusal::OutOfSteps { used: 8 }))),
        Row::Steps(8),
        Row::Call(1, 16, Made::Has(1, Ok(true))),
        Row::Steps(9),
        Row::Call(1, 16, Made::Get(1, Ok(Some(101)))),
        Row::Steps(11),
    ];
    expect(&rt, rt.alloc(), (1, 1, 10), &rows)
}

/// With 17 steps an insert takes its slot and is refused after 10, and the next one makes 13.
#[test]
fn a_budget_of_17(rt: HostRuntime) -> Result<(), Fail> {
    let tired = Err(Refusal::OutOfSteps { used: 10 });
    let (refused, insert) = (Made::Insert(1, 101, tired), Made::Insert(1, 101, Ok(true)));
    let rows = with_17_steps(refused, insert, 13);
    let words = [1, 21, 5, 4, 1, 0, 1, 101, 0];
    expect_left(&rt, rt.alloc(), &rows, &words)
}

/// With 18 steps it is enough for the first one, which makes 14.
#[test]
fn a_budget_of_18(rt: HostRuntime) -> Result<(), Fail> {
    let insert = Made::Insert(1, 101, Ok(true));
    let rows = [Row::Call(0, 18, insert), Row::Steps(14)];
    expect(&rt, rt.alloc(), (1, 1, 10), &rows)
}

/// A remove that can't unlink within its budget gives the value and leaves the marked node, and
/// another pass unlinks it.
#[test]
fn a_marked_node_is_helped_away(rt: HostRuntime) -> Result<(), Fail> {
    let insert = Made::Insert(7, 107, Ok(true));
    let (remove, absent) = (Made::Remove(7, Ok(Some(107))), Made::Remove(7, Ok(None)));
    let rows = helped_away(insert, remove, 11, absent);
    let words = [1, 21, 0, 6, 1, 1, 7, 107, 0];
    expect_left(&rt, rt.alloc(), &rows, &words)
}

/// A look-up and a get pass three marked nodes by, in 13 steps each.
#[test]
fn gets_pass_marked_nodes(rt: HostRuntime) -> Result<(), Fail> {
    let rows = [
        Row::Call(0, 100, Made::Insert(30, 130, Ok(true))),
        Row::Call(0, 100, Made::Insert(20, 120, Ok(true))),
        Row::Call(0, 100, Made::Insert(10, 110, Ok(true))),
        Row::Call(0, 26, Made::Remove(30, Ok(Some(130)))),
        Row::Steps(21),
        Row::Call(0, 21, Made::Remove(20, Ok(Some(120)))),
        Row::Steps(16),
        Row::Call(0, 16, Made::Remove(10, Ok(Some(110)))),
        Row::Steps(11),
        Row::Call(1, 100, Made::Has(20, Ok(false))),
        Row::Steps(13),
        Row::Call(1, 100, Made::Get(20, Ok(None))),
        Row::Steps(13),
    ];
    expect(&rt, rt.alloc(), (3, 1, 10), &rows)
}
