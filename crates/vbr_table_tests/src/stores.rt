//! Stores by what is there: worked calls of the list, with their steps and the budgets that are enough.
use crate::entries::Made;
use crate::rows::{Row, expect};
use std::alloc::Global;
use std::process::Abort;
use std::test::Fail;
use vbr_list::{Refusal, Wanted};

// Makes a store of key 1 after one call on a fresh table, with each budget that is too few and with
// the least that is enough: refused it changes nothing; answered it returns what was there, in so many steps.
fn expect_from(
    rt: &impl Abort,
    alloc: Global,
    first: Row<Made>,
    there: Option<u64>,
    wanted: Wanted,
    least: u32,
    steps: u64,
) -> Result<(), Fail> {
    for budget in 0..least {
        let rows = [
            first,
            Row::Call(1, budget, Made::Tired(1, 201, wanted)),
            Row::Call(0, 100, Made::Get(1, Ok(there))),
        ];
        expect(rt, alloc, (3, 1, 10), &rows)?;
    }
    let rows = [
        first,
        Row::Call(1, least, Made::Store(1, 201, wanted, Ok(there))),
        Row::Steps(steps),
    ];
    expect(rt, alloc, (3, 1, 10), &rows)
}

/// An absent key: a search takes three steps, a slot four, and a link four. So an insert makes 14, and
/// one that wants anything 11, without its first search; if a value is wanted, a get answers no.
#[test]
fn stores_of_an_absent_key(rt: HostRuntime) -> Result<(), Fail> {
    let alloc = rt.alloc();
    let first = Row::Call(0, 100, Made::Get(1, Ok(None)));
    expect_from(&rt, alloc, first, None, Wanted::Absent, 18, 14)?;
    expect_from(&rt, alloc, first, None, Wanted::Anything, 15, 11)?;
    expect_from(&rt, alloc, first, None, Wanted::Present, 11, 4)?;
    expect_from(&rt, alloc, first, None, Wanted::Value(101), 11, 4)
}

/// A present key: a search takes eight steps, a value two, a slot five, as the first probe is lost, and the
/// exchange four. So a replacement makes 27, two more if its value is wanted, and eight fewer if
/// anything is; if it has to be absent, or has another value, a get answers with its value.
#[test]
fn stores_of_a_present_key(rt: HostRuntime) -> Result<(), Fail> {
    let alloc = rt.alloc();
    let first = Row::Call(0, 100, Made::Insert(1, 101, Ok(true)));
    let there = Some(101);
    expect_from(&rt, alloc, first, there, Wanted::Present, 29, 27)?;
    expect_from(&rt, alloc, first, there, Wanted::Value(101), 31, 29)?;
    expect_from(&rt, alloc, first, there, Wanted::Anything, 21, 19)?;
    expect_from(&rt, alloc, first, there, Wanted::Value(102), 16, 11)?;
    expect_from(&rt, alloc, first, there, Wanted::Absent, 16, 11)
}

/// With eight steps more the old node leaves its list, in five, and its slot is the pass's own; without
/// them it stands there marked, and the key has its new value all the same.
#[test]
fn a_replaced_node_leaves(rt: HostRuntime) -> Result<(), Fail> {
    let rows = [
        Row::Call(0, 100, Made::Insert(1, 101, Ok(true))),
        Row::Call(1, 35, Made::Store(1, 201, Wanted::Present, Ok(Some(101)))),
        Row::Steps(32),
        Row::Pool(1, &[0]),
        Row::Call(0, 100, Made::Get(1, Ok(Some(201)))),
    ];
    expect(&rt, rt.alloc(), (3, 1, 10), &rows)?;
    let rows = [
        Row::Call(0, 100, Made::Insert(1, 101, Ok(true))),
        Row::Call(1, 34, Made::Store(1, 201, Wanted::Present, Ok(Some(101)))),
        Row::Steps(27),
        Row::Pool(1, &[]),
        Row::Call(0, 100, Made::Get(1, Ok(Some(201)))),
        Row::Call(0, 100, Made::Remove(1, Ok(Some(201)))),
        Row::Call(0, 100, Made::Get(1, Ok(None))),
    ];
    expect(&rt, rt.alloc(), (3, 1, 10), &rows)
}

/// Each store answers what was there, and the next one finds what it stored.
#[test]
fn one_store_after_another(rt: HostRuntime) -> Result<(), Fail> {
    let rows = [
        Row::Call(0, 200, Made::Store(5, 1, Wanted::Anything, Ok(None))),
        Row::Call(1, 200, Made::Store(5, 2, Wanted::Absent, Ok(Some(1)))),
        Row::Call(1, 200, Made::Store(5, 3, Wanted::Value(1), Ok(Some(1)))),
        Row::Call(0, 200, Made::Store(5, 4, Wanted::Value(1), Ok(Some(3)))),
        Row::Call(0, 200, Made::Store(5, 5, Wanted::Present, Ok(Some(3)))),
        Row::Call(1, 200, Made::Store(5, 6, Wanted::Anything, Ok(Some(5)))),
        Row::Call(0, 200, Made::Get(5, Ok(Some(6)))),
        Row::Call(0, 200, Made::Remove(5, Ok(Some(6)))),
        Row::Call(1, 200, Made::Store(5, 7, Wanted::Value(6), Ok(None))),
        Row::Call(1, 200, Made::Store(5, 8, Wanted::Present, Ok(None))),
        Row::Call(1, 200, Made::Has(5, Ok(false))),
        Row::Call(1, 200, Made::Store(5, 9, Wanted::Absent, Ok(None))),
        Row::Call(0, 200, Made::Get(5, Ok(Some(9)))),
    ];
    expect(&rt, rt.alloc(), (4, 2, 100), &rows)
}

/// A replacement needs a slot besides the one that is there. What isn't as wanted needs none.
#[test]
fn stores_in_a_full_map(rt: HostRuntime) -> Result<(), Fail> {
    let none = Err(Refusal::NoSlot);
    let rows = [
        Row::Call(0, 100, Made::Store(1, 101, Wanted::Absent, Ok(None))),
        Row::Call(1, 100, Made::Store(1, 201, Wanted::Present, none)),
        Row::Call(1, 100, Made::Store(1, 201, Wanted::Value(101), none)),
        Row::Call(1, 100, Made::Store(1, 201, Wanted::Anything, none)),
        Row::Call(1, 100, Made::Store(2, 201, Wanted::Absent, none)),
        Row::Call(1, 100, Made::Store(1, 201, Wanted::Absent, Ok(Some(101)))),
        Row::Call(
            1,
            100,
            Made::Store(1, 201, Wanted::Value(102), Ok(Some(101))),
        ),
        Row::Call(1, 100, Made::Store(2, 201, Wanted::Present, Ok(None))),
        Row::Call(0, 100, Made::Get(1, Ok(Some(101)))),
    ];
    expect(&rt, rt.alloc(), (1, 1, 10), &rows)
}

/// In the last epoch the slot of a replaced node isn't used again, and the value stays.
#[test]
fn stores_in_the_last_epoch(rt: HostRuntime) -> Result<(), Fail> {
    let spent = Err(Refusal::EpochSpent { epoch: 1 });
    let rows = [
        Row::Call(0, 100, Made::Store(1, 101, Wanted::Absent, Ok(None))),
        Row::Call(0, 100, Made::Store(1, 102, Wanted::Present, Ok(Some(101)))),
        Row::Pool(0, &[0]),
        Row::Call(0, 100, Made::Store(1, 103, Wanted::Present, spent)),
        Row::Call(0, 100, Made::Store(1, 103, Wanted::Anything, spent)),
        Row::Call(0, 100, Made::Store(1, 103, Wanted::Value(102), spent)),
        Row::Call(0, 100, Made::Store(1, 103, Wanted::Absent, Ok(Some(102)))),
        Row::Pool(0, &[0]),
    ];
    expect(&rt, rt.alloc(), (2, 1, 1), &rows)
}
