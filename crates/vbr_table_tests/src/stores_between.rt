//! Stores where two passes meet: what one call finds of another that stands still on the way.
use crate::entries;
use crate::entries::Made;
use crate::rows::{Row, expect};
use std::alloc::Global;
use std::process::Abort;
use std::test::Fail;
use vbr_list::Wanted;

// Two calls with which a test begins, and the value that key 1 then has.
#[derive(Clone, Copy)]
struct Before {
    calls: [Row<'static, Made>; 2],
    there: Option<u64>,
}

// Pass 0 has inserted key 1, and pass 1 has replaced its value, 101, by 201, with no steps left to unlink the
// old node. So the head names slot 0, which is marked, and that names slot 1.
const REPLACED: Before = Before {
    calls: [
        Row::Call(0, 100, Made::Insert(1, 101, Ok(true))),
        Row::Call(1, 34, Made::Store(1, 201, Wanted::Present, Ok(Some(101)))),
    ],
    there: Some(201),
};

// Pass 0 has inserted key 1, and pass 1 has removed it, with no steps left to unlink its node. So the head
// names slot 0, which is marked.
const REMOVED: Before = Before {
    calls: [
        Row::Call(0, 100, Made::Insert(1, 101, Ok(true))),
        Row::Call(1, 18, Made::Remove(1, Ok(Some(101)))),
    ],
    there: None,
};

// A store of key 1 by pass 0: what is wanted, the least budget that is enough, and the steps that it makes with that.
type Stored = (Wanted, u32, u64);

// Makes rows after two calls.
fn expect_after(
    rt: &impl Abort,
    alloc: Global,
    before: Before,
    rows: &[Row<Made>],
) -> Result<(), Fail> {
    let mut all = Vec::new(alloc);
    all.extend_from_slice(&before.calls)?;
    all.extend_from_slice(rows)?;
    expect(rt, alloc, (3, 1, 10), &all)
}

// Makes each store, of 301, after two calls. Refused it may have helped a marked node out of the list.
fn expect_stored(
    rt: &impl Abort,
    alloc: Global,
    before: Before,
    stores: &[Stored],
) -> Result<(), Fail> {
    for (wanted, least, steps) in stores {
        entries::expect_stored(
            |rows| expect_after(rt, alloc, before, rows),
            [0, 1],
            (1, 301, *wanted),
            before.there,
            (*least, *steps),
        )?;
    }
    Ok(())
}

/// A search past a replaced node takes 16 steps: 3 to the head, 3 to the marked node, 5 to help it out, and 5 to
/// the one that took its place. Its slot is then in the own pool, with the stamp of this epoch, so taking it
/// takes 5, with an advance. A second search takes 8, the value 2, and the exchange 4. What stores anything takes a
/// slot first: two probes, the epoch, a stamp and a birth.
#[test]
fn stores_on_a_replaced_node(rt: HostRuntime) -> Result<(), Fail> {
    let stores = [
        (Wanted::Present, 37, 35),
        (Wanted::Value(201), 39, 37),
        (Wanted::Value(101), 24, 19),
        (Wanted::Absent, 24, 19),
        (Wanted::Anything, 29, 27),
    ];
    expect_stored(&rt, rt.alloc(), REPLACED, &stores)
}

/// A search past a removed node takes 9 steps: 3 to the head, 3 to the node, and 3 to help it out. A slot takes 5,
/// a second search 3, and a link 4.
#[test]
fn stores_on_a_removed_node(rt: HostRuntime) -> Result<(), Fail> {
    let stores = [
        (Wanted::Absent, 25, 21),
        (Wanted::Present, 17, 10),
        (Wanted::Value(101), 17, 10),
        (Wanted::Anything, 22, 18),
    ];
    expect_stored(&rt, rt.alloc(), REMOVED, &stores)
}

/// With eight steps more the second store's old node leaves too, and both slots are its pass's.
#[test]
fn both_old_nodes_leave(rt: HostRuntime) -> Result<(), Fail> {
    let rows = [
        Row::Call(0, 42, Made::Store(1, 301, Wanted::Present, Ok(Some(201)))),
        Row::Steps(35),
        Row::Pool(0, &[]),
        Row::Call(1, 100, Made::Get(1, Ok(Some(301)))),
    ];
    expect_after(&rt, rt.alloc(), REPLACED, &rows)?;
    let rows = [
        Row::Call(0, 43, Made::Store(1, 301, Wanted::Present, Ok(Some(201)))),
        Row::Steps(40),
        Row::Pool(0, &[1]),
        Row::Epoch(0, 2),
        Row::Call(1, 100, Made::Get(1, Ok(Some(301)))),
    ];
    expect_after(&rt, rt.alloc(), REPLACED, &rows)
}

/// A call for another key helps the replaced node out too, and finds its successor: a remove of an absent key, in
/// 17 steps, and an insert behind the new node, in 33.
#[test]
fn a_helper_unlinks_a_replaced_node(rt: HostRuntime) -> Result<(), Fail> {
    let rows = [
        Row::Call(0, 100, Made::Remove(9, Ok(None))),
        Row::Steps(17),
        Row::Pool(0, &[0]),
        Row::Pool(1, &[]),
        Row::Call(1, 100, Made::Get(1, Ok(Some(201)))),
    ];
    expect_after(&rt, rt.alloc(), REPLACED, &rows)?;
    let rows = [
        Row::Call(0, 37, Made::Insert(2, 102, Ok(true))),
        Row::Steps(33),
        Row::Pool(0, &[]),
        Row::Call(1, 100, Made::Get(1, Ok(Some(201)))),
        Row::Call(1, 100, Made::Get(2, Ok(Some(102)))),
        Row::Call(0, 100, Made::Remove(1, Ok(Some(201)))),
        Row::Call(1, 100, Made::Get(2, Ok(Some(102)))),
    ];
    expect_after(&rt, rt.alloc(), REPLACED, &rows)
}

/// A remove of the key takes the new value: 16 steps to it, 2 for the value, a mark, and 3 to unlink it.
#[test]
fn a_replaced_key_is_removed(rt: HostRuntime) -> Result<(), Fail> {
    let rows = [
        Row::Call(0, 26, Made::Remove(1, Ok(Some(201)))),
        Row::Steps(19),
        Row::Pool(0, &[0]),
        Row::Call(1, 100, Made::Get(1, Ok(None))),
    ];
    expect_after(&rt, rt.alloc(), REPLACED, &rows)?;
    let rows = [
        Row::Call(0, 27, Made::Remove(1, Ok(Some(201)))),
        Row::Steps(22),
        Row::Pool(0, &[0, 1]),
        Row::Call(1, 100, Made::Get(1, Ok(None))),
    ];
    expect_after(&rt, rt.alloc(), REPLACED, &rows)
}
