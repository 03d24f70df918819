//! The plain map on a few calls.
use std::alloc::AllocError;
use std::process::Abort;
use std::test::Fail;
use vbr_machine::{Op, PlainMap};

// Answers a call. What found no memory left the map as it was, so it is tried again.
fn apply(
    map: &mut PlainMap,
    op: Op,
    key: u64,
    value: u64,
) -> Result<(bool, Option<u64>), AllocError> {
    match map.apply(op, key, value) {
        Err(_) => map.apply(op, key, value),
        answer => answer,
    }
}

// Calls of one key, each with the value that it would store, and its answer.
const CALLS: [(Op, u64, (bool, Option<u64>)); 9] = [
    (Op::Get, 0, (false, None)),
    (Op::Insert, 105, (true, Some(105))),
    (Op::Insert, 205, (false, None)),
    (Op::Get, 0, (true, Some(105))),
    (Op::Has, 0, (true, None)),
    (Op::Remove, 0, (true, Some(105))),
    (Op::Remove, 0, (false, None)),
    (Op::Insert, 305, (true, Some(305))),
    (Op::Get, 0, (true, Some(305))),
];

// Makes these calls, of key 5, and compares their answers.
fn expect_answers(rt: &impl Abort, map: &mut PlainMap) -> Result<(), AllocError> {
    for (op, value, answer) in CALLS {
        assert_eq!(rt; apply(map, op, 5, value)?, answer, "{op:?}");
    }
    Ok(())
}

#[test]
fn answers_as_a_map(rt: HostRuntime) -> Result<(), Fail> {
    let mut map = PlainMap::new(rt.alloc());
    expect_answers(&rt, &mut map)?;
    assert_eq!(rt; map.entries()?.as_slice(), [(5, 305)].as_slice());
    Ok(())
}

#[test]
fn gives_its_entries_ascending(rt: HostRuntime) -> Result<(), Fail> {
    let mut map = PlainMap::new(rt.alloc());
    for (key, value) in [(30, 1), (u64::MAX, 0), (0, u64::MAX), (20, 2)] {
        apply(&mut map, Op::Insert, key, value)?;
    }
    apply(&mut map, Op::Remove, 20, 0)?;
    let wanted = [(0, u64::MAX), (30, 1), (u64::MAX, 0)];
    assert_eq!(rt; map.entries()?.as_slice(), wanted.as_slice());
    Ok(())
}
