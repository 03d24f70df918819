//! Scripts of maps that are played: which values are returned, and which are left.
use crate::player::expect_map_totals;
use std::alloc::Global;
use std::process::Abort;
use std::sync::Wait;
use std::test::Fail;
use std::thread::Threads;
use vbr_run::{Config, MapTotals, NoGate, RunError, ScriptFault, play_map};
use vbr_words::Shape;
use vbr_words::shape::MAX_EPOCH;

// What a script is played on: a map of so many slots in two buckets, up to a last epoch, by so many workers with a
// budget.
type On = (u32, u64, u32, u32);

const FOUR_SLOTS: On = (4, MAX_EPOCH, 1, 100_000);

const ONE_SLOT: On = (1, MAX_EPOCH, 1, 100_000);

const ONE_EPOCH: On = (1, 1, 1, 100_000);

const TWO_WORKERS: On = (4, MAX_EPOCH, 2, 100_000);

const FEW_STEPS: On = (1, MAX_EPOCH, 1, 17);

// Plays a script, and asks for the epoch: what is written, and the totals.
fn play_on<T: Threads + Wait>(
    rt: &T,
    alloc: Global,
    on: On,
    mut script: &[u8],
) -> Result<(Vec<u8>, MapTotals), Fail> {
    let (slots, last_epoch, workers, budget) = on;
    let config = Config::new(Shape::new(slots, 2, last_epoch)?, workers, budget, true)?;
    let mut output = Vec::new(alloc);
    let totals = play_map(rt, alloc, config, &mut script, &mut output, &NoGate)?;
    Ok((output, totals))
}

// Plays a script, and compares what it writes.
fn expect_written<T: Threads + Wait + Abort>(
    rt: &T,
    alloc: Global,
    on: On,
    script: &[u8],
    wanted: &[u8],
) -> Result<(), Fail> {
    let (output, _totals) = play_on(rt, alloc, on, script)?;
    assert_eq!(rt; output.as_slice(), wanted);
    Ok(())
}

/// The slot of the removed key is used again, in a later epoch.
#[test]
fn a_value_stays_until_its_key_is_removed(rt: HostRuntime) -> Result<(), Fail> {
    expect_written(
        &rt,
        rt.alloc(),
        FOUR_SLOTS,
        b"0 insert 5 70\n0 insert 5 71\n0 get 5\n0 remove 5\n0 get 5\n0 insert 5 71\n0 get 5\n0 has 5\n0 insert 6\n",
        b"yes\nno\nyes 70\nyes 70\nno\nyes\nyes 71\nyes\nyes\ninserted 3\nremoved 1\nfound 3\nrefused 0\nentries 5=71 6=0\nepoch 2\n",
    )
}

#[test]
fn a_map_has_the_greatest_key_and_value(rt: HostRuntime) -> Result<(), Fail> {
    expect_written(
        &rt,
        rt.alloc(),
        FOUR_SLOTS,
        b"0 insert 18446744073709551615 18446744073709551615\n0 insert 0 1\n0 get 0\n0 get 18446744073709551615\n",
        b"yes\nyes\nyes 1\nyes 18446744073709551615\ninserted 2\nremoved 0\nfound 2\nrefused 0\nentries 0=1 18446744073709551615=18446744073709551615\nepoch 1\n",
    )
}

#[test]
fn a_slot_is_used_again_with_another_value(rt: HostRuntime) -> Result<(), Fail> {
    expect_written(
        &rt,
        rt.alloc(),
        ONE_SLOT,
        b"0 insert 1 70\n0 remove 1\n0 insert 2 71\n0 get 1\n0 get 2\n",
        b"yes\nyes 70\nyes\nno\nyes 71\ninserted 2\nremoved 1\nfound 1\nrefused 0\nentries 2=71\nepoch 2\n",
    )
}

/// It is refused in a full map, or for want of steps.
#[test]
fn a_refused_insert_stores_nothing(rt: HostRuntime) -> Result<(), Fail> {
    expect_written(
        &rt,
        rt.alloc(),
        ONE_SLOT,
        b"0 insert 1 70\n0 insert 2 71\n0 insert 1 72\n",
        b"yes\nfull\nno\ninserted 1\nremoved 0\nfound 0\nrefused 1\nentries 1=70\nepoch 1\n",
    )?;
    expect_written(
        &rt,
        rt.alloc(),
        FEW_STEPS,
        b"0 insert 1 70\n0 insert 1 71\n",
        b"tired\nyes\ninserted 1\nremoved 0\nfound 0\nrefused 1\nentries 1=71\nepoch 1\n",
    )
}

#[test]
fn a_value_is_given_to_another_worker(rt: HostRuntime) -> Result<(), Fail> {
    expect_written(
        &rt,
        rt.alloc(),
        TWO_WORKERS,
        b"0 insert 5 70\nsync\n1 get 5\n1 remove 5\n",
        b"yes\nyes 70\nyes 70\ninserted 1\nremoved 1\nfound 1\nrefused 0\nentries\nepoch 1\n",
    )
}

#[test]
fn a_renewal_keeps_each_value(rt: HostRuntime) -> Result<(), Fail> {
    expect_written(
        &rt,
        rt.alloc(),
        ONE_EPOCH,
        b"0 insert 1 70\n0 remove 1\n0 insert 2 71\nrenew\n0 insert 2 72\nrenew\n0 get 2\n0 insert 3 73\n",
        b"yes\nyes 70\nspent\nyes\nyes 72\nfull\ninserted 2\nremoved 1\nfound 1\nrefused 2\nentries 2=72\nepoch 1\n",
    )
}

const TOTALLED: &[u8] = b"0 insert 7 72\n0 insert 5 70\n0 remove 7\n0 insert 9 71\n0 get 9\n";

#[test]
fn totals_have_the_entries_that_are_left(rt: HostRuntime) -> Result<(), Fail> {
    let (_output, totals) = play_on(&rt, rt.alloc(), FOUR_SLOTS, TOTALLED)?;
    expect_map_totals(&rt, &totals, [3, 1, 1, 0], 2, &[(5, 70), (9, 71)]);
    Ok(())
}

#[test]
fn a_faulty_script_of_a_map_is_not_played(rt: HostRuntime) -> Result<(), Fail> {
    let config = Config::new(Shape::new(4, 2, MAX_EPOCH)?, 1, 100_000, false)?;
    let mut reader = b"0 insert 5 70\n0 insert 5 x\n".as_slice();
    let mut output = Vec::new(rt.alloc());
    let played = play_map(&rt, rt.alloc(), config, &mut reader, &mut output, &NoGate);
    let kind = ScriptFault::Value;
    assert_eq!(rt; played.err(), Some(RunError::Script { line: 2, kind }));
    assert!(rt; output.is_empty());
    Ok(())
}
