//! Going over the keys of a set, and the entries of a map, bucket by bucket, with exact steps.
ghost use Rattle.std.specs.Prelude.{◌≡◌, None, IfOk};
ghost use Rattle.vbr_slots.specs.views.Views.{IsOf};

use crate::alone::open_alone;
use std::alloc::Global;
use std::process::Abort;
use std::test::Fail;
use vbr_set::{Cursor, ListError, Pass, Refusal, Shape, VbrMapRef, VbrSet, VbrSetRef};
use vbr_words::{Entries, Keys};

// The next key is this one, and then so many steps were made.
fn gives(
    rt: &impl Abort,
    caller: &mut VbrSetRef,
    cursor: &mut Cursor,
    expected: Option<u64>,
    steps: u64,
)
    ensures { caller.new.set ≡ caller.old.set }
{
    assert_eq!(rt; caller.next_key(cursor, 100), Ok(expected));
    assert_eq!(rt; caller.pass().steps(), steps);
}

// A list and a count with this budget give these keys, each in so many steps.
fn lists(
    rt: &impl Abort,
    alloc: Global,
    caller: &mut VbrSetRef,
    budget: u32,
    keys: &[u64],
    steps: u64,
) -> Result<(), Fail>
    ensures { caller.new.set ≡ caller.old.set }
{
    let before = caller.pass().steps();
    let told = caller.keys_now(alloc, budget)?;
    let between = caller.pass().steps();
    assert_eq!(rt; told.as_slice(), keys);
    assert_eq!(rt; caller.count_now(budget), Ok(keys.len() as u64));
    expect_steps(rt, caller.pass(), [before, between], steps);
    Ok(())
}

// Two calls, before which the pass had made so many steps, made so many each.
fn expect_steps(rt: &impl Abort, pass: &Pass, [before, between]: [u64; 2], steps: u64) {
    let made = (
        between.wrapping_sub(before),
        pass.steps().wrapping_sub(between),
    );
    assert_eq!(rt; made, (steps, steps));
}

// Goes over 1, in bucket 1 of 4, and 5 and 6, which follow it.
fn go_over(rt: &impl Abort, caller: &mut VbrSetRef)
    ensures { caller.new.set ≡ caller.old.set }
{
    let mut cursor = Cursor::first();
    gives(rt, caller, &mut cursor, Some(1), 11);
    gives(rt, caller, &mut cursor, Some(5), 24);
    gives(rt, caller, &mut cursor, Some(6), 32);
    assert_eq!(rt; cursor, Cursor { bucket: 3, from: 0 });
    gives(rt, caller, &mut cursor, None, 35);
    gives(rt, caller, &mut cursor, None, 35);
}

/// Buckets come in their order, and the keys of a bucket ascend; each call makes three steps for each
/// bucket that it enters, and five for each node that it visits. After the last key of a bucket no call
/// enters it again.
#[test]
fn keys_come_bucket_by_bucket(rt: HostRuntime) -> Result<(), Fail> {
    let (set, pass) = open_alone::<Keys>(rt.alloc(), Shape::new(8, 4, 10)?, &[1, 5, 6])?;
    let mut caller = set.with_pass(pass);
    go_over(&rt, &mut caller);
    lists(&rt, rt.alloc(), &mut caller, 100, &[1, 5, 6], 35)
}

/// The greatest key is given too, and nothing behind it.
#[test]
fn the_greatest_key_is_given(rt: HostRuntime) -> Result<(), Fail> {
    let keys = [0, u64::MAX];
    let (set, pass) = open_alone::<Keys>(rt.alloc(), Shape::new(8, 1, 10)?, &keys)?;
    let mut caller = set.with_pass(pass);
    let mut cursor = Cursor::first();
    gives(&rt, &mut caller, &mut cursor, Some(0), 8);
    gives(&rt, &mut caller, &mut cursor, Some(u64::MAX), 21);
    assert_eq!(rt; cursor, Cursor { bucket: 1, from: 0 });
    gives(&rt, &mut caller, &mut cursor, None, 21);
    Ok(())
}

// A set with 1 and 5 in one bucket, and its pass, of which a remove with so many steps has marked this key, and left its
// node in the list.
fn open_marked(
    rt: &impl Abort,
    alloc: Global,
    key: u64,
    budget: u32,
) -> Result<(VbrSet, Pass), Fail>
    ensures own { IfOk result (λ r. IsOf r.1.trace r.0) }
    ensures empty_hand { IfOk result (λ r. r.1.hand ≡ None) }
{
    let (set, mut pass) = open_alone::<Keys>(alloc, Shape::new(8, 4, 10)?, &[1, 5])?;
    assert_eq!(rt; set.remove(&mut pass, key, budget), Ok(true));
    Ok((set, pass))
}

/// A refusal keeps how far the cursor has come, and a node that is marked and still in its list is passed
/// in three steps: a remove with 16 steps marks the node and leaves it, after 9.
#[test]
fn a_marked_node_is_passed(rt: HostRuntime) -> Result<(), Fail> {
    let (set, pass) = open_marked(&rt, rt.alloc(), 1, 16)?;
    let mut caller = set.with_pass(pass);
    let mut cursor = Cursor::first();
    assert_eq!(rt;
        caller.next_key(&mut cursor, 8),
        Err(Refusal::OutOfSteps { used: 3 })
    );
    assert_eq!(rt; cursor, Cursor { bucket: 1, from: 0 });
    gives(&rt, &mut caller, &mut cursor, Some(5), 9 + 14);
    Ok(())
}

/// After the last key a marked node can stand in its list, as a remove with 21 steps leaves it, after 14: then
/// the next call enters the bucket once more, and passes the key in five steps and the node in three.
#[test]
fn a_marked_node_after_the_last_key_is_passed(rt: HostRuntime) -> Result<(), Fail> {
    let (set, pass) = open_marked(&rt, rt.alloc(), 5, 21)?;
    let mut caller = set.with_pass(pass);
    let mut cursor = Cursor::first();
    gives(&rt, &mut caller, &mut cursor, Some(1), 14 + 11);
    assert_eq!(rt; cursor, Cursor { bucket: 1, from: 2 });
    gives(&rt, &mut caller, &mut cursor, None, 14 + 28);
    Ok(())
}

/// A list of all keys goes on where a call was refused and has come further. With 20 steps a call goes over
/// five empty buckets: 11 steps give the first key, twelve calls of 15 come to the last empty bucket, 11
/// steps give the other key, and the end takes none. A count makes the same steps.
#[test]
fn a_list_goes_on_behind_a_refusal(rt: HostRuntime) -> Result<(), Fail> {
    let (set, pass) = open_alone::<Keys>(rt.alloc(), Shape::new(8, 64, 10)?, &[1, 63])?;
    let mut caller = set.with_pass(pass);
    let steps = 11 + 12 * 15 + 11;
    lists(&rt, rt.alloc(), &mut caller, 20, &[1, 63], steps)
}

// A list and a count with this budget are refused so, each after so many steps.
fn list_refused(
    rt: &impl Abort,
    alloc: Global,
    caller: &mut VbrSetRef,
    budget: u32,
    refusal: Refusal,
    steps: u64,
)
    ensures { caller.new.set ≡ caller.old.set }
{
    let before = caller.pass().steps();
    let told = caller.keys_now(alloc, budget).err();
    let between = caller.pass().steps();
    assert_eq!(rt; told, Some(ListError::Refused(refusal)));
    assert_eq!(rt; caller.count_now(budget), Err(refusal));
    expect_steps(rt, caller.pass(), [before, between], steps);
}

/// With ten steps a call goes over one empty bucket, and none in a bucket with a node: so a list and a count
/// are refused there, after three steps.
#[test]
fn a_list_stops_where_no_call_comes_further(rt: HostRuntime) -> Result<(), Fail> {
    let (set, pass) = open_alone::<Keys>(rt.alloc(), Shape::new(8, 64, 10)?, &[1, 63])?;
    let mut caller = set.with_pass(pass);
    let refusal = Refusal::OutOfSteps { used: 3 };
    list_refused(&rt, rt.alloc(), &mut caller, 10, refusal, 3 + 3);
    Ok(())
}

// The next entry is this one.
fn gives_entry(
    rt: &impl Abort,
    caller: &mut VbrMapRef,
    cursor: &mut Cursor,
    expected: Option<(u64, u64)>,
)
    ensures { caller.new.set ≡ caller.old.set }
{
    assert_eq!(rt; caller.next_entry(cursor, 100), Ok(expected));
}

// Goes over 2, 5 and 9, of which the first and the last have the same value.
fn go_over_entries(rt: &impl Abort, caller: &mut VbrMapRef)
    ensures { caller.new.set ≡ caller.old.set }
{
    let mut cursor = Cursor::first();
    gives_entry(rt, caller, &mut cursor, Some((2, 70)));
    gives_entry(rt, caller, &mut cursor, Some((5, 71)));
    gives_entry(rt, caller, &mut cursor, Some((9, 70)));
    gives_entry(rt, caller, &mut cursor, None);
}

// A list and a count of a map give these entries.
fn lists_entries(
    rt: &impl Abort,
    alloc: Global,
    caller: &mut VbrMapRef,
    entries: &[(u64, u64)],
) -> Result<(), Fail>
    ensures { caller.new.set ≡ caller.old.set }
{
    let told = caller.entries_now(alloc, 100)?;
    assert_eq!(rt; told.as_slice(), entries);
    assert_eq!(rt; caller.count_now(100), Ok(entries.len() as u64));
    Ok(())
}

/// Of a map it gives each key with its value.
#[test]
fn entries_come_with_their_values(rt: HostRuntime) -> Result<(), Fail> {
    let entries = [(2, 70), (5, 71), (9, 70)];
    let (map, pass) = open_alone::<Entries>(rt.alloc(), Shape::new(4, 2, 10)?, &entries)?;
    let mut caller = map.with_pass(pass);
    go_over_entries(&rt, &mut caller);
    lists_entries(&rt, rt.alloc(), &mut caller, &entries)
}
