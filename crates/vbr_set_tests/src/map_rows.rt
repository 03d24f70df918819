//! The map: rows call by call, and what is in it when it is closed.
ghost use Rattle.std.specs.Prelude.{◌≡◌, IfOk};
ghost use Rattle.vbr_slots.specs.views.Views.{IsOf, new_pass, new_passes};

use crate::alone::expect_report;
use std::alloc::Global;
use std::process::Abort;
use std::test::Fail;
use vbr_set::{Pass, Refusal, RenewError, Shape, VbrMap, VbrMapRef};

// A call of a map, with its key, and what it is answered.
#[derive(Clone, Copy)]
enum Made {
    Insert(u64, u64, Result<bool, Refusal>),
    Remove(u64, Result<Option<u64>, Refusal>),
    Get(u64, Result<Option<u64>, Refusal>),
    Has(u64, Result<bool, Refusal>),
}

// What is made on a map with two passes, 0 and 1.
#[derive(Clone, Copy)]
enum Row<'a> {
    // A call of a pass, with its budget.
    Call(u32, u32, Made),
    // How many steps the last call made.
    Steps(u64),
    // The slots in the own pool of pass 1.
    Pool(&'a [u32]),
}

// What is in a map that is closed: the entries, the epoch, and how many slots are live, marked and free.
type Left<'a> = (&'a [(u64, u64)], u64, (u32, u32, u32));

// Makes a call, and compares what it is answered.
fn expect_answer(rt: &impl Abort, caller: &mut VbrMapRef, budget: u32, made: Made)
    ensures { caller.new.set ≡ caller.old.set }
{
    match made {
        Made::Insert(key, value, answer) => {
            assert_eq!(rt; caller.insert(key, value, budget), answer, "insert {key}");
        }
        Made::Remove(key, answer) => {
            assert_eq!(rt; caller.remove(key, budget), answer, "remove {key}");
        }
        Made::Get(key, answer) => {
            assert_eq!(rt; caller.get(key, budget), answer, "get {key}");
        }
        Made::Has(key, answer) => {
            assert_eq!(rt; caller.has(key, budget), answer, "has {key}");
        }
    }
}

// Makes a call, compares what it is answered, and returns how many steps it made.
fn call(rt: &impl Abort, caller: &mut VbrMapRef, budget: u32, made: Made) -> u64
    ensures { caller.new.set ≡ caller.old.set }
{
    let before = caller.pass().steps();
    expect_answer(rt, caller, budget, made);
    caller.pass().steps().saturating_sub(before)
}

// Makes rows one after another.
fn play(rt: &impl Abort, a: &mut VbrMapRef, b: &mut VbrMapRef, rows: &[Row])
    ensures first { a.new.set ≡ a.old.set }
    ensures second { b.new.set ≡ b.old.set }
{
    let mut steps = 0;
    for row in rows {
        match *row {
            Row::Call(0, budget, made) => steps = call(rt, a, budget, made),
            Row::Call(_, budget, made) => steps = call(rt, b, budget, made),
            Row::Steps(made) => assert_eq!(rt; steps, made),
            Row::Pool(pool) => assert_eq!(rt; b.pass().pool(), pool),
        }
    }
}

// An empty map with two passes.
pub(crate) fn open_two(alloc: Global, shape: (u32, u32, u64)) -> Result<(VbrMap, Pass, Pass), Fail>
    ensures table { IfOk result (λ r. r.0.passes ≡ 2) }
    ensures first { IfOk result (λ r. r.1 ≡ new_pass r.0 0) }
    ensures second { IfOk result (λ r. r.2 ≡ new_pass r.0 1) }
{
    let (slots, buckets, last_epoch) = shape;
    let (map, mut passes) = VbrMap::open(alloc, Shape::new(slots, buckets, last_epoch)?, 2)?;
    let second = passes.pop().ok_or("no pass")?;
    let first = passes.pop().ok_or("no pass")?;
    Ok((map, first, second))
}

// Closes a map with its two passes, and compares what is left in it.
fn expect_left(
    rt: &impl Abort,
    alloc: Global,
    map: VbrMap,
    a: Pass,
    b: Pass,
    left: Left,
) -> Result<(), Fail>
    requires two { map.passes ≡ 2 }
    requires own { IsOf a.trace map × IsOf b.trace map }
{
    let report = map.close(alloc, Vec::from_array(alloc, [a, b])?)?;
    let (entries, epoch, counts) = left;
    expect_report(rt, &report, entries, counts);
    assert_eq!(rt; report.epoch, epoch);
    Ok(())
}

// Makes rows on a fresh map with two passes, closes it, and compares what is left in it.
fn expect(
    rt: &impl Abort,
    alloc: Global,
    shape: (u32, u32, u64),
    rows: &[Row],
    left: Left,
) -> Result<(), Fail> {
    let (map, a, b) = open_two(alloc, shape)?;
    let (mut a, mut b) = (map.with_pass(a), map.with_pass(b));
    play(rt, &mut a, &mut b, rows);
    let (a, b) = (a.into_pass(), b.into_pass());
    expect_left(rt, alloc, map, a, b, left)
}

// Inserts 7 with 107 and removes it with so many steps, which leaves its node marked, and then makes these rows.
fn expect_marked(
    rt: &impl Abort,
    alloc: Global,
    budget: u32,
    rows: &[Row],
    left: Left,
) -> Result<(), Fail> {
    let mut all = Vec::new(alloc);
    all.extend_from_slice(&[
        Row::Call(0, 100, Made::Insert(7, 107, Ok(true))),
        Row::Steps(14),
        Row::Call(0, budget, Made::Remove(7, Ok(Some(107)))),
        Row::Steps(11),
    ])?;
    all.extend_from_slice(rows)?;
    expect(rt, alloc, (1, 1, 10), &all, left)
}

/// A remove that can't unlink within its budget leaves the node to the next call that meets it.
#[test]
fn a_marked_node_is_left_to_others(rt: HostRuntime) -> Result<(), Fail> {
    let rows = [
        Row::Call(1, 100, Made::Remove(7, Ok(None))),
        Row::Steps(10),
        Row::Pool(&[0]),
    ];
    expect_marked(&rt, rt.alloc(), 18, &rows, (&[], 1, (0, 0, 1)))
}

/// The same, closed while the node is marked: its entry isn't reported.
#[test]
fn a_marked_node_is_counted(rt: HostRuntime) -> Result<(), Fail> {
    expect_marked(&rt, rt.alloc(), 16, &[], (&[], 1, (0, 1, 0)))
}

/// Gets pass marked nodes, however many, and leave them.
#[test]
fn gets_pass_marked_nodes(rt: HostRuntime) -> Result<(), Fail> {
    let mut rows = Vec::new(rt.alloc());
    for (key, value) in [(30, 130), (20, 120), (10, 110)] {
        rows.push(Row::Call(0, 100, Made::Insert(key, value, Ok(true))))?;
    }
    for (budget, key, value, steps) in [(26, 30, 130, 21), (21, 20, 120, 16), (16, 10, 110, 11)] {
        rows.push(Row::Call(0, budget, Made::Remove(key, Ok(Some(value)))))?;
        rows.push(Row::Steps(steps))?;
    }
    rows.extend_from_slice(&[
        Row::Call(1, 100, Made::Get(20, Ok(None))),
        Row::Steps(13),
        Row::Call(1, 100, Made::Has(20, Ok(false))),
        Row::Steps(13),
    ])?;
    expect(&rt, rt.alloc(), (3, 1, 10), &rows, (&[], 1, (0, 3, 0)))
}

/// A slot that is used again holds another key and another value, and the epoch is 2.
#[test]
fn a_slot_is_used_again(rt: HostRuntime) -> Result<(), Fail> {
    let rows = [
        Row::Call(0, 100, Made::Insert(1, 101, Ok(true))),
        Row::Call(0, 100, Made::Remove(1, Ok(Some(101)))),
        Row::Call(0, 100, Made::Insert(2, 0, Ok(true))),
    ];
    let left = ([(2, 0)].as_slice(), 2, (1, 0, 0));
    expect(&rt, rt.alloc(), (1, 1, 10), &rows, left)
}

/// In the last epoch each pass uses a slot once: with its own one spent it takes none out of the shared pool,
/// and the other one does.
#[test]
fn two_slots_in_the_last_epoch(rt: HostRuntime) -> Result<(), Fail> {
    let spent = Err(Refusal::EpochSpent { epoch: 1 });
    let rows = [
        Row::Call(0, 100, Made::Insert(1, 101, Ok(true))),
        Row::Call(0, 100, Made::Remove(1, Ok(Some(101)))),
        Row::Call(0, 100, Made::Insert(2, 102, spent)),
        Row::Call(1, 100, Made::Insert(2, 202, Ok(true))),
        Row::Call(0, 100, Made::Get(2, Ok(Some(202)))),
        Row::Call(1, 100, Made::Insert(3, 203, Err(Refusal::NoSlot))),
    ];
    let left = ([(2, 202)].as_slice(), 1, (1, 0, 1));
    expect(&rt, rt.alloc(), (2, 1, 1), &rows, left)
}

// Renews a map by one of its two passes, which is refused, and then by both.
fn renew_late(
    rt: &impl Abort,
    alloc: Global,
    map: VbrMap,
    first: Pass,
    second: Pass,
) -> Result<(VbrMap, Vec<Pass>), Fail>
    requires own { IsOf first.trace map × IsOf second.trace map }
    requires two { map.passes ≡ 2 }
    ensures fresh { IfOk result (λ r. r.1.items ≡ new_passes r.0 0 2) }
    ensures two { IfOk result (λ r. r.0.passes ≡ 2) }
{
    let passes = Vec::from_array(alloc, [first])?;
    let Err(RenewError::Missing(map, mut passes)) = map.renew(alloc, passes) else {
        panic!(rt; "renewed without a pass")
    };
    passes.push(second)?;
    Ok(map.renew(alloc, passes)?)
}

/// One of two passes doesn't renew a map; both do, and it opens with its entries, each with its value.
#[test]
fn one_of_two_passes_renews_no_map(rt: HostRuntime) -> Result<(), Fail> {
    let (map, mut first, second) = open_two(rt.alloc(), (4, 2, 10))?;
    assert_eq!(rt; map.insert(&mut first, 5, 70, 100), Ok(true));
    assert_eq!(rt; map.insert(&mut first, 2, 71, 100), Ok(true));
    let (map, passes) = renew_late(&rt, rt.alloc(), map, first, second)?;
    assert_eq!(rt; (passes[0].steps(), passes[1].steps()), (0, 0));
    let report = map.close(rt.alloc(), passes)?;
    expect_report(&rt, &report, &[(2, 71), (5, 70)], (2, 0, 2));
    Ok(())
}

// How many keys fill the map of sixty-four slots.
const SLOTS: u64 = 64;

// Stores the keys 1 to 64, each with a hundred more for its value.
fn fill(rt: &impl Abort, caller: &mut VbrMapRef)
    ensures { caller.new.set ≡ caller.old.set }
{
    for key in 1..SLOTS + 1 {
        assert_eq!(rt; caller.insert(key, key + 100, 100_000), Ok(true));
    }
}

// Takes them out in the same order, each with its value.
fn empty(rt: &impl Abort, caller: &mut VbrMapRef)
    ensures { caller.new.set ≡ caller.old.set }
{
    for key in 1..SLOTS + 1 {
        expect_answer(rt, caller, 100_000, Made::Remove(key, Ok(Some(key + 100))));
    }
}

// The own pool of a pass has the slots from this one to 62, the oldest first, and its epoch is this one.
fn expect_pool(rt: &impl Abort, pass: &Pass, first: u32, epoch: u64) {
    assert!(rt; pass.pool().iter().copied().eq(first..63));
    assert_eq!(rt; pass.epoch(), epoch);
}

// The first caller takes its oldest slot again, for which it advances the epoch; the second one finds the slot
// that the first has given away.
fn take_again(rt: &impl Abort, a: &mut VbrMapRef, b: &mut VbrMapRef)
    ensures first { a.new.set ≡ a.old.set }
    ensures second { b.new.set ≡ b.old.set }
{
    let rows = [
        Row::Call(0, 1_000, Made::Insert(1, 201, Ok(true))),
        Row::Steps(77),
        Row::Call(1, 1_000, Made::Insert(2, 202, Ok(true))),
        Row::Call(1, 1_000, Made::Remove(2, Ok(Some(202)))),
        Row::Pool(&[63]),
    ];
    play(rt, a, b, &rows);
    expect_pool(rt, a.pass(), 1, 2);
}

/// A pass keeps 63 of the slots that it unlinked, and gives the next one to the shared pool. The first that it
/// takes again is the oldest, with another value.
#[test]
fn sixty_four_slots_filled_and_emptied(rt: HostRuntime) -> Result<(), Fail> {
    let (map, a, b) = open_two(rt.alloc(), (64, 1, 10))?;
    let (mut a, mut b) = (map.with_pass(a), map.with_pass(b));
    fill(&rt, &mut a);
    empty(&rt, &mut a);
    expect_pool(&rt, a.pass(), 0, 1);
    take_again(&rt, &mut a, &mut b);
    let (a, b) = (a.into_pass(), b.into_pass());
    expect_left(&rt, rt.alloc(), map, a, b, (&[(1, 201)], 2, (1, 0, 63)))
}
