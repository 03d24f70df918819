//! The set: rows call by call, closings that hand all back, and small budgets.
ghost use Rattle.std.specs.Prelude.{◌≡◌, [], IfOk, IfErr, IfSome};
ghost use Rattle.vbr_machine.specs.Start.{set_start};
ghost use Rattle.vbr_slots.specs.runs.Closing.{AllOf, HandsBack};
ghost use Rattle.vbr_slots.specs.views.Views.{IsOf, new_pass, new_passes};
ghost use Rattle.vbr_set.specs.reports.Closing.{Closes};

use std::alloc::Global;
use std::process::Abort;
use std::test::Fail;
use vbr_machine::Op;
use vbr_set::{CloseError, OpenError, Pass, Refusal, Report, Shape, VbrSet, VbrSetRef};

// Opens a set. What found no memory left nothing, so it is tried again.
fn open(alloc: Global, shape: Shape, passes: u32) -> Result<(VbrSet, Vec<Pass>), OpenError>
    ensures table { IfOk result (λ r.
        (r.0.start ≡ set_start shape []) × (r.0.passes ≡ passes)) }
    ensures passes { IfOk result (λ r. r.1.items ≡ new_passes r.0 0 passes) }
{
    match VbrSet::open(alloc, shape, passes) {
        Err(OpenError::Memory) => VbrSet::open(alloc, shape, passes),
        Err(refused) => Err(refused),
        Ok(opened) => Ok(opened),
    }
}

// A set with two passes.
pub fn open_two(alloc: Global, shape: Shape) -> Option<(VbrSet, Pass, Pass)>
    ensures table { IfSome result (λ r. r.0.passes ≡ 2) }
    ensures first { IfSome result (λ r. r.1 ≡ new_pass r.0 0) }
    ensures second { IfSome result (λ r. r.2 ≡ new_pass r.0 1) }
{
    let (set, mut passes) = open(alloc, shape, 2).ok()?;
    let second = passes.pop()?;
    let first = passes.pop()?;
    Some((set, first, second))
}

// Closes a set. What found no memory left all as it was, so it is tried again.
pub fn close(set: VbrSet, alloc: Global, passes: Vec<Pass>) -> Result<Report, CloseError<VbrSet>>
    requires { AllOf set passes.items }
    ensures ok { IfOk result (λ report. Closes set passes.items report) }
    ensures back { IfErr result (λ e. HandsBack e set passes.items) }
{
    match set.close(alloc, passes) {
        Err(CloseError::Memory(set, passes)) => set.close(alloc, passes),
        closed => closed,
    }
}

// Closes a set with its two passes.
pub fn close_both(alloc: Global, set: VbrSet, first: Pass, second: Pass) -> Option<Report>
    requires own { IsOf first.trace set × IsOf second.trace set }
{
    let passes = Vec::from_array(alloc, [first, second]).ok()?;
    close(set, alloc, passes).ok()
}

// What is made on a set with two passes, 0 and 1.
#[derive(Clone, Copy)]
enum Row<'a> {
    // A call of a pass, with its key and budget, and what it is answered.
    Call(u32, Op, u64, u32, Result<bool, Refusal>),
    // Pass 1 meets pass 0, which makes no step.
    Meet,
    // How many steps the last row took.
    Steps(u64),
    // The slots in the own pool of pass 1.
    Pool(&'a [u32]),
}

// What is in a set that is closed: the keys, the epoch, and how many slots are live, marked and free.
type Left<'a> = (&'a [u64], u64, (u32, u32, u32));

// Makes a call, and gives what it is answered.
fn answer_of(caller: &mut VbrSetRef, made: (Op, u64, u32)) -> Result<bool, Refusal>
    ensures { caller.new.set ≡ caller.old.set }
{
    let (op, key, budget) = made;
    match op {
        // No row has a get, which is a map's: a set would answer it as a look-up.
        Op::Get => caller.has(key, budget),
        Op::Has => caller.has(key, budget),
        Op::Insert => caller.insert(key, budget),
        Op::Remove => caller.remove(key, budget),
    }
}

// Makes a call, compares what it is answered, and returns how many steps it made.
fn call(
    rt: &impl Abort,
    caller: &mut VbrSetRef,
    made: (Op, u64, u32),
    answer: Result<bool, Refusal>,
) -> u64
    ensures { caller.new.set ≡ caller.old.set }
{
    let (op, key, _) = made;
    let before = caller.pass().steps();
    assert_eq!(rt; answer_of(caller, made), answer, "{op:?} {key}");
    caller.pass().steps().saturating_sub(before)
}

// The first caller meets the second one. Tells how many steps it made.
fn meet(rt: &impl Abort, caller: &mut VbrSetRef, other: &mut VbrSetRef) -> u64
    requires { other.old.set ≡ caller.old.set }
    ensures own { caller.new.set ≡ caller.old.set }
    ensures other { other.new.set ≡ other.old.set }
{
    let before = (caller.pass().steps(), other.pass().steps());
    caller.meet(other);
    assert_eq!(rt; other.pass().steps(), before.1);
    caller.pass().steps().saturating_sub(before.0)
}

// Makes rows one after another.
fn play(rt: &impl Abort, a: &mut VbrSetRef, b: &mut VbrSetRef, rows: &[Row])
    requires { b.old.set ≡ a.old.set }
    ensures first { a.new.set ≡ a.old.set }
    ensures second { b.new.set ≡ b.old.set }
{
    let mut steps = 0;
    for row in rows {
        match *row {
            Row::Call(0, op, key, budget, answer) => {
                steps = call(rt, a, (op, key, budget), answer);
            }
            Row::Call(_, op, key, budget, answer) => {
                steps = call(rt, b, (op, key, budget), answer);
            }
            Row::Meet => steps = meet(rt, b, a),
            Row::Steps(made) => assert_eq!(rt; steps, made),
            Row::Pool(pool) => assert_eq!(rt; b.pass().pool(), pool),
        }
    }
}

// Makes rows on a fresh set with two passes, closes it, and compares what is left in it.
fn expect(
    rt: &impl Abort,
    alloc: Global,
    shape: (u32, u32, u64),
    rows: &[Row],
    left: Left,
) -> Result<(), Fail> {
    let (slots, buckets, last_epoch) = shape;
    let shape = Shape::new(slots, buckets, last_epoch)?;
    let (set, a, b) = open_two(alloc, shape).expect(rt, "there is memory");
    let (mut a, mut b) = (set.with_pass(a), set.with_pass(b));
    play(rt, &mut a, &mut b, rows);
    let (a, b) = (a.into_pass(), b.into_pass());
    let report = close_both(alloc, set, a, b).expect(rt, "it is closed");
    compare(rt, &report, left);
    Ok(())
}

// Compares a report with what is left.
fn compare(rt: &impl Abort, report: &Report, left: Left) {
    let (keys, epoch, counts) = left;
    assert_eq!(rt; report.keys.as_slice(), keys);
    assert_eq!(rt; report.epoch, epoch);
    assert_eq!(rt; (report.live, report.marked, report.free), counts);
}

// Inserts 7 and removes it with 16 steps, which leaves its node marked, and then makes these rows.
fn expect_marked(rt: &impl Abort, alloc: Global, rows: &[Row], left: Left) -> Result<(), Fail> {
    let mut all = Vec::new(alloc);
    all.extend_from_slice(&[
        Row::Call(0, Op::Insert, 7, 100, Ok(true)),
        Row::Call(0, Op::Remove, 7, 16, Ok(true)),
        Row::Steps(9),
    ])?;
    all.extend_from_slice(rows)?;
    expect(rt, alloc, (1, 1, 10), &all, left)
}

/// A remove that can't unlink within its budget leaves the node to the next call that meets it.
#[test]
fn a_marked_node_is_left_to_others(rt: HostRuntime) -> Result<(), Fail> {
    let rows = [
        Row::Call(1, Op::Remove, 7, 100, Ok(false)),
        Row::Steps(10),
        Row::Pool(&[0]),
    ];
    expect_marked(&rt, rt.alloc(), &rows, (&[], 1, (0, 0, 1)))
}

/// The same, closed while the node is marked.
#[test]
fn a_marked_node_is_counted(rt: HostRuntime) -> Result<(), Fail> {
    expect_marked(&rt, rt.alloc(), &[], (&[], 1, (0, 1, 0)))
}

/// A look-up doesn't unlink, nor help in any other way.
#[test]
fn a_look_up_leaves_a_marked_node(rt: HostRuntime) -> Result<(), Fail> {
    let rows = [Row::Call(1, Op::Has, 7, 100, Ok(false)), Row::Steps(7)];
    expect_marked(&rt, rt.alloc(), &rows, (&[], 1, (0, 1, 0)))
}

/// A look-up passes marked nodes, however many, and leaves them.
#[test]
fn look_ups_pass_marked_nodes(rt: HostRuntime) -> Result<(), Fail> {
    let mut rows = Vec::new(rt.alloc());
    for key in [30, 20, 10] {
        rows.push(Row::Call(0, Op::Insert, key, 100, Ok(true)))?;
    }
    for (key, budget, steps) in [(30, 26, 19), (20, 21, 14), (10, 16, 9)] {
        rows.push(Row::Call(0, Op::Remove, key, budget, Ok(true)))?;
        rows.push(Row::Steps(steps))?;
    }
    rows.extend_from_slice(&[Row::Call(1, Op::Has, 20, 100, Ok(false)), Row::Steps(13)])?;
    expect(&rt, rt.alloc(), (3, 1, 10), &rows, (&[], 1, (0, 3, 0)))
}

#[test]
fn a_slot_is_used_again(rt: HostRuntime) -> Result<(), Fail> {
    let rows = [
        Row::Call(0, Op::Insert, 1, 100, Ok(true)),
        Row::Call(0, Op::Remove, 1, 100, Ok(true)),
        Row::Call(0, Op::Insert, 2, 100, Ok(true)),
    ];
    expect(&rt, rt.alloc(), (1, 1, 10), &rows, (&[2], 2, (1, 0, 0)))
}

// Closes a set without all its passes, which is refused.
fn close_early(
    rt: &impl Abort,
    alloc: Global,
    set: VbrSet,
    passes: Vec<Pass>,
) -> (VbrSet, Vec<Pass>)
    requires { AllOf set passes.items }
    ensures set { result.0 ≡ set }
    ensures passes { result.1.items ≡ passes.items }
{
    match close(set, alloc, passes) {
        Err(CloseError::Missing(set, passes)) => (set, passes),
        _ => panic!(rt; "closed without a pass"),
    }
}

// Closes a set without its second pass, which is refused, and then with both.
fn close_late(
    rt: &impl Abort,
    alloc: Global,
    set: VbrSet,
    first: Pass,
    second: Pass,
) -> Option<Report>
    requires passes { set.passes ≡ 2 }
    requires own { IsOf first.trace set × IsOf second.trace set }
{
    let passes = Vec::from_array(alloc, [first]).ok()?;
    let (set, mut passes) = close_early(rt, alloc, set, passes);
    assert_eq!(rt; passes.len(), 1);
    passes.push(second).ok()?;
    close(set, alloc, passes).ok()
}

#[test]
fn a_pass_is_missing(rt: HostRuntime) -> Result<(), Fail> {
    let (set, a, b) = open_two(rt.alloc(), Shape::new(1, 1, 10)?).expect(&rt, "there is memory");
    let report = close_late(&rt, rt.alloc(), set, a, b).expect(&rt, "it is closed");
    compare(&rt, &report, (&[], 1, (0, 0, 1)));
    Ok(())
}

#[test]
fn no_pass_and_too_many_are_refused(rt: HostRuntime) -> Result<(), Fail> {
    let shape = Shape::new(1, 1, 10)?;
    assert!(rt; matches!(open(rt.alloc(), shape, 0), Err(OpenError::Passes)));
    assert!(rt; matches!(open(rt.alloc(), shape, 65), Err(OpenError::Passes)));
    let (set, passes) = open(rt.alloc(), shape, 64)?;
    assert!(rt; set.shape() == shape && passes.len() == 64);
    Ok(())
}

#[test]
fn keys_of_many_buckets_ascend(rt: HostRuntime) -> Result<(), Fail> {
    let mut rows = Vec::new(rt.alloc());
    for key in [9, 64, 1, 3, 17, u64::MAX, 8, 0, 23, 16] {
        rows.push(Row::Call(0, Op::Insert, key, 1_000, Ok(true)))?;
    }
    rows.extend_from_slice(&[
        Row::Call(0, Op::Remove, 17, 1_000, Ok(true)),
        Row::Call(0, Op::Has, 17, 1_000, Ok(false)),
        Row::Call(0, Op::Has, u64::MAX, 1_000, Ok(true)),
    ])?;
    let ascending = [0, 1, 3, 8, 9, 16, 23, 64, u64::MAX];
    let left = (ascending.as_slice(), 1, (9, 0, 55));
    expect(&rt, rt.alloc(), (64, 8, 10), &rows, left)
}

#[test]
fn a_pass_sees_what_the_other_has_seen(rt: HostRuntime) -> Result<(), Fail> {
    let rows = [
        Row::Call(0, Op::Insert, 7, 100, Ok(true)),
        Row::Meet,
        Row::Steps(1),
        Row::Call(1, Op::Insert, 7, 100, Ok(false)),
    ];
    expect(&rt, rt.alloc(), (2, 1, 10), &rows, (&[7], 1, (1, 0, 1)))
}

#[test]
fn a_small_budget_gives_no_answer(rt: HostRuntime) -> Result<(), Fail> {
    let none = Err(Refusal::OutOfSteps { used: 0 });
    for budget in 0..8 {
        let rows = [Row::Call(0, Op::Has, 1, budget, none), Row::Steps(0)];
        expect(&rt, rt.alloc(), (1, 1, 10), &rows, (&[], 1, (0, 0, 1)))?;
    }
    let three = Err(Refusal::OutOfSteps { used: 3 });
    let rows = [
        Row::Call(0, Op::Has, 1, 8, three),
        Row::Steps(3),
        Row::Call(0, Op::Has, 1, 9, three),
        Row::Steps(3),
        Row::Call(0, Op::Has, 1, 10, three),
        Row::Steps(3),
        Row::Call(0, Op::Has, 1, 11, Ok(false)),
        Row::Steps(4),
        Row::Call(0, Op::Insert, 1, 18, Ok(true)),
        Row::Steps(13),
    ];
    expect(&rt, rt.alloc(), (1, 1, 10), &rows, (&[1], 1, (1, 0, 0)))
}

#[test]
fn slots_and_epochs_run_out(rt: HostRuntime) -> Result<(), Fail> {
    let spent = Err(Refusal::EpochSpent { epoch: 1 });
    let rows = [
        Row::Call(0, Op::Insert, 1, 100, Ok(true)),
        Row::Call(1, Op::Insert, 2, 100, Err(Refusal::NoSlot)),
        Row::Call(1, Op::Insert, 1, 100, Ok(false)),
        Row::Call(0, Op::Remove, 1, 100, Ok(true)),
        Row::Call(0, Op::Insert, 2, 100, spent),
        Row::Call(0, Op::Has, 1, 100, Ok(false)),
    ];
    expect(&rt, rt.alloc(), (1, 1, 1), &rows, (&[], 1, (0, 0, 1)))
}
