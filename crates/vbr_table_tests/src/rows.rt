//! Rows: calls one after another on a table with two passes, each with what it is answered, and after
//! it with its steps and with what a pass knows. What a call is, its kind of nodes says.
ghost use Rattle.std.specs.Prelude.{◌≡◌, None};
ghost use Rattle.vbr_slots.specs.views.Views.{IsOf};

use crate::running_table::{Opened, close_two, open_two, shape_of};
use std::alloc::Global;
use std::process::Abort;
use std::test::Fail;
use vbr_list::Refusal;
use vbr_slots::{Pass, Slots};

/// A call on a table, with what it is answered.
pub trait Call: Copy {
    /// The nodes of the table.
    type Nodes: Opened;

    /// Makes the call with a budget of so many steps, and compares what it is answered.
    fn make<R: Abort>(self, rt: &R, slots: &Slots<Self::Nodes>, pass: &mut Pass, budget: u32)
        requires own { IsOf pass.old.trace slots.now }
        requires empty_hand { pass.old.hand ≡ None }
        ensures own { IsOf pass.new.trace slots.now }
        ensures hand { pass.new.hand ≡ None };
}

/// What is made on a table with two passes, 0 and 1, or looked at there.
#[derive(Clone, Copy)]
pub enum Row<'a, C> {
    // A call of a pass, with its budget.
    Call(u32, u32, C),
    // How many steps the last call made.
    Steps(u64),
    // The epoch that a pass knows.
    Epoch(u32, u64),
    // The slots in a pass's own pool. It has none in hand.
    Pool(u32, &'a [u32]),
}

/// Compares the yes or no that a call for a key is answered.
pub fn expect_answer(
    rt: &impl Abort,
    told: Result<bool, Refusal>,
    answer: Result<bool, Refusal>,
    made: &str,
    key: u64,
) {
    assert_eq!(rt; told, answer, "{made} {key}");
}

// Makes a call, and returns how many steps it made.
fn make<R: Abort, C: Call>(
    rt: &R,
    slots: &Slots<C::Nodes>,
    pass: &mut Pass,
    budget: u32,
    call: C,
) -> u64
    requires own { IsOf pass.old.trace slots.now }
    requires empty_hand { pass.old.hand ≡ None }
    ensures own { IsOf pass.new.trace slots.now }
    ensures hand { pass.new.hand ≡ None }
{
    let before = pass.steps();
    call.make(rt, slots, pass, budget);
    pass.steps().saturating_sub(before)
}

/// Makes rows one after another.
pub fn play<R: Abort, C: Call>(
    rt: &R,
    slots: &Slots<C::Nodes>,
    a: &mut Pass,
    b: &mut Pass,
    rows: &[Row<C>],
)
    requires first { IsOf a.old.trace slots.now × (a.old.hand ≡ None) }
    requires second { IsOf b.old.trace slots.now × (b.old.hand ≡ None) }
    ensures first { IsOf a.new.trace slots.now × (a.new.hand ≡ None) }
    ensures second { IsOf b.new.trace slots.now × (b.new.hand ≡ None) }
{
    let mut steps = 0;
    for row in rows {
        match *row {
            Row::Call(0, budget, call) => steps = make(rt, slots, a, budget, call),
            Row::Call(_, budget, call) => steps = make(rt, slots, b, budget, call),
            Row::Steps(made) => assert_eq!(rt; steps, made),
            Row::Epoch(who, epoch) => {
                let pass = if who == 0 { &*a } else { &*b };
                assert_eq!(rt; pass.epoch(), epoch);
            }
            Row::Pool(who, pool) => {
                let pass = if who == 0 { &*a } else { &*b };
                assert_eq!(rt; pass.pool(), pool);
                assert!(rt; pass.in_hand().is_none());
            }
        }
    }
}

/// Makes rows on a fresh table with two passes, of so many slots and buckets and with this last epoch,
/// closes it, and gives its words.
pub fn words_after<R: Abort, C: Call>(
    rt: &R,
    alloc: Global,
    shape: (u32, u32, u64),
    rows: &[Row<C>],
) -> Result<Vec<u64>, Fail> {
    let shape = shape_of::<C::Nodes>(shape)?;
    let (slots, mut a, mut b) = open_two::<C::Nodes>(alloc, shape).expect(rt, "there is memory");
    play(rt, &slots, &mut a, &mut b, rows);
    Ok(close_two(alloc, slots, a, b).ok_or("not closed")?)
}

/// Makes rows on a fresh table with two passes.
pub fn expect<R: Abort, C: Call>(
    rt: &R,
    alloc: Global,
    shape: (u32, u32, u64),
    rows: &[Row<C>],
) -> Result<(), Fail> {
    words_after(rt, alloc, shape, rows)?;
    Ok(())
}

/// Makes rows on a fresh table with two passes, of one slot and one bucket and up to epoch 10, and compares its words.
pub fn expect_left<R: Abort, C: Call>(
    rt: &R,
    alloc: Global,
    rows: &[Row<C>],
    words: &[u64],
) -> Result<(), Fail> {
    let told = words_after(rt, alloc, (1, 1, 10), rows)?;
    assert_eq!(rt; told.as_slice(), words);
    Ok(())
}

/// Makes calls of pass 0, with ample budgets, on a fresh table of one slot and up to this last epoch, and compares the
/// epoch and the own pool of the pass then.
pub fn expect_alone<R: Abort, C: Call>(
    rt: &R,
    alloc: Global,
    last_epoch: u64,
    calls: &[C],
    epoch: u64,
    pool: &[u32],
) -> Result<(), Fail> {
    let mut rows = Vec::new(alloc);
    for call in calls {
        rows.push(Row::Call(0, 100, *call))?;
    }
    rows.push(Row::Epoch(0, epoch))?;
    rows.push(Row::Pool(0, pool))?;
    expect(rt, alloc, (1, 1, last_epoch), &rows)
}

/// With 17 steps an insert into an empty list takes its slot and is refused after 10, and the next one makes so many.
pub fn with_17_steps<C>(refused: C, insert: C, steps: u64) -> [Row<'static, C>; 6] {
    [
        Row::Call(0, 17, refused),
        Row::Steps(10),
        Row::Pool(0, &[0]),
        Row::Call(0, 17, insert),
        Row::Steps(steps),
        Row::Epoch(0, 1),
    ]
}

/// After an insert a remove with 16 steps makes so many, and leaves its node marked; and pass 1, which finds the key
/// absent, helps the node away in 10.
pub fn helped_away<C>(insert: C, remove: C, steps: u64, absent: C) -> [Row<'static, C>; 7] {
    [
        Row::Call(0, 100, insert),
        Row::Call(0, 16, remove),
        Row::Steps(steps),
        Row::Pool(0, &[]),
        Row::Call(1, 100, absent),
        Row::Steps(10),
        Row::Pool(1, &[0]),
    ]
}
