//! The running table: rows call by call, refusals that hand all back, and two threads.
ghost use Rattle.vbr_words.specs.Shapes.{last_epoch_for};
ghost use Rattle.std.specs.Prelude.{◌≡◌, ℕ, ◌<◌, ◌≤◌, [], ◌∷◌, true, false, Some, None};
ghost use Rattle.std.specs.Prelude.{IfOk, IfErr, IfSome};
ghost use Rattle.vbr_machine.specs.Acceptance.{stamp_in};
ghost use Rattle.vbr_machine.specs.Learning.{birth_in_hand};
ghost use Rattle.vbr_machine.specs.declared.event.Step.TheVariants.{TakeFlag};
ghost use Rattle.vbr_machine.specs.declared.knowledge.Holding.TheVariants.{Free};
ghost use Rattle.vbr_machine.specs.Start.{empty_start};
ghost use Rattle.vbr_slots.specs.runs.Closing.{AllOf, Ends, HandsBack};
ghost use Rattle.vbr_slots.specs.steps.OwnSlots.{epoch_of, holding_of};
ghost use Rattle.vbr_slots.specs.views.Views.{IsOf, KeepsPool, event_of, new_pass, new_passes};
ghost use Rattle.vbr_table_tests.specs.OnlyPass.{IsOnlyPass};
ghost use Rattle.vbr_table_tests.specs.Taking.{HasEvent, BothTook};

use crate::kept_words::TO_NONE;
use std::alloc::{AllocError, Global};
use std::process::Abort;
use std::test::Fail;
use std::thread::{Threads, join};
use vbr_slots::{CloseError, OpenError, Pass, Slots};
use vbr_words::{Entries, Keys, Nodes, Shape, ShapeError, encode};

/// A table with its passes, or why it wasn't opened.
type Opening<N> = Result<(Slots<N>, Vec<Pass>), OpenError>;

/// Nodes of a kind whose tables are opened here, without a key or with three.
pub trait Opened: Nodes + Sized {
    /// Opens a table without a key.
    fn open_once(alloc: Global, shape: Shape, passes: u32) -> Opening<Self>
        requires kind { shape.values ≡ Self.VALUES }
        ensures table { IfOk result (λ r. (r.0.start ≡ empty_start shape) × (r.0.passes ≡ passes)) }
        ensures passes { IfOk result (λ r. r.1.items ≡ new_passes r.0 0 passes) };

    /// Opens a table with the keys 2, 5 and 9, and two passes. A value is its key and a hundred.
    fn open_once_with_three(alloc: Global, shape: Shape) -> Opening<Self>
        requires few { 3 ≤ shape.slots }
        ensures { IfOk result (λ r. r.1.items ≡ new_passes r.0 0 2) };

    /// Stores an item and a link to none in slot 0, which was born in epoch 1.
    fn store(slots: &Slots<Self>, pass: &mut Pass)
        requires own { IsOf pass.old.trace slots.now }
        requires hand { pass.old.hand ≡ Some 0 }
        requires birth { birth_in_hand (holding_of pass.old 0) ≡ 1 }
        ensures own { IsOf pass.new.trace slots.now };
}

impl Opened for Keys {
    fn open_once(alloc: Global, shape: Shape, passes: u32) -> Opening<Keys> {
        Slots::open(alloc, shape, passes)
    }

    fn open_once_with_three(alloc: Global, shape: Shape) -> Opening<Keys> {
        Slots::open_with(alloc, shape, 2, &[2, 5, 9])
    }

    fn store(slots: &Slots, pass: &mut Pass) {
        store_node(slots, pass);
    }
}

impl Opened for Entries {
    fn open_once(alloc: Global, shape: Shape, passes: u32) -> Opening<Entries> {
        Slots::open_with_entries(alloc, shape, passes, &[])
    }

    fn open_once_with_three(alloc: Global, shape: Shape) -> Opening<Entries> {
        Slots::open_with_entries(alloc, shape, 2, &[(2, 102), (5, 105), (9, 109)])
    }

    fn store(slots: &Slots<Entries>, pass: &mut Pass) {
        slots.kind();
        store_entry(slots, pass);
    }
}

/// A shape of so many slots and buckets and with this last epoch, for nodes of a kind.
pub fn shape_of<N: Nodes>(numbers: (u32, u32, u64)) -> Result<Shape, ShapeError>
    ensures numbers { IfOk result (λ shape. (shape.slots ≡ numbers.0)
        × (shape.buckets ≡ numbers.1)
        × (shape.last_epoch ≡ last_epoch_for numbers.0 numbers.2)) }
    ensures kind { IfOk result (λ shape. shape.values ≡ N.VALUES) }
    ensures whole { IfOk result (λ shape. shape ≡ record {
      slots = numbers.0;
      buckets = numbers.1;
      spread = None;
      last_epoch = last_epoch_for numbers.0 numbers.2;
      values = N.VALUES;
    }) }
{
    let (slots, buckets, last_epoch) = numbers;
    let shape = Shape::new(slots, buckets, last_epoch)?;
    if N::VALUES {
        Ok(shape.with_values())
    } else {
        Ok(shape)
    }
}

// Opens a table. What found no memory left nothing, so it is tried again.
pub fn open<N: Opened>(alloc: Global, shape: Shape, passes: u32) -> Opening<N>
    requires kind { shape.values ≡ N.VALUES }
    ensures table { IfOk result (λ r. (r.0.start ≡ empty_start shape) × (r.0.passes ≡ passes)) }
    ensures passes { IfOk result (λ r. r.1.items ≡ new_passes r.0 0 passes) }
{
    match N::open_once(alloc, shape, passes) {
        Err(OpenError::Memory) => N::open_once(alloc, shape, passes),
        opened => opened,
    }
}

// The first two passes of a table that was just opened with two.
fn both_of<N: Nodes>(slots: Slots<N>, mut passes: Vec<Pass>) -> Option<(Slots<N>, Pass, Pass)>
    requires { passes.items ≡ new_passes slots 0 2 }
    ensures table { IfSome result (λ r. r.0 ≡ slots) }
    ensures first { IfSome result (λ r. r.1 ≡ new_pass slots 0) }
    ensures second { IfSome result (λ r. r.2 ≡ new_pass slots 1) }
{
    let second = passes.pop()?;
    let first = passes.pop()?;
    Some((slots, first, second))
}

// A table with two passes.
pub fn open_two<N: Opened>(alloc: Global, shape: Shape) -> Option<(Slots<N>, Pass, Pass)>
    requires kind { shape.values ≡ N.VALUES }
    ensures table { IfSome result (λ r. (r.0.start ≡ empty_start shape) × (r.0.passes ≡ 2)) }
    ensures first { IfSome result (λ r. r.1 ≡ new_pass r.0 0) }
    ensures second { IfSome result (λ r. r.2 ≡ new_pass r.0 1) }
{
    let (slots, passes) = open::<N>(alloc, shape, 2).ok()?;
    both_of(slots, passes)
}

// A fresh table with two passes, of so many slots and one bucket.
pub fn two_passes<R: Abort, N: Opened>(
    rt: &R,
    alloc: Global,
    slots: u32,
    last_epoch: u64,
) -> (Slots<N>, Pass, Pass)
    ensures shape { (result.0.start.shape.slots ≡ slots) × (result.0.start.shape.buckets ≡ 1)
        × (result.0.start.shape.last_epoch ≡ last_epoch_for slots last_epoch) }
    ensures kind { result.0.start.shape.values ≡ N.VALUES }
    ensures passes { result.0.passes ≡ 2 }
    ensures first { result.1 ≡ new_pass result.0 0 }
    ensures second { result.2 ≡ new_pass result.0 1 }
{
    let shape = shape_of::<N>((slots, 1, last_epoch)).expect(rt, "a shape");
    open_two::<N>(alloc, shape).expect(rt, "there is memory")
}

// An empty vector with room for two passes. What found no memory left nothing, so it is tried again.
pub fn room_for_two(alloc: Global) -> Result<Vec<Pass>, AllocError>
    ensures { IfOk result (λ passes. passes.items ≡ []) }
{
    match Vec::with_capacity(alloc, 2) {
        Err(_) => Vec::with_capacity(alloc, 2),
        made => made,
    }
}

// Closes a table. What found no memory left all as it was, so it is tried again.
pub fn close<N: Nodes>(
    slots: Slots<N>,
    alloc: Global,
    passes: Vec<Pass>,
) -> Result<Vec<u64>, CloseError<Slots<N>>>
    requires { AllOf slots passes.items }
    ensures ok { IfOk result (λ words. Ends slots passes.items words.items) }
    ensures back { IfErr result (λ e. HandsBack e slots passes.items) }
{
    match slots.close(alloc, passes) {
        Err(CloseError::Memory(slots, passes)) => slots.close(alloc, passes),
        closed => closed,
    }
}

// Closes a table, and compares its words.
pub fn expect_closed<N: Nodes>(
    rt: &impl Abort,
    alloc: Global,
    slots: Slots<N>,
    passes: Vec<Pass>,
    words: &[u64],
)
    requires { AllOf slots passes.items }
{
    match close(slots, alloc, passes) {
        Ok(told) => assert_eq!(rt; told.as_slice(), words),
        Err(_) => panic!(rt; "not closed"),
    }
}

// Two passes as a list.
fn both(alloc: Global, first: Pass, second: Pass) -> Option<Vec<Pass>>
    ensures { IfSome result (λ passes. passes.items ≡ first ∷ second ∷ []) }
{
    let mut passes = room_for_two(alloc).ok()?;
    passes.push(first).ok()?;
    passes.push(second).ok()?;
    Some(passes)
}

// Closes a table with two passes.
pub fn close_two<N: Nodes>(
    alloc: Global,
    slots: Slots<N>,
    first: Pass,
    second: Pass,
) -> Option<Vec<u64>>
    requires { IsOf first.trace slots × IsOf second.trace slots }
{
    let passes = both(alloc, first, second)?;
    close(slots, alloc, passes).ok()
}

// Closes a table with two passes, and compares its words.
pub fn expect_words<N: Nodes>(
    rt: &impl Abort,
    alloc: Global,
    slots: Slots<N>,
    first: Pass,
    second: Pass,
    words: &[u64],
)
    requires { IsOf first.trace slots × IsOf second.trace slots }
{
    let told = close_two(alloc, slots, first, second).expect(rt, "the table is closed");
    assert_eq!(rt; told.as_slice(), words);
}

// Reaches for a slot.
fn take(slots: &Slots, mut pass: Pass, slot: u32) -> Pass
    requires own { IsOf pass.trace slots.now }
    requires slot { slot < slots.now.start.shape.slots }
    ensures own { IsOf result.trace slots.now }
    ensures who { result.trace.who ≡ pass.trace.who }
    ensures has { HasEvent result.trace.seen (event_of pass.trace.who (TakeFlag slot)) }
{
    let _ = slots.take_flag(&mut pass, slot);
    pass
}

// Closes a table with two passes, each of which reached for its slot.
fn gather(alloc: Global, slots: Slots, first: Pass, second: Pass) -> Option<Vec<u64>>
    requires passes { slots.passes ≡ 2 }
    requires own { IsOf first.trace slots × IsOf second.trace slots }
    requires first { HasEvent first.trace.seen (event_of 0 (TakeFlag 0)) }
    requires second { HasEvent second.trace.seen (event_of 1 (TakeFlag 1)) }
    ensures { IfSome result (λ words. BothTook slots.start words.items) }
{
    let passes = both(alloc, first, second)?;
    match close(slots, alloc, passes) {
        Ok(words) => Some(words),
        Err(_) => None,
    }
}

// Two threads reach for a slot each. The words are those of a run that has both steps.
fn take_both<R: Threads + Sync>(rt: &R, alloc: Global, shape: Shape) -> Option<Vec<u64>>
    requires slots { 1 < shape.slots }
    requires bare { shape.values ≡ false }
    ensures { IfSome result (λ words. BothTook (empty_start shape) words.items) }
{
    let (slots, first, second) = open_two::<Keys>(alloc, shape)?;
    let table = &slots;
    let (first, second) = join(
        rt,
        move ||
            requires { IsOf first.trace table.now × (0 < table.now.start.shape.slots) }
            ensures { IsOf result.trace table.entry.now
                × HasEvent result.trace.seen (event_of first.trace.who (TakeFlag 0)) }
        { take(table, first, 0) },
        move ||
            requires { IsOf second.trace table.now × (1 < table.now.start.shape.slots) }
            ensures { IsOf result.trace table.entry.now
                × HasEvent result.trace.seen (event_of second.trace.who (TakeFlag 1)) }
        { take(table, second, 1) },
    );
    gather(alloc, slots, first, second)
}

#[test]
fn two_threads_take_a_slot_each(rt: HostRuntime) -> Result<(), Fail> {
    let shape = Shape::new(2, 1, 10)?;
    let words = take_both(&rt, rt.alloc(), shape).expect(&rt, "there are words");
    assert_eq!(rt;
        words.as_slice(),
        [1, 42, 0, 4, 0, 0, 0, 4, 0, 0, 0, 0].as_slice()
    );
    Ok(())
}

// Opens a table of one slot, and closes it at once: compares its words. Numbers of passes that are too
// few or too many are refused.
fn expect_opened<R: Abort, N: Opened>(rt: &R, alloc: Global, words: &[u64]) -> Result<(), Fail> {
    let shape = shape_of::<N>((1, 1, 10))?;
    for passes in [0, 65] {
        assert!(rt; matches!(open::<N>(alloc, shape, passes), Err(OpenError::Passes)));
    }
    let (slots, passes) = open::<N>(alloc, shape, 2)?;
    assert!(rt; slots.shape() == shape);
    expect_closed(rt, alloc, slots, passes, words);
    Ok(())
}

// The words of a fresh table of one slot and one bucket, and those of one of four slots and two buckets that opens with
// the keys 2, 5 and 9. They are worked by hand: one slot takes one bit of a link word, and four take three.
const FRESH: [u64; 8] = [1, 21, 0, 2, 0, 0, 0, 1];

const OPENED: [u64; 21] = [
    1, 84, 17, 18, 16, 1, 0, 2, 19, 1, 0, 5, 16, 1, 0, 9, 8, 0, 0, 0, 8,
];

#[test]
fn opens_and_closes(rt: HostRuntime) -> Result<(), Fail> {
    expect_opened::<HostRuntime, Keys>(&rt, rt.alloc(), &FRESH)?;
    let wanted = [1, 21, 0, 2, 0, 0, 0, 0, 1];
    expect_opened::<HostRuntime, Entries>(&rt, rt.alloc(), &wanted)
}

// Opens a table with three keys. What found no memory left nothing, so it is tried again.
fn open_with_three<N: Opened>(alloc: Global, shape: Shape) -> Opening<N>
    requires few { 3 ≤ shape.slots }
    ensures { IfOk result (λ r. r.1.items ≡ new_passes r.0 0 2) }
{
    match N::open_once_with_three(alloc, shape) {
        Err(OpenError::Memory) => N::open_once_with_three(alloc, shape),
        opened => opened,
    }
}

// Opens a table of four slots and two buckets with three keys, and closes it at once: compares its
// words.
fn expect_opened_with_three<R: Abort, N: Opened>(
    rt: &R,
    alloc: Global,
    words: &[u64],
) -> Result<(), Fail> {
    let (slots, passes) = open_with_three::<N>(alloc, shape_of::<N>((4, 2, 10))?)?;
    expect_closed(rt, alloc, slots, passes, words);
    Ok(())
}

/// Key number i stands in slot i, linked in its bucket's list. The other slots are in the shared pool. If nodes have
/// values, the value stands behind the key; the rest is as with keys alone.
#[test]
fn opens_with_three(rt: HostRuntime) -> Result<(), Fail> {
    expect_opened_with_three::<HostRuntime, Keys>(&rt, rt.alloc(), &OPENED)?;
    let wanted = [
        1, 84, 17, 18, 16, 1, 0, 2, 102, 19, 1, 0, 5, 105, 16, 1, 0, 9, 109, 8, 0, 0, 0, 0, 8,
    ];
    expect_opened_with_three::<HostRuntime, Entries>(&rt, rt.alloc(), &wanted)
}

// Reads the epoch, which is 1, and takes slot 0 out of the shared pool. The stamp is that of the
// opening, if the pass is the only one, and has made no step before.
fn take_first<N: Nodes>(rt: &impl Abort, slots: &Slots<N>, pass: &mut Pass)
    requires own { IsOf pass.old.trace slots.now }
    requires slot { 0 < slots.now.start.shape.slots }
    ensures own { IsOf pass.new.trace slots.now }
    ensures pool { KeepsPool pass.old pass.new }
    ensures epoch { epoch_of pass.new ≡ 1 }
    ensures free { (stamp : ℕ) × (holding_of pass.new 0 ≡ Some (Free stamp)) }
    ensures alone { IsOnlyPass slots.now pass.old → stamp_in (holding_of pass.new 0) ≡ 0 }
{
    assert!(rt; slots.read_epoch(pass) == 1);
    assert_eq!(rt; slots.take_flag(pass, 0), Ok(()));
}

// Two passes reach for slot 0 and advance the epoch, and the first of them wins both.
fn reach<N: Nodes>(rt: &impl Abort, slots: &Slots<N>, a: &mut Pass, b: &mut Pass)
    requires first { IsOf a.old.trace slots.now }
    requires second { IsOf b.old.trace slots.now }
    requires shape { (0 < slots.now.start.shape.slots) × (1 < slots.now.start.shape.last_epoch) }
    ensures first { IsOf a.new.trace slots.now }
    ensures free { (stamp : ℕ) × (holding_of a.new 0 ≡ Some (Free stamp)) }
    ensures second { IsOf b.new.trace slots.now }
{
    take_first(rt, slots, a);
    assert_eq!(rt; slots.take_flag(b, 0), Err(2));
    assert!(rt; slots.advance(a, 1));
    assert!(rt; !slots.advance(b, 1));
}

// Two passes reach for slot 0 and advance the epoch, and the first of them wins both. Once it has put the
// slot back, the other takes it.
fn share<N: Nodes>(rt: &impl Abort, slots: &Slots<N>, a: &mut Pass, b: &mut Pass)
    requires first { IsOf a.old.trace slots.now }
    requires second { IsOf b.old.trace slots.now }
    requires shape { (0 < slots.now.start.shape.slots) × (1 < slots.now.start.shape.last_epoch) }
    ensures first { IsOf a.new.trace slots.now }
    ensures second { IsOf b.new.trace slots.now }
{
    reach(rt, slots, a, b);
    assert!(rt; slots.read_epoch(b) == 2);
    assert!(rt; slots.load_stamp(a, 0) == 0);
    slots.raise(a, 0);
    assert_eq!(rt; slots.take_flag(b, 0), Ok(()));
}

// Closes a table without its second pass, which is refused, and then with both.
fn close_late<N: Nodes>(
    rt: &impl Abort,
    alloc: Global,
    slots: Slots<N>,
    first: Pass,
    second: Pass,
) -> Option<Vec<u64>>
    requires passes { slots.passes ≡ 2 }
    requires own { IsOf first.trace slots × IsOf second.trace slots }
{
    let mut passes = room_for_two(alloc).ok()?;
    passes.push(first).ok()?;
    match close(slots, alloc, passes) {
        Err(CloseError::Missing(slots, mut passes)) => {
            passes.push(second).ok()?;
            close(slots, alloc, passes).ok()
        }
        _ => panic!(rt; "closed without a pass"),
    }
}

// Compares what a pass knows: its number, the epoch, and how many steps it made.
pub fn expect_pass(rt: &impl Abort, pass: &Pass, wanted: (u32, u64, u64)) {
    assert_eq!(rt; (pass.who(), pass.epoch(), pass.steps()), wanted);
}

// Two passes share slot 0 of two. Compares what they know then, and the words of the table that is closed
// late.
fn expect_shared<R: Abort, N: Opened>(rt: &R, alloc: Global, words: &[u64]) {
    let (slots, mut a, mut b) = two_passes::<R, N>(rt, alloc, 2, 10);
    share(rt, &slots, &mut a, &mut b);
    expect_pass(rt, &a, (0, 1, 5));
    expect_pass(rt, &b, (1, 2, 4));
    let told = close_late(rt, alloc, slots, a, b).expect(rt, "the table is closed");
    assert_eq!(rt; told.as_slice(), words);
}

/// Without values, and with them.
#[test]
fn two_passes_share_a_slot(rt: HostRuntime) {
    let wanted = [2, 42, 0, 4, 0, 0, 0, 4, 0, 0, 0, 2];
    expect_shared::<HostRuntime, Keys>(&rt, rt.alloc(), &wanted);
    let wanted = [2, 42, 0, 4, 0, 0, 0, 0, 4, 0, 0, 0, 0, 2];
    expect_shared::<HostRuntime, Entries>(&rt, rt.alloc(), &wanted);
}

// Takes slot 0, loads its stamp, and bears in it.
fn bear<N: Nodes>(rt: &impl Abort, slots: &Slots<N>, pass: &mut Pass)
    requires new { pass.old ≡ new_pass slots.now 0 }
    requires slot { 0 < slots.now.start.shape.slots }
    ensures own { IsOf pass.new.trace slots.now }
    ensures hand { pass.new.hand ≡ Some 0 }
    ensures birth { birth_in_hand (holding_of pass.new 0) ≡ 1 }
{
    take_first(rt, slots, pass);
    assert!(rt; slots.load_stamp(pass, 0) == 0);
    slots.store_birth(pass, 0);
    assert!(rt; pass.in_hand() == Some(0) && pass.pool().is_empty());
}

// The only pass of a table takes slot 0, and bears in it with no look at its stamp.
fn bear_alone<N: Nodes>(rt: &impl Abort, slots: &Slots<N>, pass: &mut Pass)
    requires new { pass.old ≡ new_pass slots.now 0 }
    requires alone { slots.now.passes ≡ 1 }
    requires slot { 0 < slots.now.start.shape.slots }
    ensures own { IsOf pass.new.trace slots.now }
    ensures hand { pass.new.hand ≡ Some 0 }
    ensures birth { birth_in_hand (holding_of pass.new 0) ≡ 1 }
{
    take_first(rt, slots, pass);
    slots.store_birth(pass, 0);
}

// Stores a link to none in slot 0, which was born in epoch 1.
fn link_none<N: Nodes>(slots: &Slots<N>, pass: &mut Pass)
    requires own { IsOf pass.old.trace slots.now }
    requires hand { pass.old.hand ≡ Some 0 }
    requires birth { birth_in_hand (holding_of pass.old 0) ≡ 1 }
    ensures own { IsOf pass.new.trace slots.now }
{
    let word = encode(TO_NONE, slots.layout());
    slots.store_link(pass, 0, word);
}

// Stores a key and a link to none in slot 0, which was born in epoch 1.
fn store_node(slots: &Slots, pass: &mut Pass)
    requires own { IsOf pass.old.trace slots.now }
    requires hand { pass.old.hand ≡ Some 0 }
    requires birth { birth_in_hand (holding_of pass.old 0) ≡ 1 }
    ensures own { IsOf pass.new.trace slots.now }
{
    slots.store_key(pass, 0, 7);
    link_none(slots, pass);
}

// Stores a key, a value and a link to none in slot 0, which was born in epoch 1.
fn store_entry(slots: &Slots<Entries>, pass: &mut Pass)
    requires own { IsOf pass.old.trace slots.now }
    requires values { slots.now.start.shape.values ≡ true }
    requires hand { pass.old.hand ≡ Some 0 }
    requires birth { birth_in_hand (holding_of pass.old 0) ≡ 1 }
    ensures own { IsOf pass.new.trace slots.now }
{
    slots.store_key(pass, 0, 7);
    slots.store_value(pass, 0, 107);
    link_none(slots, pass);
}

// A node is born and stored by the only pass of a table. Compares the words of the closing.
fn expect_born_alone<R: Abort, N: Opened>(
    rt: &R,
    alloc: Global,
    words: &[u64],
) -> Result<(), Fail> {
    let (slots, mut passes) = open::<N>(alloc, shape_of::<N>((1, 1, 10))?, 1)?;
    let mut a = passes.pop().expect(rt, "a pass");
    bear_alone(rt, &slots, &mut a);
    N::store(&slots, &mut a);
    passes.push(a).ok().ok_or("no room")?;
    expect_closed(rt, alloc, slots, passes, words);
    Ok(())
}

// The same by one of two passes, and by the only one.
fn expect_born<R: Abort, N: Opened>(rt: &R, alloc: Global, words: &[u64]) -> Result<(), Fail> {
    let (slots, mut a, b) = open_two::<N>(alloc, shape_of::<N>((1, 1, 10))?).expect(
        rt,
        "there is memory",
    );
    bear(rt, &slots, &mut a);
    N::store(&slots, &mut a);
    expect_words(rt, alloc, slots, a, b, words);
    expect_born_alone::<R, N>(rt, alloc, words)
}

#[test]
fn a_slot_is_born_in(rt: HostRuntime) -> Result<(), Fail> {
    let words = [1, 21, 0, 4, 1, 0, 7, 0];
    expect_born::<HostRuntime, Keys>(&rt, rt.alloc(), &words)
}

#[test]
fn a_slot_is_born_in_with_a_value(rt: HostRuntime) -> Result<(), Fail> {
    let words = [1, 21, 0, 4, 1, 0, 7, 107, 0];
    expect_born::<HostRuntime, Entries>(&rt, rt.alloc(), &words)
}

// Advances the epoch, takes slot 0 and keeps it.
fn take_later(rt: &impl Abort, slots: &Slots, pass: &mut Pass)
    requires own { IsOf pass.old.trace slots.now }
    requires shape { (0 < slots.now.start.shape.slots) × (1 < slots.now.start.shape.last_epoch) }
    requires pool { pass.old.pool ≡ [] }
    requires hand { pass.old.hand ≡ None }
    ensures own { IsOf pass.new.trace slots.now }
{
    assert!(rt; slots.advance(pass, 1));
    assert!(rt; slots.read_epoch(pass) == 2);
    assert!(rt; slots.take_flag(pass, 0).is_ok());
    assert!(rt; slots.load_stamp(pass, 0) == 0);
    pass.keep(0);
}

// Compares what a pass has: the slots of its own pool, and none in hand.
pub fn expect_pool(rt: &impl Abort, pass: &Pass, pool: &[u32]) {
    assert_eq!(rt; pass.pool(), pool);
    assert!(rt; pass.in_hand().is_none());
}

#[test]
fn two_passes_meet(rt: HostRuntime) {
    let (slots, mut a, mut b) = two_passes(&rt, rt.alloc(), 2, 10);
    take_later(&rt, &slots, &mut b);
    assert!(rt; slots.advance(&mut a, 2));
    expect_pass(&rt, &a, (0, 1, 1));
    slots.meet(&mut a, &mut b);
    expect_pass(&rt, &a, (0, 3, 2));
    expect_pool(&rt, &a, &[]);
    expect_pass(&rt, &b, (1, 2, 4));
    expect_pool(&rt, &b, &[0]);
    let wanted = [3, 42, 0, 4, 0, 0, 0, 4, 0, 0, 0, 2];
    expect_words(&rt, rt.alloc(), slots, a, b, &wanted);
}
