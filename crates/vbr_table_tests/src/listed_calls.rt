//! The worked lists of events, call by call on a running table with two passes. Each list is shown to
//! be accepted, so each call may be made; its effect is compared when it was made.
ghost use Rattle.std.specs.Prelude.{◌≡◌, ◌≢◌, ◌<◌, ◌==◌, MatchResult, IfSome, true, false};
ghost use Rattle.vbr_words.specs.declared.shape.TheConstants.{MAX_EPOCH};
ghost use Rattle.vbr_machine.specs.Learning.{present_reply};
ghost use Rattle.vbr_machine.specs.Start.{empty_start};
ghost use Rattle.vbr_machine.specs.Machine.{opening};
ghost use Rattle.vbr_slots.specs.views.Views.{IsOf};
ghost use Rattle.vbr_slots.specs.words.WideWords.{wide_in};
ghost use Rattle.vbr_event_lists.specs.Worked.{AreWorked, first_of, names_link, others_of};
ghost use Rattle.vbr_event_lists.specs.Valued.{with_values};
ghost use Rattle.vbr_table_tests.specs.Following.{Learned, May, BothFollow, IsWorkedOn};

use crate::kept_words::{kept, link_in, number_in};
use crate::running_table::{Opened, expect_words, open_two, shape_of};
use std::alloc::{AllocError, Global};
use std::process::Abort;
use std::test::Fail;
use vbr_event_lists::{
    RAISED_IN_HAND_WORDS, REBORN_SLOT_WORDS, REPLACED_VALUE_WORDS, Row, SAME_WORD_WORDS,
    STANDING_WORDS, STORED_VALUE_WORDS, TWO_HELPERS_WORDS, numbered, raised_in_hand, reborn_slot,
    replaced_value, same_word, standing_rows_with_values, stored_value, two_helpers, with_values,
};
use vbr_machine::{Effect, Op, Step};
use vbr_slots::{Pass, Slots};
use vbr_words::{Entries, Keys, Nodes, Shape};

// The effect of an exchange.
fn exchanged<N: Nodes>(slots: &Slots<N>, answer: Result<(), u64>) -> Effect
    ensures { MatchResult answer
        (λ _. result ≡ Effect.Won) (λ found. result ≡ Effect.Lost (wide_in slots.now found)) }
{
    match answer {
        Ok(()) => Effect::Won,
        Err(found) => Effect::Lost(number_in(slots, found)),
    }
}

// The effect of a confirming load.
fn confirmed<N: Nodes>(slots: &Slots<N>, answer: Result<(), u64>, reply: bool) -> Effect
    ensures { MatchResult answer
        (λ _. result ≡ Effect.Answered reply)
        (λ found. result ≡ Effect.Lost (wide_in slots.now found)) }
{
    match answer {
        Ok(()) => Effect::Answered(reply),
        Err(found) => Effect::Lost(number_in(slots, found)),
    }
}

// The reply that the presence of the key gives to an operation.
fn present_reply(op: Op) -> bool
    ensures { result ≡ present_reply op }
{
    match op {
        Op::Has | Op::Get => true,
        _ => false,
    }
}

// Takes a slot. What the pass then knows has the stamp of the slot, which the call doesn't answer, so
// the stamp is loaded at once. The lists don't have this load; it adds a step and changes no word.
fn take<N: Nodes>(rt: &impl Abort, slots: &Slots<N>, pass: &mut Pass, slot: u32)
    requires own { IsOf pass.old.trace slots.now }
    requires slot { slot < slots.now.start.shape.slots }
    ensures { Learned (Step.TakeFlag slot) pass.old.trace pass.new.trace Effect.Won }
{
    assert!(rt; slots.take_flag(pass, slot).is_ok());
    assert!(rt; slots.load_stamp(pass, slot) == 0);
}

// Compares the slot in a pass's hand.
fn expect_in_hand(rt: &impl Abort, pass: &Pass, wanted: Option<u32>)
    ensures { pass.now.hand ≡ wanted }
{
    assert_eq!(rt; pass.in_hand(), wanted);
}

// Makes a step by the call of its kind, with the number of the link word that it writes. In the lists each slot
// that is reached for is in the shared pool, and each epoch that is advanced is the expected one.
fn call<N: Nodes>(
    rt: &impl Abort,
    slots: &Slots<N>,
    pass: &mut Pass,
    step: &Step,
    number: u64,
) -> Effect
    requires { May slots.now pass.old.trace step.now number }
    ensures { Learned step.now pass.old.trace pass.new.trace result }
{
    match step {
        Step::ReadEpoch => Effect::Value(u128::from(slots.read_epoch(pass))),
        Step::Advance { from } => {
            assert!(rt; slots.advance(pass, *from));
            Effect::Won
        }
        Step::LoadStamp { slot } => Effect::Value(u128::from(slots.load_stamp(pass, *slot))),
        Step::PeekBirth { slot } => Effect::Value(u128::from(slots.peek_birth(pass, *slot))),
        Step::StoreStamp { slot, .. } => {
            slots.store_stamp(pass, *slot);
            Effect::Done
        }
        Step::Raise { slot } => {
            slots.raise(pass, *slot);
            Effect::Done
        }
        Step::TakeFlag { slot } => {
            take(rt, slots, pass, *slot);
            Effect::Won
        }
        Step::StoreBirth { slot, .. } => {
            expect_in_hand(rt, pass, None);
            slots.store_birth(pass, *slot);
            Effect::Done
        }
        Step::StoreKey { slot, key } => {
            expect_in_hand(rt, pass, Some(*slot));
            slots.store_key(pass, *slot, *key);
            Effect::Done
        }
        Step::StoreValue { slot, value } => {
            expect_in_hand(rt, pass, Some(*slot));
            slots.store_value(pass, *slot, *value);
            Effect::Done
        }
        Step::StoreLink { slot, next } => {
            expect_in_hand(rt, pass, Some(*slot));
            let new = kept(rt, slots, numbered(number));
            assert!(rt; link_in(slots, new).slot == *next);
            slots.store_link(pass, *slot, new);
            Effect::Done
        }
        Step::LoadLink { at: holder } => {
            let word = slots.load_link(pass, *holder);
            Effect::Value(number_in(slots, word))
        }
        Step::LoadBirth { slot } => Effect::Value(u128::from(slots.load_birth(pass, *slot))),
        Step::LoadKey { slot } => Effect::Value(u128::from(slots.load_key(pass, *slot))),
        Step::LoadValue { slot } => Effect::Value(u128::from(slots.load_value(pass, *slot))),
        Step::Publish {
            pred,
            expected,
            slot,
        } => {
            expect_in_hand(rt, pass, Some(*slot));
            let word = kept(rt, slots, *expected);
            let new = kept(rt, slots, numbered(number));
            let answer = slots.publish(pass, *pred, word, *slot, new);
            exchanged(slots, answer)
        }
        Step::Mark { slot, expected } => {
            let word = kept(rt, slots, *expected);
            let answer = slots.mark(pass, *slot, word);
            exchanged(slots, answer)
        }
        Step::Replace {
            slot,
            expected,
            new: by,
        } => {
            expect_in_hand(rt, pass, Some(*by));
            let word = kept(rt, slots, *expected);
            let new = kept(rt, slots, numbered(number));
            let answer = slots.replace(pass, *slot, word, *by, new);
            exchanged(slots, answer)
        }
        Step::Unlink {
            pred,
            expected,
            slot,
        } => {
            let word = kept(rt, slots, *expected);
            let new = kept(rt, slots, numbered(number));
            let answer = slots.unlink(pass, *pred, word, *slot, new);
            exchanged(slots, answer)
        }
        Step::ConfirmPresent { op, slot, expected } => {
            let word = kept(rt, slots, *expected);
            let answer = slots.confirm_present(pass, *op, *slot, word);
            confirmed(slots, answer, present_reply(*op))
        }
        Step::ConfirmAbsent {
            op,
            key,
            at: holder,
            expected,
        } => {
            let word = kept(rt, slots, *expected);
            let answer = slots.confirm_absent(pass, *op, *key, *holder, word);
            confirmed(slots, answer, false)
        }
    }
}

// Compares the effect of a step of a pass.
fn expect_effect(rt: &impl Abort, told: Effect, effect: Effect, step: &Step, who: u32)
    ensures { told ≡ effect }
{
    assert_eq!(rt; told, effect, "{step:?} of pass {who}");
}

// Makes the step of a row by its pass, and compares the effect.
fn make<N: Nodes>(
    rt: &impl Abort,
    slots: &Slots<N>,
    a: &mut Pass,
    b: &mut Pass,
    row: &Row,
    number: u64,
)
    requires first { row.now.0 ≡ 0 → May slots.now a.old.trace row.now.1 number }
    requires second { row.now.0 ≢ 0 → May slots.now b.old.trace row.now.1 number }
    ensures first { row.now.0 ≡ 0 → Learned row.now.1 a.old.trace a.new.trace row.now.2
        × (b.new ≡ b.old) }
    ensures second { row.now.0 ≢ 0 → Learned row.now.1 b.old.trace b.new.trace row.now.2
        × (a.new ≡ a.old) }
{
    let (who, step, effect) = row;
    let told = if *who == 0 {
        call(rt, slots, a, step, number)
    } else {
        call(rt, slots, b, step, number)
    };
    expect_effect(rt, told, *effect, step, *who);
}

// Whether a step writes a link word that its caller names.
fn names_link(step: &Step) -> bool
    ensures { result ≡ names_link step.now }
{
    match step {
        Step::StoreLink { .. } | Step::Publish { .. } => true,
        Step::Replace { .. } | Step::Unlink { .. } => true,
        _ => false,
    }
}

// The first of the words, and the others; 0 if there is none.
fn first_and_others(words: &[u64]) -> (u64, &[u64])
    ensures first { result.0 ≡ first_of words.now }
    ensures others { result.1.now ≡ others_of words.now }
{
    match words.split_first() {
        Some((first, others)) => (*first, others),
        None => (0, words),
    }
}

// Makes the steps of a list, with the numbers of the link words that its callers name.
fn follow<N: Nodes>(
    rt: &impl Abort,
    slots: &Slots<N>,
    a: &mut Pass,
    b: &mut Pass,
    mut rows: &[Row],
    mut words: &[u64],
)
    requires { BothFollow slots.now a.old.trace b.old.trace rows.now words.now }
    ensures { IsOf a.new.trace slots.now × IsOf b.new.trace slots.now }
{
    while let Some((row, later)) = rows.split_first() {
        let (first, others) = first_and_others(words);
        make(rt, slots, a, b, row, first);
        if names_link(&row.1) {
            words = others;
        }
        rows = later;
    }
}

// A table of this shape on which two passes made the steps of a list.
fn table_of<R: Abort, N: Opened>(
    rt: &R,
    alloc: Global,
    shape: Shape,
    rows: &[Row],
    words: &[u64],
) -> Option<(Slots<N>, Pass, Pass)>
    requires kind { shape.values ≡ N.VALUES }
    requires worked { let start = empty_start shape in
        AreWorked start (opening start) rows.now words.now }
    ensures shape { IfSome result (λ r. r.0.start ≡ empty_start shape) }
    ensures own { IfSome result (λ r. IsOf r.1.trace r.0 × IsOf r.2.trace r.0) }
{
    let (slots, mut a, mut b) = open_two::<N>(alloc, shape)?;
    follow(rt, &slots, &mut a, &mut b, rows, words);
    Some((slots, a, b))
}

// The same, of so many slots and one bucket and up to this last epoch.
pub(crate) fn table_after<R: Abort, N: Opened>(
    rt: &R,
    alloc: Global,
    numbers: (u32, u64),
    rows: &[Row],
    words: &[u64],
) -> Option<(Slots<N>, Pass, Pass)>
    requires worked { IsWorkedOn numbers.0 numbers.1 N.VALUES rows.now words.now }
    requires plain { numbers.1 ≢ MAX_EPOCH }
    ensures bucket { IfSome result (λ r. r.0.start.shape.buckets ≡ 1) }
    ensures own { IfSome result (λ r. IsOf r.1.trace r.0 × IsOf r.2.trace r.0) }
{
    let (slots, last_epoch) = numbers;
    match shape_of::<N>((slots, 1, last_epoch)) {
        Ok(shape) => table_of::<R, N>(rt, alloc, shape, rows, words),
        Err(_) => None,
    }
}

// Makes a list on such a table, and compares the words of the closing.
fn expect_listed<R: Abort, N: Opened>(
    rt: &R,
    alloc: Global,
    numbers: (u32, u64),
    rows: &[Row],
    words: &[u64],
    left: &[u64],
)
    requires worked { IsWorkedOn numbers.0 numbers.1 N.VALUES rows.now words.now }
    requires plain { numbers.1 ≢ MAX_EPOCH }
{
    let table = table_after::<R, N>(rt, alloc, numbers, rows, words);
    let (slots, a, b) = table.expect(rt, "there is memory");
    expect_words(rt, alloc, slots, a, b, left);
}

// The words of a table: first the epoch, the shape and the head, and then those of each slot, its link, birth, stamp and
// key. A value comes after them, of a hundred more than the key, if there are any. The flags come last.
fn words_of(
    alloc: Global,
    parts: &[&[u64]],
    has_values: bool,
    flags: u64,
) -> Result<Vec<u64>, AllocError> {
    let mut words = Vec::new(alloc);
    for part in parts {
        words.extend_from_slice(part)?;
        if let (true, Some(key)) = (has_values, part.get(3)) {
            words.push(key.saturating_add(100))?;
        }
    }
    words.push(flags)?;
    Ok(words)
}

// Makes a list on a table of so many slots and up to epoch 10, and the list with values on one whose nodes have values.
// Compares the words of the closings.
fn expect_both<R: Abort>(
    rt: &R,
    alloc: Global,
    slots: u32,
    rows: &[Row],
    words: &[u64],
    left: &[&[u64]],
) -> Result<(), Fail>
    requires bare { IsWorkedOn slots 10 false rows.now words.now }
    requires valued { IsWorkedOn slots 10 true (with_values rows.now) words.now }
{
    let wanted = words_of(alloc, left, false, 0)?;
    expect_listed::<R, Keys>(rt, alloc, (slots, 10), rows, words, &wanted);
    let wanted = words_of(alloc, left, true, 0)?;
    let valued = with_values(alloc, rows)?;
    expect_listed::<R, Entries>(rt, alloc, (slots, 10), &valued, words, &wanted);
    Ok(())
}

// What the lists leave, but for the flags and, in the first four, for values.
const TWO_HELPERS_LEFT: [&[u64]; 2] = [&[1, 21, 0], &[6, 1, 0, 7]];

const REBORN_SLOT_LEFT: [&[u64]; 4] = [
    &[2, 43, 18],
    &[8, 1, 0, 30],
    &[17, 2, 1, 10],
    &[9, 1, 0, 25],
];

const SAME_WORD_LEFT: [&[u64]; 4] = [
    &[5, 43, 18],
    &[16, 2, 0, 30],
    &[17, 2, 0, 20],
    &[45, 5, 0, 10],
];

const RAISED_LEFT: [&[u64]; 2] = [&[2, 21, 5], &[4, 1, 0, 7]];

const STORED_LEFT: [&[u64]; 2] = [&[1, 21, 5], &[6, 1, 0, 7, 107]];

const REPLACED_LEFT: [&[u64]; 4] = [
    &[1, 40_003, 10],
    &[14, 1, 1, 7, 107],
    &[15, 1, 0, 7, 207],
    &[8, 1, 0, 7, 307],
];

const STANDING_LEFT: [&[u64]; 4] = [
    &[2, 40_003, 10],
    &[14, 1, 1, 7, 107],
    &[8, 1, 0, 8, 108],
    &[4, 0, 0, 0, 0],
];

#[test]
fn two_passes_unlink_one_node(rt: HostRuntime) -> Result<(), Fail> {
    expect_both(
        &rt,
        rt.alloc(),
        1,
        &two_helpers(),
        &TWO_HELPERS_WORDS,
        &TWO_HELPERS_LEFT,
    )
}

#[test]
fn a_slot_is_reborn(rt: HostRuntime) -> Result<(), Fail> {
    expect_both(
        &rt,
        rt.alloc(),
        3,
        &reborn_slot(),
        &REBORN_SLOT_WORDS,
        &REBORN_SLOT_LEFT,
    )
}

#[test]
fn a_word_comes_back(rt: HostRuntime) -> Result<(), Fail> {
    expect_both(
        &rt,
        rt.alloc(),
        3,
        &same_word(),
        &SAME_WORD_WORDS,
        &SAME_WORD_LEFT,
    )
}

#[test]
fn a_slot_is_raised_in_hand(rt: HostRuntime) -> Result<(), Fail> {
    expect_both(
        &rt,
        rt.alloc(),
        1,
        &raised_in_hand(),
        &RAISED_IN_HAND_WORDS,
        &RAISED_LEFT,
    )
}

// Makes a list with values of its own, and compares the words of the closing.
fn expect_valued<R: Abort>(
    rt: &R,
    alloc: Global,
    numbers: (u32, u64),
    rows: &[Row],
    words: &[u64],
    left: (&[&[u64]], u64),
) -> Result<(), Fail>
    requires worked { IsWorkedOn numbers.0 numbers.1 true rows.now words.now }
    requires plain { numbers.1 ≢ MAX_EPOCH }
{
    let (parts, flags) = left;
    let left = words_of(alloc, parts, false, flags)?;
    expect_listed::<R, Entries>(rt, alloc, numbers, rows, words, &left);
    Ok(())
}

#[test]
fn a_stored_value_is_read_back(rt: HostRuntime) -> Result<(), Fail> {
    expect_valued(
        &rt,
        rt.alloc(),
        (1, 10),
        &stored_value(),
        &STORED_VALUE_WORDS,
        (&STORED_LEFT, 0),
    )
}

#[test]
fn a_value_is_replaced_twice(rt: HostRuntime) -> Result<(), Fail> {
    expect_valued(
        &rt,
        rt.alloc(),
        (3, 10_000),
        &replaced_value(),
        &REPLACED_VALUE_WORDS,
        (&REPLACED_LEFT, 0),
    )
}

#[test]
fn a_step_of_each_kind_with_values(rt: HostRuntime) -> Result<(), Fail> {
    expect_valued(
        &rt,
        rt.alloc(),
        (3, 10_000),
        &standing_rows_with_values(),
        &STANDING_WORDS,
        (&STANDING_LEFT, 5),
    )
}
