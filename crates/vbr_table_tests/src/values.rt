//! The machine's world of nodes with values: the worked lists of events with values, refusals, and a
//! world that opens with entries. The calls are those of a plain map.
ghost use Rattle.std.specs.Prelude.{◌≡◌, true, false, IfOk};

use crate::world::{
    ABSENT, FRESH, Look, OPENED, bare_places, call, events_of, expect, expect_bare, expect_stamp,
    expect_stop, expect_whole, follow, look_up_behind, make, stop_of, word_at,
};
use std::alloc::{AllocError, Global};
use std::process::Abort;
use std::test::Fail;
use vbr_event_lists::{
    Row, numbered, reborn_slot, replaced_value, stored_value, two_helpers, with_values,
};
use vbr_words::{At, Place, Shape};
use vbr_world::{
    Call, CoreRefusal, Effect, Event, Op, PlainMap, SlotPlace, Step, World, replay_with_entries,
};

// A call that was answered yes and stored or gave a value.
fn valued(who: u32, op: Op, key: u64, value: u64) -> Call {
    Call {
        value: Some(value),
        ..call(who, op, key)
    }
}

// Answers the requests of calls by a plain map that has these entries, and compares the replies and the
// values.
fn expect_map(
    rt: &impl Abort,
    alloc: Global,
    entries: &[(u64, u64)],
    calls: &[Call],
) -> Result<(), AllocError> {
    let mut map = PlainMap::new(alloc);
    for (key, value) in entries {
        map.apply(Op::Insert, *key, *value)?;
    }
    for call in calls {
        let told = map.apply(call.op, call.key, call.value.unwrap_or(0))?;
        assert_eq!(rt; told, (call.reply, call.value), "{call:?}");
    }
    Ok(())
}

// Compares the word at a place, in a world without values and in one with them.
fn expect_same_at(rt: &impl Abort, plain: &World, world: &World, shape: Shape, place: Place)
    requires plain { plain.now.start.shape ≡ shape }
    requires world { world.now.start.shape ≡ record shape { values = true } }
{
    let wanted = word_at(plain, shape, place);
    assert_eq!(rt;
        word_at(world, shape.with_values(), place),
        wanted,
        "{place:?}"
    );
}

// Compares the words that a shape has without values, in a world without and in one with them.
fn expect_same(
    rt: &impl Abort,
    alloc: Global,
    plain: &World,
    world: &World,
    shape: Shape,
) -> Result<(), AllocError>
    requires plain { plain.now.start.shape ≡ shape }
    requires world { world.now.start.shape ≡ record shape { values = true } }
{
    for place in bare_places(alloc, shape)?.iter() {
        expect_same_at(rt, plain, world, shape, *place);
    }
    for slot in 0..shape.slots() {
        assert_eq!(rt; word_at(plain, shape, Place::Value(slot)), None);
    }
    Ok(())
}

// Makes the steps of a list on nodes without values, with looks, and those of the list with values on nodes that
// have them. Compares their words.
fn follow_both(
    rt: &impl Abort,
    alloc: Global,
    shape: Shape,
    rows: &[Row],
    looks: &[Look],
) -> Result<(World, World), Fail>
    requires { shape.values ≡ false }
    ensures plain { IfOk result (λ r. r.0.start.shape ≡ shape) }
    ensures world { IfOk result (λ r. r.1.start.shape ≡ record shape { values = true }) }
{
    let plain = follow(rt, alloc, shape, rows, looks)?;
    let valued_rows = with_values(alloc, rows)?;
    let world = follow(rt, alloc, shape.with_values(), &valued_rows, &[])?;
    expect_same(rt, alloc, &plain, &world, shape)?;
    Ok((plain, world))
}

// Compares the value that each slot has in the end.
fn expect_values(rt: &impl Abort, world: &World, shape: Shape, slots: &[(SlotPlace, u64)])
    requires { world.now.start.shape ≡ shape }
{
    for (slot, (_, value)) in (0..).zip(slots) {
        let told = word_at(world, shape, Place::Value(slot));
        assert_eq!(rt; told, Some(u128::from(*value)), "slot {slot}");
    }
}

// These calls, each with a hundred more than its key for its value.
fn with_hundreds(alloc: Global, calls: &[Call]) -> Result<Vec<Call>, AllocError> {
    let mut valued_calls = Vec::new(alloc);
    for call in calls {
        valued_calls.push(valued(call.who, call.op, call.key, call.key.saturating_add(100)))?;
    }
    Ok(valued_calls)
}

// The places of slots that are listed with their values.
fn places_of(alloc: Global, slots: &[(SlotPlace, u64)]) -> Result<Vec<SlotPlace>, AllocError> {
    slots.iter().map(|(place, _)| *place).collect(alloc)
}

// Compares what such a list leaves in a world with values, and its calls with those of a plain map.
fn expect_valued(
    rt: &impl Abort,
    alloc: Global,
    world: &World,
    calls: &[Call],
    slots: &[(SlotPlace, u64)],
    incarnations: u64,
    shape: Shape,
) -> Result<(), Fail>
    requires { world.now.start.shape ≡ shape }
{
    expect_values(rt, world, shape, slots);
    let calls = with_hundreds(alloc, calls)?;
    expect(
        rt,
        world,
        shape,
        &calls,
        &places_of(alloc, slots)?,
        incarnations,
    );
    Ok(expect_map(rt, alloc, &[], &calls)?)
}

/// Makes the steps of a list on nodes without values and on nodes with them, in one bucket, and compares their words, the
/// calls, where each slot is and the value that it has in the end, and the number of incarnations. Each call has a
/// hundred more than its key for its value, if there are any, and is answered as by a plain map.
pub(crate) fn expect_both(
    rt: &impl Abort,
    alloc: Global,
    rows: &[Row],
    looks: &[Look],
    calls: &[Call],
    slots: &[(SlotPlace, u64)],
    incarnations: u64,
) -> Result<(), Fail> {
    let shape = Shape::new(u32::try_from(slots.len()).unwrap_or(u32::MAX), 1, 10)?;
    let (plain, world) = follow_both(rt, alloc, shape, rows, looks)?;
    expect(
        rt,
        &plain,
        shape,
        calls,
        &places_of(alloc, slots)?,
        incarnations,
    );
    expect_valued(
        rt,
        alloc,
        &world,
        calls,
        slots,
        incarnations,
        shape.with_values(),
    )
}

/// A look-up passes a marked node as it does without values, once its marked link is checked.
#[test]
fn a_look_up_passes_a_marked_node_with_a_value(rt: HostRuntime) -> Result<(), Fail> {
    let shape = Shape::new(1, 1, 10)?.with_values();
    let insert = valued(0, Op::Insert, 7, 107);
    let remove = valued(0, Op::Remove, 7, 107);
    let checked = with_values(rt.alloc(), &two_helpers()[..16])?;
    let wanted = Ok(Effect::Answered(false));
    let calls = [insert, remove, ABSENT];
    look_up_behind(&rt, rt.alloc(), shape, &checked, wanted, &calls)?;
    let unchecked = with_values(rt.alloc(), &two_helpers()[..15])?;
    let wanted = Err(CoreRefusal::NotHeld);
    look_up_behind(
        &rt,
        rt.alloc(),
        shape,
        &unchecked,
        wanted,
        &[insert, remove],
    )
}

/// The value of each of three keys is stored once in the first 35 rows.
#[test]
fn replays_a_list_with_values(rt: HostRuntime) -> Result<(), Fail> {
    let rows = with_values(rt.alloc(), &reborn_slot())?;
    let shape = Shape::new(3, 1, 10)?.with_values();
    expect_stamp(&rt, rt.alloc(), shape, &rows, 35)?;
    let shape = Shape::new(1, 1, 10)?.with_values();
    expect_whole(&rt, rt.alloc(), shape, &stored_value(), (3, 1, 1))?;
    let shape = Shape::new(3, 1, 10)?.with_values();
    expect_whole(&rt, rt.alloc(), shape, &replaced_value(), (6, 3, 1))
}

#[test]
fn opens_fresh_with_values(rt: HostRuntime) -> Result<(), Fail> {
    let shape = Shape::new(1, 1, 10)?.with_values();
    let world = follow(&rt, rt.alloc(), shape, &[], &[])?;
    expect_bare(&rt, rt.alloc(), &world, shape, &FRESH)?;
    assert_eq!(rt; word_at(&world, shape, Place::Value(0)), Some(0));
    Ok(())
}

#[test]
fn a_stored_value_is_got(rt: HostRuntime) -> Result<(), Fail> {
    let shape = Shape::new(1, 1, 10)?.with_values();
    let looks: [Look; 1] = [(Place::Value(0), &[(4, 0), (5, 107), (21, 107)])];
    let world = follow(&rt, rt.alloc(), shape, &stored_value(), &looks)?;
    let calls = [
        valued(0, Op::Insert, 7, 107),
        valued(1, Op::Get, 7, 107),
        valued(0, Op::Remove, 7, 107),
    ];
    expect(&rt, &world, shape, &calls, &[SlotPlace::Listed(0)], 1);
    Ok(expect_map(&rt, rt.alloc(), &[], &calls)?)
}

/// A replacement is two calls next to each other; the node that stood there keeps its value.
#[test]
fn a_value_is_replaced(rt: HostRuntime) -> Result<(), Fail> {
    let shape = Shape::new(3, 1, 10)?.with_values();
    let looks: [Look; 5] = [
        (Place::LinkOf(0), &[(28, 6_442_450_946)]),
        (Place::Head(0), &[(28, 4_294_967_297)]),
        (Place::Value(0), &[(43, 107)]),
        (Place::Value(1), &[(43, 207)]),
        (Place::Value(2), &[(43, 307)]),
    ];
    let world = follow(&rt, rt.alloc(), shape, &replaced_value(), &looks)?;
    let calls = [
        valued(0, Op::Insert, 7, 107),
        valued(0, Op::Remove, 7, 107),
        valued(0, Op::Insert, 7, 207),
        valued(1, Op::Get, 7, 207),
        valued(1, Op::Remove, 7, 207),
        valued(1, Op::Insert, 7, 307),
    ];
    let places = [
        SlotPlace::Own(1),
        SlotPlace::Listed(0),
        SlotPlace::Listed(0),
    ];
    expect(&rt, &world, shape, &calls, &places, 3);
    Ok(expect_map(&rt, rt.alloc(), &[], &calls)?)
}

// A get of a key in an empty list.
fn absent_get() -> Step {
    Step::ConfirmAbsent {
        op: Op::Get,
        key: 7,
        at: At::Head(0),
        expected: numbered(0),
    }
}

#[test]
fn a_get_of_an_absent_key_has_no_value(rt: HostRuntime) -> Result<(), Fail> {
    let shape = Shape::new(1, 1, 10)?.with_values();
    let rows = [
        (0, Step::ReadEpoch, Effect::Value(1)),
        (0, Step::LoadLink { at: At::Head(0) }, Effect::Value(0)),
        (0, Step::ReadEpoch, Effect::Value(1)),
        (0, absent_get(), Effect::Answered(false)),
    ];
    let world = follow(&rt, rt.alloc(), shape, &rows, &[])?;
    let no = Call {
        reply: false,
        ..call(0, Op::Get, 7)
    };
    assert_eq!(rt; world.calls(), [no].as_slice());
    Ok(())
}

// The events of the first rows of a list, so many, but for one of them, and then a step of a pass.
fn events_but_one(
    alloc: Global,
    rows: &[Row],
    count: usize,
    left_out: usize,
    last: (u32, Step),
) -> Result<Vec<Event>, AllocError> {
    let mut events = events_of(alloc, rows, count)?;
    if left_out < events.len() {
        events.remove(left_out);
    }
    let (pass, step) = last;
    events.push(Event { pass, step })?;
    Ok(events)
}

fn publish_step() -> Step {
    Step::Publish {
        pred: At::Head(0),
        expected: numbered(0),
        slot: 0,
    }
}

fn get_step() -> Step {
    Step::ConfirmPresent {
        op: Op::Get,
        slot: 0,
        expected: numbered(4_294_967_296),
    }
}

fn has_step() -> Step {
    Step::ConfirmPresent {
        op: Op::Has,
        slot: 0,
        expected: numbered(4_294_967_296),
    }
}

fn mark_step() -> Step {
    Step::Mark {
        slot: 0,
        expected: numbered(4_294_967_296),
    }
}

const STORE: Step = Step::StoreValue { slot: 0, value: 5 };

const LOAD: Step = Step::LoadValue { slot: 0 };

const LOAD_BEYOND: Step = Step::LoadValue { slot: 1 };

// After how many rows, and without which one of them, a pass makes a step, and how it is refused.
fn next_steps() -> [(usize, usize, u32, Step, Option<CoreRefusal>); 12] {
    [
        (0, 99, 0, STORE, Some(CoreRefusal::NotOwned)),
        (2, 99, 0, STORE, Some(CoreRefusal::NotOwned)),
        (9, 99, 0, STORE, Some(CoreRefusal::NotOwned)),
        (0, 99, 0, LOAD, Some(CoreRefusal::NotHeld)),
        (0, 99, 0, LOAD_BEYOND, Some(CoreRefusal::OutOfRange)),
        (8, 4, 0, publish_step(), Some(CoreRefusal::OutOfRange)),
        (8, 99, 0, publish_step(), None),
        (18, 16, 1, mark_step(), Some(CoreRefusal::NotHeld)),
        (18, 99, 1, mark_step(), None),
        (18, 16, 1, get_step(), Some(CoreRefusal::NotHeld)),
        (18, 99, 1, get_step(), None),
        (18, 16, 1, has_step(), None),
    ]
}

/// After so many rows, one of which is left out, the step is refused so, if it is. Row 4 stores the
/// value, and row 16 loads it.
#[test]
fn asks_for_values(rt: HostRuntime) -> Result<(), Fail> {
    let shape = Shape::new(1, 1, 10)?.with_values();
    let rows = stored_value();
    for (count, left_out, pass, step, refusal) in &next_steps() {
        let events = events_but_one(rt.alloc(), &rows, *count, *left_out, (*pass, *step))?;
        let wanted = refusal.map(|refusal| (events.len().saturating_sub(1), refusal));
        let stop = stop_of(rt.alloc(), shape, 2, &events);
        assert_eq!(rt;
            stop,
            wanted,
            "{step:?} behind {count} rows but row {left_out}"
        );
    }
    Ok(())
}

fn replace_step() -> Step {
    Step::Replace {
        slot: 0,
        expected: numbered(4_294_967_296),
        new: 2,
    }
}

/// After the first 27 rows, one of which is left out, the replacement by pass 1 is refused so, if it
/// is. Rows 12 to 15 load key, value, birth and link of the node, and rows 19 to 21 fill the hand.
#[test]
fn asks_for_what_a_replacement_names(rt: HostRuntime) -> Result<(), Fail> {
    let shape = Shape::new(3, 1, 10)?.with_values();
    let rows = [
        (12, Some(CoreRefusal::NotHeld)),
        (13, Some(CoreRefusal::NotHeld)),
        (14, Some(CoreRefusal::NotHeld)),
        (15, Some(CoreRefusal::NotHeld)),
        (19, Some(CoreRefusal::OutOfRange)),
        (20, Some(CoreRefusal::OutOfRange)),
        (21, Some(CoreRefusal::OutOfRange)),
        (99, None),
    ];
    for (left_out, refusal) in rows {
        let last = (1, replace_step());
        let events = events_but_one(rt.alloc(), &replaced_value(), 27, left_out, last)?;
        let wanted = refusal.map(|refusal| (events.len().saturating_sub(1), refusal));
        let stop = stop_of(rt.alloc(), shape, 2, &events);
        assert_eq!(rt; stop, wanted, "without row {left_out}");
    }
    Ok(())
}

/// A value that was stored before the birth doesn't count.
#[test]
fn asks_for_a_value_since_the_birth(rt: HostRuntime) -> Result<(), Fail> {
    let shape = Shape::new(1, 1, 10)?.with_values();
    let mut events = events_of(rt.alloc(), &stored_value(), 5)?;
    let steps = [
        Step::StoreBirth { slot: 0, birth: 1 },
        Step::StoreKey { slot: 0, key: 7 },
        Step::LoadLink { at: At::Head(0) },
        Step::ReadEpoch,
        Step::StoreLink {
            slot: 0,
            next: None,
        },
        publish_step(),
    ];
    for step in steps {
        events.push(Event { pass: 0, step })?;
    }
    let wanted = (10, CoreRefusal::OutOfRange);
    expect_stop(&rt, rt.alloc(), shape, 2, &events, wanted);
    Ok(())
}

/// If nodes have no values, no step is made for one.
#[test]
fn a_set_has_no_values(rt: HostRuntime) -> Result<(), Fail> {
    let shape = Shape::new(1, 1, 10)?;
    let steps = [
        Step::StoreValue { slot: 0, value: 5 },
        Step::LoadValue { slot: 0 },
        Step::Replace {
            slot: 0,
            expected: numbered(0),
            new: 0,
        },
        get_step(),
        absent_get(),
    ];
    for step in &steps {
        let event = Event {
            pass: 0,
            step: *step,
        };
        let stop = stop_of(rt.alloc(), shape, 1, &[event]);
        assert_eq!(rt; stop, Some((0, CoreRefusal::OutOfRange)), "{step:?}");
    }
    Ok(())
}

// Compares the words at these places.
fn expect_at(rt: &impl Abort, world: &World, shape: Shape, words: &[(Place, u128)])
    requires { world.now.start.shape ≡ shape }
{
    for (place, word) in words {
        assert_eq!(rt; word_at(world, shape, *place), Some(*word), "{place:?}");
    }
}

/// The value of a key stands beside it; the rest is as with keys alone.
#[test]
fn opens_with_entries(rt: HostRuntime) -> Result<(), Fail> {
    let shape = Shape::new(4, 2, 10)?.with_values();
    let world = World::open_with_entries(rt.alloc(), shape, 2, &[(2, 102), (5, 105), (9, 109)])?;
    expect_bare(&rt, rt.alloc(), &world, shape, &OPENED)?;
    let values = [
        (Place::Value(0), 102),
        (Place::Value(1), 105),
        (Place::Value(2), 109),
        (Place::Value(3), 0),
    ];
    expect_at(&rt, &world, shape, &values);
    assert_eq!(rt; world.incarnations(), 3);
    Ok(())
}

// The entries that a world opens with.
const ENTRIES: [(u64, u64); 3] = [(2, 102), (5, 105), (9, 109)];

// The first node of bucket 1 is that of 5: a pass gets its value, and takes it out.
fn got_and_taken() -> [Row; 9] {
    [
        (0, Step::ReadEpoch, Effect::Value(1)),
        (
            0,
            Step::LoadLink { at: At::Head(1) },
            Effect::Value(4_294_967_298),
        ),
        (0, Step::ReadEpoch, Effect::Value(1)),
        (0, Step::LoadKey { slot: 1 }, Effect::Value(5)),
        (0, Step::LoadValue { slot: 1 }, Effect::Value(105)),
        (
            0,
            Step::LoadLink { at: At::Slot(1) },
            Effect::Value(4_294_967_299),
        ),
        (0, Step::ReadEpoch, Effect::Value(1)),
        (
            0,
            Step::ConfirmPresent {
                op: Op::Get,
                slot: 1,
                expected: numbered(4_294_967_299),
            },
            Effect::Answered(true),
        ),
        (
            0,
            Step::Mark {
                slot: 1,
                expected: numbered(4_294_967_299),
            },
            Effect::Won,
        ),
    ]
}

// Makes the steps of rows, and compares their effects.
fn make_rows(rt: &impl Abort, world: &mut World, rows: &[Row]) {
    for row in rows {
        make(rt, world, row);
    }
}

#[test]
fn gives_the_values_of_its_opening(rt: HostRuntime) -> Result<(), Fail> {
    let shape = Shape::new(4, 2, 10)?.with_values();
    let mut world = World::open_with_entries(rt.alloc(), shape, 2, &ENTRIES)?;
    make_rows(&rt, &mut world, &got_and_taken());
    let calls = [valued(0, Op::Get, 5, 105), valued(0, Op::Remove, 5, 105)];
    assert_eq!(rt; world.calls(), calls.as_slice());
    Ok(expect_map(&rt, rt.alloc(), &ENTRIES, &calls)?)
}

/// The same events from the opening on.
#[test]
fn replays_from_entries(rt: HostRuntime) -> Result<(), Fail> {
    let shape = Shape::new(4, 2, 10)?.with_values();
    let events = events_of(rt.alloc(), &got_and_taken(), 9)?;
    let world = replay_with_entries(rt.alloc(), shape, 1, &ENTRIES, &events)?;
    let calls = [valued(0, Op::Get, 5, 105), valued(0, Op::Remove, 5, 105)];
    assert_eq!(rt; world.calls(), calls.as_slice());
    assert_eq!(rt; world.incarnations(), 3);
    let words = [
        (Place::Head(1), 4_294_967_298),
        (Place::LinkOf(1), 6_442_450_947),
        (Place::Value(1), 105),
        (Place::Value(2), 109),
        (Place::Value(3), 0),
    ];
    expect_at(&rt, &world, shape, &words);
    Ok(())
}

/// Then the load of a key that isn't held, and passes that are none or too many.
#[test]
fn stops_from_entries(rt: HostRuntime) -> Result<(), Fail> {
    let shape = Shape::new(4, 2, 10)?.with_values();
    let mut events = events_of(rt.alloc(), &got_and_taken(), 9)?;
    let step = Step::LoadKey { slot: 3 };
    events.push(Event { pass: 0, step })?;
    for (passes, stop) in [
        (0, (0, CoreRefusal::NoSuchPass)),
        (1, (9, CoreRefusal::NotHeld)),
        (65, (0, CoreRefusal::NoSuchPass)),
    ] {
        let told = replay_with_entries(rt.alloc(), shape, passes, &ENTRIES, &events).err();
        assert_eq!(rt; told, Some(stop), "{passes} passes");
    }
    Ok(())
}
