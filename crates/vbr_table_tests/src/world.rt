//! The machine's world: worked lists of events, refusals, a fresh world, and one that opens with keys.
ghost use Rattle.std.specs.Prelude.{◌≡◌, IfOk};

use crate::values::expect_both;
use std::alloc::{AllocError, Global};
use std::process::Abort;
use std::test::Fail;
use vbr_event_lists::{
    Row, numbered, raised_in_hand, reborn_slot, same_word, two_helpers, with_values,
};
use vbr_words::flags::flag_words;
use vbr_words::{At, Place, Shape};
use vbr_world::{
    Call, CoreRefusal, Effect, Event, Op, SlotPlace, Step, World, WorldRefusal, replay,
};

// The word at a place of the world, which has this shape; none if the shape has no such place.
pub(crate) fn word_at(world: &World, shape: Shape, place: Place) -> Option<u128>
    requires slots { world.now.start.shape.slots ≡ shape.slots }
    requires buckets { world.now.start.shape.buckets ≡ shape.buckets }
    requires values { world.now.start.shape.values ≡ shape.values }
{
    let is_in = match place {
        Place::Epoch | Place::ShapeWord => true,
        Place::Head(bucket) => bucket < shape.buckets(),
        Place::LinkOf(slot) | Place::Birth(slot) | Place::Stamp(slot) | Place::Key(slot) => {
            slot < shape.slots()
        }
        Place::Value(slot) => shape.has_values() && slot < shape.slots(),
        Place::Flags(number) => number < flag_words(&shape),
    };
    if is_in { Some(world.word(place)) } else { None }
}

// A place, and the words that stand there after so many rows each.
pub(crate) type Look = (Place, &'static [(usize, u128)]);

// Compares the words that are looked at after so many rows, and returns how many these are.
pub(crate) fn look(
    rt: &impl Abort,
    world: &World,
    shape: Shape,
    rows: usize,
    looks: &[Look],
) -> usize
    requires slots { world.now.start.shape.slots ≡ shape.slots }
    requires buckets { world.now.start.shape.buckets ≡ shape.buckets }
    requires values { world.now.start.shape.values ≡ shape.values }
{
    let mut looked = 0usize;
    for (place, words) in looks {
        for (after, word) in words.iter() {
            if *after == rows {
                let told = word_at(world, shape, *place);
                assert_eq!(rt; told, Some(*word), "{place:?} behind {rows} rows");
                looked = looked.saturating_add(1);
            }
        }
    }
    looked
}

// How many words are looked at.
fn count_of(looks: &[Look]) -> usize {
    let mut count = 0usize;
    for (_, words) in looks {
        count = count.saturating_add(words.len());
    }
    count
}

// Makes the step of a row, and compares its effect. A step that found no memory left the world as it was, so it
// is made again.
pub(crate) fn make(rt: &impl Abort, world: &mut World, row: &Row)
    ensures { world.new.start ≡ world.old.start }
{
    let event = &Event {
        pass: row.0,
        step: row.1,
    };
    let mut answer = world.step(*event);
    if answer == Err(CoreRefusal::NoMemory) {
        answer = world.step(*event);
    }
    assert_eq!(rt; answer, Ok(row.2), "{event:?}");
}

// Opens a world with two passes and makes the steps of a list, with looks between them, each of which
// has to come.
pub(crate) fn follow(
    rt: &impl Abort,
    alloc: Global,
    shape: Shape,
    rows: &[Row],
    looks: &[Look],
) -> Result<World, WorldRefusal>
    ensures { IfOk result (λ world. world.start.shape ≡ shape) }
{
    let mut world = World::open(alloc, shape, 2)?;
    let mut made = 0usize;
    let mut looked = look(rt, &world, shape, made, looks);
    for row in rows {
        make(rt, &mut world, row);
        made = made.saturating_add(1);
        looked = looked.saturating_add(look(rt, &world, shape, made, looks));
    }
    assert_eq!(rt; looked, count_of(looks));
    Ok(world)
}

// Compares the places of the slots.
fn expect_places(rt: &impl Abort, world: &World, shape: Shape, places: &[SlotPlace])
    requires { world.now.start.shape ≡ shape }
{
    for slot in 0..shape.slots() {
        let told = world.place_of_slot(slot);
        assert_eq!(rt; places.get(slot as usize), Some(&told), "slot {slot}");
    }
}

// Compares the calls that were made, the places of the slots, and the number of incarnations.
pub(crate) fn expect(
    rt: &impl Abort,
    world: &World,
    shape: Shape,
    calls: &[Call],
    places: &[SlotPlace],
    incarnations: u64,
)
    requires { world.now.start.shape ≡ shape }
{
    assert_eq!(rt; world.calls(), calls);
    assert_eq!(rt; world.incarnations(), incarnations);
    expect_places(rt, world, shape, places);
}

pub(crate) fn call(who: u32, op: Op, key: u64) -> Call {
    Call {
        who,
        op,
        key,
        reply: true,
        value: None,
    }
}

// An insert that was answered yes.
fn insert(who: u32, key: u64) -> Call {
    call(who, Op::Insert, key)
}

// A remove that was answered yes.
fn remove(who: u32, key: u64) -> Call {
    call(who, Op::Remove, key)
}

// The place of a slot that is linked in the one bucket.
const LISTED: SlotPlace = SlotPlace::Listed(0);

#[test]
fn follows_a_reborn_slot(rt: HostRuntime) -> Result<(), Fail> {
    let looks: [Look; 3] = [
        (
            Place::Head(0),
            &[
                (9, 4_294_967_297),
                (14, 4_294_967_298),
                (30, 4_294_967_297),
                (43, 8_589_934_594),
            ],
        ),
        (
            Place::LinkOf(1),
            &[(29, 6_442_450_945), (42, 8_589_934_593)],
        ),
        (Place::Epoch, &[(44, 2)]),
    ];
    let calls = [insert(0, 30), insert(0, 20), remove(0, 20), insert(0, 10)];
    let slots = [(LISTED, 130), (LISTED, 110), (SlotPlace::Hand(1), 125)];
    expect_both(&rt, rt.alloc(), &reborn_slot(), &looks, &calls, &slots, 4)
}

#[test]
fn follows_a_word_that_comes_back(rt: HostRuntime) -> Result<(), Fail> {
    let looks: [Look; 4] = [
        (Place::Epoch, &[(37, 5)]),
        (Place::LinkOf(0), &[(9, 8_589_934_592)]),
        (
            Place::LinkOf(2),
            &[(33, 21_474_836_481), (35, 23_622_320_129)],
        ),
        (
            Place::Head(0),
            &[
                (34, 21_474_836_483),
                (36, 8_589_934_593),
                (37, 8_589_934_594),
            ],
        ),
    ];
    let calls = [insert(0, 30), insert(0, 10), remove(0, 10), insert(1, 20)];
    let slots = [(LISTED, 130), (LISTED, 120), (SlotPlace::Own(0), 110)];
    expect_both(&rt, rt.alloc(), &same_word(), &looks, &calls, &slots, 3)
}

#[test]
fn follows_two_helpers(rt: HostRuntime) -> Result<(), Fail> {
    let looks: [Look; 1] = [(Place::Head(0), &[(18, 0)])];
    let (calls, slots) = ([insert(0, 7), remove(0, 7)], [(SlotPlace::Own(1), 107)]);
    expect_both(&rt, rt.alloc(), &two_helpers(), &looks, &calls, &slots, 1)
}

#[test]
fn follows_a_slot_that_is_raised_in_hand(rt: HostRuntime) -> Result<(), Fail> {
    let looks: [Look; 3] = [
        (Place::Birth(0), &[(11, 2), (14, 1)]),
        (Place::Flags(0), &[(11, 1)]),
        (Place::Head(0), &[(16, 4_294_967_297)]),
    ];
    let (calls, slots) = ([insert(1, 7)], [(LISTED, 107)]);
    expect_both(
        &rt,
        rt.alloc(),
        &raised_in_hand(),
        &looks,
        &calls,
        &slots,
        2,
    )
}

// A look-up for the key of the node that the list of two helpers marks.
fn look_up() -> Step {
    Step::ConfirmAbsent {
        op: Op::Has,
        key: 7,
        at: At::Head(0),
        expected: numbered(4_294_967_297),
    }
}

// The call of that look-up.
pub(crate) const ABSENT: Call = Call {
    who: 1,
    op: Op::Has,
    key: 7,
    reply: false,
    value: None,
};

// What a look-up is answered after the first rows of the list of two helpers, and the calls that are
// then made.
pub(crate) fn look_up_behind(
    rt: &impl Abort,
    alloc: Global,
    shape: Shape,
    rows: &[Row],
    wanted: Result<Effect, CoreRefusal>,
    calls: &[Call],
) -> Result<(), Fail> {
    let mut world = follow(rt, alloc, shape, rows, &[])?;
    let event = Event {
        pass: 1,
        step: look_up(),
    };
    assert_eq!(rt; world.step(event), wanted);
    assert_eq!(rt; world.calls(), calls);
    Ok(())
}

/// A look-up passes a marked node, even one that has the key itself.
#[test]
fn a_look_up_passes_a_marked_node(rt: HostRuntime) -> Result<(), Fail> {
    let shape = Shape::new(1, 1, 10)?;
    let calls = [call(0, Op::Insert, 7), call(0, Op::Remove, 7), ABSENT];
    let wanted = Ok(Effect::Answered(false));
    look_up_behind(&rt, rt.alloc(), shape, &two_helpers()[..16], wanted, &calls)
}

/// It passes none whose marked link isn't checked.
#[test]
fn a_look_up_checks_the_marked_link(rt: HostRuntime) -> Result<(), Fail> {
    let shape = Shape::new(1, 1, 10)?;
    let calls = [call(0, Op::Insert, 7), call(0, Op::Remove, 7)];
    let wanted = Err(CoreRefusal::NotHeld);
    look_up_behind(&rt, rt.alloc(), shape, &two_helpers()[..15], wanted, &calls)
}

// The events of the first rows of a list, so many.
pub(crate) fn events_of(
    alloc: Global,
    rows: &[Row],
    count: usize,
) -> Result<Vec<Event>, AllocError> {
    rows.iter()
        .take(count)
        .map(|(pass, step, _)| Event {
            pass: *pass,
            step: *step,
        })
        .collect(alloc)
}

// Where the replay of events stops, and why.
pub(crate) fn stop_of(
    alloc: Global,
    shape: Shape,
    passes: u32,
    events: &[Event],
) -> Option<(usize, CoreRefusal)> {
    replay(alloc, shape, passes, events).err()
}

// Compares where the replay of events stops, and why.
pub(crate) fn expect_stop(
    rt: &impl Abort,
    alloc: Global,
    shape: Shape,
    passes: u32,
    events: &[Event],
    wanted: (usize, CoreRefusal),
) {
    assert_eq!(rt; stop_of(alloc, shape, passes, events), Some(wanted));
}

// Compares the word that events leave at a place.
fn expect_word(
    rt: &impl Abort,
    alloc: Global,
    shape: Shape,
    events: &[Event],
    place: Place,
    word: u128,
) -> Result<(), (usize, CoreRefusal)> {
    let world = replay(alloc, shape, 2, events)?;
    assert_eq!(rt; word_at(&world, shape, place), Some(word));
    Ok(())
}

// Replays the first rows of the list of a reborn slot, so many, the last of which stamps slot 1 with
// epoch 1. A birth there at the stamp is then refused.
pub(crate) fn expect_stamp(
    rt: &impl Abort,
    alloc: Global,
    shape: Shape,
    rows: &[Row],
    count: usize,
) -> Result<(), Fail> {
    let mut events = events_of(alloc, rows, count)?;
    expect_word(rt, alloc, shape, &events, Place::Stamp(1), 1)?;
    events.push(Event {
        pass: 0,
        step: Step::StoreBirth { slot: 1, birth: 1 },
    })?;
    let wanted = (count, CoreRefusal::OutOfRange);
    expect_stop(rt, alloc, shape, 2, &events, wanted);
    Ok(())
}

#[test]
fn replays_a_list(rt: HostRuntime) -> Result<(), Fail> {
    expect_stamp(&rt, rt.alloc(), Shape::new(3, 1, 10)?, &reborn_slot(), 32)
}

// After the first 17 rows of the list of two helpers pass 1 has unlinked slot 0, and hasn't stamped it.
#[test]
fn an_unstamped_slot_is_not_raised(rt: HostRuntime) -> Result<(), Fail> {
    let shape = Shape::new(1, 1, 10)?;
    for pass in 0..2 {
        let mut events = events_of(rt.alloc(), &two_helpers(), 17)?;
        events.push(Event {
            pass,
            step: Step::Raise { slot: 0 },
        })?;
        let wanted = (17, CoreRefusal::NotOwned);
        expect_stop(&rt, rt.alloc(), shape, 2, &events, wanted);
    }
    Ok(())
}

// Compares the numbers of calls and of incarnations, and the epoch.
fn expect_counts(rt: &impl Abort, world: &World, wanted: (usize, u64, u128)) {
    let told = (
        world.calls().len(),
        world.incarnations(),
        world.word(Place::Epoch),
    );
    assert_eq!(rt; told, wanted);
}

// Replays a whole list, and compares the numbers of its calls and of its incarnations, and the epoch.
pub(crate) fn expect_whole(
    rt: &impl Abort,
    alloc: Global,
    shape: Shape,
    rows: &[Row],
    wanted: (usize, u64, u128),
) -> Result<(), Fail> {
    let events = events_of(alloc, rows, rows.len())?;
    let world = replay(alloc, shape, 2, &events)?;
    expect_counts(rt, &world, wanted);
    Ok(())
}

#[test]
fn replays_each_list_whole(rt: HostRuntime) -> Result<(), Fail> {
    let (reborn, same, helpers, raised) = (
        reborn_slot(),
        same_word(),
        two_helpers(),
        raised_in_hand(),
    );
    let rows: [(&[Row], u32, (usize, u64, u128)); 4] = [
        (&reborn, 3, (4, 4, 2)),
        (&same, 3, (4, 3, 5)),
        (&helpers, 1, (2, 1, 1)),
        (&raised, 1, (1, 2, 2)),
    ];
    for (list, slots, wanted) in rows {
        let shape = Shape::new(slots, 1, 10)?;
        expect_whole(&rt, rt.alloc(), shape, list, wanted)?;
        let valued_rows = with_values(rt.alloc(), list)?;
        let valued = shape.with_values();
        expect_whole(&rt, rt.alloc(), valued, &valued_rows, wanted)?;
    }
    Ok(())
}

// Replays events that are refused, each alone, and a birth above the epoch.
fn expect_refusals(rt: &impl Abort, alloc: Global, shape: Shape) {
    let rows = [
        (1, Step::ReadEpoch, CoreRefusal::NoSuchPass),
        (0, Step::StoreKey { slot: 0, key: 5 }, CoreRefusal::NotOwned),
        (0, Step::LoadKey { slot: 0 }, CoreRefusal::NotHeld),
        (0, Step::TakeFlag { slot: 1 }, CoreRefusal::OutOfRange),
        (0, Step::Advance { from: 0 }, CoreRefusal::OutOfRange),
        (0, Step::Advance { from: 1 }, CoreRefusal::EpochLast),
    ];
    for (pass, step, refusal) in &rows {
        let event = Event {
            pass: *pass,
            step: *step,
        };
        let stop = stop_of(alloc, shape, 1, &[event]);
        assert_eq!(rt; stop, Some((0, *refusal)), "{step:?}");
    }
    let take = Event {
        pass: 0,
        step: Step::TakeFlag { slot: 0 },
    };
    let birth = Event {
        pass: 0,
        step: Step::StoreBirth { slot: 0, birth: 2 },
    };
    let stop = stop_of(alloc, shape, 1, &[take, birth]);
    assert_eq!(rt; stop, Some((1, CoreRefusal::OutOfRange)));
}

#[test]
fn refuses_events(rt: HostRuntime) -> Result<(), Fail> {
    let shape = Shape::new(1, 1, 1)?;
    expect_refusals(&rt, rt.alloc(), shape);
    expect_refusals(&rt, rt.alloc(), shape.with_values());
    Ok(())
}

/// A slot is taken once. The answer to the second one has the flag word, in which its flag is gone.
#[test]
fn takes_a_slot_once(rt: HostRuntime) -> Result<(), Fail> {
    let rows = [
        (0, Step::TakeFlag { slot: 0 }, Effect::Won),
        (0, Step::TakeFlag { slot: 0 }, Effect::Lost(0)),
    ];
    let shape = Shape::new(1, 1, 1)?;
    follow(&rt, rt.alloc(), shape, &rows, &[])?;
    follow(&rt, rt.alloc(), shape.with_values(), &rows, &[])?;
    Ok(())
}

// The places that a shape has without values, in their order.
pub(crate) fn bare_places(alloc: Global, shape: Shape) -> Result<Vec<Place>, AllocError> {
    let mut places = Vec::new(alloc);
    places.extend_from_slice(&[Place::Epoch, Place::ShapeWord])?;
    for bucket in 0..shape.buckets() {
        places.push(Place::Head(bucket))?;
    }
    for slot in 0..shape.slots() {
        places.extend_from_slice(&[
            Place::LinkOf(slot),
            Place::Birth(slot),
            Place::Stamp(slot),
            Place::Key(slot),
        ])?;
    }
    for number in 0..flag_words(&shape) {
        places.push(Place::Flags(number))?;
    }
    Ok(places)
}

// Compares the words that stand there.
pub(crate) fn expect_bare(
    rt: &impl Abort,
    alloc: Global,
    world: &World,
    shape: Shape,
    words: &[u128],
) -> Result<(), AllocError>
    requires slots { world.now.start.shape.slots ≡ shape.slots }
    requires buckets { world.now.start.shape.buckets ≡ shape.buckets }
    requires values { world.now.start.shape.values ≡ shape.values }
{
    let places = bare_places(alloc, shape)?;
    assert_eq!(rt; places.len(), words.len());
    for (place, word) in places.iter().zip(words) {
        assert_eq!(rt; word_at(world, shape, *place), Some(*word), "{place:?}");
    }
    Ok(())
}

// The words of a fresh world of one slot and one bucket; if nodes have values there is one more.
pub(crate) const FRESH: [u128; 8] = [1, 21, 0, 2_147_483_648, 0, 0, 0, 1];

#[test]
fn opens_fresh(rt: HostRuntime) -> Result<(), Fail> {
    let shape = Shape::new(1, 1, 10)?;
    let world = follow(&rt, rt.alloc(), shape, &[], &[])?;
    expect_bare(&rt, rt.alloc(), &world, shape, &FRESH)?;
    let rows = [(0, Step::ReadEpoch, Effect::Value(1))];
    follow(&rt, rt.alloc(), shape, &rows, &[])?;
    Ok(())
}

// The words of a world of four slots and two buckets that opens with the keys 2, 5 and 9, and has any values beside
// them.
pub(crate) const OPENED: [u128; 21] = [
    1,
    84,
    4_294_967_297,
    4_294_967_298,
    4_294_967_296,
    1,
    0,
    2,
    4_294_967_299,
    1,
    0,
    5,
    4_294_967_296,
    1,
    0,
    9,
    2_147_483_648,
    0,
    0,
    0,
    8,
];

/// Key number i stands in slot i, linked in its bucket's list. The other slots are in the shared pool.
#[test]
fn opens_with_keys(rt: HostRuntime) -> Result<(), Fail> {
    let shape = Shape::new(4, 2, 10)?;
    let world = World::open_with(rt.alloc(), shape, 2, &[2, 5, 9])?;
    expect_bare(&rt, rt.alloc(), &world, shape, &OPENED)?;
    assert_eq!(rt; world.incarnations(), 3);
    Ok(())
}

// No world opens with so many passes, and no event is replayed.
fn expect_refused(rt: &impl Abort, alloc: Global, shape: Shape, passes: u32) {
    let opened = World::open(alloc, shape, passes).err();
    assert_eq!(rt; opened, Some(WorldRefusal::Passes));
    let wanted = (0, CoreRefusal::NoSuchPass);
    expect_stop(rt, alloc, shape, passes, &[], wanted);
}

#[test]
fn refuses_numbers_of_passes(rt: HostRuntime) -> Result<(), Fail> {
    let shape = Shape::new(1, 1, 10)?;
    for passes in [0, 65] {
        expect_refused(&rt, rt.alloc(), shape, passes);
    }
    assert!(rt; World::open(rt.alloc(), shape, 64).is_ok());
    assert!(rt; replay(rt.alloc(), shape, 1, &[]).is_ok());
    Ok(())
}
