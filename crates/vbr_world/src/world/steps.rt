// What can be said of a step alone, and of the word that it found.
ghost use Rattle.std.specs.Prelude.{◌≡◌, ◌↔◌, IsTrue};
ghost use Rattle.vbr_words.specs.Places as places;
ghost use Rattle.vbr_machine.specs.Acceptance.{IsAtIn, IsNextIn, IsOpIn, IsInShape, IsBelowLast};
ghost use Rattle.vbr_machine.specs.Learning.{present_reply, effect_of, succeeds};
ghost use Rattle.vbr_machine.specs.Machine.{place_of_step};
ghost use Rattle.vbr_machine.specs.Making.{exchanged, taken, confirmed};

use crate::world::numbers::{has_flag, number_of};
use crate::world::start::Start;
use vbr_machine::{Effect, Op, Step};
use vbr_words::flags::word_of_flag;
use vbr_words::{At, Place};

// Whether a place of a link word is one of the shape.
fn is_at_in(start: &Start, place: At) -> bool
    ensures { IsTrue result ↔ IsAtIn start.now place }
{
    match place {
        At::Head(bucket) => bucket < start.buckets(),
        At::Slot(slot) => slot < start.slots(),
    }
}

// Whether what a link names, if anything, is a slot of the shape.
fn is_next_in(start: &Start, next: Option<u32>) -> bool
    ensures { IsTrue result ↔ IsNextIn start.now next }
{
    match next {
        None => true,
        Some(slot) => slot < start.slots(),
    }
}

// Whether an operation is one of the shape.
fn is_op_in(start: &Start, op: Op) -> bool
    ensures { IsTrue result ↔ IsOpIn start.now op }
{
    match op {
        Op::Get => start.has_values(),
        Op::Insert | Op::Remove | Op::Has => true,
    }
}

// Whether the slots and places that the step's fields name are those of the shape, and nodes have
// values if the step asks for one.
pub fn is_in_shape(start: &Start, step: Step) -> bool
    ensures { IsTrue result ↔ IsInShape start.now step }
{
    match step {
        Step::ReadEpoch | Step::Advance { .. } => true,
        Step::LoadStamp { slot } => slot < start.slots(),
        Step::PeekBirth { slot } => slot < start.slots(),
        Step::StoreStamp { slot, .. } => slot < start.slots(),
        Step::Raise { slot } => slot < start.slots(),
        Step::TakeFlag { slot } => slot < start.slots(),
        Step::StoreBirth { slot, .. } => slot < start.slots(),
        Step::StoreKey { slot, .. } => slot < start.slots(),
        Step::StoreValue { slot, .. } => slot < start.slots() && start.has_values(),
        Step::StoreLink { slot, next } => slot < start.slots() && is_next_in(start, next),
        Step::LoadLink { at: place } => is_at_in(start, place),
        Step::LoadBirth { slot } => slot < start.slots(),
        Step::LoadKey { slot } => slot < start.slots(),
        Step::LoadValue { slot } => slot < start.slots() && start.has_values(),
        Step::Publish { pred, slot, .. } => is_at_in(start, pred) && slot < start.slots(),
        Step::Mark { slot, .. } => slot < start.slots(),
        Step::Replace { slot, new, .. } => {
            slot < start.slots() && new < start.slots() && start.has_values()
        }
        Step::Unlink { pred, slot, .. } => is_at_in(start, pred) && slot < start.slots(),
        Step::ConfirmPresent { op, slot, .. } => slot < start.slots() && is_op_in(start, op),
        Step::ConfirmAbsent { op, at: place, .. } => is_at_in(start, place) && is_op_in(start, op),
    }
}

// Whether the epoch that the step would advance is below the last.
pub fn is_below_last(start: &Start, step: Step) -> bool
    ensures { IsTrue result ↔ IsBelowLast start.now step }
{
    match step {
        Step::Advance { from } => from < start.last_epoch(),
        _ => true,
    }
}

// The place of a link word.
fn place_of_at(place: At) -> Place
    ensures { result ≡ places.place_of place }
{
    match place {
        At::Head(bucket) => Place::Head(bucket),
        At::Slot(slot) => Place::LinkOf(slot),
    }
}

// The place of the one word that a step loads, stores or exchanges.
pub fn place_of_step(step: Step) -> Place
    ensures { result ≡ place_of_step step }
{
    match step {
        Step::ReadEpoch | Step::Advance { .. } => Place::Epoch,
        Step::LoadStamp { slot } | Step::StoreStamp { slot, .. } => Place::Stamp(slot),
        Step::Raise { slot } | Step::TakeFlag { slot } => Place::Flags(word_of_flag(slot)),
        Step::StoreBirth { slot, .. } | Step::LoadBirth { slot } => Place::Birth(slot),
        Step::PeekBirth { slot } => Place::Birth(slot),
        Step::StoreKey { slot, .. } | Step::LoadKey { slot } => Place::Key(slot),
        Step::StoreValue { slot, .. } | Step::LoadValue { slot } => Place::Value(slot),
        Step::StoreLink { slot, .. } | Step::Mark { slot, .. } => Place::LinkOf(slot),
        Step::Replace { slot, .. } | Step::ConfirmPresent { slot, .. } => Place::LinkOf(slot),
        Step::LoadLink { at: place } | Step::ConfirmAbsent { at: place, .. } => place_of_at(place),
        Step::Publish { pred, .. } | Step::Unlink { pred, .. } => place_of_at(pred),
    }
}

// Whether a step succeeds that found this word.
pub fn succeeds(step: Step, found: u128) -> bool
    ensures { result ≡ succeeds step found }
{
    match step {
        Step::Advance { from } => found == u128::from(from),
        Step::TakeFlag { slot } => has_flag(found, slot),
        Step::Publish { expected, .. } => found == number_of(expected),
        Step::Mark { expected, .. } => found == number_of(expected),
        Step::Replace { expected, .. } => found == number_of(expected),
        Step::Unlink { expected, .. } => found == number_of(expected),
        Step::ConfirmPresent { expected, .. } => found == number_of(expected),
        Step::ConfirmAbsent { expected, .. } => found == number_of(expected),
        _ => true,
    }
}

// The answer of an exchange.
fn exchanged(expected: u128, found: u128) -> Effect
    ensures { result ≡ exchanged expected found }
{
    if found == expected {
        Effect::Won
    } else {
        Effect::Lost(found)
    }
}

// The answer of a step that takes the flag of a slot.
fn taken(slot: u32, found: u128) -> Effect
    ensures { result ≡ taken slot found }
{
    if has_flag(found, slot) {
        Effect::Won
    } else {
        Effect::Lost(found)
    }
}

// The answer of a confirming load.
fn confirmed(reply: bool, expected: u128, found: u128) -> Effect
    ensures { result ≡ confirmed reply expected found }
{
    if found == expected {
        Effect::Answered(reply)
    } else {
        Effect::Lost(found)
    }
}

// The reply that the presence of the key gives to an operation.
pub fn present_reply(op: Op) -> bool
    ensures { result ≡ present_reply op }
{
    match op {
        Op::Has | Op::Get => true,
        Op::Insert | Op::Remove => false,
    }
}

// The effect of a step, from the word that it found.
pub fn effect_of(step: Step, found: u128) -> Effect
    ensures { result ≡ effect_of step found }
{
    match step {
        Step::Advance { from } => exchanged(u128::from(from), found),
        Step::StoreStamp { .. } | Step::Raise { .. } | Step::StoreBirth { .. } => Effect::Done,
        Step::StoreKey { .. } | Step::StoreValue { .. } | Step::StoreLink { .. } => Effect::Done,
        Step::TakeFlag { slot } => taken(slot, found),
        Step::Publish { expected, .. } => exchanged(number_of(expected), found),
        Step::Mark { expected, .. } => exchanged(number_of(expected), found),
        Step::Replace { expected, .. } => exchanged(number_of(expected), found),
        Step::Unlink { expected, .. } => exchanged(number_of(expected), found),
        Step::ConfirmPresent { op, expected, .. } => {
            confirmed(present_reply(op), number_of(expected), found)
        }
        Step::ConfirmAbsent { expected, .. } => confirmed(false, number_of(expected), found),
        Step::ReadEpoch | Step::LoadStamp { .. } | Step::LoadLink { .. } => Effect::Value(found),
        Step::LoadBirth { .. } | Step::LoadKey { .. } | Step::LoadValue { .. } => {
            Effect::Value(found)
        }
        Step::PeekBirth { .. } => Effect::Value(found),
    }
}
