// The world in lists of words, as the program keeps it.
ghost use Rattle.std.specs.Prelude.{◌≡◌, ◌<◌, IfOk, IfErr};
ghost use Rattle.vbr_words.specs.Flags.{flag_word, flag_words};
ghost use Rattle.vbr_words.specs.Places.{IsIn};
ghost use Rattle.vbr_machine.specs.Machine as machine;
ghost use Rattle.vbr_world.specs.WorldInLists.{world_of};
ghost use Rattle.vbr_world.specs.KeptSteps.{IsMade, RefusesEvent, KeepsStart};
ghost use Rattle.vbr_world.specs.KeptLearning.{FitsAt};

use crate::world::numbers::number_of;
use crate::world::passes::PassState;
use crate::world::start::Start;
use crate::world::steps::{effect_of, place_of_step, succeeds};
use std::marker::Model;
use vbr_machine::{Call, CoreRefusal, Effect, Event, SlotPlace};
use vbr_words::flags::FLAGS;
use vbr_words::{Place, WideWord};

// The words and places of a set, what each of its passes knows, and the calls that were answered.
#[derive(Drop)]
pub struct Lists {
    pub(super) start: Start,
    pub(super) epoch: u64,
    pub(super) heads: Vec<WideWord>,
    pub(super) links: Vec<WideWord>,
    pub(super) birth: Vec<u64>,
    pub(super) stamps: Vec<u64>,
    pub(super) keys: Vec<u64>,
    pub(super) values: Vec<u64>,
    pub(super) places: Vec<SlotPlace>,
    pub(super) passes: Vec<PassState>,
    pub(super) births: u64,
    pub(super) calls: Vec<Call>,
}

impl Model for Lists {
    ghost use Rattle.vbr_world.specs.WorldInLists.{KeptWorld, IsWhole};
    ghost use Rattle.vbr_world.specs.WorldView.{kept_in};

    ghost Value = { KeptWorld };

    ghost view = { kept_in };

    ghost invariant = { λ lists. IsWhole (kept_in lists) };
}

impl Lists {
    // One step: the tests, then the pass learns, and a step that isn't lost writes. If a step is
    // refused, nothing changes.
    pub(super) fn step(&mut self, event: &Event) -> Result<Effect, CoreRefusal>
        ensures made { IfOk result (IsMade self.old self.new event.now) }
        ensures refused { IfErr result (RefusesEvent self.old self.new event.now) }
        ensures stays { KeepsStart self.old self.new }
    {
        self.check(event)?;
        let found = self.word(place_of_step(event.step));
        let link = self.link_written(event);
        let key = self.key_written(event);
        let Ok(()) = self.learn(event, found) else {
            return Err(CoreRefusal::NoMemory);
        };
        if succeeds(event.step, found) {
            self.write(event, link, key);
        }
        Ok(effect_of(event.step, found))
    }

    // The calls that were answered so far.
    pub(super) fn calls(&self) -> &[Call]
        ensures { result.now ≡ self.now.calls }
    {
        &self.calls
    }

    // The word at a place of the shape.
    pub(super) fn word(&self, place: Place) -> u128
        requires { IsIn self.now.start.shape place }
        ensures word { result ≡ machine.word_at self.now.start (world_of self.now) place }
        ensures room { FitsAt place result }
    {
        match place {
            Place::Epoch => u128::from(self.epoch),
            Place::ShapeWord => u128::from(self.start.shape_word()),
            Place::Head(bucket) => number_of(self.heads[bucket as usize]),
            Place::LinkOf(slot) => number_of(self.links[slot as usize]),
            Place::Birth(slot) => u128::from(self.birth[slot as usize]),
            Place::Stamp(slot) => u128::from(self.stamps[slot as usize]),
            Place::Key(slot) => u128::from(self.keys[slot as usize]),
            Place::Value(slot) => u128::from(self.values[slot as usize]),
            Place::Flags(number) => u128::from(self.flags(number)),
        }
    }

    // The flag word with a number: the flag of each slot of it that is in the shared pool.
    fn flags(&self, number: u32) -> u64
        requires { number < flag_words self.now.start.shape.slots }
        ensures { result
            ≡ flag_word (machine.is_flagged self.now.start (world_of self.now)) number }
    {
        let _slots = self.start.slots();
        let first = FLAGS * number;
        let mut flags = 0;
        for i in 0..FLAGS {
            if self.is_flagged(first + i) {
                flags += 1 << i;
            }
        }
        flags
    }

    // Whether a slot is one of the shape, and in the shared pool.
    fn is_flagged(&self, slot: u32) -> bool
        ensures { result ≡ machine.is_flagged self.now.start (world_of self.now) slot }
    {
        slot < self.start.slots() && is_shared(self.place_of_slot(slot))
    }

    // Where a slot of the shape is.
    pub(super) fn place_of_slot(&self, slot: u32) -> SlotPlace
        requires { slot < self.now.start.shape.slots }
        ensures { result ≡ (world_of self.now).place slot }
    {
        self.places[slot as usize]
    }
}

// Whether a place is the shared pool.
fn is_shared(place: SlotPlace) -> bool
    ensures { result ≡ machine.is_shared place }
{
    match place {
        SlotPlace::Shared => true,
        _ => false,
    }
}
