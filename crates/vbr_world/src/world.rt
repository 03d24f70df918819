//! The machine as a program: a world that makes steps one at a time, plain and exact.
ghost use Rattle.std.specs.Prelude.{[], ◌≡◌, ◌<◌, ◌≤◌, ◌↔◌, length, ◌⊎◌, IfOk, IfErr, IsErrOf, Err, true, false};
ghost use Rattle.std.specs.List.Sorted.{IsStrictlyIncreasing};
ghost use Rattle.vbr_words.specs.Places.{IsIn};
ghost use Rattle.vbr_machine.specs.Opened.{opening_keys, opening_payloads};
ghost use Rattle.vbr_machine.specs.Start.{ArePaired, empty_start, start_with};
ghost use Rattle.vbr_machine.specs.Maps.{keys_listed, values_listed};
ghost use Rattle.vbr_machine.specs.History.{IsLegal, GiveStored};
ghost use Rattle.vbr_machine.specs.Machine as machine;
ghost use Rattle.vbr_world.specs.Replays.{IsReplayed, StopsAt};
ghost use Rattle.vbr_world.specs.WorldInLists.{world_of};
ghost use Rattle.vbr_world.specs.KeptSteps.{IsMade, RefusesEvent, KeepsStart};
ghost use Rattle.vbr_world.specs.KeptOpenings.{IsOpening};
ghost use Rattle.vbr_machine.specs.declared.event.Event.{Event};

mod checking;
mod holdings;
mod learning;
mod lists;
mod numbers;
mod opening;
mod passes;
mod reads;
mod start;
mod steps;
mod writing;

use crate::world::lists::Lists;
use std::alloc::Global;
use std::error::Error;
use std::fmt;
use std::marker::Model;
use vbr_machine::{Call, CoreRefusal, Effect, Event, SlotPlace, keys_and_values};
use vbr_words::{Place, Shape};

/// The words and places of a set, what each of its passes knows, and the calls that were answered,
/// after a run: only steps that are accepted change it.
#[derive(Drop)]
pub struct World {
    lists: Lists,
}

impl Model for World {
    ghost use Rattle.vbr_world.specs.WorldInLists.{KeptWorld};
    ghost use Rattle.vbr_world.specs.Reached.{IsReached};

    ghost Value = { KeptWorld };

    ghost view = { λ w. w.lists };

    ghost invariant = { λ w. IsReached w.lists };
}

impl fmt::Debug for World {
    fn fmt<W: fmt::Write>(&self, f: &mut fmt::Formatter<W>) -> fmt::Result {
        f.debug_struct("World")
            .field("epoch", &self.lists.epoch)
            .field("calls", &self.lists.calls)
            .finish_non_exhaustive()
    }
}

/// Why a world isn't opened. The tests are made in this order.
#[derive(Clone, Copy, Debug, PartialEq, Eq)]
pub enum WorldRefusal {
    /// The number of passes is 0 or above 64.
    Passes,
    /// There is no memory for the world.
    NoMemory,
}

impl fmt::Display for WorldRefusal {
    ghost use Rattle.std.specs.Prelude.{Some};
    ghost use Rattle.vbr_world.specs.OpeningMessages.{opening_text};

    ghost output = { λ e. Some (opening_text e) };

    fn fmt<W: fmt::Write>(&self, f: &mut fmt::Formatter<W>) -> fmt::Result {
        match self {
            WorldRefusal::Passes => write!(f, "the number of passes is not from 1 to 64"),
            WorldRefusal::NoMemory => write!(f, "there is no memory for the world"),
        }
    }
}

impl Error for WorldRefusal {}

impl World {
    /// The world at opening: the epoch is 1, the buckets are empty, every slot is in the shared
    /// pool, and so many passes, from 1 to 64, know nothing. The refusals are tested in the order
    /// of [`WorldRefusal`].
    pub fn open(alloc: Global, shape: Shape, passes: u32) -> Result<World, WorldRefusal>
        ensures opening { IfOk result (IsOpening (empty_start shape) passes) }
        ensures passes { IsErrOf result WorldRefusal.Passes ↔ ((passes ≡ 0) ⊎ (64 < passes)) }
    {
        prove!(shape.slots() > 0);
        World::opened(alloc, shape, passes, &[], &[])
    }

    /// The world of a set that opens with these keys, ascending and at most as many as slots. Key
    /// number i, from 0, stands in slot i, was born at epoch 1, and is linked in the list of its
    /// bucket; the rest is as [`World::open`] has it, and so are the refusals.
    pub fn open_with(
        alloc: Global,
        shape: Shape,
        passes: u32,
        keys: &[u64],
    ) -> Result<World, WorldRefusal>
        requires valueless { shape.values ≡ false }
        requires ascending { IsStrictlyIncreasing keys.now }
        requires few { length keys.now ≤ shape.slots }
        ensures opening { IfOk result (IsOpening (start_with shape keys.now []) passes) }
        ensures passes { IsErrOf result WorldRefusal.Passes ↔ ((passes ≡ 0) ⊎ (64 < passes)) }
    {
        prove!(shape.slots() > 0);
        World::opened(alloc, shape, passes, keys, &[])
    }

    /// The world of a map that opens with these entries, keys with their values. The keys ascend,
    /// and there are at most as many as slots. Each value stands in the slot of its key; the rest
    /// is as [`World::open_with`] has it, and so are the refusals.
    pub fn open_with_entries(
        alloc: Global,
        shape: Shape,
        passes: u32,
        entries: &[(u64, u64)],
    ) -> Result<World, WorldRefusal>
        requires values { shape.values ≡ true }
        requires ascending { IsStrictlyIncreasing (keys_listed entries.now) }
        requires few { length entries.now ≤ shape.slots }
        ensures opening { IfOk result (IsOpening
            (start_with shape (keys_listed entries.now) (values_listed entries.now)) passes) }
        ensures passes { IsErrOf result WorldRefusal.Passes ↔ ((passes ≡ 0) ⊎ (64 < passes)) }
    {
        if passes == 0 || passes > 64 {
            return Err(WorldRefusal::Passes);
        }
        match keys_and_values(alloc, entries) {
            Ok((keys, values)) => World::opened(alloc, shape, passes, &keys, &values),
            Err(_) => Err(WorldRefusal::NoMemory),
        }
    }

    // The world that opens with these keys, and if nodes have values, with a value for each.
    fn opened(
        alloc: Global,
        shape: Shape,
        passes: u32,
        keys: &[u64],
        values: &[u64],
    ) -> Result<World, WorldRefusal>
        requires ascending { IsStrictlyIncreasing keys.now }
        requires few { length keys.now ≤ shape.slots }
        requires paired { ArePaired shape keys.now values.now }
        ensures opening { IfOk result (IsOpening (start_with shape keys.now values.now) passes) }
        ensures passes { IsErrOf result WorldRefusal.Passes ↔ ((passes ≡ 0) ⊎ (64 < passes)) }
    {
        if passes == 0 || passes > 64 {
            return Err(WorldRefusal::Passes);
        }
        match Lists::opened(alloc, shape, passes, keys, values) {
            Ok(lists) => Ok(World { lists }),
            Err(_) => Err(WorldRefusal::NoMemory),
        }
    }

    /// One step. It tests whether the pass is there, whether the step is in the shape, what the
    /// pass owns, what it has checked, the step's numbers, and the last epoch, in that order. Then
    /// the pass learns, and a step that isn't lost writes. Memory is refused only to a step that
    /// makes a list longer: the reads of its pass, pending or checked, or the calls. If a step
    /// is refused, nothing changes.
    pub fn step(&mut self, event: Event) -> Result<Effect, CoreRefusal>
        ensures made { IfOk result (IsMade self.old self.new event) }
        ensures refused { IfErr result (RefusesEvent self.old self.new event) }
        ensures stays { KeepsStart self.old self.new }
    {
        self.lists.step(&event)
    }

    /// The calls that were answered so far. They are a legal history of a set that opened with the
    /// keys that the world opened with, and each gives the value that was stored last.
    pub fn calls(&self) -> &[Call]
        ensures calls { result.now ≡ (world_of self.now).calls }
        ensures legal { IsLegal (opening_keys self.now.start) result.now }
        ensures values { GiveStored (opening_payloads self.now.start) result.now }
    {
        self.lists.calls()
    }

    /// How many incarnations were born so far, counted up to the greatest number.
    pub fn incarnations(&self) -> u64
        ensures { result ≡ (world_of self.now).births }
    {
        self.lists.births
    }

    /// The word at a place of the shape. Of a link word it is the number, as `WideWord` has it.
    pub fn word(&self, place: Place) -> u128
        requires { IsIn self.now.start.shape place }
        ensures { result ≡ machine.word_at self.now.start (world_of self.now) place }
    {
        self.lists.word(place)
    }

    /// Where a slot of the shape is.
    pub fn place_of_slot(&self, slot: u32) -> SlotPlace
        requires { slot < self.now.start.shape.slots }
        ensures { result ≡ (world_of self.now).place slot }
    {
        self.lists.place_of_slot(slot)
    }
}

/// The world that events lead to, one after another from the opening on; or the index, from 0, of
/// the first that is refused, and why. A number of passes that is 0 or above 64 is refused as
/// `(0, NoSuchPass)`, and want of memory at the opening as `(0, NoMemory)`.
pub fn replay(
    alloc: Global,
    shape: Shape,
    passes: u32,
    events: &[Event],
) -> Result<World, (usize, CoreRefusal)>
    ensures run { IfOk result (IsReplayed (empty_start shape) passes events.now) }
    ensures passes { ((passes ≡ 0) ⊎ (64 < passes)) → result ≡ Err (0, CoreRefusal.NoSuchPass) }
    ensures stops { IfErr result (λ e. StopsAt (empty_start shape) passes events.now e.0 e.1) }
{
    match World::open(alloc, shape, passes) {
        Ok(world) => go_on(world, events),
        Err(WorldRefusal::Passes) => Err((0, CoreRefusal::NoSuchPass)),
        Err(WorldRefusal::NoMemory) => Err((0, CoreRefusal::NoMemory)),
    }
}

/// The world of a map that events lead to from its opening with these entries on, as
/// [`World::open_with_entries`] has it; the rest is as [`replay`] has it, and so are the refusals.
pub fn replay_with_entries(
    alloc: Global,
    shape: Shape,
    passes: u32,
    entries: &[(u64, u64)],
    events: &[Event],
) -> Result<World, (usize, CoreRefusal)>
    requires values { shape.values ≡ true }
    requires ascending { IsStrictlyIncreasing (keys_listed entries.now) }
    requires few { length entries.now ≤ shape.slots }
    ensures run { IfOk result (IsReplayed
        (start_with shape (keys_listed entries.now) (values_listed entries.now))
        passes events.now) }
    ensures passes { ((passes ≡ 0) ⊎ (64 < passes)) → result ≡ Err (0, CoreRefusal.NoSuchPass) }
    ensures stops { IfErr result (λ e. StopsAt
        (start_with shape (keys_listed entries.now) (values_listed entries.now))
        passes events.now e.0 e.1) }
{
    match World::open_with_entries(alloc, shape, passes, entries) {
        Ok(world) => go_on(world, events),
        Err(WorldRefusal::Passes) => Err((0, CoreRefusal::NoSuchPass)),
        Err(WorldRefusal::NoMemory) => Err((0, CoreRefusal::NoMemory)),
    }
}

// The world that events lead to from one that was just opened; or where they stop, and why.
fn go_on(mut world: World, events: &[Event]) -> Result<World, (usize, CoreRefusal)>
    requires opening { IsOpening world.start (length world.passes) world }
    ensures run { IfOk result (IsReplayed world.start (length world.passes) events.now) }
    ensures stops { IfErr result
        (λ e. StopsAt world.start (length world.passes) events.now e.0 e.1) }
{
    prove!(world.lists.start.slots() > 0);
    for (index, event) in events.iter().enumerate() {
        if let Err(refusal) = world.step(*event) {
            return Err((index, refusal));
        }
    }
    Ok(world)
}
