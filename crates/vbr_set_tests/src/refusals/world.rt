//! The world of the machine.
use crate::refusals::round::is_right;
use std::alloc::Global;
use vbr_event_lists::two_helpers;
use vbr_words::{At, Shape};
use vbr_world::{CoreRefusal, Effect, Event, Step, World, WorldRefusal, replay};

// A world, and whether memory was refused.
fn open(alloc: Global, shape: Shape) -> Option<(World, bool)> {
    match World::open(alloc, shape, 2) {
        Ok(world) => Some((world, false)),
        Err(WorldRefusal::NoMemory) => Some((World::open(alloc, shape, 2).ok()?, true)),
        Err(WorldRefusal::Passes) => None,
    }
}

// Makes a step, and says whether memory was refused, which leaves the world as it was.
fn try_step(world: &mut World, event: &Event) -> Option<(Result<Effect, CoreRefusal>, bool)> {
    let calls = world.calls().len();
    let births = world.incarnations();
    let answer = world.step(*event);
    if answer != Err(CoreRefusal::NoMemory) {
        return Some((answer, false));
    }
    if world.calls().len() != calls || world.incarnations() != births {
        return None;
    }
    Some((world.step(*event), true))
}

// Makes a step that has this effect, and says whether memory was refused.
fn step(world: &mut World, event: &Event, effect: Effect) -> Option<bool> {
    let (answer, refused) = try_step(world, event)?;
    (answer == Ok(effect)).then_some(refused)
}

// Opens a world with three keys, which it has whether or not memory was refused.
fn opens_with_three(alloc: Global) -> Option<bool> {
    let shape = Shape::new(4, 2, 10).ok()?;
    let (world, refused) = match World::open_with(alloc, shape, 2, &[2, 5, 9]) {
        Ok(world) => (world, false),
        Err(WorldRefusal::NoMemory) => {
            (World::open_with(alloc, shape, 2, &[2, 5, 9]).ok()?, true)
        }
        Err(WorldRefusal::Passes) => return None,
    };
    (world.incarnations() == 3).then_some(refused)
}

#[test]
fn world_opens_with_three(rt: HostRuntime) {
    is_right(&rt, opens_with_three(rt.alloc()));
}

// Opens a world, and steps through a worked list.
fn opens_and_steps(alloc: Global) -> Option<bool> {
    let shape = Shape::new(3, 1, 10).ok()?;
    let (mut world, mut refused) = open(alloc, shape)?;
    for (pass, made, effect) in two_helpers() {
        let event = Event { pass, step: made };
        refused |= step(&mut world, &event, effect)?;
    }
    Some(refused)
}

#[test]
fn world_opens_and_steps(rt: HostRuntime) {
    is_right(&rt, opens_and_steps(rt.alloc()));
}

// Events that grow the lists of a world: an incarnation is born in a slot, which is free, and a link is read.
pub fn births(slot: u32) -> [Event; 5] {
    let steps = [
        Step::ReadEpoch,
        Step::TakeFlag { slot },
        Step::StoreBirth { slot, birth: 1 },
        Step::LoadLink { at: At::Head(0) },
        Step::ReadEpoch,
    ];
    steps.map(|step| Event { pass: 0, step })
}

// The world that a list of events leads to.
fn replays(alloc: Global) -> Option<bool> {
    let shape = Shape::new(3, 1, 10).ok()?;
    let events = births(0);
    let (world, refused) = match replay(alloc, shape, 2, &events) {
        Ok(world) => (world, false),
        Err((_, CoreRefusal::NoMemory)) => (replay(alloc, shape, 2, &events).ok()?, true),
        Err(_) => return None,
    };
    (world.incarnations() == 1).then_some(refused)
}

#[test]
fn world_replays(rt: HostRuntime) {
    is_right(&rt, replays(rt.alloc()));
}
