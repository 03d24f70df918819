// What a pass learns from its step, and the calls that the step makes.
ghost use Rattle.std.specs.Prelude.{◌≡◌, ◌<◌, length, Some, None, OnOk, OnErr};
ghost use Rattle.vbr_machine.specs.Acceptance.{Accepts};
ghost use Rattle.vbr_machine.specs.Learning.{learn};
ghost use Rattle.vbr_machine.specs.Making.{ahead_made, call_made};
ghost use Rattle.vbr_world.specs.Growth.{ReadsMore, RefusesMemory};
ghost use Rattle.vbr_world.specs.WorldInLists.{world_of};
ghost use Rattle.vbr_world.specs.KeptSteps.{IsAcceptedIn, KeepsStart, found_in};
ghost use Rattle.vbr_world.specs.KeptLearning.{HasRoomInWords, HaveSlots, FitsFound, LearnsAt, known_by};
ghost use Rattle.vbr_world.specs.Answering.{IsAcceptedShowing, with_answer};

use crate::world::lists::Lists;
use crate::world::passes::PassState;
use crate::world::start::Start;
use std::alloc::AllocError;
use vbr_machine::{Call, Event};

impl Lists {
    // The pass learns from an accepted step, and the calls of a step that succeeds are kept. All
    // memory is taken before anything changes, and it lacks only if a list gets longer.
    pub(super) fn learn(&mut self, event: &Event, found: u128) -> Result<(), AllocError>
        requires accepted { IsAcceptedIn self.old event.now }
        requires found { found ≡ found_in self.old event.now.step }
        requires room { FitsFound event.now.step found }
        ensures learned { OnOk result (world_of self.new
            ≡ with_answer self.old.start (world_of self.old) event.now.pass event.now.step) }
        ensures refused { OnErr result (RefusesMemory self.old self.new event.now) }
        ensures epoch { self.new.epoch ≡ self.old.epoch }
        ensures stays { KeepsStart self.old self.new }
    {
        let stamp = self.stamp_shown(event.step);
        match self.call_made(event, found) {
            None => {
                learn_at(&mut self.passes, &self.start, event, found, stamp)?;
                Ok(())
            }
            Some(call) => {
                let ahead = self.ahead_made(event, found);
                self.learn_calling(event, found, stamp, ahead, call)
            }
        }
    }

    // As `learn`, of a step that makes a call, and maybe another ahead of it.
    fn learn_calling(
        &mut self,
        event: &Event,
        found: u128,
        stamp: u64,
        ahead: Option<Call>,
        call: Call,
    ) -> Result<(), AllocError>
        requires step { IsAcceptedShowing self.old event.now found stamp }
        requires ahead { ahead_made self.old.start (world_of self.old) event.now.pass event.now.step
            ≡ ahead }
        requires call { call_made self.old.start (world_of self.old) event.now.pass event.now.step
            ≡ Some call }
        ensures learned { OnOk result (world_of self.new
            ≡ with_answer self.old.start (world_of self.old) event.now.pass event.now.step) }
        ensures refused { OnErr result (RefusesMemory self.old self.new event.now) }
        ensures epoch { self.new.epoch ≡ self.old.epoch }
        ensures stays { KeepsStart self.old self.new }
    {
        match ahead {
            None => {
                self.calls.reserve(1)?;
                learn_at(&mut self.passes, &self.start, event, found, stamp)?;
                self.calls.push_reserved(call);
                Ok(())
            }
            Some(first) => {
                self.calls.reserve(2)?;
                learn_at(&mut self.passes, &self.start, event, found, stamp)?;
                self.calls.push_reserved(first);
                self.calls.push_reserved(call);
                Ok(())
            }
        }
    }
}

// The pass of an event learns from its step.
fn learn_at(
    passes: &mut Vec<PassState>,
    start: &Start,
    event: &Event,
    found: u128,
    stamp: u64,
) -> Result<(), AllocError>
    requires pass { event.now.pass < length passes.old.items }
    requires slots { HaveSlots start.now.shape.slots passes.old.items }
    requires accepted { Accepts start.now (known_by passes.old.items event.now.pass)
        event.now.step }
    requires room { HasRoomInWords event.now.step found }
    ensures learned { OnOk result
        (LearnsAt passes.old.items passes.new.items event.now.pass
        (learn event.now.step found stamp)) }
    ensures refused { OnErr result (passes.new.items ≡ passes.old.items) }
    ensures grows { OnErr result (ReadsMore (known_by passes.old.items event.now.pass)
        (learn event.now.step found stamp (known_by passes.old.items event.now.pass))) }
    ensures slots { HaveSlots start.now.shape.slots passes.new.items }
{
    let pass = &mut passes[event.pass as usize];
    pass.learn(start, &event.step, found, stamp)
}
