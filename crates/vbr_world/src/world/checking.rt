// Whether an event is accepted, and what its pass has for it.
ghost use Rattle.std.specs.Prelude.{◌≡◌, ◌≢◌, ◌<◌, true, length, OnOk, IfErr};
ghost use Rattle.vbr_words.specs.Words.{link_of};
ghost use Rattle.vbr_machine.specs.Acceptance.{IsInShape};
ghost use Rattle.vbr_machine.specs.Learning.{link_written, succeeds, key_written};
ghost use Rattle.vbr_machine.specs.Making.{ahead_made, call_made};
ghost use Rattle.vbr_world.specs.Answering.{WordsHaveRoom};
ghost use Rattle.vbr_machine.specs.Machine as machine;
ghost use Rattle.vbr_world.specs.WorldInLists.{world_of};
ghost use Rattle.vbr_world.specs.KeptSteps.{IsAcceptedIn, IsRefusedIn, found_in};

use crate::world::lists::Lists;
use crate::world::steps::{is_below_last, is_in_shape, succeeds};
use vbr_machine::{Call, CoreRefusal, Event, Step};
use vbr_words::WideWord;
use vbr_words::link::MAX_VERSION;

impl Lists {
    // Accepts an event, or says why not. It takes no memory.
    pub(super) fn check(&self, event: &Event) -> Result<(), CoreRefusal>
        ensures accepted { OnOk result (IsAcceptedIn self.now event.now) }
        ensures refused { IfErr result (IsRefusedIn self.now event.now) }
        ensures memory { IfErr result (λ why. why ≢ CoreRefusal.NoMemory) }
    {
        if event.pass as usize >= self.passes.len() {
            return Err(CoreRefusal::NoSuchPass);
        }
        if !is_in_shape(&self.start, event.step) {
            return Err(CoreRefusal::OutOfRange);
        }
        let pass = &self.passes[event.pass as usize];
        if !pass.owns(&self.start, event.step) {
            return Err(CoreRefusal::NotOwned);
        }
        if !pass.holds(&self.start, event.step) {
            return Err(CoreRefusal::NotHeld);
        }
        if !pass.is_in_range(&self.start, event.step) {
            return Err(CoreRefusal::OutOfRange);
        }
        if !is_below_last(&self.start, event.step) {
            return Err(CoreRefusal::EpochLast);
        }
        Ok(())
    }

    // The word of the link that an accepted step writes. The words have room for what the step
    // writes if it succeeds: a birth is an epoch that the pass has read.
    pub(super) fn link_written(&self, event: &Event) -> WideWord
        requires { IsAcceptedIn self.now event.now }
        ensures link { link_of result
            ≡ link_written ((world_of self.now).know event.now.pass) event.now.step }
        ensures room { succeeds event.now.step (found_in self.now event.now.step) ≡ true →
            WordsHaveRoom self.now.start self.now.epoch event.now.step }
    {
        let pass = &self.passes[event.pass as usize];
        prove!(pass.epoch() <= MAX_VERSION);
        pass.link_written(&self.start, event.step)
    }

    // The key of the slot that a step links.
    pub(super) fn key_written(&self, event: &Event) -> u64
        requires pass { event.now.pass < length self.now.passes }
        requires in_shape { IsInShape self.now.start event.now.step }
        ensures { result ≡ key_written ((world_of self.now).know event.now.pass) event.now.step }
    {
        match event.step {
            Step::Publish { slot, .. } => {
                let pass = &self.passes[event.pass as usize];
                pass.key_in_hand(slot)
            }
            Step::Replace { new, .. } => {
                let pass = &self.passes[event.pass as usize];
                pass.key_in_hand(new)
            }
            _ => 0,
        }
    }

    // The call that a pass makes with a step ahead of its own, if it makes one.
    pub(super) fn ahead_made(&self, event: &Event, found: u128) -> Option<Call>
        requires pass { event.now.pass < length self.now.passes }
        requires found { found ≡ found_in self.now event.now.step }
        ensures { result ≡ ahead_made self.now.start (world_of self.now) event.now.pass
            event.now.step }
    {
        match event.step {
            Step::Replace { .. } if succeeds(event.step, found) => {
                let pass = &self.passes[event.pass as usize];
                pass.call_ahead(event.pass, &self.start, event.step)
            }
            _ => None,
        }
    }

    // The call that a pass makes with a step, if it makes one.
    pub(super) fn call_made(&self, event: &Event, found: u128) -> Option<Call>
        requires pass { event.now.pass < length self.now.passes }
        requires in_shape { IsInShape self.now.start event.now.step }
        requires found { found ≡ found_in self.now event.now.step }
        ensures { result ≡ call_made self.now.start (world_of self.now) event.now.pass
            event.now.step }
    {
        if succeeds(event.step, found) {
            let pass = &self.passes[event.pass as usize];
            pass.call(event.pass, &self.start, event.step)
        } else {
            None
        }
    }

    // The stamp of the slot that a step takes.
    pub(super) fn stamp_shown(&self, step: Step) -> u64
        requires { IsInShape self.now.start step }
        ensures { result ≡ machine.stamp_shown (world_of self.now) step }
    {
        match step {
            Step::TakeFlag { slot } => self.stamps[slot as usize],
            _ => 0,
        }
    }
}
