// What a pass learns from its steps.
ghost use Rattle.std.specs.Prelude.{◌≡◌, ◌<◌, ◌≤◌, length, Some, None, OnOk, OnErr};
ghost use Rattle.std.specs.List.{AllByRecursion};
ghost use Rattle.vbr_words.specs.Words.{IsLink};
ghost use Rattle.vbr_words.specs.declared.link.TheConstants.{MAX_VERSION};
ghost use Rattle.vbr_machine.specs.Acceptance.{Accepts, stamp_in};
ghost use Rattle.vbr_machine.specs.Learning.{newborn, learn, with_own, with_checked, with_pending, read_epoch};
ghost use Rattle.vbr_world.specs.Growth.{ReadsMore};
ghost use Rattle.vbr_world.specs.WorldInLists.{know_of, FitsRead, FitsHolding};
ghost use Rattle.vbr_world.specs.KeptLearning.{HasRoomInWords, Learns, with_all_checked, with_all_reread, with_epoch, with_linked, know_with_won};

use crate::world::holdings;
use crate::world::numbers::{has_flag, link_of, number_of};
use crate::world::passes::PassState;
use crate::world::start::Start;
use std::alloc::AllocError;
use vbr_machine::{Holding, Read, Step};
use vbr_words::{At, Link};

impl PassState {
    // What the pass knows of a slot is changed.
    fn put(&mut self, slot: u32, holding: Option<Holding>)
        requires slot { slot < length self.old.own }
        requires fits { FitsHolding holding }
        ensures { Learns self.old self.new (λ know. with_own know slot holding) }
    {
        self.own[slot as usize] = holding;
    }

    // One more read is pending.
    fn add_pending(&mut self, read: Read) -> Result<(), AllocError>
        requires { FitsRead read }
        ensures learned { OnOk result (Learns self.old self.new (λ know. with_pending know read)) }
        ensures refused { OnErr result (self.new ≡ self.old) }
    {
        Ok(self.pending.push(read)?)
    }

    // More reads are checked.
    fn add_checked(&mut self, reads: &[Read]) -> Result<(), AllocError>
        requires { AllByRecursion FitsRead reads.now }
        ensures learned { OnOk result
            (Learns self.old self.new (λ know. with_checked know reads.now)) }
        ensures refused { OnErr result (self.new ≡ self.old) }
    {
        Ok(self.checked.extend_from_slice(reads)?)
    }

    // The epoch hasn't moved: the pending reads are checked. Memory lacks only if there are any.
    fn confirm(&mut self) -> Result<(), AllocError>
        ensures learned { OnOk result (Learns self.old self.new with_all_checked) }
        ensures refused { OnErr result (self.new ≡ self.old) }
        ensures grows { OnErr result (0 < length self.old.pending) }
    {
        self.checked.extend_from_slice(&self.pending)?;
        self.pending.clear();
        Ok(())
    }

    // The epoch has moved: nothing that was read counts any more.
    fn forget(&mut self, epoch: u64)
        requires { epoch ≤ MAX_VERSION }
        ensures { Learns self.old self.new (with_epoch epoch) }
    {
        self.epoch = epoch;
        self.pending.clear();
        self.checked.clear();
    }

    // An epoch is read: the slots that the pass unlinked may be stamped with it.
    fn reread(&mut self)
        ensures { Learns self.old self.new with_all_reread }
    {
        holdings::reread_all(&mut self.own);
    }

    // The pass has read this epoch.
    fn read_epoch(&mut self, epoch: u64) -> Result<(), AllocError>
        requires { epoch ≤ MAX_VERSION }
        ensures learned { OnOk result (Learns self.old self.new (λ know. read_epoch know epoch)) }
        ensures refused { OnErr result (self.new ≡ self.old) }
        ensures grows { OnErr result
            (ReadsMore (know_of self.old) (read_epoch (know_of self.old) epoch)) }
    {
        if epoch == self.epoch {
            self.confirm()?;
        } else {
            self.forget(epoch);
        }
        self.reread();
        Ok(())
    }

    // A new incarnation is born in a slot: it is in hand.
    fn bear(&mut self, slot: u32, birth: u64)
        requires slot { slot < length self.old.own }
        requires birth { birth ≡ self.old.epoch }
        ensures { Learns self.old self.new (λ know. with_own know slot
            (Some (Holding.InHand (newborn (stamp_in (know.own slot)) birth)))) }
    {
        let stamp = holdings::stamp_in(self.own[slot as usize]);
        self.put(slot, Some(Holding::InHand(holdings::newborn(stamp, birth))));
    }

    // A slot in hand was linked at a place, by this link: both links are checked then, with what was
    // stored in the slot, and it is no longer the pass's.
    fn learn_linked(&mut self, place: At, link: Link, slot: u32) -> Result<(), AllocError>
        requires slot { slot < length self.old.own }
        requires fits { IsLink link }
        ensures learned { OnOk result (Learns self.old self.new (with_linked place link slot)) }
        ensures refused { OnErr result (self.new ≡ self.old) }
    {
        let holding = self.holding(slot);
        let birth = holdings::birth_in_hand(holding);
        let key = holdings::key_in_hand(holding);
        let own_link = holdings::link_in_hand(holding);
        match holdings::value_in_hand(holding) {
            None => self.add_checked(&[
                Read::LinkAt(place, link),
                Read::BirthOf(slot, birth),
                Read::KeyOf(slot, key),
                Read::LinkAt(At::Slot(slot), own_link),
            ])?,
            Some(value) => self.add_checked(&[
                Read::LinkAt(place, link),
                Read::BirthOf(slot, birth),
                Read::KeyOf(slot, key),
                Read::LinkAt(At::Slot(slot), own_link),
                Read::ValueOf(slot, value),
            ])?,
        }
        self.put(slot, None);
        Ok(())
    }

    // An exchange of a link has succeeded: the link that it wrote is checked. What was published is
    // no longer the pass's, and what was unlinked is.
    fn learn_won(&mut self, start: &Start, step: &Step) -> Result<(), AllocError>
        requires slots { length self.old.own ≡ start.now.shape.slots }
        requires accepted { Accepts start.now (know_of self.old) step.now }
        ensures learned { OnOk result (Learns self.old self.new (know_with_won step.now)) }
        ensures refused { OnErr result (self.new ≡ self.old) }
    {
        let link = self.new_link(start, *step);
        match step {
            Step::Publish { pred, slot, .. } => self.learn_linked(*pred, link, *slot)?,
            Step::Mark { slot, .. } => self.add_checked(&[Read::LinkAt(At::Slot(*slot), link)])?,
            Step::Replace { slot, new, .. } => self.learn_linked(At::Slot(*slot), link, *new)?,
            Step::Unlink { pred, slot, .. } => {
                self.add_checked(&[Read::LinkAt(*pred, link)])?;
                self.put(*slot, Some(Holding::Unlinked(false)));
            }
            _ => {}
        }
        Ok(())
    }

    // Learns what the step teaches, from the word that it found and the stamp that was shown.
    // If memory is refused nothing is learned, and there would have been more reads.
    pub fn learn(
        &mut self,
        start: &Start,
        step: &Step,
        found: u128,
        stamp: u64,
    ) -> Result<(), AllocError>
        requires slots { length self.old.own ≡ start.now.shape.slots }
        requires accepted { Accepts start.now (know_of self.old) step.now }
        requires room { HasRoomInWords step.now found }
        ensures learned { OnOk result (Learns self.old self.new (learn step.now found stamp)) }
        ensures refused { OnErr result (self.new ≡ self.old) }
        ensures grows { OnErr result
            (ReadsMore (know_of self.old) (learn step.now found stamp (know_of self.old))) }
    {
        match step {
            Step::ReadEpoch => self.read_epoch(found as u64)?,
            Step::LoadLink { at: place } => {
                self.add_pending(Read::LinkAt(*place, link_of(found)))?;
            }
            Step::LoadBirth { slot } => self.add_pending(Read::BirthOf(*slot, found as u64))?,
            Step::LoadKey { slot } => self.add_pending(Read::KeyOf(*slot, found as u64))?,
            Step::LoadValue { slot } => self.add_pending(Read::ValueOf(*slot, found as u64))?,
            Step::StoreStamp { slot, stamp } => self.put(*slot, Some(Holding::Free(*stamp))),
            Step::Raise { slot } => self.put(*slot, None),
            Step::TakeFlag { slot } if has_flag(found, *slot) => {
                self.put(*slot, Some(Holding::Free(stamp)));
            }
            Step::StoreBirth { slot, birth } => self.bear(*slot, *birth),
            Step::StoreKey { slot, key } => {
                let holding = self.holding(*slot);
                self.put(*slot, holdings::with_key(holding, *key));
            }
            Step::StoreValue { slot, value } => {
                let holding = self.holding(*slot);
                self.put(*slot, holdings::with_value(holding, *value));
            }
            Step::StoreLink { slot, .. } => {
                let (holding, link) = (self.holding(*slot), self.new_link(start, *step));
                self.put(*slot, holdings::with_link(holding, link));
            }
            Step::Publish { expected, .. } if found == number_of(*expected) => {
                self.learn_won(start, step)?;
            }
            Step::Mark { expected, .. } if found == number_of(*expected) => {
                self.learn_won(start, step)?;
            }
            Step::Replace { expected, .. } if found == number_of(*expected) => {
                self.learn_won(start, step)?;
            }
            Step::Unlink { expected, .. } if found == number_of(*expected) => {
                self.learn_won(start, step)?;
            }
            _ => {}
        }
        Ok(())
    }
}
