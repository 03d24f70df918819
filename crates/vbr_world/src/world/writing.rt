// The words and places that steps write. Each function is for a step that succeeds.
ghost use Rattle.std.specs.Prelude.{◌≡◌, ◌<◌, ◌≤◌};
ghost use Rattle.vbr_words.specs.Words.{link_of};
ghost use Rattle.vbr_words.specs.declared.link.TheConstants.{MAX_VERSION};
ghost use Rattle.vbr_words.specs.Buckets.{bucket_of};
ghost use Rattle.vbr_machine.specs.Acceptance.{IsAtIn, IsInShape};
ghost use Rattle.vbr_machine.specs.Machine.{written};
ghost use Rattle.vbr_world.specs.Answering.{WordsHaveRoom};
ghost use Rattle.vbr_world.specs.KeptWrites.{Writes, with_next_epoch, with_birth_of, with_key_of};
ghost use Rattle.vbr_world.specs.KeptWrites.{with_link_and_place, with_link_of, with_place_of, with_stamp_of, with_value_of};

use crate::world::lists::Lists;
use vbr_machine::{Event, SlotPlace, Step};
use vbr_words::{At, WideWord};

impl Lists {
    // Advances the epoch by one.
    fn advance(&mut self)
        requires { self.old.epoch < self.old.start.shape.last_epoch }
        ensures { Writes self.old self.new with_next_epoch }
    {
        self.epoch += 1;
    }

    // Writes the word of a link.
    pub(super) fn put_link(&mut self, place: At, link: WideWord)
        requires { IsAtIn self.old.start place }
        ensures { Writes self.old self.new (with_link_of place (link_of link)) }
    {
        match place {
            At::Head(bucket) => self.heads[bucket as usize] = link,
            At::Slot(slot) => self.links[slot as usize] = link,
        }
    }

    // Stamps a slot.
    fn store_stamp(&mut self, slot: u32, stamp: u64)
        requires { slot < self.old.start.shape.slots }
        ensures { Writes self.old self.new (with_stamp_of slot stamp) }
    {
        self.stamps[slot as usize] = stamp;
    }

    // Stores the key of a slot.
    pub(super) fn store_key(&mut self, slot: u32, key: u64)
        requires { slot < self.old.start.shape.slots }
        ensures { Writes self.old self.new (with_key_of slot key) }
    {
        self.keys[slot as usize] = key;
    }

    // Stores the value of a slot.
    pub(super) fn store_value(&mut self, slot: u32, value: u64)
        requires { slot < self.old.start.shape.slots }
        ensures { Writes self.old self.new (with_value_of slot value) }
    {
        self.values[slot as usize] = value;
    }

    // Puts a slot where it now is.
    pub(super) fn put_slot(&mut self, slot: u32, place: SlotPlace)
        requires { slot < self.old.start.shape.slots }
        ensures { Writes self.old self.new (with_place_of slot place) }
    {
        self.places[slot as usize] = place;
    }

    // Stores the birth of a slot, and counts it.
    pub(super) fn store_birth(&mut self, slot: u32, birth: u64)
        requires slot { slot < self.old.start.shape.slots }
        requires birth { birth ≤ MAX_VERSION }
        ensures { Writes self.old self.new (with_birth_of slot birth) }
    {
        self.birth[slot as usize] = birth;
        self.births = self.births.saturating_add(1);
    }

    // Gives birth to an incarnation in a slot, which is then in hand.
    fn bear(&mut self, pass: u32, slot: u32, birth: u64)
        requires slot { slot < self.old.start.shape.slots }
        requires birth { birth ≤ MAX_VERSION }
        ensures { Writes self.old self.new
            (λ w. with_place_of slot (SlotPlace.Hand pass) (with_birth_of slot birth w)) }
    {
        self.store_birth(slot, birth);
        self.put_slot(slot, SlotPlace::Hand(pass));
    }

    // The bucket of a key.
    pub(super) fn bucket_of(&self, key: u64) -> u32
        ensures bucket { result ≡ bucket_of self.now.start.shape key }
        ensures in_shape { result < self.now.start.shape.buckets }
    {
        self.start.bucket_of(key)
    }

    // Links a slot into the list of its key's bucket.
    fn publish(&mut self, pred: At, link: WideWord, slot: u32, key: u64)
        requires pred { IsAtIn self.old.start pred }
        requires slot { slot < self.old.start.shape.slots }
        ensures { Writes self.old self.new (with_link_and_place pred (link_of link) slot
            (SlotPlace.Listed (bucket_of self.old.start.shape key))) }
    {
        let bucket = self.bucket_of(key);
        self.put_link(pred, link);
        self.put_slot(slot, SlotPlace::Listed(bucket));
    }

    // Links past a slot, which is then the pass's own.
    fn unlink(&mut self, pass: u32, pred: At, link: WideWord, slot: u32)
        requires pred { IsAtIn self.old.start pred }
        requires slot { slot < self.old.start.shape.slots }
        ensures { Writes self.old self.new
            (with_link_and_place pred (link_of link) slot (SlotPlace.Own pass)) }
    {
        self.put_link(pred, link);
        self.put_slot(slot, SlotPlace::Own(pass));
    }

    // Writes what the step writes, from the word of the link and the key that the pass had for it.
    pub(super) fn write(&mut self, event: &Event, link: WideWord, key: u64)
        requires in_shape { IsInShape self.old.start event.now.step }
        requires room { WordsHaveRoom self.old.start self.old.epoch event.now.step }
        ensures { Writes self.old self.new
            (written self.old.start event.now.pass event.now.step (link_of link) key) }
    {
        match event.step {
            Step::Advance { .. } => self.advance(),
            Step::StoreStamp { slot, stamp } => self.store_stamp(slot, stamp),
            Step::Raise { slot } => self.put_slot(slot, SlotPlace::Shared),
            Step::TakeFlag { slot } => self.put_slot(slot, SlotPlace::Own(event.pass)),
            Step::StoreBirth { slot, birth } => self.bear(event.pass, slot, birth),
            Step::StoreKey { slot, key } => self.store_key(slot, key),
            Step::StoreValue { slot, value } => self.store_value(slot, value),
            Step::StoreLink { slot, .. } | Step::Mark { slot, .. } => {
                self.put_link(At::Slot(slot), link);
            }
            Step::Publish { pred, slot, .. } => self.publish(pred, link, slot, key),
            Step::Replace { slot, new, .. } => self.publish(At::Slot(slot), link, new, key),
            Step::Unlink { pred, slot, .. } => self.unlink(event.pass, pred, link, slot),
            Step::ReadEpoch | Step::LoadStamp { .. } | Step::LoadLink { .. } => {}
            Step::LoadBirth { .. } | Step::LoadKey { .. } | Step::LoadValue { .. } => {}
            Step::PeekBirth { .. } => {}
            Step::ConfirmPresent { .. } | Step::ConfirmAbsent { .. } => {}
        }
    }
}
