// The world at opening.
ghost use Rattle.std.specs.Prelude.{◌≡◌, ◌<◌, ◌≤◌, length, slice_index_or, IfOk};
ghost use Rattle.std.specs.List.{AllByRecursion};
ghost use Rattle.std.specs.List.Sorted.{IsStrictlyIncreasing};
ghost use Rattle.vbr_words.specs.Words.{IsLink};
ghost use Rattle.vbr_machine.specs.Start.{ArePaired, start_with};
ghost use Rattle.vbr_machine.specs.Making.{with_key_ahead};
ghost use Rattle.vbr_world.specs.WorldInLists.{world_of};
ghost use Rattle.vbr_world.specs.KeptOpenings.{IsBare, IsNewPass, IsOpening};
ghost use Rattle.vbr_world.specs.KeptWrites.{Writes};

use crate::world::holdings::opening_link;
use crate::world::lists::Lists;
use crate::world::passes::{PassState, link_to};
use crate::world::start::Start;
use std::alloc::{AllocError, Global};
use vbr_machine::SlotPlace;
use vbr_words::link::MAX_SLOTS;
use vbr_words::{At, Link, Shape, WideWord};

impl Lists {
    // The world that opens with these keys, and their values if nodes have values: they are
    // linked from the last one on, so that each finds the next of its bucket at the head of the
    // list.
    pub(super) fn opened(
        alloc: Global,
        shape: Shape,
        passes: u32,
        keys: &[u64],
        values: &[u64],
    ) -> Result<Lists, AllocError>
        requires ascending { IsStrictlyIncreasing keys.now }
        requires few { length keys.now ≤ shape.slots }
        requires paired { ArePaired shape keys.now values.now }
        ensures { IfOk result (IsOpening (start_with shape keys.now values.now) passes) }
    {
        let start = Start::new(alloc, shape, keys, values)?;
        let mut lists = Lists::empty(alloc, start, passes)?;
        let mut number = keys.len();
        while number > 0 {
            number -= 1;
            lists.link_key(number as u32, keys[number], value_at(values, number));
        }
        Ok(lists)
    }

    // Every slot in the shared pool, and passes that know nothing: no key is linked yet.
    fn empty(alloc: Global, start: Start, passes: u32) -> Result<Lists, AllocError>
        ensures { IfOk result (IsBare start passes) }
    {
        let buckets = start.buckets() as usize;
        let slots = start.slots() as usize;
        let none = WideWord::of(link_to(None, 0, 0));
        let blank = WideWord::of(opening_link());
        let heads = vec![in alloc; none; buckets]?;
        let links = vec![in alloc; blank; slots]?;
        let birth = vec![in alloc; 0; slots]?;
        let stamps = vec![in alloc; 0; slots]?;
        let keys = vec![in alloc; 0; slots]?;
        let values = vec![in alloc; 0; slots]?;
        let places = vec![in alloc; SlotPlace::Shared; slots]?;
        let passes = new_passes(alloc, start.slots(), passes)?;
        Ok(Lists {
            start,
            epoch: 1,
            heads,
            links,
            birth,
            stamps,
            keys,
            values,
            places,
            passes,
            births: 0,
            calls: Vec::new(alloc),
        })
    }

    // Links a key that the world opens with, ahead of the others of its bucket. The version of the
    // head is the birth of what it names.
    fn link_key(&mut self, number: u32, key: u64, value: u64)
        requires { number < self.old.start.shape.slots }
        ensures { Writes self.old self.new (with_key_ahead self.old.start number key value) }
    {
        prove!(self.start.slots() <= MAX_SLOTS);
        let bucket = self.bucket_of(key);
        let head = self.head(bucket);
        let link = link_to(head.slot, 1, head.version);
        let first = link_to(Some(number), 0, 1);
        self.put_link(At::Slot(number), WideWord::of(link));
        self.put_link(At::Head(bucket), WideWord::of(first));
        self.store_birth(number, 1);
        self.store_key(number, key);
        self.store_value(number, value);
        self.put_slot(number, SlotPlace::Listed(bucket));
    }

    // The link at the head of a bucket.
    fn head(&self, bucket: u32) -> Link
        requires { bucket < self.now.start.shape.buckets }
        ensures head { result ≡ (world_of self.now).head bucket }
        ensures fits { IsLink result }
    {
        self.heads[bucket as usize].link()
    }
}

// The value with a number, or 0 if there is none.
fn value_at(values: &[u64], number: usize) -> u64
    ensures { result ≡ slice_index_or values.now number 0 }
{
    values.get(number).copied().unwrap_or(0)
}

// So many passes that know nothing.
fn new_passes(alloc: Global, slots: u32, passes: u32) -> Result<Vec<PassState>, AllocError>
    ensures count { IfOk result (λ made. length made.items ≡ passes) }
    ensures new { IfOk result (λ made. AllByRecursion (IsNewPass slots) made.items) }
{
    let mut made = Vec::new(alloc);
    for _ in 0..passes {
        made.push(PassState::new(alloc, slots)?)?;
    }
    Ok(made)
}
