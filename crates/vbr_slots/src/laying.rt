// The words that a table opens with.
ghost use Rattle.std.specs.Prelude.{◌≡◌, ◌<◌, ◌≤◌, ℕ, List, length, slice_index_or, IfOk, OnOk};
ghost use Rattle.std.specs.List.Sorted.{IsStrictlyIncreasing};
ghost use Rattle.vbr_words.specs.Dimensions.{IsShape};
ghost use Rattle.vbr_words.specs.Places.{words_in};
ghost use Rattle.vbr_machine.specs.Making.{opening_from, with_key_ahead};
ghost use Rattle.vbr_machine.specs.Machine.{World, opening};
ghost use Rattle.vbr_machine.specs.Start.{ArePaired, IsStart, start_with};
ghost use Rattle.vbr_slots.specs.words.Words.{AreWordsOf, HeadsFit};

use std::alloc::{AllocError, Global};
use vbr_words::flags::{all_but, flag_words, full_flags, word_of_flag};
use vbr_words::link::{MAX_SLOTS, version_of};
use vbr_words::shape::shape_word;
use vbr_words::{Link, Place, Shape, decode, encode, place_index, word_count};

// The words of the world that opens with these keys, and their values if nodes have values. They
// are linked from the last one on, so that each finds the next of its bucket at the head of the list.
pub(crate) fn opening_words(
    alloc: Global,
    shape: &Shape,
    keys: &[u64],
    values: &[u64],
) -> Result<Vec<u64>, AllocError>
    requires ascending { IsStrictlyIncreasing keys.now }
    requires few { length keys.now ≤ shape.now.slots }
    requires paired { ArePaired shape.now keys.now values.now }
    ensures words { IfOk result (λ words. let whole = start_with shape.now keys.now values.now in
        AreWordsOf whole (opening whole) words.items) }
    ensures start { OnOk result (IsStart (start_with shape.now keys.now values.now)) }
{
    let mut words = empty_words(alloc, shape)?;
    let mut number = keys.len();
    while number > 0 {
        number -= 1;
        link_key(
            shape,
            &mut words,
            number as u32,
            keys[number],
            value_at(values, number),
        );
    }
    Ok(words)
}

// The value with a number, or 0 if there is none.
fn value_at(values: &[u64], number: usize) -> u64
    ensures { result ≡ slice_index_or values.now number 0 }
{
    values.get(number).copied().unwrap_or(0)
}

// The words before a key is linked: the epoch is 1, the shape's word stands, each slot has the opening
// link and is in the shared pool, so its flag is set, and all other words are 0.
fn empty_words(alloc: Global, shape: &Shape) -> Result<Vec<u64>, AllocError>
    ensures words { IfOk result (λ words. (keys values : List ℕ) →
        let whole = start_with shape.now keys values in
        AreWordsOf whole (opening_from whole (length keys)) words.items) }
    ensures shape { OnOk result (IsShape shape.now) }
{
    let mut words = vec![in alloc; 0; word_count(shape)]?;
    words[place_index(shape, Place::Epoch)] = 1;
    words[place_index(shape, Place::ShapeWord)] = shape_word(shape);
    let blank = shape.layout().mark();
    for slot in 0..shape.slots() {
        words[place_index(shape, Place::LinkOf(slot))] = blank;
    }
    for number in 0..flag_words(shape) {
        words[place_index(shape, Place::Flags(number))] = full_flags(shape, number);
    }
    Ok(words)
}

// Links a key with its value ahead of the others of its bucket, and takes its slot out of the shared
// pool. The version of the head is the birth of what it names. Without values no word has the value.
fn link_key(shape: &Shape, words: &mut [u64], number: u32, key: u64, value: u64)
    requires number { number < shape.now.slots }
    requires words { length words.old ≡ words_in shape.now }
    ensures { (keys values : List ℕ) (w : World) → HeadsFit shape.now w →
        let whole = start_with shape.now keys values in AreWordsOf whole w words.old
        → AreWordsOf whole (with_key_ahead whole number key value w) words.new }
{
    prove!(shape.slots() <= MAX_SLOTS);
    let head = place_index(shape, Place::Head(shape.bucket_of(key)));
    let layout = shape.layout();
    let first = decode(words[head], layout);
    let link = Link {
        slot: first.slot,
        mark: false,
        version: version_of(1, first.version),
    };
    words[place_index(shape, Place::LinkOf(number))] = encode(link, layout);
    let to_key = Link {
        slot: Some(number),
        mark: false,
        version: 1,
    };
    words[head] = encode(to_key, layout);
    words[place_index(shape, Place::Birth(number))] = 1;
    words[place_index(shape, Place::Key(number))] = key;
    if shape.has_values() {
        words[place_index(shape, Place::Value(number))] = value;
    }
    words[place_index(shape, Place::Flags(word_of_flag(number)))] &= all_but(number);
}
