//! The places of the words of a set, and the index of each.
ghost use Rattle.std.specs.Prelude.{◌≡◌, ◌<◌, ◌≤◌, ◌^◌};
ghost use Rattle.vbr_words.specs.declared.place.Place.{Place};
ghost use Rattle.vbr_words.specs.Dimensions.{Dimensions};
ghost use Rattle.vbr_words.specs.Places.{IsIn, index_of, node_words, slot_index, words_in, words_of_node};

use crate::flags::flag_words;
use crate::nodes::Nodes;
use crate::shape::Shape;

/// A link word: a bucket's head, or the link of a slot.
#[derive(Clone, Copy, Debug, PartialEq, Eq, Hash)]
pub enum At {
    /// The head of the list of this bucket.
    Head(u32),
    /// The link of this slot.
    Slot(u32),
}

/// The place of a word.
#[derive(Clone, Copy, Debug, PartialEq, Eq, Hash)]
pub enum Place {
    /// The shared epoch.
    Epoch,
    /// What the shape is; it never changes.
    ShapeWord,
    /// The head of this bucket's list, a link word.
    Head(u32),
    /// The link of this slot, a link word.
    LinkOf(u32),
    /// The epoch in which this slot was born last.
    Birth(u32),
    /// The epoch by which this slot was retired last.
    Stamp(u32),
    /// The key of this slot.
    Key(u32),
    /// The value of this slot, in a shape whose nodes have values.
    Value(u32),
    /// The flag word with this number: which of its sixty-four slots are in the shared pool.
    Flags(u32),
}

/// How many words each slot has: four, or five if nodes have values.
#[inline]
pub fn words_of_node(values: bool) -> usize
    ensures words { result ≡ words_of_node values }
{
    if values { 5 } else { 4 }
}

// The index at which the words of a slot begin, if each has so many. At the number of slots it is that
// of the first flag word.
#[inline]
fn slot_index(shape: &Shape, words: usize, slot: u32) -> usize
    requires slot { slot ≤ shape.now.slots }
    requires words { words ≡ node_words shape.now }
    ensures index { result ≡ slot_index shape.now slot }
    ensures small { result < 2 ^ 34 }
{
    prove!(words <= 5);
    2 + shape.buckets() as usize + words * slot as usize
}

// The index of a place, if each slot has so many words.
#[inline]
fn index_by(shape: &Shape, words: usize, place: Place) -> usize
    requires place { IsIn shape.now place }
    requires words { words ≡ node_words shape.now }
    ensures index { result ≡ index_of shape.now place }
{
    match place {
        Place::Epoch => 0,
        Place::ShapeWord => 1,
        Place::Head(bucket) => 2 + bucket as usize,
        Place::LinkOf(slot) => slot_index(shape, words, slot),
        Place::Birth(slot) => slot_index(shape, words, slot) + 1,
        Place::Stamp(slot) => slot_index(shape, words, slot) + 2,
        Place::Key(slot) => slot_index(shape, words, slot) + 3,
        Place::Value(slot) => slot_index(shape, words, slot) + 4,
        Place::Flags(number) => slot_index(shape, words, shape.slots()) + number as usize,
    }
}

/// The index of a place among all words. Different places have different indices, each below
/// `word_count`.
#[inline]
pub fn place_index(shape: &Shape, place: Place) -> usize
    requires { IsIn shape.now place }
    ensures index { result ≡ index_of shape.now place }
    ensures in_range { result < words_in shape.now }
{
    index_by(shape, words_of_node(shape.has_values()), place)
}

/// The index of a place in a shape with nodes of this kind, as [`place_index`] has it. It asks the shape
/// nothing of values, so that it takes shifts and no test if there are none.
#[inline]
pub fn place_index_in<N: Nodes>(shape: &Shape, place: Place) -> usize
    requires place { IsIn shape.now place }
    requires kind { shape.now.values ≡ N.VALUES }
    ensures index { result ≡ index_of shape.now place }
    ensures in_range { result < words_in shape.now }
{
    index_by(shape, words_of_node(N::VALUES), place)
}

/// The number of words.
#[inline]
pub fn word_count(shape: &Shape) -> usize
    ensures { result ≡ words_in shape.now }
{
    slot_index(shape, words_of_node(shape.has_values()), shape.slots()) + flag_words(shape) as usize
}

/// A law: different places of a shape have different indices, each below the number of words.
pub fn places_are_apart()
    ensures apart { (shape : Dimensions) (p q : Place) → IsIn shape p → IsIn shape q →
        index_of shape p ≡ index_of shape q → p ≡ q }
    ensures in_range { (shape : Dimensions) (p : Place) → IsIn shape p →
        index_of shape p < words_in shape }
{}
