//! Link words as a table keeps them, and their numbers.
ghost use Rattle.std.specs.Prelude.{◌≡◌, false, Some};
ghost use Rattle.vbr_slots.specs.words.WideWords.{wide_in};
ghost use Rattle.vbr_words.specs.Words.{link_of};

use std::process::Abort;
use vbr_slots::Slots;
use vbr_words::link::SLOT_BITS;
use vbr_words::{Layout, Link, Nodes, WideWord, decode, wide};

/// The link of a head that names none.
pub const EMPTY: Link = Link {
    slot: None,
    mark: false,
    version: 0,
};

/// The link to none of a node that was born in epoch 1.
pub const TO_NONE: Link = Link {
    slot: None,
    mark: false,
    version: 1,
};

/// The link to a slot that was born in epoch 1.
pub fn to_slot(slot: u32) -> Link
    ensures { result ≡ record { slot = Some slot; mark = false; version = 1 } }
{
    Link {
        slot: Some(slot),
        mark: false,
        version: 1,
    }
}

// What a table keeps of the word of a link that has room there.
fn packed(link: Link, layout: Layout) -> u64 {
    let mark = layout.mark();
    let named = link.slot.map_or(0, |slot| u64::from(slot).wrapping_add(1));
    let marked = if link.mark { mark } else { 0 };
    let version = link.version.wrapping_mul(mark).wrapping_mul(2);
    version.wrapping_add(marked).wrapping_add(named)
}

/// What the table keeps of a link word, which has room there.
pub fn kept<N: Nodes>(rt: &impl Abort, slots: &Slots<N>, word: WideWord) -> u64
    ensures { wide_in slots.now result ≡ word }
{
    let layout = slots.layout();
    let told = packed(word.link(), layout);
    assert!(rt; wide(told, layout) == word);
    told
}

/// The number of a link word that the table keeps so.
pub fn number_in<N: Nodes>(slots: &Slots<N>, word: u64) -> u128
    ensures { result ≡ wide_in slots.now word }
{
    let mark = slots.layout().mark();
    u128::from(word / mark) * (1 << SLOT_BITS) + u128::from(word % mark)
}

/// The link of a link word that the table keeps so.
pub fn link_in<N: Nodes>(slots: &Slots<N>, word: u64) -> Link
    ensures { result ≡ link_of (wide_in slots.now word) }
{
    decode(word, slots.layout())
}
