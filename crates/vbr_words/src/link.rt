//! Link words: a slot number, a mark and a version.
//!
//! A version that is compared together with the slot in one exchange keeps a link to a node apart
//! from a link to the next node in the same slot (Sheffi, Herlihy and Petrank 2021); a mark in a
//! node's own link says that the node is removed (Michael 2002).
//!
//! A table keeps a link word in 64 bits: as many of them name a slot as its slots need, and the version has the rest
//! ([`Layout`]). So that what is proved of link words needn't say which table they are of, it speaks of them as numbers
//! with room for the slots and the epochs of any table ([`WideWord`]).
ghost use Rattle.std.specs.Prelude.{◌≡◌, ◌<◌, ◌≤◌, ◌%◌, ◌/◌, ◌^◌, ◌==◌, ℕ, max, true, IfSome};
ghost use Rattle.vbr_words.specs.declared.link.Link.{Link};
ghost use Rattle.vbr_words.specs.declared.link.TheConstants.{MAX_SLOTS, SLOT_BITS};
ghost use Rattle.vbr_words.specs.Words.{IsLink, slot_field, slot_in, mark_digit, word_of, link_of};
ghost use Rattle.vbr_words.specs.KeptLinks.{link_anew};
ghost use Rattle.vbr_words.specs.Packing.{IsPackable, packed, slot_bits, unpacked};

use std::marker::Model;

/// How many bits of a link word name a slot, if there is room for the slots of any table.
pub const SLOT_BITS: u32 = 31;

/// The mark in a link word.
pub const MARK: u64 = 1 << SLOT_BITS;

/// One version in a link word: the versions lie above the mark.
pub const VERSION_UNIT: u64 = 2 * MARK;

/// The greatest number of slots: the slot field holds one more than a slot's number, or 0.
pub const MAX_SLOTS: u32 = (MARK - 1) as u32;

/// The greatest version.
pub const MAX_VERSION: u64 = u64::MAX / 2;

/// What a link word says.
#[derive(Clone, Copy, Debug, PartialEq, Eq, Hash)]
pub struct Link {
    /// The slot that it names, if any.
    pub slot: Option<u32>,
    /// Whether the node that holds the link is removed.
    pub mark: bool,
    /// The greater of the births of the link's holder and of the node that it names, as epochs.
    pub version: u64,
}

/// A link word as a number with room for the slots and the epochs of any table. The table keeps it in 64 bits
/// ([`encode`]), and no program has one: steps are named by it.
#[derive(Clone, Copy, Debug, PartialEq, Eq, Hash)]
pub struct WideWord {
    named: u32,
    rest: u64,
}

impl Model for WideWord {
    ghost use Rattle.std.specs.Prelude.{ℕ, ◌+◌, ◌*◌, ◌/◌, ◌%◌, ◌<◌, ◌^◌};
    ghost use Rattle.std.proofs.lemmas.Nat.{div-mul-add, mod-mul-add};

    ghost Value = { ℕ };

    ghost view = { λ w. w.rest * 2147483648 + w.named };

    ghost invariant = { λ w. w.named < 2147483648 };

    ghost inverse = { λ n. record { named = n % 2147483648; rest = n / 2147483648 } };

    ghost inverse_ok = { λ w low. λ i. record {
      named = mod-mul-add w.rest 2147483648 w.named low i;
      rest = div-mul-add w.rest 2147483648 w.named low i;
    } };
}

impl WideWord {
    /// The word of a link.
    pub fn of(link: Link) -> WideWord
        requires { IsLink link }
        ensures { result ≡ word_of link }
    {
        WideWord {
            named: slot_field(link.slot),
            rest: link.version * 2 + mark_digit(link.mark),
        }
    }

    /// The link of a word: the one link whose word it is.
    pub fn link(self) -> Link
        ensures link { result ≡ link_of self }
        ensures fits { IsLink result }
        ensures word { word_of result ≡ self }
    {
        Link {
            slot: slot_in(self.named),
            mark: self.rest % 2 == 1,
            version: self.rest / 2,
        }
    }

    /// The word with its mark set, and nothing else changed.
    pub fn with_mark(self) -> WideWord
        ensures { link_of result ≡ record (link_of self) { mark = true } }
    {
        WideWord {
            named: self.named,
            rest: self.rest | 1,
        }
    }
}

#[inline]
fn slot_field(slot: Option<u32>) -> u32
    requires { IfSome slot (λ slot. slot < MAX_SLOTS) }
    ensures { result ≡ slot_field slot }
{
    match slot {
        None => 0,
        Some(slot) => slot + 1,
    }
}

#[inline]
fn slot_in(field: u32) -> Option<u32>
    ensures { result ≡ slot_in field }
{
    match field {
        0 => None,
        _ => Some(field - 1),
    }
}

#[inline]
fn mark_digit(mark: bool) -> u64
    ensures { result ≡ mark_digit mark }
{
    if mark { 1 } else { 0 }
}

/// The version of a link, from the births of its holder and of the node that it names, as epochs;
/// a head and no node have birth 0.
#[inline]
pub fn version_of(holder_birth: u64, named_birth: u64) -> u64
    ensures { result ≡ max holder_birth named_birth }
{
    holder_birth.max(named_birth)
}

/// How the link words of a table are kept in 64 bits: how many of them name a slot. The mark is the next bit, and the
/// version has the rest.
#[derive(Clone, Copy, Debug, PartialEq, Eq, Hash)]
pub struct Layout {
    // the bits that name a slot
    mask: u32,
    // the bit above them
    mark: u32,
}

impl Model for Layout {
    ghost use Rattle.std.specs.Prelude.{ℕ, ◌≡◌, ◌≤◌, ◌-◌, ◌^◌};
    ghost use Rattle.vbr_words.specs.Packing.{slot_bits};

    ghost Value = { ℕ };

    ghost view = { λ l. slot_bits l.mask };

    ghost invariant = { λ l. (2 ^ slot_bits l.mask - 1 ≡ l.mask)
        × (2 ^ slot_bits l.mask ≡ l.mark) × (slot_bits l.mask ≤ 31) };

    ghost inverse = { λ bits. record { mask = 2 ^ bits - 1; mark = 2 ^ bits } };

    ghost inverse_ok = { λ l is. λ i. record { mask = is.0 i; mark = is.1 i } };
}

impl Layout {
    /// The layout of a table with so many slots: as few bits name a slot as have a number for each of them and for none.
    pub fn of(slots: u32) -> Layout
        requires some { 0 < slots }
        requires few { slots ≤ MAX_SLOTS }
        ensures { result ≡ slot_bits slots }
    {
        let mask = u32::MAX >> slots.leading_zeros();
        Layout {
            mask,
            mark: mask + 1,
        }
    }

    /// The mark in a link word: the bit above those that name a slot.
    #[inline]
    pub fn mark(self) -> u64
        ensures mark { result ≡ 2 ^ self }
        ensures few { self ≤ SLOT_BITS }
    {
        u64::from(self.mask) + 1
    }

    // Whether a word has the mark.
    #[inline]
    fn has_mark(self, word: u64) -> bool
        ensures { result ≡ (word / 2 ^ self % 2 == 1) }
    {
        word & u64::from(self.mark) != 0
    }

    // The slot field of a word.
    #[inline]
    fn named(self, word: u64) -> u32
        ensures { result ≡ word % 2 ^ self }
    {
        (word % (1 << 32)) as u32 & self.mask
    }
}

/// The 64 bits in which the word of a link is kept.
#[inline]
pub fn encode(link: Link, layout: Layout) -> u64
    requires fits { IsLink link }
    requires room { IsPackable layout (word_of link) }
    ensures { unpacked layout result ≡ word_of link }
{
    let mark = layout.mark();
    let marked = if link.mark { mark } else { 0 };
    u64::from(slot_field(link.slot)) + marked + link.version * (2 * mark)
}

/// The link whose word is kept in these 64 bits.
#[inline]
pub fn decode(word: u64, layout: Layout) -> Link
    ensures link { result ≡ link_of (unpacked layout word) }
    ensures fits { IsLink result }
    ensures word { word_of result ≡ unpacked layout word }
    ensures room { IsPackable layout (unpacked layout word) }
{
    let mark = layout.mark();
    Link {
        slot: slot_in(layout.named(word)),
        mark: layout.has_mark(word),
        version: word / (2 * mark),
    }
}

/// The word with its mark set, and nothing else changed.
#[inline]
pub fn with_mark(word: u64, layout: Layout) -> u64
    ensures { link_of (unpacked layout result) ≡ record (link_of (unpacked layout word))
        { mark = true } }
{
    word | layout.mark()
}

/// The unmarked word to the slot that another names, or to none, with this version.
#[inline]
pub fn with_version(word: u64, version: u64, layout: Layout) -> u64
    requires fits { IsLink (link_anew layout word version) }
    requires room { IsPackable layout (word_of (link_anew layout word version)) }
    ensures { unpacked layout result ≡ word_of (link_anew layout word version) }
{
    let mark = layout.mark();
    u64::from(layout.named(word)) + version * (2 * mark)
}

/// The number of the word that is kept in these 64 bits.
#[inline]
pub fn wide(word: u64, layout: Layout) -> WideWord
    ensures word { result ≡ unpacked layout word }
    ensures room { IsPackable layout result }
{
    let mark = layout.mark();
    WideWord {
        named: layout.named(word),
        rest: word / mark,
    }
}

/// A law: a link that fits is the link of its word, and each word is that of its link. So two
/// links that fit are equal exactly if their words are, and so are two words and their links.
pub fn words_are_links()
    ensures link_of_word { (link : Link) → IsLink link → link_of (word_of link) ≡ link }
    ensures word_of_link { (word : ℕ) → word_of (link_of word) ≡ word }
    ensures fits { (word : ℕ) → word < 2 ^ 95 → IsLink (link_of word) }
    ensures is_word { (link : Link) → IsLink link → word_of link < 2 ^ 95 }
{}

/// A law: if so many bits name a slot, link words that have room are kept in a `u64` each, and no two in the same.
pub fn packed_words_are_apart()
    ensures kept { (bits word : ℕ) → bits ≤ SLOT_BITS → IsPackable bits word →
        (packed bits word < 2 ^ 64) × (unpacked bits (packed bits word) ≡ word) }
    ensures apart { (bits a b : ℕ) → IsPackable bits a → IsPackable bits b →
        packed bits a ≡ packed bits b → a ≡ b }
{}
