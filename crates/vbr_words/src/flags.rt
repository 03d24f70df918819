//! Flag words: a `u64` with a bit for each of sixty-four slots.
ghost use Rattle.std.specs.Prelude.{◌≡◌, ◌≢◌, ◌<◌, ◌≤◌, ◌^◌, ℕ, Bool, true, false, nat_lt, bit_and, bit_or};
ghost use Rattle.vbr_words.specs.declared.link.TheConstants.{MAX_SLOTS};
ghost use Rattle.vbr_words.specs.Flags.{IsNextFlag, all_but, flag_of, flag_word, flag_words, has_flag, word_of_flag};

use crate::shape::Shape;

/// How many slots have their flags in one word.
pub const FLAGS: u32 = 64;

/// The number of flag words of a shape: enough for a flag for each slot.
#[inline]
pub fn flag_words(shape: &Shape) -> u32
    ensures { result ≡ flag_words shape.now.slots }
{
    (shape.slots() + (FLAGS - 1)) / FLAGS
}

/// The number of the flag word that has the flag of a slot.
#[inline]
pub fn word_of_flag(slot: u32) -> u32
    ensures { result ≡ word_of_flag slot }
{
    slot / FLAGS
}

/// The flag of a slot, alone in its word.
#[inline]
pub fn flag_of(slot: u32) -> u64
    ensures { result ≡ flag_of slot }
{
    1 << (slot % FLAGS)
}

/// All flags of a word but that of a slot.
#[inline]
pub fn all_but(slot: u32) -> u64
    ensures { result ≡ all_but slot }
{
    !flag_of(slot)
}

/// Whether a flag word has the flag of a slot.
#[inline]
pub fn has_flag(word: u64, slot: u32) -> bool
    ensures { result ≡ has_flag word slot }
{
    word >> (slot % FLAGS) & 1 == 1
}

/// The first slot whose flag is set in a word, of the slots of this slot's word; if no flag is
/// set, the first slot of the next word.
#[inline]
pub fn next_flag(word: u64, slot: u32) -> u32
    requires { slot ≤ MAX_SLOTS }
    ensures { IsNextFlag word slot result }
{
    slot / FLAGS * FLAGS + word.trailing_zeros()
}

/// The flag word with this number in which the flags of all slots of a shape are set, and no others.
#[inline]
pub fn full_flags(shape: &Shape, number: u32) -> u64
    requires { number < flag_words shape.now.slots }
    ensures { result ≡ flag_word (λ slot. nat_lt slot shape.now.slots) number }
{
    let slots = shape.slots() - FLAGS * number;
    if slots < FLAGS {
        (1 << slots) - 1
    } else {
        u64::MAX
    }
}

/// A law: the flag word of a slot has its flag exactly if it is set, and has room for no more
/// than a `u64`. If the flag of one slot is set or cleared, the word is that of one `|` or `&`.
pub fn flag_words_have_flags()
    ensures has { (is_set : ℕ → Bool) (slot : ℕ) →
        has_flag (flag_word is_set (word_of_flag slot)) slot ≡ is_set slot }
    ensures is_word { (is_set : ℕ → Bool) (number : ℕ) → flag_word is_set number < 2 ^ 64 }
    ensures set { (before after : ℕ → Bool) (slot : ℕ) →
        ((other : ℕ) → other ≢ slot → after other ≡ before other) → after slot ≡ true →
        flag_word after (word_of_flag slot)
        ≡ bit_or (flag_word before (word_of_flag slot)) (flag_of slot) }
    ensures cleared { (before after : ℕ → Bool) (slot : ℕ) →
        ((other : ℕ) → other ≢ slot → after other ≡ before other) → after slot ≡ false →
        flag_word after (word_of_flag slot)
        ≡ bit_and (flag_word before (word_of_flag slot)) (all_but slot) }
{}
