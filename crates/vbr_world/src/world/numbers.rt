// Words as numbers: that of a link word is wide, and any other is a `u64`.
ghost use Rattle.std.specs.Prelude.{◌≡◌, ◌<◌, ◌^◌};
ghost use Rattle.vbr_words.specs.Flags.{has_flag};
ghost use Rattle.vbr_words.specs.Words.{IsLink, link_of, word_of};

use vbr_words::flags::FLAGS;
use vbr_words::link::SLOT_BITS;
use vbr_words::{Link, WideWord};

// The mark in the number of a link word, and one version above it.
const MARK: u128 = 1 << SLOT_BITS;

const VERSION_UNIT: u128 = 2 * MARK;

// The number of a link word.
pub fn number_of(word: WideWord) -> u128
    ensures number { result ≡ word }
    ensures low { result < 2 ^ 95 }
{
    word_of(word.link())
}

// The number of the word of a link.
#[tactic(auto, unfolding(vbr_words::specs::Words::word_of))]
fn word_of(link: Link) -> u128
    requires { IsLink link }
    ensures word { result ≡ word_of link }
    ensures low { result < 2 ^ 95 }
{
    let named = match link.slot {
        None => 0,
        Some(slot) => u128::from(slot) + 1,
    };
    let marked = if link.mark { MARK } else { 0 };
    named + marked + u128::from(link.version) * VERSION_UNIT
}

// The link of the link word with this number.
pub fn link_of(number: u128) -> Link
    requires { number < 2 ^ 95 }
    ensures link { result ≡ link_of number }
    ensures fits { IsLink result }
{
    let named = (number % MARK) as u32;
    Link {
        slot: named.checked_sub(1),
        mark: number / MARK % 2 == 1,
        version: (number / VERSION_UNIT) as u64,
    }
}

// Whether the number of a flag word has the flag of a slot.
pub fn has_flag(number: u128, slot: u32) -> bool
    ensures { result ≡ has_flag number slot }
{
    number >> (slot % FLAGS) & 1 == 1
}
