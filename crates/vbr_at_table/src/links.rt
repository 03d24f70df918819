//! The links that exchanges write.
ghost use Rattle.std.specs.Prelude.{◌≡◌, Some};
ghost use Rattle.vbr_words.specs.KeptLinks.{kept_link};
ghost use Rattle.vbr_words.specs.Packing.{IsPackable, unpacked};
ghost use Rattle.vbr_words.specs.Words.{IsLink, word_of, link_of};
ghost use Rattle.vbr_machine.specs.Links.{link_to, marked};

use vbr_words::{Layout, Link, encode, version_of, with_version};

// The word of the unmarked link to a slot or to none, from the births of its holder and of what it
// names.
#[inline]
pub(crate) fn link_to(slot: Option<u32>, holder_birth: u64, named_birth: u64, layout: Layout) -> u64
    requires fits { IsLink (link_to slot holder_birth named_birth) }
    requires room { IsPackable layout (word_of (link_to slot holder_birth named_birth)) }
    ensures word { unpacked layout result ≡ word_of (link_to slot holder_birth named_birth) }
    ensures link { link_of (unpacked layout result) ≡ link_to slot holder_birth named_birth }
{
    let link = Link {
        slot,
        mark: false,
        version: version_of(holder_birth, named_birth),
    };
    encode(link, layout)
}

// The word of the unmarked link to the slot that another word names, or to none, from the births of its holder and
// of what it names.
#[inline]
pub(crate) fn link_to_same(word: u64, holder_birth: u64, named_birth: u64, layout: Layout) -> u64
    requires fits { IsLink (link_to (kept_link layout word).slot holder_birth named_birth) }
    requires room { IsPackable layout
        (word_of (link_to (kept_link layout word).slot holder_birth named_birth)) }
    ensures word { unpacked layout result ≡
        word_of (link_to (kept_link layout word).slot holder_birth named_birth) }
    ensures link { link_of (unpacked layout result) ≡
        link_to (kept_link layout word).slot holder_birth named_birth }
{
    with_version(word, version_of(holder_birth, named_birth), layout)
}

// The word of the marked link to a slot, from the births of its holder and of what it names.
#[inline]
pub(crate) fn marked_link_to(slot: u32, holder_birth: u64, named_birth: u64, layout: Layout) -> u64
    requires fits { IsLink (marked (link_to (Some slot) holder_birth named_birth)) }
    requires room { IsPackable layout
        (word_of (marked (link_to (Some slot) holder_birth named_birth))) }
    ensures word { unpacked layout result ≡
        word_of (marked (link_to (Some slot) holder_birth named_birth)) }
    ensures link { link_of (unpacked layout result) ≡
        marked (link_to (Some slot) holder_birth named_birth) }
{
    let link = Link {
        slot: Some(slot),
        mark: true,
        version: version_of(holder_birth, named_birth),
    };
    encode(link, layout)
}
