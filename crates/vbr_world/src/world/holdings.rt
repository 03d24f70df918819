// What a pass knows of one slot: the tests that steps make of it, and what steps make of it.
ghost use Rattle.std.specs.Prelude.{◌≡◌, ◌≤◌, ◌↔◌, IsTrue, map};
ghost use Rattle.vbr_words.specs.Words.{IsLink};
ghost use Rattle.vbr_words.specs.declared.link.TheConstants.{MAX_VERSION};
ghost use Rattle.vbr_machine.specs.Acceptance.{IsUnlinked, MayBear, IsInHand, IsReread, stamp_in};
ghost use Rattle.vbr_machine.specs.Learning.{newborn, birth_in_hand, key_in_hand, value_in_hand, link_in_hand, with_key, with_value, with_link, reread};
ghost use Rattle.vbr_machine.specs.Links.{opening_link};
ghost use Rattle.vbr_world.specs.WorldInLists.{FitsHolding};

use vbr_machine::{Holding, Unpublished};
use vbr_words::Link;

// Whether the pass unlinked a slot and hasn't stamped it since.
pub fn is_unlinked(holding: Option<Holding>) -> bool
    ensures { IsTrue result ↔ IsUnlinked holding }
{
    matches!(holding, Some(Holding::Unlinked(_)))
}

// Whether a slot was unlinked, and the pass has read the epoch since.
pub fn is_reread(holding: Option<Holding>) -> bool
    ensures { IsTrue result ↔ IsReread holding }
{
    matches!(holding, Some(Holding::Unlinked(true)))
}

// Whether a slot is in hand.
pub fn is_in_hand(holding: Option<Holding>) -> bool
    ensures { IsTrue result ↔ IsInHand holding }
{
    matches!(holding, Some(Holding::InHand(..)))
}

// Whether a slot may be born in or raised: free, or in hand.
pub fn may_bear(holding: Option<Holding>) -> bool
    ensures { IsTrue result ↔ MayBear holding }
{
    matches!(holding, Some(Holding::Free(_) | Holding::InHand(..)))
}

// The stamp of a slot that may be born in; 0 of another.
pub fn stamp_in(holding: Option<Holding>) -> u64
    ensures { result ≡ stamp_in holding }
{
    match holding {
        Some(Holding::Free(stamp)) => stamp,
        Some(Holding::InHand(known)) => known.stamp,
        _ => 0,
    }
}

// The birth of a slot in hand; 0 of another.
pub fn birth_in_hand(holding: Option<Holding>) -> u64
    ensures birth { result ≡ birth_in_hand holding }
    ensures fits { FitsHolding holding → result ≤ MAX_VERSION }
{
    match holding {
        Some(Holding::InHand(known)) => known.birth,
        _ => 0,
    }
}

// The key of a slot in hand, once it is stored; otherwise 0.
pub fn key_in_hand(holding: Option<Holding>) -> u64
    ensures { result ≡ key_in_hand holding }
{
    match holding {
        Some(Holding::InHand(known)) => known.key.unwrap_or(0),
        _ => 0,
    }
}

// The value of a slot in hand, once it is stored.
pub fn value_in_hand(holding: Option<Holding>) -> Option<u64>
    ensures { result ≡ value_in_hand holding }
{
    match holding {
        Some(Holding::InHand(known)) => known.value,
        _ => None,
    }
}

// The link of a slot before one is stored in it.
pub fn opening_link() -> Link
    ensures link { result ≡ opening_link }
    ensures fits { IsLink result }
{
    Link {
        slot: None,
        mark: true,
        version: 0,
    }
}

// The link of a slot in hand, once it is stored; otherwise that of a slot at opening.
pub fn link_in_hand(holding: Option<Holding>) -> Link
    ensures link { result ≡ link_in_hand holding }
    ensures fits { FitsHolding holding → IsLink result }
{
    match holding {
        Some(Holding::InHand(known)) => known.link.unwrap_or(opening_link()),
        _ => opening_link(),
    }
}

// A slot in hand once it is born in: nothing was stored in it.
pub fn newborn(stamp: u64, birth: u64) -> Unpublished
    ensures { result ≡ newborn stamp birth }
{
    Unpublished {
        stamp,
        birth,
        key: None,
        value: None,
        link: None,
    }
}

// A slot in hand once its key is stored.
pub fn with_key(holding: Option<Holding>, key: u64) -> Option<Holding>
    ensures holding { result ≡ with_key holding key }
    ensures fits { FitsHolding holding → FitsHolding result }
{
    match holding {
        Some(Holding::InHand(known)) => Some(Holding::InHand(Unpublished {
            key: Some(key),
            ..known
        })),
        _ => holding,
    }
}

// A slot in hand once its value is stored.
pub fn with_value(holding: Option<Holding>, value: u64) -> Option<Holding>
    ensures holding { result ≡ with_value holding value }
    ensures fits { FitsHolding holding → FitsHolding result }
{
    match holding {
        Some(Holding::InHand(known)) => Some(Holding::InHand(Unpublished {
            value: Some(value),
            ..known
        })),
        _ => holding,
    }
}

// A slot in hand once its link is stored.
pub fn with_link(holding: Option<Holding>, link: Link) -> Option<Holding>
    requires { IsLink link }
    ensures holding { result ≡ with_link holding link }
    ensures fits { FitsHolding holding → FitsHolding result }
{
    match holding {
        Some(Holding::InHand(known)) => Some(Holding::InHand(Unpublished {
            link: Some(link),
            ..known
        })),
        _ => holding,
    }
}

// A slot that the pass unlinked, once it has read the epoch.
fn reread(holding: Option<Holding>) -> Option<Holding>
    ensures { result ≡ reread holding }
{
    match holding {
        Some(Holding::Unlinked(_)) => Some(Holding::Unlinked(true)),
        _ => holding,
    }
}

// All slots, once the pass has read the epoch.
pub fn reread_all(own: &mut [Option<Holding>])
    ensures { own.new ≡ map reread own.old }
{
    for holding in own.iter_mut() {
        *holding = reread(*holding);
    }
}
