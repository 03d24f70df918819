//! The laws of room: how many slots a set needs. Each function says its law in its contract, and does
//! nothing.
ghost use Rattle.vbr_set.specs.Laws.{NoSlotAlone, OneUnstampedAtEachMoment, PassesHaveAllTheirSlots, PassesUnlinkInTurn, SlotsThatSuffice};

/// A law: a pass has all its slots in its own pool and its hand, and none unstamped, when it is opened.
/// The same holds after each call on a set or a map, answered or refused, and after each meeting, each
/// catching up, each giving back, each reserve and each top-up of slots.
#[tactic(auto, using(crate::proofs::whereabouts::HavingSlots::have_all_slots))]
pub fn passes_have_all_their_slots()
    ensures { PassesHaveAllTheirSlots }
{}

/// A law: a pass has unlinked in turn, each slot only once it had stamped all that it had unlinked
/// before, when it is opened. The same holds after each call on a set or a map, answered or refused,
/// and after each meeting, each catching up, each giving back, each reserve and each top-up of slots.
#[tactic(auto, using(crate::proofs::whereabouts::HavingSlots::unlink_in_turn))]
pub fn passes_unlink_in_turn()
    ensures { PassesUnlinkInTurn }
{}

/// A law: a pass that has unlinked in turn had at most one slot unlinked and not yet stamped at each
/// moment of what it has seen, in the middle of its calls too.
pub fn one_unstamped_at_each_moment()
    ensures { OneUnstampedAtEachMoment }
{}

/// A law: an insert that is alone, in a set or in a map, gets NoSlot only if the keys of the set, the
/// marked nodes and what the other passes have make up all slots.
pub fn no_slot_alone()
    ensures { NoSlotAlone }
{}

/// A law: let an insert be alone, and each other pass stand between two calls, whether it holds a slot
/// or none. Then it gets NoSlot only if all slots but 64 for each other pass, and one for each that
/// holds a slot, have a key of the set or a marked node.
pub fn slots_that_suffice()
    ensures { SlotsThatSuffice }
{}
