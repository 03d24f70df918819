//! The law of slots over a renewal. The function says it in its contract, and does nothing.
ghost use Rattle.vbr_set.specs.renewals.RenewingWithSlots.{SlotsCarryOver};

use vbr_machine::record_laws::keys_open_in_slots_of_their_numbers;

/// A law: if all members are renewed with slots ([`Member::renew_all_with_slots`]), then entry number i
/// was in the slot returned at i when the old set was reported, and the same key stands in slot i when
/// the fresh one opens.
///
/// [`Member::renew_all_with_slots`]: crate::Member::renew_all_with_slots
pub fn slots_carry_over()
    ensures { SlotsCarryOver }
{
    keys_open_in_slots_of_their_numbers();
}
