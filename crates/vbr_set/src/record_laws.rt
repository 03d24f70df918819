//! The laws of slots that members hold. Each function says its law in its contract, and does nothing.
ghost use Rattle.std.specs.Prelude.{List};
ghost use Rattle.vbr_machine.specs.Acceptance.{IsInHand};
ghost use Rattle.vbr_machine.specs.Records.{IsInHandAlone};
ghost use Rattle.vbr_machine.specs.Runs.{Begins, BeginsFor, IsRun, know_after};
ghost use Rattle.vbr_machine.specs.declared.event.Event.{Event};
ghost use Rattle.vbr_slots.specs.steps.Calls.{IsSame};
ghost use Rattle.vbr_slots.specs.steps.PassLaw.{PassLaw};
ghost use Rattle.vbr_slots.specs.views.Views.{PassView};
ghost use Rattle.vbr_at_table.specs.hands.Aside.{IsPutAside};
ghost use Rattle.vbr_at_table.specs.hands.KeptSlots.{KeepsSlots};
ghost use Rattle.vbr_at_table.specs.declared.aside.Aside.{Aside};
ghost use Rattle.vbr_set.specs.whereabouts.HeldRoom.{HeldSlotsComeBack};

/// A law: a slot that a member holds is in the hand of its pass alone while it makes no step, whatever
/// others do meanwhile, and shows the birth that the pass gave there.
pub fn a_held_slot_is_private()
    ensures { (p : PassView) (aside : Aside) (run : List Event) → PassLaw p → IsPutAside p aside →
        BeginsFor p.trace.who p.trace.seen run → IsRun p.trace.start p.trace.passes run →
        IsInHandAlone p.trace.start run p.trace.who aside.slot aside.birth }
{}

/// A law: a slot that a member holds is in the hand of its pass at each moment of a call that loses no
/// slot.
pub fn a_held_slot_stays_in_hand()
    ensures { (p q : PassView) (aside : Aside) (moment : List Event) → IsPutAside p aside →
        KeepsSlots p q → IsSame p.trace q.trace → Begins p.trace.seen moment →
        Begins moment q.trace.seen →
        IsInHand ((know_after p.trace.start moment p.trace.who).own aside.slot) }
{}

/// A law: no slot is lost while a member holds one. With that one it has all that it had before, and
/// once it lets go, all are in its pool and its hand.
#[tactic(auto, using(crate::proofs::held_slots::HeldRoom::come_back))]
pub fn held_slots_come_back()
    ensures { HeldSlotsComeBack }
{}
