//! The laws of slots that a pass holds, for a program that keeps a record of its own beside each slot. Each
//! function says its law in its contract, and does nothing.
ghost use Rattle.std.specs.Prelude.{ℕ, List};
ghost use Rattle.vbr_machine.specs.Acceptance.{IsInHand};
ghost use Rattle.vbr_machine.specs.Records.{IsInHandAlone};
ghost use Rattle.vbr_machine.specs.Runs.{Begins, BeginsFor, IsRun, know_after};
ghost use Rattle.vbr_machine.specs.declared.event.Event.{Event};
ghost use Rattle.vbr_slots.specs.steps.Calls.{IsSame};
ghost use Rattle.vbr_slots.specs.steps.PassLaw.{PassLaw};
ghost use Rattle.vbr_slots.specs.views.Views.{PassView};
ghost use Rattle.vbr_at_table.specs.hands.Hands.{HandView, IsHandOf};
ghost use Rattle.vbr_at_table.specs.hands.KeptSlots.{TakesNoSlot};
ghost use Rattle.vbr_at_table.specs.answers.Records.{PublishesSlot};
ghost use Rattle.vbr_list.specs.updates.Settling.{PublishedSlot};

/// A law: a slot that a pass has in hand between two of its calls is in its hand alone, whatever others
/// do meanwhile; and no entry that ever was in the slot has the birth that it shows.
pub fn a_held_slot_is_private()
    ensures { (p : PassView) (hand : HandView) (run : List Event) →
        PassLaw p → IsHandOf p hand → BeginsFor p.trace.who p.trace.seen run →
        IsRun p.trace.start p.trace.passes run →
        IsInHandAlone p.trace.start run p.trace.who hand.slot hand.birth }
{}

/// A law: let a call begin with a slot in hand, take no other, and publish it or leave it there. Then
/// the slot was in hand at each moment of the call until then.
pub fn a_slot_is_held_until_published()
    ensures published { (p q : PassView) (hand : HandView) (key : ℕ) (moment : List Event)
        (slot : PublishesSlot p.trace q.trace hand.slot hand.birth key) →
        PassLaw p → PassLaw q → IsSame p.trace q.trace → IsHandOf p hand → TakesNoSlot p q →
        Begins p.trace.seen moment → Begins moment slot.moment →
        IsInHand ((know_after p.trace.start moment p.trace.who).own hand.slot) }
    ensures placed { (p q : PassView) (hand : HandView) (key : ℕ) (moment : List Event)
        (slot : PublishedSlot p.trace q.trace hand.slot hand.birth key) →
        PassLaw p → PassLaw q → IsSame p.trace q.trace → IsHandOf p hand → TakesNoSlot p q →
        Begins p.trace.seen moment → Begins moment slot.published.moment →
        IsInHand ((know_after p.trace.start moment p.trace.who).own hand.slot) }
    ensures kept { (p q : PassView) (hand : HandView) (moment : List Event) →
        PassLaw p → PassLaw q → IsSame p.trace q.trace → IsHandOf p hand → IsHandOf q hand →
        TakesNoSlot p q → Begins p.trace.seen moment → Begins moment q.trace.seen →
        IsInHand ((know_after p.trace.start moment p.trace.who).own hand.slot) }
{}
