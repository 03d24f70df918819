//! The laws of records that a program keeps beside the slots, one for each. Each function says its law
//! in its contract, and does nothing.
ghost use Rattle.std.specs.Prelude.{ℕ, ◌≡◌, ◌≢◌, ◌≤◌, ◌↔◌, true, List, [], ◌∷◌, ◌++◌, Some};
ghost use Rattle.vbr_words.specs.declared.link.Link.{Link};
ghost use Rattle.vbr_words.specs.declared.place.At.{At};
ghost use Rattle.vbr_words.specs.declared.place.At.TheVariants.{Slot};
ghost use Rattle.vbr_machine.specs.Start.{Start, IsStart};
ghost use Rattle.vbr_machine.specs.Acceptance.{IsInHand};
ghost use Rattle.vbr_machine.specs.Machine.{found};
ghost use Rattle.vbr_machine.specs.Opened.{has_opening_key, key_number, opening_birth};
ghost use Rattle.vbr_machine.specs.Membership.{Knows};
ghost use Rattle.vbr_machine.specs.Moments.{WasShown};
ghost use Rattle.vbr_machine.specs.Incarnations.{Linked};
ghost use Rattle.vbr_machine.specs.Accounts.{incarnations_after};
ghost use Rattle.vbr_machine.specs.Records.{Act, IsEntry, IsInHandAlone, IsInNoHand, IsLastInserted, NoneBears, NoneTries, OnlyWrites, WritesInHand, events_of, records_after};
ghost use Rattle.vbr_machine.specs.Runs.{Begins, IsRun, know_after, world_after};
ghost use Rattle.vbr_machine.specs.declared.event.Event.{Event};
ghost use Rattle.vbr_machine.specs.declared.event.Step.TheVariants.{Publish, Replace};
ghost use Rattle.vbr_machine.specs.declared.knowledge.Holding.TheVariants.{InHand};
ghost use Rattle.vbr_machine.specs.declared.knowledge.Read.TheVariants.{BirthOf, KeyOf};
ghost use Rattle.vbr_machine.specs.declared.knowledge.Unpublished.{Unpublished};

/// A law: let an incarnation have been inserted by a moment of a run, as the last of its slot, and let
/// its birth stand there at the end. Then it was the last of its slot at each moment between, and no
/// pass had the slot in hand.
pub fn same_birth_same_entry()
    ensures { (start : Start) (passes : ℕ) (moment between run : List Event) (s node : ℕ) →
        IsStart start → IsRun start passes run → Begins moment between → Begins between run →
        IsLastInserted start moment s node →
        (world_after start run).birth s ≡ (incarnations_after start moment).birth node →
        IsLastInserted start between s node × IsInNoHand start between s }
{}

/// A law: let an incarnation have been linked at a moment of a run, as the last of its slot, and let
/// the epoch at the end be one that had come by then. Then its birth stands in its slot at the end.
pub fn same_epoch_same_entry()
    ensures { (start : Start) (passes : ℕ) (moment run : List Event) (s node e : ℕ) →
        IsStart start → IsRun start passes run → Begins moment run →
        (incarnations_after start moment).last s ≡ Some node →
        (incarnations_after start moment).state node ≡ Linked →
        e ≤ (world_after start moment).epoch → (world_after start run).epoch ≡ e →
        (world_after start run).birth s ≡ (incarnations_after start moment).birth node }
{}

/// A law: let an unmarked link that a pass knows have been shown at a slot at an earlier moment. Then a
/// linked incarnation stood there at that moment, with the birth and the key that the pass knows of the
/// slot.
pub fn entry_at_load()
    ensures { (start : Start) (passes : ℕ) (moment run : List Event) (pass s : ℕ) (link : Link)
        (birth key : ℕ) →
        IsStart start → IsRun start passes run → WasShown start moment run pass (Slot s) link →
        Knows (know_after start run pass) (BirthOf s birth) →
        Knows (know_after start run pass) (KeyOf s key) →
        (node : ℕ) × IsEntry start moment s birth key node }
{}

/// A law: a slot that a pass knows to be in its hand is in its hand alone, with the birth that it
/// knows; and no incarnation that was ever inserted there has this birth.
pub fn in_hand_alone()
    ensures alone { (start : Start) (passes : ℕ) (run : List Event) (pass s : ℕ)
        (known : Unpublished) → IsStart start → IsRun start passes run →
        (know_after start run pass).own s ≡ Some (InHand known) →
        IsInHandAlone start run pass s known.birth }
    ensures fresh { (start : Start) (passes : ℕ) (moment run : List Event) (pass s node : ℕ)
        (known : Unpublished) → IsStart start → IsRun start passes run → Begins moment run →
        (know_after start run pass).own s ≡ Some (InHand known) →
        IsLastInserted start moment s node →
        (incarnations_after start moment).birth node ≢ known.birth }
{}

/// A law: a slot that a pass has in hand at two moments, with one birth, it has in hand at each moment
/// between, if it tries to take no slot out of the shared pool meanwhile.
pub fn in_hand_throughout()
    ensures { (start : Start) (passes : ℕ) (first more rest : List Event) (pass s : ℕ)
        (known later : Unpublished) →
        IsStart start → IsRun start passes ((first ++ more) ++ rest) →
        (know_after start first pass).own s ≡ Some (InHand known) →
        (know_after start ((first ++ more) ++ rest) pass).own s ≡ Some (InHand later) →
        later.birth ≡ known.birth → NoneTries pass (more ++ rest) →
        IsInHand ((know_after start (first ++ more) pass).own s) }
{}

/// A law: a slot that a pass has in hand it had in hand at each moment since it last gave birth there.
pub fn in_hand_since_its_birth()
    ensures { (start : Start) (run more : List Event) (pass s : ℕ) →
        IsInHand ((know_after start (run ++ more) pass).own s) → NoneBears pass s more →
        IsInHand ((know_after start run pass).own s) }
{}

/// A law: let a program write records, one for each slot, and each pass the record of a slot
/// only while it has the slot in hand. Then each word of the record of a slot is what it was when an
/// incarnation had been inserted there, as long as the birth of that one stands there at some later
/// moment.
pub fn a_confirmed_record_is_the_entrys()
    ensures { (start : Start) (passes : ℕ) (before : List Event) (records : ℕ → ℕ → ℕ)
        (now after : List (Act ℕ)) (s node : ℕ) →
        IsStart start → IsRun start passes (before ++ events_of (now ++ after)) →
        WritesInHand start before (now ++ after) → IsLastInserted start before s node →
        (world_after start (before ++ events_of (now ++ after))).birth s
        ≡ (incarnations_after start before).birth node →
        (word : ℕ) → records_after records now s word ≡ records s word }
{}

/// A law: in the same program, between two moments at which a pass has a slot in hand, with one birth,
/// it alone writes the record of the slot, if it tries to take no slot out of the shared pool meanwhile;
/// and so it does before a moment at which it has the slot in hand, since it last gave birth there.
pub fn a_record_in_hand_is_private()
    ensures between { (start : Start) (passes : ℕ) (before : List Event) (acts : List (Act ℕ))
        (pass s : ℕ) (known later : Unpublished) →
        IsStart start → IsRun start passes (before ++ events_of acts) →
        WritesInHand start before acts →
        (know_after start before pass).own s ≡ Some (InHand known) →
        (know_after start (before ++ events_of acts) pass).own s ≡ Some (InHand later) →
        later.birth ≡ known.birth → NoneTries pass (events_of acts) → OnlyWrites pass s acts }
    ensures since { (start : Start) (passes : ℕ) (before : List Event) (acts : List (Act ℕ))
        (pass s : ℕ) → IsStart start → IsRun start passes (before ++ events_of acts) →
        WritesInHand start before acts →
        IsInHand ((know_after start (before ++ events_of acts) pass).own s) →
        NoneBears pass s (events_of acts) → OnlyWrites pass s acts }
{}

/// A law: if a pass publishes a slot that it has in hand, or puts it in the place of another node,
/// the slot is an entry then, with the birth and the key that the pass knows of it.
pub fn what_is_published_is_an_entry()
    ensures published { (start : Start) (passes : ℕ) (run : List Event) (pass : ℕ) (pred : At)
        (expected s key : ℕ) (known : Unpublished) → IsStart start →
        IsRun start passes (run ++ (record { pass = pass; step = Publish pred expected s }) ∷ []) →
        (know_after start run pass).own s ≡ Some (InHand known) → known.key ≡ Some key →
        found start (world_after start run) (Publish pred expected s) ≡ expected →
        (node : ℕ) × IsEntry start
        (run ++ (record { pass = pass; step = Publish pred expected s }) ∷ [])
        s known.birth key node }
    ensures replacing { (start : Start) (passes : ℕ) (run : List Event) (pass : ℕ)
        (t expected s key : ℕ) (known : Unpublished) → IsStart start →
        IsRun start passes (run ++ (record { pass = pass; step = Replace t expected s }) ∷ []) →
        (know_after start run pass).own s ≡ Some (InHand known) → known.key ≡ Some key →
        found start (world_after start run) (Replace t expected s) ≡ expected →
        (node : ℕ) × IsEntry start
        (run ++ (record { pass = pass; step = Replace t expected s }) ∷ [])
        s known.birth key node }
{}

/// A law: the birth of an incarnation that was inserted stands in its slot exactly while it is the last
/// one there.
pub fn a_birth_stands_while_it_is_the_last()
    ensures { (start : Start) (passes : ℕ) (moment run : List Event) (s node : ℕ) →
        IsStart start → IsRun start passes run → Begins moment run →
        IsLastInserted start moment s node →
        ((world_after start run).birth s ≡ (incarnations_after start moment).birth node)
        ↔ ((incarnations_after start run).last s ≡ Some node) }
{}

/// A law: a world that opens with keys has key number i as an entry in slot i. So a renewal says where
/// each record goes.
pub fn keys_open_in_slots_of_their_numbers()
    ensures { (start : Start) (i : ℕ) → has_opening_key start i ≡ true →
        IsEntry start [] i (opening_birth start i) (key_number start i) i }
{}
