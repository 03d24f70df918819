//! The laws of chronicles and runs, in the order of the argument. Each function says its law in
//! its contract, and does nothing.
ghost use Rattle.std.specs.Prelude.{ℕ, ◌≡◌, ◌≢◌, ◌+◌, ◌*◌, ◌<◌, ◌≤◌, ◌↔◌, true, false, List, [], ◌∷◌, ◌++◌, Option, Some};
ghost use Rattle.std.specs.List.Sorted.{IsStrictlyIncreasing};
ghost use Rattle.vbr_words.specs.Dimensions.{Dimensions};
ghost use Rattle.vbr_machine.specs.Start.{Start, IsStart};
ghost use Rattle.vbr_words.specs.Words.{link_of};
ghost use Rattle.vbr_words.specs.declared.link.Link.{Link};
ghost use Rattle.vbr_words.specs.declared.place.At.{At};
ghost use Rattle.vbr_words.specs.declared.place.At.TheVariants.{Slot};
ghost use Rattle.vbr_words.specs.declared.place.Place.{Place};
ghost use Rattle.vbr_machine.specs.Keys.{Keys};
ghost use Rattle.vbr_machine.specs.Opened.{opening_keys, opening_payloads, payload_kept};
ghost use Rattle.vbr_machine.specs.History.{IsLegal, set_after, values_after};
ghost use Rattle.vbr_machine.specs.Knowledge.{Know};
ghost use Rattle.vbr_words.specs.Buckets.{bucket_of};
ghost use Rattle.vbr_machine.specs.Maps.{Entries, entries_in, keys_in, map_start, IsMapLegal, opening_entries, TellsNoValue, StoresNoValue, HaveValues};
ghost use Rattle.vbr_machine.specs.Acceptance.{Accepts, IsAtIn, IsOpIn, IsBetween};
ghost use Rattle.vbr_machine.specs.Loads.{IsLoad};
ghost use Rattle.vbr_machine.specs.Machine.{World, after, found, word_at};
ghost use Rattle.vbr_machine.specs.Machine as machine;
ghost use Rattle.vbr_machine.specs.Membership.{Knows, HeldIn, LeadsTo, KeyAt, StandsBehind, StandsBefore, AcceptsKnown};
ghost use Rattle.vbr_machine.specs.Moments.{WasAbsent, WasShown};
ghost use Rattle.vbr_machine.specs.Incarnations.{Incarnations, IsLate, Unlinked, at_opening};
ghost use Rattle.vbr_machine.specs.Chronicles.{Entry, IsLawful, incarnations_from};
ghost use Rattle.vbr_machine.specs.Sound.{IsListed, Grows, Sound, Tells};
ghost use Rattle.vbr_machine.specs.Images.{link_shown_at};
ghost use Rattle.vbr_machine.specs.Notes.{Note, IsHeldBy, IsAmong};
ghost use Rattle.vbr_machine.specs.Accounts.{chronicle, incarnations_after, notes_after};
ghost use Rattle.vbr_machine.specs.Disturbances.{disturbances, how_many, is_removal, is_unlinking, updates};
ghost use Rattle.vbr_machine.specs.Agreement.{IsGoodLink, IsLastOf, IsPair, IsHeldIncarnation};
ghost use Rattle.vbr_machine.specs.Calls.{own_calls};
ghost use Rattle.vbr_machine.specs.Removals.{IsTakenOut, MarkedLeft, NoneMarked};
ghost use Rattle.vbr_machine.specs.Runs.{Begins, IsAccepted, IsRun, NoneOf, know_after, world_after};
ghost use Rattle.vbr_machine.specs.MarkedBy.{HasOneLeft, marked_by};
ghost use Rattle.vbr_machine.specs.Needs.{AdvancesInNeed};
ghost use Rattle.vbr_machine.specs.Nodes.{marked_after, state_in};
ghost use Rattle.vbr_machine.specs.Unretired.{removes, unretired_after};
ghost use Rattle.vbr_machine.specs.Safety.{IsSafe};
ghost use Rattle.vbr_machine.specs.Whereabouts.{InSharedPool, InSet, MarkedInList, Unstamped, IsSomewhere, UnlinksInTurn, is_at, number_at, number_had, sum_of};
ghost use Rattle.vbr_machine.specs.declared.history.Call.{Call};
ghost use Rattle.vbr_machine.specs.declared.event.Event.{Event};
ghost use Rattle.vbr_machine.specs.declared.event.Step.{Step};
ghost use Rattle.vbr_machine.specs.declared.event.Step.TheVariants.{ConfirmPresent, ConfirmAbsent};
ghost use Rattle.vbr_machine.specs.declared.history.Op.{Op};
ghost use Rattle.vbr_machine.specs.declared.history.Op.TheVariants.{Insert, Remove};
ghost use Rattle.vbr_machine.specs.declared.knowledge.Read.TheVariants.{LinkAt, KeyOf, ValueOf};

/// A law: a lawful chronicle is sound, if the opening keys ascend.
pub fn lawful_is_sound()
    ensures { (start : Start) (entries : List Entry) →
        IsStrictlyIncreasing start.keys →
        IsLawful start (opening_keys start) (at_opening start) entries →
        Sound start (incarnations_from start (at_opening start) entries) }
{}

/// A law: the calls of a lawful chronicle are legal from the opening keys, if these ascend, and
/// the set after them has just the keys of the linked incarnations.
pub fn lawful_is_legal()
    ensures { (start : Start) (entries : List Entry) →
        IsStrictlyIncreasing start.keys →
        IsLawful start (opening_keys start) (at_opening start) entries →
        Tells start (incarnations_from start (at_opening start) entries) }
{}

/// A law: as a lawful chronicle goes on, what was there stays.
pub fn the_past_stays()
    ensures { (start : Start) (keys : Keys) (a : Incarnations) (entries : List Entry) →
        Sound start a → IsLawful start keys a entries →
        Grows a (incarnations_from start a entries) }
{}

/// A law: two incarnations of a slot that were born by an epoch and are late for it are one.
pub fn one_late_incarnation()
    ensures { (start : Start) (a : Incarnations) (c d e : ℕ) →
        Sound start a → a.slot c ≡ a.slot d → a.birth c ≤ e → a.birth d ≤ e →
        IsLate (a.state c) e → IsLate (a.state d) e → c ≡ d }
{}

/// A law: an incarnation that is late for the epoch as it stands is the last of its slot.
pub fn unmoved_is_last()
    ensures { (start : Start) (a : Incarnations) (c : ℕ) →
        Sound start a → IsLate (a.state c) a.epoch → a.last (a.slot c) ≡ Some c }
{}

/// A law: the successor of an incarnation that is late for an epoch is late for it too.
pub fn late_is_handed_on()
    ensures { (start : Start) (a : Incarnations) (c n e : ℕ) →
        Sound start a → a.next c ≡ Some n → IsLate (a.state c) e → IsLate (a.state n) e }
{}

/// A law: a checked unmarked link that stands at its place again stands for the two incarnations
/// that it was checked with: each is still the last of its slot, the first is linked, and the
/// second is its successor.
pub fn same_link_same_pair()
    ensures { (start : Start) (a : Incarnations) (epoch : ℕ) (place : At) (link : Link)
        (of names : Option ℕ) →
        Sound start a → IsGoodLink a epoch place link of names → link.mark ≡ false →
        link_shown_at a place ≡ link → IsPair a place of names × IsLastOf a names }
{}

/// A law: every run is safe.
pub fn every_run_is_safe()
    ensures { (start : Start) (passes : ℕ) (run : List Event) →
        IsStart start → IsRun start passes run → IsSafe start run }
{}

/// A law: the calls of a run are a legal history of a map that opens with the keys of its start and
/// their values.
pub fn a_run_is_a_map()
    ensures { (start : Start) (passes : ℕ) (run : List Event) →
        IsStart start → IsRun start passes run →
        IsMapLegal (opening_entries start) (world_after start run).calls }
{}

/// A law: what opens with entries, keys with their values, opens with the map of these entries.
pub fn entries_open_as_their_map()
    ensures { (shape : Dimensions) (entries : List (ℕ × ℕ)) (key : ℕ) →
        opening_entries (map_start shape entries) key ≡ entries_in entries key }
{}

/// A law: if nodes have values, the calls of a run that store or give one have it, and if
/// they have none, no call has.
pub fn calls_have_values()
    ensures { (start : Start) (passes : ℕ) (run : List Event) →
        IsRun start passes run → HaveValues start.shape.values (world_after start run).calls }
{}

/// A law: if no value is stored or returned, a legal history of a map is one of the set of its keys,
/// and the other way round.
pub fn a_map_without_values_is_a_set()
    ensures { (entries : Entries) (calls : List Call) →
        StoresNoValue entries → TellsNoValue calls → IsMapLegal entries calls
        ↔ IsLegal (keys_in entries) calls }
{}

/// A law: a beginning of a run is a run.
pub fn a_beginning_is_a_run()
    ensures { (start : Start) (passes : ℕ) (moment run : List Event) →
        IsRun start passes run → Begins moment run → IsRun start passes moment }
{}

/// A law: a run is safe at each of its moments. So every checked read that there ever was, was
/// right, and the words were the image of the chronicle all along.
pub fn every_moment_is_safe()
    ensures { (start : Start) (passes : ℕ) (moment run : List Event) →
        IsStart start → IsRun start passes run → Begins moment run → IsSafe start moment }
{}

/// A law: what is late at a moment of a run, for an epoch that has come by then, is late for it at
/// the end, and so is the successor that it has there.
pub fn late_is_handed_on_in_runs()
    ensures { (start : Start) (passes : ℕ) (moment run : List Event) (c e : ℕ) →
        IsStart start → IsRun start passes run → Begins moment run →
        e ≤ (incarnations_after start moment).epoch →
        IsLate ((incarnations_after start moment).state c) e →
        IsLate ((incarnations_after start run).state c) e
        × ((n : ℕ) → (incarnations_after start run).next c ≡ Some n →
        IsLate ((incarnations_after start run).state n) e) }
{}

/// A law: while the epoch is the one that a pass read last, each incarnation that it holds is the
/// last of its slot.
pub fn unmoved_is_last_in_runs()
    ensures { (start : Start) (passes : ℕ) (run : List Event) (pass s c : ℕ) →
        IsStart start → IsRun start passes run → IsHeldBy (notes_after start run pass).checked s c →
        (know_after start run pass).epoch ≡ (world_after start run).epoch →
        (incarnations_after start run).last s ≡ Some c }
{}

/// A law: let a pass have checked an unmarked link at a moment of a run, and let this link stand at
/// its place at the end. Then it stands for the same two incarnations: each is the last of its
/// slot, the first is linked, and the second is its successor.
pub fn same_link_same_pair_in_runs()
    ensures { (start : Start) (passes : ℕ) (moment run : List Event) (pass : ℕ) (note : Note)
        (place : At) (link : Link) →
        IsStart start → IsRun start passes run → Begins moment run →
        IsAmong note (notes_after start moment pass).checked → note.read ≡ LinkAt place link →
        link.mark ≡ false → machine.link_at (world_after start run) place ≡ link →
        IsPair (incarnations_after start run) place note.of note.names
        × IsLastOf (incarnations_after start run) note.names }
{}

/// A law: the events of others leave what a pass knows as it was, so a step that the pass may make
/// stays accepted.
pub fn others_leave_it_accepted()
    ensures { (start : Start) (passes : ℕ) (seen rest : List Event) (pass : ℕ)
        (step : Step) → NoneOf pass rest →
        (know_after start (seen ++ rest) pass ≡ know_after start seen pass)
        × (IsAccepted start passes (world_after start seen)
        (record { pass = pass; step = step }) →
        IsAccepted start passes (world_after start (seen ++ rest))
        (record { pass = pass; step = step })) }
{}

/// A law: after a run, acceptance may be judged by any reads that a pass knows, and not only by
/// those that a search finds first.
pub fn known_reads_agree()
    ensures { (start : Start) (passes : ℕ) (run : List Event) (pass : ℕ) (step : Step) →
        IsStart start → IsRun start passes run →
        AcceptsKnown start (know_after start run pass) step
        ↔ Accepts start (know_after start run pass) step }
{}

/// A law: a key that a pass knows of a slot that it holds in a bucket is one of the bucket.
pub fn held_in_bucket()
    ensures { (start : Start) (passes : ℕ) (run : List Event) (pass s bucket key : ℕ) →
        IsStart start → IsRun start passes run →
        HeldIn (know_after start run pass) (Slot s) bucket →
        Knows (know_after start run pass) (KeyOf s key) → bucket_of start.shape key ≡ bucket }
{}

/// A law: let an unmarked link that a pass knows have been shown at its place at an earlier moment,
/// when the pass held the place, in the epoch that it still has. Then a key that it knows of the
/// place was in the set at that moment.
pub fn present_at_load()
    ensures { (start : Start) (passes : ℕ) (moment run : List Event) (pass : ℕ) (place : At)
        (link : Link) (key : ℕ) →
        IsStart start → IsRun start passes run → WasShown start moment run pass place link →
        KeyAt (know_after start run pass) place key →
        set_after (opening_keys start) (world_after start moment).calls key ≡ true }
{}

/// A law: in the same case, a value that it knows of the place was the value of the key.
pub fn value_at_load()
    ensures { (start : Start) (passes : ℕ) (moment run : List Event) (pass s : ℕ)
        (link : Link) (key value : ℕ) →
        IsStart start → IsRun start passes run →
        WasShown start moment run pass (Slot s) link →
        Knows (know_after start run pass) (KeyOf s key) →
        Knows (know_after start run pass) (ValueOf s value) →
        values_after (opening_payloads start) (world_after start moment).calls key
        ≡ payload_kept start (Some value) }
{}

/// A law: in the same case, a key that stands behind the place, and before what the link names,
/// wasn't in the set at that moment.
pub fn absent_at_load()
    ensures { (start : Start) (passes : ℕ) (moment run : List Event) (pass : ℕ) (place : At)
        (link : Link) (key : ℕ) →
        IsStart start → IsRun start passes run → WasShown start moment run pass place link →
        StandsBehind start (know_after start run pass) place key →
        StandsBefore (know_after start run pass) key link.slot →
        set_after (opening_keys start) (world_after start moment).calls key ≡ false }
{}

/// A law: in the same cases no marked incarnation of the key was in a list at that moment but one
/// that was replaced. Let the known marked link of a slot that stands behind the place name what the
/// link names. Then the incarnation that is held at the slot was in no list: it is unlinked; and if
/// it was removed, and not replaced, no marked incarnation of its key was.
pub fn none_marked_at_load()
    ensures here { (start : Start) (passes : ℕ) (moment run : List Event)
        (pass : ℕ) (place : At) (link : Link) (key : ℕ) → IsStart start → IsRun start passes run →
        WasShown start moment run pass place link →
        KeyAt (know_after start run pass) place key →
        NoneMarked (incarnations_after start moment) key }
    ensures between { (start : Start) (passes : ℕ) (moment run : List Event)
        (pass : ℕ) (place : At) (link : Link) (key : ℕ) → IsStart start → IsRun start passes run →
        WasShown start moment run pass place link →
        StandsBehind start (know_after start run pass) place key →
        StandsBefore (know_after start run pass) key link.slot →
        NoneMarked (incarnations_after start moment) key }
    ensures skipped { (start : Start) (passes : ℕ) (moment run : List Event)
        (pass : ℕ) (place : At) (link frozen : Link) (s key : ℕ) →
        IsStart start → IsRun start passes run →
        WasShown start moment run pass place link →
        StandsBehind start (know_after start run pass) place key →
        Knows (know_after start run pass) (LinkAt (Slot s) frozen) → frozen.mark ≡ true →
        frozen.slot ≡ link.slot → Knows (know_after start run pass) (KeyOf s key) →
        IsTakenOut (incarnations_after start run) (know_after start run pass).epoch s →
        NoneMarked (incarnations_after start moment) key }
    ensures unlisted { (start : Start) (passes : ℕ) (moment run : List Event)
        (pass : ℕ) (place : At) (link frozen : Link) (s key node : ℕ) →
        IsStart start → IsRun start passes run →
        WasShown start moment run pass place link →
        StandsBehind start (know_after start run pass) place key →
        Knows (know_after start run pass) (LinkAt (Slot s) frozen) → frozen.mark ≡ true →
        frozen.slot ≡ link.slot → Knows (know_after start run pass) (KeyOf s key) →
        IsHeldIncarnation (incarnations_after start run) (know_after start run pass).epoch s node →
        ¬ (IsListed ((incarnations_after start moment).state node)) }
{}

/// A law: let a remove of a pass be answered yes between two moments of a run, and let no marked
/// incarnation of its key be in a list at a later moment but one that was replaced. Then the
/// incarnation that it marked has left all lists at the end.
pub fn removed_has_left()
    ensures { (start : Start) (passes : ℕ) (before answered moment run : List Event) (pass : ℕ)
        (call : Call) → IsStart start → IsRun start passes run → Begins before answered →
        Begins answered moment → Begins moment run → call.op ≡ Remove → call.reply ≡ true →
        own_calls start answered pass ≡ own_calls start before pass ++ call ∷ [] →
        NoneMarked (incarnations_after start moment) call.key →
        MarkedLeft start before run pass call.key }
{}

/// A law: if a confirming load finds the word that it expects, the set at that moment has each
/// key that its pass knows of the slot, or hasn't the key that was asked for.
pub fn confirmed_at_load()
    ensures { (start : Start) (passes : ℕ) (run : List Event) (pass : ℕ) (op : Op)
        (s key : ℕ) (place : At) (expected : ℕ) → IsStart start → IsRun start passes run →
        (Accepts start (know_after start run pass) (ConfirmPresent op s expected) →
        found start (world_after start run) (ConfirmPresent op s expected) ≡ expected →
        Knows (know_after start run pass) (KeyOf s key) →
        set_after (opening_keys start) (world_after start run).calls key ≡ true)
        × (Accepts start (know_after start run pass) (ConfirmAbsent op key place expected) →
        found start (world_after start run) (ConfirmAbsent op key place expected) ≡ expected →
        set_after (opening_keys start) (world_after start run).calls key ≡ false) }
{}

/// A law: let an unmarked link that a pass knows stand at its place, and known marked links lead on
/// from it. Then a key that stands behind the place, and before what the last of them names, isn't
/// in the set: the nodes between are still marked.
pub fn absent_behind_marked()
    ensures { (start : Start) (passes : ℕ) (run : List Event) (pass : ℕ) (place : At)
        (link last : Link) (key : ℕ) →
        IsStart start → IsRun start passes run →
        Knows (know_after start run pass) (LinkAt place link) → link.mark ≡ false →
        machine.link_at (world_after start run) place ≡ link →
        LeadsTo (know_after start run pass) link last →
        StandsBehind start (know_after start run pass) place key →
        StandsBefore (know_after start run pass) key last.slot →
        set_after (opening_keys start) (world_after start run).calls key ≡ false }
{}

/// A law: let an unmarked link that a pass knows have been shown at its place at an earlier moment, as
/// above, and known marked links lead on from it. Then a key that stands behind the place, and before
/// what the last of them names, wasn't in the set at some moment since: each of the nodes between was
/// marked, and still in its list, at one.
pub fn absent_at_a_moment()
    ensures { (start : Start) (passes : ℕ) (moment run : List Event) (pass : ℕ) (place : At)
        (link last : Link) (key : ℕ) →
        IsStart start → IsRun start passes run → WasShown start moment run pass place link →
        LeadsTo (know_after start run pass) link last →
        StandsBehind start (know_after start run pass) place key →
        StandsBefore (know_after start run pass) key last.slot →
        WasAbsent start moment run key }
{}

/// A law: if a key stands between a place and the very node that its link names, if it names
/// one, a confirming load for the key is accepted there, by an operation of the shape. No marked
/// node need be passed.
pub fn between_is_accepted()
    ensures { (start : Start) (know : Know) (op : Op) (key : ℕ) (place : At) (expected : ℕ) →
        IsAtIn start place → IsOpIn start op → op ≢ Insert →
        IsBetween start know.checked key place (link_of expected) →
        Accepts start know (ConfirmAbsent op key place expected) }
{}

/// A law: a step that is a load leaves each word as it was.
pub fn loads_leave_the_words()
    ensures { (start : Start) (w : World) (pass : ℕ) (step : Step) (place : Place) →
        IsLoad step → word_at start (after start w pass step) place ≡ word_at start w place }
{}

/// A law: after a run each slot is somewhere, and nowhere else: in the shared pool; with one of the
/// passes, in its own pool or its hand; in the set, as the node of a key; marked, and still in a list;
/// or unlinked and unstamped, with one of the passes.
pub fn each_slot_is_somewhere()
    ensures { (start : Start) (passes : ℕ) (run : List Event) (s : ℕ) →
        IsStart start → IsRun start passes run → IsSomewhere start passes run s }
{}

/// A law: the slots that are somewhere after a run are all slots of the shape: those in the shared
/// pool, those that each pass has, in its own pool, in its hand or unstamped, one for each key of the
/// set, and the marked ones.
pub fn slots_add_up()
    ensures { (start : Start) (passes : ℕ) (run : List Event) →
        IsStart start → IsRun start passes run →
        start.shape.slots ≡ number_at start run InSharedPool + sum_of passes (number_had start run)
        + number_at start run InSet + number_at start run MarkedInList }
{}

/// A law: a slot is unstamped with just the pass that unlinked the incarnation born there last, until
/// this pass has stamped it.
pub fn unstamped_with_its_unlinker()
    ensures { (start : Start) (passes : ℕ) (run : List Event) (pass s : ℕ) →
        IsStart start → IsRun start passes run →
        (is_at start run (Unstamped pass) s ≡ true)
        ↔ ((unlinked : ℕ) × (state_in (incarnations_after start run) s ≡ Unlinked pass unlinked)) }
{}

/// A law: a pass that unlinks, in a run, only once it has stamped each slot that it unlinked before has
/// at each moment of the run at most one that is unstamped. The machine alone allows it more.
pub fn one_unstamped_at_a_time()
    ensures { (start : Start) (moment run : List Event) (pass : ℕ) →
        Begins moment run → UnlinksInTurn start run pass →
        number_at start moment (Unstamped pass) ≤ 1 }
{}

/// A law: of the nodes that were removed in a run each was unlinked, by one unlinking, or is still
/// marked. So there are no more unlinkings than removals, each of which is a remove answered yes.
pub fn unlinkings_follow_removals()
    ensures { (start : Start) (passes : ℕ) (run : List Event) →
        IsStart start → IsRun start passes run →
        how_many is_unlinking (chronicle start run) + marked_after start run
        ≡ how_many is_removal (chronicle start run) }
{}

/// A law: between two moments of a run a pass is disturbed at a bucket no more often than the epoch
/// advances, twice for each insert or remove that is answered yes, and once for each node that was
/// marked at first; less one for each that is marked at the end.
pub fn disturbances_are_paid()
    ensures { (start : Start) (passes : ℕ) (first run : List Event) (who bucket : ℕ) →
        IsStart start → IsRun start passes run → Begins first run →
        disturbances start run who bucket + marked_after start run
        + (incarnations_after start first).epoch
        + 2 * updates (incarnations_after start first).calls
        ≤ disturbances start first who bucket + marked_after start first
        + (incarnations_after start run).epoch
        + 2 * updates (incarnations_after start run).calls }
{}

/// A law: let each pass advance the epoch only if it needs that, from one moment of a run to another.
/// Then the epoch advances at most once, and once for each node that was removed and not retired at
/// first, or is removed since; less one for each that is so at the end.
pub fn advances_are_paid()
    ensures { (start : Start) (passes : ℕ) (first run : List Event) →
        IsStart start → IsRun start passes run → Begins first run →
        ((pass : ℕ) → pass < passes → AdvancesInNeed start first run pass) →
        (incarnations_after start run).epoch + unretired_after start run
        + how_many is_removal (chronicle start first)
        ≤ (incarnations_after start first).epoch + 1 + unretired_after start first
        + how_many is_removal (chronicle start run) }
{}

/// A law: so a pass is disturbed at a bucket at most once, once for each node that was marked at first,
/// once for each that was removed and not retired, and three times for each insert or remove that is
/// answered yes. If none is answered yes, the first three numbers are known at first.
pub fn disturbances_are_answered()
    ensures { (start : Start) (passes : ℕ) (first run : List Event) (who bucket : ℕ) →
        IsStart start → IsRun start passes run → Begins first run →
        ((pass : ℕ) → pass < passes → AdvancesInNeed start first run pass) →
        disturbances start run who bucket + 3 * updates (incarnations_after start first).calls
        ≤ disturbances start first who bucket + 1 + marked_after start first
        + unretired_after start first + 3 * updates (incarnations_after start run).calls }
{}

/// A law: let each pass advance the epoch only if it needs that, from the opening on. Then the epoch is
/// at most one more than the removes that were answered yes, less those whose nodes aren't retired.
pub fn the_epoch_is_paid()
    ensures { (start : Start) (passes : ℕ) (run : List Event) →
        IsStart start → IsRun start passes run →
        ((pass : ℕ) → pass < passes → AdvancesInNeed start [] run pass) →
        (incarnations_after start run).epoch + unretired_after start run
        ≤ 1 + removes (incarnations_after start run).calls }
{}

/// A law: the nodes that are removed and not retired are no more than the marked ones, and one for each
/// pass, if each has at most one slot unlinked and not stamped.
pub fn one_unretired_for_each_pass()
    ensures { (start : Start) (passes : ℕ) (run : List Event) →
        IsStart start → IsRun start passes run →
        ((pass : ℕ) → pass < passes → number_at start run (Unstamped pass) ≤ 1) →
        unretired_after start run ≤ marked_after start run + passes }
{}

/// A law: the nodes that are marked, and in their lists still, are no more than those of them that each
/// pass marked, added up.
pub fn marks_add_up()
    ensures { (start : Start) (passes : ℕ) (run : List Event) →
        IsStart start → IsRun start passes run →
        marked_after start run ≤ sum_of passes (marked_by start run) }
{}

/// A law: between two moments of a run the nodes that a pass marked, and that are in their lists still,
/// grow by no more than its removes that are answered yes.
pub fn marks_follow_removes()
    ensures { (start : Start) (passes : ℕ) (first run : List Event) (pass : ℕ) →
        IsStart start → IsRun start passes run → Begins first run →
        marked_by start run pass + removes (own_calls start first pass)
        ≤ marked_by start first pass + removes (own_calls start run pass) }
{}

/// A law: and by one fewer, if a node that the pass has marked or replaced since has left its list.
pub fn marks_fall_where_one_left()
    ensures { (start : Start) (passes : ℕ) (first run : List Event) (pass key : ℕ) →
        IsStart start → IsRun start passes run → Begins first run →
        HasOneLeft start first run pass key →
        marked_by start run pass + 1 + removes (own_calls start first pass)
        ≤ marked_by start first pass + removes (own_calls start run pass) }
{}
