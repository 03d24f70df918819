//! The slots of the linked nodes of a closed table, by its words.
ghost use Rattle.std.specs.Prelude.{◌≡◌, ℕ, ◌≤◌, List, [], false, length};
ghost use Rattle.std.specs.Vec.{vec_capacity};
ghost use Rattle.vbr_words.specs.Places.{words_in};
ghost use Rattle.vbr_machine.specs.Accounts.{incarnations_after};
ghost use Rattle.vbr_machine.specs.declared.event.Event.{Event};
ghost use Rattle.vbr_slots.specs.declared.rule.Opened.{Opened};
ghost use Rattle.vbr_slots.specs.runs.Rule.{with_opened};
ghost use Rattle.vbr_set.specs.reports.Contents.{Holds};
ghost use Rattle.vbr_set.specs.reports.EntrySlots.{ListsSlots, key_with_slot, slots_listed};
ghost use Rattle.vbr_set.specs.reports.Walking.{AreAfter, NotesLists, is_noted, linked_of};

use crate::contents::{Contents, contents_by};
use crate::kind::Kind;
use crate::walking::note_lists;
use vbr_words::{Place, Shape, decode, place_index};

// Lists the keys of the linked nodes, each with its slot, in the order of their slots.
fn gather_keys(shape: &Shape, words: &[u64], notes: &[bool], keyed: &mut Vec<(u64, u32)>)
    requires words { length words.now ≡ words_in shape.now }
    requires notes { length notes.now ≡ shape.now.slots }
    requires room { (keyed.old.items ≡ []) × (shape.now.slots ≤ vec_capacity keyed.old) }
    ensures few { length keyed.new.items ≤ shape.now.slots }
    ensures gathered { (opened : Opened) (run : List Event) →
        let start = with_opened shape.now opened in let nodes = incarnations_after start run in
        AreAfter start words.now run → NotesLists start nodes notes.now →
        keyed.new.items ≡ linked_of (key_with_slot nodes) nodes shape.now.slots }
{
    for slot in 0..shape.slots() {
        let word = words[place_index(shape, Place::LinkOf(slot))];
        if !notes[slot as usize] || decode(word, shape.layout()).mark {
            continue;
        }
        let key = words[place_index(shape, Place::Key(slot))];
        let Ok(()) = keyed.push((key, slot)) else {
            unreachable!()
        };
    }
}

// The slots of the linked nodes, in the order of their keys.
fn slots_of(
    shape: &Shape,
    words: &[u64],
    notes: &[bool],
    mut keyed: Vec<(u64, u32)>,
    slots: Vec<u32>,
) -> Vec<u32>
    requires words { length words.now ≡ words_in shape.now }
    requires notes { length notes.now ≡ shape.now.slots }
    requires keyed { (keyed.items ≡ []) × (shape.now.slots ≤ vec_capacity keyed) }
    requires slots { (slots.items ≡ []) × (shape.now.slots ≤ vec_capacity slots) }
    ensures { (opened : Opened) (run : List Event) →
        let start = with_opened shape.now opened in let nodes = incarnations_after start run in
        AreAfter start words.now run → NotesLists start nodes notes.now →
        ListsSlots start run result.items }
{
    gather_keys(shape, words, notes, &mut keyed);
    keyed.sort_unstable_by_key(|node| node.0);
    without_keys(keyed, slots)
}

// The slots of keys that stand beside them, in their order.
fn without_keys(keyed: Vec<(u64, u32)>, mut slots: Vec<u32>) -> Vec<u32>
    requires { (slots.items ≡ []) × (length keyed.items ≤ vec_capacity slots) }
    ensures { result.items ≡ slots_listed keyed.items }
{
    for (_, slot) in keyed {
        let Ok(()) = slots.push(slot) else {
            unreachable!()
        };
    }
    slots
}

/// What the words of a closed table say, and the slots of its linked nodes, in the order of their keys.
pub(crate) fn contents_with_slots<N: Kind>(
    shape: &Shape,
    words: &[u64],
    mut notes: Vec<bool>,
    listed: Vec<N::Item>,
    keyed: Vec<(u64, u32)>,
    slots: Vec<u32>,
) -> (Contents<N::Item>, Vec<u32>)
    requires kind { shape.now.values ≡ N.VALUES }
    requires run { (opened : Opened) × (run : List Event)
        × AreAfter (with_opened shape.now opened) words.now run }
    requires notes { (length notes.items ≡ shape.now.slots)
        × ((s : ℕ) → is_noted notes.items s ≡ false) }
    requires listed { (listed.items ≡ []) × (shape.now.slots ≤ vec_capacity listed) }
    requires keyed { (keyed.items ≡ []) × (shape.now.slots ≤ vec_capacity keyed) }
    requires slots { (slots.items ≡ []) × (shape.now.slots ≤ vec_capacity slots) }
    ensures { (opened : Opened) (run : List Event) → let start = with_opened shape.now opened in
        AreAfter start words.now run →
        Holds N.shown start run result.0 × ListsSlots start run result.1.items }
{
    note_lists(shape, words, &mut notes);
    let slots = slots_of(shape, words, &notes, keyed, slots);
    (contents_by::<N>(shape, words, &notes, listed), slots)
}
