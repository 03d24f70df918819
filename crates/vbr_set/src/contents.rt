//! What the words of a closed table say.
ghost use Rattle.std.specs.Prelude.{◌≡◌, ℕ, ◌+◌, ◌≤◌, List, [], false, length};
ghost use Rattle.std.specs.Vec.{vec_capacity};
ghost use Rattle.vbr_words.specs.Places.{words_in};
ghost use Rattle.vbr_machine.specs.Accounts.{incarnations_after};
ghost use Rattle.vbr_machine.specs.Nodes.{linked_after, marked_after};
ghost use Rattle.vbr_machine.specs.declared.event.Event.{Event};
ghost use Rattle.vbr_set.specs.reports.Contents.{Holds};
ghost use Rattle.vbr_slots.specs.declared.rule.Opened.{Opened};
ghost use Rattle.vbr_slots.specs.runs.Rule.{with_opened};
ghost use Rattle.vbr_set.specs.reports.Walking.{AreAfter, NotesLists, is_noted, linked_of};

use crate::kind::Kind;
use crate::walking::note_lists;
use vbr_words::{Place, Shape, decode, place_index};

/// What a report is made of: an item of each linked node, and the counts.
pub struct Contents<T> {
    /// The items, in the order of their slots.
    pub listed: Vec<T>,
    /// The epoch.
    pub epoch: u64,
    /// How many nodes are linked.
    pub live: u32,
    /// How many nodes are marked and still in a list.
    pub marked: u32,
    /// How many slots have no node in a list.
    pub free: u32,
}

// Lists the linked nodes, in the order of their slots, and counts them and the marked ones that are still
// in a list.
fn gather<N: Kind>(
    shape: &Shape,
    words: &[u64],
    notes: &[bool],
    listed: &mut Vec<N::Item>,
) -> (u32, u32)
    requires words { (length words.now ≡ words_in shape.now) × (shape.now.values ≡ N.VALUES) }
    requires notes { length notes.now ≡ shape.now.slots }
    requires room { (listed.old.items ≡ []) × (shape.now.slots ≤ vec_capacity listed.old) }
    ensures fit { result.0 + result.1 ≤ shape.now.slots }
    ensures each { length listed.new.items ≡ result.0 }
    ensures gathered { (opened : Opened) (run : List Event) →
        let start = with_opened shape.now opened in let nodes = incarnations_after start run in
        AreAfter start words.now run → NotesLists start nodes notes.now →
        (listed.new.items ≡ linked_of (N.shown nodes) nodes shape.now.slots)
        × (result.0 ≡ linked_after start run) × (result.1 ≡ marked_after start run) }
{
    let mut live = 0;
    let mut marked = 0;
    for slot in 0..shape.slots() {
        if !notes[slot as usize] {
            continue;
        }
        let word = words[place_index(shape, Place::LinkOf(slot))];
        if decode(word, shape.layout()).mark {
            marked += 1;
        } else {
            live += 1;
            let Ok(()) = listed.push(N::read(shape, words, slot)) else {
                unreachable!()
            };
        }
    }
    (live, marked)
}

/// What the words of a closed table say, once the slots whose nodes are in lists are noted.
pub(crate) fn contents_by<N: Kind>(
    shape: &Shape,
    words: &[u64],
    notes: &[bool],
    mut listed: Vec<N::Item>,
) -> Contents<N::Item>
    requires words { (length words.now ≡ words_in shape.now) × (shape.now.values ≡ N.VALUES) }
    requires notes { length notes.now ≡ shape.now.slots }
    requires room { (listed.items ≡ []) × (shape.now.slots ≤ vec_capacity listed) }
    ensures { (opened : Opened) (run : List Event) → let start = with_opened shape.now opened in
        AreAfter start words.now run →
        NotesLists start (incarnations_after start run) notes.now → Holds N.shown start run result }
{
    let (live, marked) = gather::<N>(shape, words, notes, &mut listed);
    Contents {
        listed,
        epoch: words[place_index(shape, Place::Epoch)],
        live,
        marked,
        free: shape.slots() - live - marked,
    }
}

/// What the words of a closed table say.
pub(crate) fn contents_of<N: Kind>(
    shape: &Shape,
    words: &[u64],
    mut notes: Vec<bool>,
    listed: Vec<N::Item>,
) -> Contents<N::Item>
    requires kind { shape.now.values ≡ N.VALUES }
    requires run { (opened : Opened) × (run : List Event)
        × AreAfter (with_opened shape.now opened) words.now run }
    requires notes { (length notes.items ≡ shape.now.slots)
        × ((s : ℕ) → is_noted notes.items s ≡ false) }
    requires room { (listed.items ≡ []) × (shape.now.slots ≤ vec_capacity listed) }
    ensures { (opened : Opened) (run : List Event) → let start = with_opened shape.now opened in
        AreAfter start words.now run → Holds N.shown start run result }
{
    note_lists(shape, words, &mut notes);
    contents_by::<N>(shape, words, &notes, listed)
}
