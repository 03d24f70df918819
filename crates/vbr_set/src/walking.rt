//! Walking the lists of a closed table.
ghost use Rattle.std.specs.Prelude.{◌≡◌, ℕ, ◌<◌, List, false, length};
ghost use Rattle.vbr_words.specs.Places.{IsIn, words_in};
ghost use Rattle.vbr_machine.specs.Accounts.{incarnations_after};
ghost use Rattle.vbr_machine.specs.declared.event.Event.{Event};
ghost use Rattle.vbr_slots.specs.declared.rule.Opened.{Opened};
ghost use Rattle.vbr_slots.specs.runs.Rule.{with_opened};
ghost use Rattle.vbr_set.specs.reports.Walking.{AreAfter, NotesList, NotesLists, is_noted, link_in};

use vbr_words::{Place, Shape, decode, place_index};

// The slot that the link at a place names, if any.
fn next_at(shape: &Shape, words: &[u64], place: Place) -> Option<u32>
    requires place { IsIn shape.now place }
    requires words { length words.now ≡ words_in shape.now }
    ensures { result ≡ (link_in shape.now words.now place).slot }
{
    decode(words[place_index(shape, place)], shape.layout()).slot
}

// Notes the slots whose nodes are in the list of a bucket.
fn note_list(shape: &Shape, words: &[u64], bucket: u32, notes: &mut [bool])
    requires bucket { bucket < shape.now.buckets }
    requires run { (opened : Opened) × (run : List Event)
        × AreAfter (with_opened shape.now opened) words.now run }
    requires room { length notes.old ≡ shape.now.slots }
    ensures { (opened : Opened) (run : List Event) → let start = with_opened shape.now opened in
        AreAfter start words.now run →
        NotesList start (incarnations_after start run) bucket notes.old notes.new }
{
    let mut next = next_at(shape, words, Place::Head(bucket));
    while let Some(slot) = next {
        notes[slot as usize] = true;
        next = next_at(shape, words, Place::LinkOf(slot));
    }
}

/// Notes the slots whose nodes are in lists.
pub(crate) fn note_lists(shape: &Shape, words: &[u64], notes: &mut [bool])
    requires run { (opened : Opened) × (run : List Event)
        × AreAfter (with_opened shape.now opened) words.now run }
    requires room { length notes.old ≡ shape.now.slots }
    requires none { (s : ℕ) → is_noted notes.old s ≡ false }
    ensures { (opened : Opened) (run : List Event) → let start = with_opened shape.now opened in
        AreAfter start words.now run → NotesLists start (incarnations_after start run) notes.new }
{
    for bucket in 0..shape.buckets() {
        note_list(shape, words, bucket, notes);
    }
}
