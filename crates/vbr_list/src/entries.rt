//! Entries that outlast the call that found them.
ghost use Rattle.std.specs.Prelude.{◌≡◌, ◌<◌, true, false, None, Some};
ghost use Rattle.vbr_at_table.specs.reads.Held.{IsSlot};
ghost use Rattle.vbr_at_table.specs.reads.Reading.{ReadsIn};
ghost use Rattle.vbr_list.specs.named_entries.Entries.{GetsNamedEntry, TellsStill, entry_of, steps_to_ask, HasNamedEntry, value_given, without_value};
ghost use Rattle.vbr_list.specs.named_entries.OtherEntries.{IsNodeOf};
ghost use Rattle.vbr_slots.specs.views.Views.{IsOf};

use crate::found::Found;
use crate::looking_up::look_up;
use vbr_at_table::{Held, Refusal, birth_shown};
use vbr_slots::{AtTable, Pass, Slots};
use vbr_words::{At, Entries, Nodes};

/// An entry as a call found it: the slot of its node, the birth of that node, and the value stored
/// there, or 0 in a set. It is valid only for its table, until that is closed or renewed.
#[derive(Clone, Copy, Debug, PartialEq, Eq)]
pub struct Entry {
    /// The slot.
    pub slot: u32,
    /// The birth.
    pub birth: u64,
    /// The value.
    pub value: u64,
}

impl Entry {
    // The same entry with the value 0.
    #[inline(always)]
    pub(crate) fn bare(self) -> Entry
        ensures { result ≡ without_value self }
    {
        Entry { value: 0, ..self }
    }
}

/// The entry of a node that is held at a slot, with this value.
#[inline(always)]
pub(crate) fn named(node: &Held, value: u64) -> Entry
    requires slot { IsSlot node.now.at }
    ensures { entry_of node.now (Some value) ≡ Some result }
{
    let At::Slot(slot) = node.at else {
        unreachable!()
    };
    Entry {
        slot,
        birth: node.birth,
        value,
    }
}

// The entry of a node that is held, if it is a node with a value.
#[inline(always)]
pub(crate) fn entry_of(node: &Held, value: Option<u64>) -> Option<Entry>
    ensures { result ≡ entry_of node.now value }
{
    match (node.at, value) {
        (At::Slot(slot), Some(value)) => Some(Entry {
            slot,
            birth: node.birth,
            value,
        }),
        _ => None,
    }
}

// The value of the entry that an answer gives.
#[inline(always)]
pub(crate) fn value_given(answer: Result<Option<Entry>, Refusal>) -> Result<Option<u64>, Refusal>
    ensures { result ≡ value_given answer }
{
    match answer {
        Ok(Some(entry)) => Ok(Some(entry.value)),
        Ok(None) => Ok(None),
        Err(refusal) => Err(refusal),
    }
}

// Whether what was found is the node of this entry.
#[inline(always)]
pub(crate) fn is_node_of(found: &Found, entry: &Entry) -> bool
    ensures is { result ≡ true → IsNodeOf found.now entry.now }
    ensures is_not { result ≡ false → ¬ (IsNodeOf found.now entry.now) }
{
    match &found.cur {
        Some(cur) => { found.present && cur.at == At::Slot(entry.slot) && cur.birth == entry.birth }
        None => false,
    }
}

/// Like [`crate::get`], but returns the entry of a key, if the key is there, with its value. Its node
/// was in the map, with this value, at the step that answers the call. The rest is as `get_entry` of a
/// map by `AtSet` of `vbr_set`.
pub fn get_entry(
    slots: &Slots<Entries>,
    pass: &mut Pass,
    key: u64,
    budget: u32,
) -> Result<Option<Entry>, Refusal>
    requires own { IsOf pass.old.trace slots.now }
    requires empty_hand { pass.old.hand ≡ None }
    ensures { GetsNamedEntry pass.old pass.new key budget result }
{
    pass.law();
    slots.kind();
    pass.during(
        |stepper|
            requires own { IsOf stepper.old.trace slots.now }
            requires empty_hand { stepper.old.hand ≡ None }
            requires values { slots.now.start.shape.values ≡ true }
        { look_up(slots, stepper, key, true, budget) },
    )
}

/// Like [`crate::has`] of a set, but returns the entry of a key, if the key is there, with the value 0.
/// Its node was in the set at the step that answers the call. The rest is as `get_entry` of a set by
/// `AtSet` of `vbr_set`.
pub fn has_entry(
    slots: &Slots,
    pass: &mut Pass,
    key: u64,
    budget: u32,
) -> Result<Option<Entry>, Refusal>
    requires own { IsOf pass.old.trace slots.now }
    requires empty_hand { pass.old.hand ≡ None }
    ensures { HasNamedEntry pass.old pass.new key budget result }
{
    pass.during(
        |stepper|
            requires own { IsOf stepper.old.trace slots.now }
            requires empty_hand { stepper.old.hand ≡ None }
        { look_up(slots, stepper, key, false, budget) },
    )
}

/// Whether the slot of an entry still shows its birth, as `VbrSet::is_still` of `vbr_set` says.
#[inline]
pub fn is_still<N: Nodes>(slots: &Slots<N>, pass: &mut Pass, entry: &Entry) -> bool
    requires own { IsOf pass.old.trace slots.now }
    ensures reads { ReadsIn pass.old pass.new (steps_to_ask pass.old.trace entry.now) }
    ensures tells { TellsStill pass.old pass.new entry.now result }
{
    pass.law();
    let slot = entry.slot;
    if slot >= slots.shape().slots() {
        return false;
    }
    let shown = pass.during(
        |stepper|
            requires own { IsOf stepper.old.trace slots.now }
            requires slot { slot < slots.now.start.shape.slots }
        { (birth_shown(&mut AtTable { slots, stepper }, slot), 1) },
    );
    shown == entry.birth
}
