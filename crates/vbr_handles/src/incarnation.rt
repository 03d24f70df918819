//! Where an entry stands, as it crosses to C.
ghost use Rattle.std.specs.Prelude.{◌≡◌};
ghost use Rattle.vbr_handles.specs.Incarnations.{entry_named};

use vbr_list::Entry;

/// The slot of an entry's node, with the birth of that node, which no other node that was ever in that
/// slot has, and the value of the entry, 0 in a set.
#[repr(C)]
#[derive(Clone, Copy, Debug, PartialEq, Eq)]
pub struct Incarnation {
    /// The birth.
    pub birth: u64,
    /// The value that is stored with the key.
    pub value: u64,
    /// The slot.
    pub slot: u32,
}

impl Incarnation {
    // Where an entry stands.
    pub(crate) fn of(entry: Entry) -> Incarnation
        ensures { entry_named result ≡ entry }
    {
        Incarnation {
            birth: entry.birth,
            value: entry.value,
            slot: entry.slot,
        }
    }

    // The entry.
    pub(crate) fn entry(&self) -> Entry
        ensures { result ≡ entry_named self.now }
    {
        Entry {
            slot: self.slot,
            birth: self.birth,
            value: self.value,
        }
    }
}
