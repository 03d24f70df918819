//! What a pass knows: what it has read, and what it knows of the slots that it owns.
use vbr_words::{At, Link};

/// A read of a word of the set.
#[derive(Clone, Copy)]
pub enum Read {
    /// The link at a place.
    LinkAt(At, Link),
    /// The birth of a slot, an epoch.
    BirthOf(u32, u64),
    /// The key of a slot.
    KeyOf(u32, u64),
    /// The value of a slot.
    ValueOf(u32, u64),
}

/// What a pass knows of the incarnation that it bore in a slot and hasn't published: what it stored
/// in the slot's words.
#[derive(Clone, Copy)]
pub struct Unpublished {
    /// The stamp of the slot, an epoch.
    pub stamp: u64,
    /// The birth, an epoch.
    pub birth: u64,
    /// The key, if one was stored since the birth.
    pub key: Option<u64>,
    /// The value, if one was stored since the birth.
    pub value: Option<u64>,
    /// The link, if one was stored since the birth.
    pub link: Option<Link>,
}

/// What a pass knows of a slot that it owns.
#[derive(Clone, Copy)]
pub enum Holding {
    /// Free to be born in or to be raised, with its stamp, an epoch.
    Free(u64),
    /// Unlinked by the pass and not stamped since; whether the pass read the epoch since.
    Unlinked(bool),
    /// In hand: born by the pass and not published.
    InHand(Unpublished),
}

/// Where a slot is.
#[derive(Clone, Copy, Debug, PartialEq, Eq)]
pub enum SlotPlace {
    /// In the shared pool.
    Shared,
    /// In the pool of this pass.
    Own(u32),
    /// Born by this pass and not published.
    Hand(u32),
    /// In the list of this bucket, marked or not.
    Listed(u32),
}
