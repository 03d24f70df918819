//! What a caller holds between calls.
ghost use Rattle.std.specs.Prelude.{◌≡◌, true, MatchOption};
ghost use Rattle.vbr_words.specs.Words.{link_of};
ghost use Rattle.vbr_at_table.specs.reads.Held.{IsUnmarkedOrHead, held_of, said_in, said_marked_in};

use vbr_words::{At, Layout, decode};

/// A checkpoint: the epoch that a pass read, to which it rolls back.
#[derive(Clone, Copy, Debug, PartialEq, Eq)]
pub struct Checkpoint {
    /// The epoch.
    pub epoch: u64,
}

/// A head, or an incarnation in a slot, with its checked link word and the epoch of its checkpoint.
#[derive(Clone, Copy, Debug, PartialEq, Eq)]
pub struct Held {
    /// The place of the link word.
    pub at: At,
    /// The birth of the incarnation, an epoch; 0 for a head.
    pub birth: u64,
    /// The link word.
    pub word: u64,
    /// The epoch of the checkpoint.
    pub epoch: u64,
}

/// A marked node: an incarnation in a slot, with its checked marked link word and the epoch of its
/// checkpoint.
#[derive(Clone, Copy, Debug, PartialEq, Eq)]
pub struct Marked {
    /// The slot.
    pub slot: u32,
    /// The birth of the incarnation, an epoch.
    pub birth: u64,
    /// The marked link word.
    pub word: u64,
    /// The epoch of the checkpoint.
    pub epoch: u64,
}

impl Marked {
    /// What is held, if it is a marked node.
    #[inline]
    pub fn of(held: &Held, layout: Layout) -> Option<Marked>
        ensures { MatchOption result
            (IsUnmarkedOrHead (said_in layout held.now))
            (λ marked. let told = said_marked_in layout marked in
            (held_of told ≡ said_in layout held.now) × ((link_of told.word).mark ≡ true)) }
    {
        match held.at {
            At::Slot(slot) if decode(held.word, layout).mark => Some(Marked {
                slot,
                birth: held.birth,
                word: held.word,
                epoch: held.epoch,
            }),
            _ => None,
        }
    }
}
