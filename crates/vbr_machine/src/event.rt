//! The events of the machine: which pass makes which step, and what a step answers.
use crate::history::Op;
use std::error::Error;
use std::fmt;
use vbr_words::{At, WideWord};

/// One step of one pass.
#[derive(Clone, Copy, Debug, PartialEq, Eq)]
pub struct Event {
    /// The number of the pass.
    pub pass: u32,
    /// What it does.
    pub step: Step,
}

/// A step of the machine: one atomic operation on one word.
#[derive(Clone, Copy, Debug, PartialEq, Eq)]
pub enum Step {
    /// Loads the epoch. If it is the one that the pass read last, its pending reads are checked;
    /// if it has moved, the pass knows nothing any more.
    ReadEpoch,
    /// Advances the epoch by one, if it is `from`.
    Advance {
        from: u64,
    },
    /// Loads the stamp of a slot that the pass owns.
    LoadStamp {
        slot: u32,
    },
    /// Loads the birth of a slot, whoever has it, and teaches nothing.
    PeekBirth {
        slot: u32,
    },
    /// Stamps a slot that the pass unlinked, with an epoch that it read since: the slot is retired.
    StoreStamp {
        slot: u32,
        stamp: u64,
    },
    /// Puts a slot that the pass owns, free or in hand, into the shared pool. An incarnation that is
    /// in hand is given up.
    Raise {
        slot: u32,
    },
    /// Takes a slot out of the shared pool, if it is there.
    TakeFlag {
        slot: u32,
    },
    /// Gives birth to a new incarnation in a slot that the pass owns; it is then in hand.
    StoreBirth {
        slot: u32,
        birth: u64,
    },
    /// Stores the key of the incarnation in hand.
    StoreKey {
        slot: u32,
        key: u64,
    },
    /// Stores the value of the incarnation in hand, if nodes have values.
    StoreValue {
        slot: u32,
        value: u64,
    },
    /// Stores the link of the incarnation in hand, to a held slot or to none.
    StoreLink {
        slot: u32,
        next: Option<u32>,
    },
    /// Loads a link word; the read is pending.
    LoadLink {
        at: At,
    },
    /// Loads the birth of a held slot; the read is pending.
    LoadBirth {
        slot: u32,
    },
    /// Loads the key of a held slot; the read is pending.
    LoadKey {
        slot: u32,
    },
    /// Loads the value of a held slot, if nodes have values; the read is pending.
    LoadValue {
        slot: u32,
    },
    /// Links the incarnation in hand behind `pred`, if the word there is `expected`: an insert.
    Publish {
        pred: At,
        expected: WideWord,
        slot: u32,
    },
    /// Marks a node, if its link word is `expected`: a remove.
    Mark {
        slot: u32,
        expected: WideWord,
    },
    /// Marks a node, if its link word is `expected`, and links the incarnation in hand, which has its
    /// key, in its place: a remove and an insert in one step, if nodes have values.
    Replace {
        slot: u32,
        expected: WideWord,
        new: u32,
    },
    /// Unlinks a marked node behind `pred`, if the word there is `expected`.
    Unlink {
        pred: At,
        expected: WideWord,
        slot: u32,
    },
    /// Loads the link of a node; if it is `expected`, its key is present.
    ConfirmPresent {
        op: Op,
        slot: u32,
        expected: WideWord,
    },
    /// Loads a link word; if it is `expected`, the key, which would stand behind it, is absent.
    /// Marked nodes may stand between.
    ConfirmAbsent {
        op: Op,
        key: u64,
        at: At,
        expected: WideWord,
    },
}

/// What a step answers.
#[derive(Clone, Copy, Debug, PartialEq, Eq)]
pub enum Effect {
    /// The word that was loaded. Of a link word it is the number, as [`WideWord`] has it.
    Value(u128),
    /// The store was made.
    Done,
    /// The exchange was made.
    Won,
    /// The exchange, or the confirming load, found this word and not the expected one.
    Lost(u128),
    /// The confirming load found the expected word, and the call is answered so.
    Answered(bool),
}

/// Why the machine refuses an event. The tests are of the pass, the slots and buckets, what
/// the pass owns, what it has checked, the numbers, and the last epoch, in this order.
#[derive(Clone, Copy, Debug, PartialEq, Eq)]
pub enum CoreRefusal {
    /// There is no pass of that number.
    NoSuchPass,
    /// The pass doesn't own the slot in the way that the step asks.
    NotOwned,
    /// The pass hasn't checked a read that the step asks for.
    NotHeld,
    /// A slot or a bucket is outside the shape, or another number is out of range.
    OutOfRange,
    /// The epoch is the last one.
    EpochLast,
    /// There is no memory for what the step leaves.
    NoMemory,
}

impl fmt::Display for CoreRefusal {
    ghost use Rattle.std.specs.Prelude.{Some};
    ghost use Rattle.vbr_machine.specs.Messages.{step_text};

    ghost output = { λ e. Some (step_text e) };

    fn fmt<W: fmt::Write>(&self, f: &mut fmt::Formatter<W>) -> fmt::Result {
        f.write_str(match self {
            CoreRefusal::NoSuchPass => "there is no pass of that number",
            CoreRefusal::NotOwned => "the pass doesn't own the slot so",
            CoreRefusal::NotHeld => "the pass hasn't checked a read that the step asks for",
            CoreRefusal::OutOfRange => "a number of the step is out of range",
            CoreRefusal::EpochLast => "the epoch is the last one",
            CoreRefusal::NoMemory => "there is no memory for the step",
        })
    }
}

impl Error for CoreRefusal {}
