//! Worked lists of events, each with its effect.
ghost use Rattle.vbr_machine.specs.Machine.{opening};
ghost use Rattle.vbr_event_lists.specs.Worked.{AreWorked, one_slot, three_slots};
ghost use Rattle.vbr_event_lists.specs.Valued.{valued, with_values};
ghost use Rattle.vbr_event_lists.specs.declared.worked_lists.TheConstants.{REBORN_SLOT_WORDS, SAME_WORD_WORDS, TWO_HELPERS_WORDS};

use crate::rows::{numbered, rows};
use vbr_machine::{Effect, Step};
use vbr_words::At;

/// An event and the effect that it has.
pub type Row = (u32, Step, Effect);

/// A slot is unlinked, retired and born again while pass 1 stands in it, whose exchange is then lost; and
/// it sees the new birth.
pub fn reborn_slot() -> [Row; 45]
    ensures worked { AreWorked three_slots (opening three_slots) result REBORN_SLOT_WORDS }
    ensures valued { AreWorked (valued three_slots) (opening (valued three_slots))
        (with_values result)
        REBORN_SLOT_WORDS }
{
    rows![bare:
        0 ReadEpoch => Value(1);
        0 TakeFlag { slot: 0 } => Won;
        0 LoadStamp { slot: 0 } => Value(0);
        0 StoreBirth { slot: 0, birth: 1 } => Done;
        0 StoreKey { slot: 0, key: 30 } => Done;
        0 LoadLink { at: At::Head(0) } => Value(0);
        0 ReadEpoch => Value(1);
        0 links { slot: 0, next: None, pred: At::Head(0), expected: 0 };
        0 makes { slot: 1, birth: 1, key: 20 };
        0 links { slot: 1, next: Some(0), pred: At::Head(0), expected: 4_294_967_297 };
        1 ReadEpoch => Value(1);
        1 visits { slot: 1, at: At::Head(0), link: 4_294_967_298, epoch: 1, key: 20, birth: 1, next: 4_294_967_297 };
        1 LoadKey { slot: 0 } => Value(30);
        1 LoadBirth { slot: 0 } => Value(1);
        1 ReadEpoch => Value(1);
        1 makes { slot: 2, birth: 1, key: 25 };
        1 StoreLink { slot: 2, next: Some(0) } => Done;
        0 Mark { slot: 1, expected: numbered(4_294_967_297) } => Won;
        0 Unlink { pred: At::Head(0), expected: numbered(4_294_967_298), slot: 1 } => Won;
        0 ReadEpoch => Value(1);
        0 StoreStamp { slot: 1, stamp: 1 } => Done;
        0 Advance { from: 1 } => Won;
        0 ReadEpoch => Value(2);
        0 StoreBirth { slot: 1, birth: 2 } => Done;
        0 StoreKey { slot: 1, key: 10 } => Done;
        0 visits { slot: 0, at: At::Head(0), link: 4_294_967_297, epoch: 2, key: 30, birth: 1 };
        0 links { slot: 1, next: Some(0), pred: At::Head(0), expected: 4_294_967_297 };
        1 Publish { pred: At::Slot(1), expected: numbered(4_294_967_297), slot: 2 } => Lost(8_589_934_593);
        1 PeekBirth { slot: 1 } => Value(2);
    ]
}

/// A head shows a word, another, and the first again, for the same nodes; the exchange on it is won.
pub fn same_word() -> [Row; 37]
    ensures worked { AreWorked three_slots (opening three_slots) result SAME_WORD_WORDS }
    ensures valued { AreWorked (valued three_slots) (opening (valued three_slots))
        (with_values result)
        SAME_WORD_WORDS }
{
    rows![bare:
        0 ReadEpoch => Value(1);
        0 Advance { from: 1 } => Won;
        0 ReadEpoch => Value(2);
        0 makes { slot: 0, birth: 2, key: 30 };
        0 LoadLink { at: At::Head(0) } => Value(0);
        0 ReadEpoch => Value(2);
        0 links { slot: 0, next: None, pred: At::Head(0), expected: 0 };
        1 ReadEpoch => Value(2);
        1 visits { slot: 0, at: At::Head(0), link: 8_589_934_593, epoch: 2, key: 30, birth: 2 };
        1 makes { slot: 1, birth: 2, key: 20 };
        1 StoreLink { slot: 1, next: Some(0) } => Done;
        0 Advance { from: 2 } => Won;
        0 Advance { from: 3 } => Won;
        0 Advance { from: 4 } => Won;
        0 ReadEpoch => Value(5);
        0 makes { slot: 2, birth: 5, key: 10 };
        0 visits { slot: 0, at: At::Head(0), link: 8_589_934_593, epoch: 5, key: 30, birth: 2 };
        0 links { slot: 2, next: Some(0), pred: At::Head(0), expected: 8_589_934_593 };
        0 Mark { slot: 2, expected: numbered(21_474_836_481) } => Won;
        0 Unlink { pred: At::Head(0), expected: numbered(21_474_836_483), slot: 2 } => Won;
        1 Publish { pred: At::Head(0), expected: numbered(8_589_934_593), slot: 1 } => Won;
    ]
}

/// Two passes unlink one node, and one of them wins.
pub fn two_helpers() -> [Row; 18]
    ensures worked { AreWorked one_slot (opening one_slot) result TWO_HELPERS_WORDS }
    ensures valued { AreWorked (valued one_slot) (opening (valued one_slot)) (with_values result)
        TWO_HELPERS_WORDS }
{
    rows![bare:
        inserts_7;
        1 ReadEpoch => Value(1);
        1 LoadLink { at: At::Head(0) } => Value(4_294_967_297);
        1 ReadEpoch => Value(1);
        0 Mark { slot: 0, expected: numbered(4_294_967_296) } => Won;
        1 LoadKey { slot: 0 } => Value(7);
        1 LoadBirth { slot: 0 } => Value(1);
        1 LoadLink { at: At::Slot(0) } => Value(6_442_450_944);
        1 ReadEpoch => Value(1);
        1 Unlink { pred: At::Head(0), expected: numbered(4_294_967_297), slot: 0 } => Won;
        0 Unlink { pred: At::Head(0), expected: numbered(4_294_967_297), slot: 0 } => Lost(0);
    ]
}

/// The link words that the callers of the first list name, in order: those of its steps that store,
/// publish or unlink.
pub const REBORN_SLOT_WORDS: [u64; 9] = [
    4_294_967_296,
    4_294_967_297,
    4_294_967_297,
    4_294_967_298,
    4_294_967_297,
    4_294_967_297,
    8_589_934_593,
    8_589_934_594,
    4_294_967_299,
];

/// Those of the second list.
pub const SAME_WORD_WORDS: [u64; 7] = [
    8_589_934_592,
    8_589_934_593,
    8_589_934_593,
    21_474_836_481,
    21_474_836_483,
    8_589_934_593,
    8_589_934_594,
];

/// Those of the third list.
pub const TWO_HELPERS_WORDS: [u64; 4] = [4_294_967_296, 4_294_967_297, 0, 0];
