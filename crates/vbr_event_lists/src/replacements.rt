//! A worked list of events with replacements.
ghost use Rattle.vbr_machine.specs.Machine.{opening};
ghost use Rattle.vbr_event_lists.specs.Worked.{AreWorked, many_epochs};
ghost use Rattle.vbr_event_lists.specs.Valued.{valued};
ghost use Rattle.vbr_event_lists.specs.declared.replacements.TheConstants.{REPLACED_VALUE_WORDS};

use crate::rows::{numbered, rows};
use crate::worked_lists::Row;
use vbr_machine::{Effect, Op, Step};
use vbr_words::At;

/// Pass 0 inserts 7 with the value 107 and replaces that by 207, while pass 1 stands on the node with
/// one of its own in hand: its replacement and its get are lost. Then pass 1 goes on to the new node,
/// gets 207, unlinks the old node and replaces 207 by 307, to which a mark of pass 0 is lost.
pub fn replaced_value() -> [Row; 43]
    ensures worked { AreWorked (valued many_epochs) (opening (valued many_epochs)) result
        REPLACED_VALUE_WORDS }
{
    rows![valued:
        inserts_7;
        1 ReadEpoch => Value(1);
        1 visits { slot: 0, at: At::Head(0), link: 4_294_967_297, epoch: 1, key: 7, value: 107, birth: 1, next: 4_294_967_296 };
        1 makes { slot: 2, birth: 1, key: 7, value: 307 };
        1 StoreLink { slot: 2, next: None } => Done;
        0 makes { slot: 1, birth: 1, key: 7, value: 207 };
        0 StoreLink { slot: 1, next: None } => Done;
        0 Replace { slot: 0, expected: numbered(4_294_967_296), new: 1 } => Won;
        1 Replace { slot: 0, expected: numbered(4_294_967_296), new: 2 } => Lost(6_442_450_946);
        1 ConfirmPresent { op: Op::Get, slot: 0, expected: numbered(4_294_967_296) } => Lost(6_442_450_946);
        1 visits { slot: 1, at: At::Slot(0), link: 6_442_450_946, epoch: 1, key: 7, value: 207, birth: 1, next: 4_294_967_296 };
        1 ConfirmPresent { op: Op::Get, slot: 1, expected: numbered(4_294_967_296) } => Answered(true);
        1 Unlink { pred: At::Head(0), expected: numbered(4_294_967_297), slot: 0 } => Won;
        1 ReadEpoch => Value(1);
        1 StoreStamp { slot: 0, stamp: 1 } => Done;
        1 Replace { slot: 1, expected: numbered(4_294_967_296), new: 2 } => Won;
        0 Mark { slot: 1, expected: numbered(4_294_967_296) } => Lost(6_442_450_947);
    ]
}

/// The link words that the callers of its steps name.
pub const REPLACED_VALUE_WORDS: [u64; 8] = [
    4_294_967_296,
    4_294_967_297,
    4_294_967_296,
    4_294_967_296,
    6_442_450_946,
    6_442_450_947,
    4_294_967_298,
    6_442_450_947,
];
