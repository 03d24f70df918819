//! A worked list of events with a step of each kind, after each of which a pass may stand still.
ghost use Rattle.vbr_machine.specs.Machine.{opening};
ghost use Rattle.vbr_event_lists.specs.Worked.{AreWorked, many_epochs};
ghost use Rattle.vbr_event_lists.specs.Valued.{valued};
ghost use Rattle.vbr_event_lists.specs.declared.step_kinds.TheConstants.{STANDING_WORDS};

use crate::rows::{numbered, rows};
use crate::worked_lists::Row;
use vbr_machine::{Effect, Op, Step};
use vbr_words::At;

// The rows of both lists. Pass 0 inserts 7. Then pass 1 takes a slot, reads the node of 7, inserts 8
// behind it, removes 7, gives the slot of 7 to the shared pool, and advances the epoch.
macro_rules! standing {
    ($kind:ident) => {
        rows![$kind:
            inserts_7;
            1 ReadEpoch => Value(1);
            1 TakeFlag { slot: 1 } => Won;
            1 LoadStamp { slot: 1 } => Value(0);
            1 StoreBirth { slot: 1, birth: 1 } => Done;
            1 StoreKey { slot: 1, key: 8 } => Done;
            valued 1 StoreValue { slot: 1, value: 108 } => Done;
            1 LoadLink { at: At::Head(0) } => Value(4_294_967_297);
            1 ReadEpoch => Value(1);
            1 LoadBirth { slot: 0 } => Value(1);
            1 LoadLink { at: At::Slot(0) } => Value(4_294_967_296);
            1 ReadEpoch => Value(1);
            1 LoadKey { slot: 0 } => Value(7);
            valued 1 LoadValue { slot: 0 } => Value(107);
            1 ReadEpoch => Value(1);
            1 ConfirmPresent { op: Op::Has, slot: 0, expected: numbered(4_294_967_296) } => Answered(true);
            1 StoreLink { slot: 1, next: None } => Done;
            1 Publish { pred: At::Slot(0), expected: numbered(4_294_967_296), slot: 1 } => Won;
            1 Mark { slot: 0, expected: numbered(4_294_967_298) } => Won;
            1 Unlink { pred: At::Head(0), expected: numbered(4_294_967_297), slot: 0 } => Won;
            1 ReadEpoch => Value(1);
            1 StoreStamp { slot: 0, stamp: 1 } => Done;
            1 Raise { slot: 0 } => Done;
            1 Advance { from: 1 } => Won;
            1 PeekBirth { slot: 1 } => Value(1);
        ]
    };
}

/// Pass 0 inserts 7. Then pass 1 takes a slot, reads the node of 7, inserts 8 behind it, removes 7,
/// gives the slot of 7 to the shared pool, and advances the epoch.
pub fn standing_rows() -> [Row; 30]
    ensures worked { AreWorked many_epochs (opening many_epochs) result STANDING_WORDS }
{
    standing!(bare)
}

/// The same list on nodes that have values: each store of a key is followed by that of its value, 100
/// more than the key, and pass 1 loads the value of 7 before it removes 7.
pub fn standing_rows_with_values() -> [Row; 33]
    ensures worked { AreWorked (valued many_epochs) (opening (valued many_epochs)) result
        STANDING_WORDS }
{
    standing!(valued)
}

/// The link words that the callers of the steps of either list name.
pub const STANDING_WORDS: [u64; 5] = [
    4_294_967_296,
    4_294_967_297,
    4_294_967_296,
    4_294_967_298,
    4_294_967_298,
];
