//! A worked list of events in which a slot is raised while it is in hand.
ghost use Rattle.vbr_machine.specs.Machine.{opening};
ghost use Rattle.vbr_event_lists.specs.Worked.{AreWorked, one_slot};
ghost use Rattle.vbr_event_lists.specs.Valued.{valued, with_values};
ghost use Rattle.vbr_event_lists.specs.declared.raised_slot.TheConstants.{RAISED_IN_HAND_WORDS};

use crate::rows::{numbered, rows};
use crate::worked_lists::Row;
use vbr_machine::{Effect, Step};
use vbr_words::At;

/// Pass 0 gives birth in a slot in epoch 2, and raises it in place of publishing it. Pass 1, which read
/// the epoch before it moved, takes the slot, bears there in epoch 1 and inserts 7.
pub fn raised_in_hand() -> [Row; 16]
    ensures worked { AreWorked one_slot (opening one_slot) result RAISED_IN_HAND_WORDS }
    ensures valued { AreWorked (valued one_slot) (opening (valued one_slot)) (with_values result)
        RAISED_IN_HAND_WORDS }
{
    rows![bare:
        1 ReadEpoch => Value(1);
        1 LoadLink { at: At::Head(0) } => Value(0);
        1 ReadEpoch => Value(1);
        0 ReadEpoch => Value(1);
        0 Advance { from: 1 } => Won;
        0 ReadEpoch => Value(2);
        0 makes { slot: 0, birth: 2, key: 9 };
        0 StoreLink { slot: 0, next: None } => Done;
        0 Raise { slot: 0 } => Done;
        1 makes { slot: 0, birth: 1, key: 7 };
        1 links { slot: 0, next: None, pred: At::Head(0), expected: 0 };
    ]
}

/// The link words that the callers of its steps name.
pub const RAISED_IN_HAND_WORDS: [u64; 3] = [8_589_934_592, 4_294_967_296, 4_294_967_297];
