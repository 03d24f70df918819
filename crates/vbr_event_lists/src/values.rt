//! Worked lists of events on nodes that have values.
ghost use Rattle.std.specs.Prelude.{◌≡◌, IfOk};
ghost use Rattle.vbr_event_lists.specs.Valued.{value_row, valued, with_values};
ghost use Rattle.vbr_machine.specs.Machine.{opening};
ghost use Rattle.vbr_event_lists.specs.Worked.{AreWorked, one_slot};
ghost use Rattle.vbr_event_lists.specs.declared.values.TheConstants.{STORED_VALUE_WORDS};

use crate::rows::{numbered, rows};
use crate::worked_lists::Row;
use std::alloc::{AllocError, Global};
use vbr_machine::{Effect, Op, Step};
use vbr_words::At;

/// Pass 0 inserts 7 with the value 107 and reads the value back. Pass 1 reads both and gets the value,
/// then pass 0 removes 7, and a second get of pass 1 is lost.
pub fn stored_value() -> [Row; 21]
    ensures worked { AreWorked (valued one_slot) (opening (valued one_slot)) result
        STORED_VALUE_WORDS }
{
    rows![valued:
        inserts_7;
        0 LoadValue { slot: 0 } => Value(107);
        0 ReadEpoch => Value(1);
        1 ReadEpoch => Value(1);
        1 LoadLink { at: At::Head(0) } => Value(4_294_967_297);
        1 ReadEpoch => Value(1);
        1 LoadKey { slot: 0 } => Value(7);
        1 LoadLink { at: At::Slot(0) } => Value(4_294_967_296);
        1 LoadValue { slot: 0 } => Value(107);
        1 ReadEpoch => Value(1);
        1 ConfirmPresent { op: Op::Get, slot: 0, expected: numbered(4_294_967_296) } => Answered(true);
        0 Mark { slot: 0, expected: numbered(4_294_967_296) } => Won;
        1 ConfirmPresent { op: Op::Get, slot: 0, expected: numbered(4_294_967_296) } => Lost(6_442_450_944);
    ]
}

/// The link words that the callers of its steps name.
pub const STORED_VALUE_WORDS: [u64; 2] = [4_294_967_296, 4_294_967_297];

// The row that stores a value after a step that stores a key.
fn value_row(pass: u32, step: Step) -> Option<Row>
    ensures { result ≡ value_row pass step }
{
    match step {
        Step::StoreKey { slot, key } => {
            let value = key.saturating_add(100);
            Some((pass, Step::StoreValue { slot, value }, Effect::Done))
        }
        _ => None,
    }
}

/// The rows of a list, in which each store of a key is followed by the store of a value, 100 more than
/// the key.
pub fn with_values(alloc: Global, mut rows: &[Row]) -> Result<Vec<Row>, AllocError>
    ensures { IfOk result (λ valued. valued.items ≡ with_values rows.now) }
{
    let mut valued = Vec::new(alloc);
    while let Some((row, later)) = rows.split_first() {
        valued.push(*row)?;
        if let Some(next) = value_row(row.0, row.1) {
            valued.push(next)?;
        }
        rows = later;
    }
    Ok(valued)
}
