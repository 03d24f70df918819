//! The worked lists of events, which tests follow, with what is computed of them.
#![tactic(auto)]

mod raised_slot;
mod replacements;
mod rows;
mod step_kinds;
mod values;
mod worked_lists;

pub use raised_slot::{RAISED_IN_HAND_WORDS, raised_in_hand};
pub use replacements::{REPLACED_VALUE_WORDS, replaced_value};
pub use rows::numbered;
pub use step_kinds::{STANDING_WORDS, standing_rows, standing_rows_with_values};
pub use values::{STORED_VALUE_WORDS, stored_value, with_values};
pub use worked_lists::{
    REBORN_SLOT_WORDS, Row, SAME_WORD_WORDS, TWO_HELPERS_WORDS, reborn_slot, same_word, two_helpers,
};
