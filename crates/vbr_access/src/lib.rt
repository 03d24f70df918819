//! Checked access to the lists of a set, by a pass that counts its steps: checkpoints, reads that an
//! unmoved epoch has confirmed, and the exchanges that stand on them (Michael 2002; Sheffi, Herlihy and
//! Petrank 2021).
//!
//! A call that reads checks the epoch after it has read. If the epoch has moved it answers
//! [`Rollback::EpochMoved`], and the caller begins again at a [`checkpoint`]. A call that exchanges
//! answers [`Rollback::LostExchange`] if another word stood there. The calls that read, and those
//! that answer by one more load, are loads alone. What they do is in `vbr_at_table`.
#![tactic(auto)]

pub mod confirming;
pub mod marking;
pub mod reading;
pub mod unlinking;
pub mod updating;

pub use confirming::{
    confirm_absent, confirm_absent_entry, confirm_look_up, confirm_present, confirm_present_entry,
};
pub use marking::{mark, mark_entry};
pub use reading::{checkpoint, first, key_of, next, value_of};
pub use unlinking::unlink;
pub use updating::{update, update_entry};
pub use vbr_at_table::{Checkpoint, Held, Marked, Rollback};
