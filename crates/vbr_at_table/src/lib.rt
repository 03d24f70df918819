//! What a pass does at its table above single steps, where no step is counted: pools and checked access.
//!
//! The pools are where a pass takes slots for new incarnations, and where the slots that it unlinked go.
//! Each pass has a pool of its own; what has no place there is in the shared pool, one flag a slot.
//! [`take`] gives a [`Hand`], a slot with a new incarnation that isn't published yet. [`give_back`]
//! puts it back, and [`retire`] brings a slot back that was unlinked, under the stamp of the epoch in
//! which it may still be read (Sheffi, Herlihy and Petrank 2021).
//!
//! Checked access to the lists of a set is by checkpoints, reads that an unmoved epoch has confirmed,
//! and the exchanges that stand on them (Michael 2002). A call that reads checks the epoch after it has
//! read. If the epoch has moved it answers [`Rollback::EpochMoved`], and the caller begins again at a
//! [`checkpoint`]. A call that exchanges answers [`Rollback::LostExchange`] if another word stood
//! there. The calls that read, and those that answer by one more load, are loads alone.
//!
//! A call that is made of these counts its steps once for all, when it ends. `vbr_pools` and
//! `vbr_access` have the same calls by a pass, where each counts its own.
#![tactic(auto)]

pub mod aside;
pub mod budget;
pub mod confirming;
pub mod giving_back;
pub mod giving_slots_back;
pub mod hand;
pub mod held;
mod links;
pub mod marking;
pub mod reading;
pub mod refusal;
pub mod replacing;
pub mod reserving;
pub mod retiring;
pub mod rollback;
pub mod taking;
pub mod unlinked;
pub mod unlinking;
pub mod updating;

pub use aside::Aside;
pub use confirming::{confirm_absent, confirm_look_up, confirm_present};
pub use giving_back::give_back;
pub use giving_slots_back::give_slots_back;
pub use hand::Hand;
pub use held::{Checkpoint, Held, Marked};
pub use marking::mark;
pub use reading::{birth_after, birth_shown, checkpoint, first, key_of, next, value_of};
pub use refusal::Refusal;
pub use replacing::replace;
pub use reserving::{reserve, top_up};
pub use retiring::retire;
pub use rollback::Rollback;
pub use taking::take;
pub use unlinked::Unlinked;
pub use unlinking::{steps_to_unlink, unlink};
pub use updating::update;
