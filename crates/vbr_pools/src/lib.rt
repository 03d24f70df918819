//! The pools, by a pass that counts its steps: where it takes slots for new incarnations, and where the
//! slots that it unlinked go. Each pass has a pool of its own; what has no place there is in the shared
//! pool, one flag a slot.
//!
//! [`take`] gives a [`Hand`], a slot with a new incarnation that isn't published yet. [`give_back`]
//! puts it back, and [`retire`] brings a slot back that was unlinked, under the stamp of the epoch in
//! which it may still be read (Sheffi, Herlihy and Petrank 2021). [`give_slots_back`] puts the slots of the
//! own pool into the shared one; [`reserve`] and [`top_up`] take some from there. What they do is in `vbr_at_table`.
#![tactic(auto)]

pub mod giving_back;
pub mod giving_slots_back;
pub mod reserving;
pub mod retiring;
pub mod taking;

pub use giving_back::give_back;
pub use giving_slots_back::give_slots_back;
pub use reserving::{reserve, top_up};
pub use retiring::retire;
pub use taking::take;
pub use vbr_at_table::{Hand, Refusal as TakeRefusal, Unlinked, budget};
