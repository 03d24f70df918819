//! The running table: the words of a set, shared by threads, under one rule. The table is the state
//! of a run of the machine, and what each pass has seen is a beginning of that run that has all its own
//! events.
//!
//! [`Slots`] is the table. A [`Pass`] is the right to make steps under one number, in one thread at
//! a time. Each step is one atomic operation on one word: a load, a store, an exchange, an `|` or
//! an `&`.
#![tactic(auto)]

pub mod at_table;
pub mod bearing;
pub mod close_error;
pub mod closing;
pub mod confirming;
pub mod epoch;
pub mod exchanging;
pub mod free_slots;
pub mod laws;
mod laying;
pub mod loading;
pub mod meeting;
pub mod opening;
pub mod owning;
pub mod pass;
mod pool;
mod rule;
mod runner;
pub mod seen;
pub mod slots;
pub mod snapshot;
pub mod stepper;
mod stepping;
pub mod tally;
pub mod warming;

pub use at_table::AtTable;
pub use close_error::CloseError;
pub use opening::{MAX_MANY_PASSES, MAX_PASSES, OpenError, OpenManyError};
pub use pass::Pass;
pub use runner::EpochRead;
pub use seen::Seen;
pub use slots::Slots;
pub use stepper::Stepper;
pub use tally::Tally;
pub use warming::BATCH;
