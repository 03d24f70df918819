//! What a set promises its callers, and the pure machine that the concurrent set is a run of.
//!
//! [`PlainSet`] is the plain, exact set of one caller that the other crates are measured against,
//! and [`PlainMap`] the map.
#![tactic(auto)]

pub mod entries;
pub mod event;
pub mod history;
pub mod knowledge;
pub mod laws;
pub mod plain_map;
pub mod plain_set;
pub mod record_laws;

pub use entries::keys_and_values;
pub use event::{CoreRefusal, Effect, Event, Step};
pub use history::{Call, Op};
pub use knowledge::{Holding, Read, SlotPlace, Unpublished};
pub use plain_map::PlainMap;
pub use plain_set::PlainSet;
