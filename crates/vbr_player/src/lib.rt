//! The player of scripts: it reads a script, plays it on a set or a map by workers in threads of their
//! own, and writes what it was answered.
//!
//! A set is opened with a worker for each pass; they play phase after phase, and meet after each;
//! when the script says so, the set is renewed, and they go on over the new one; in the end the set
//! is closed, and the replies and totals are those of one run. [`play`] is the whole, and [`play_map`]
//! that of a map.
#![tactic(auto)]

mod asking;
mod ending;
pub mod gate;
mod meeting;
mod opened;
mod opening;
mod part;
mod phase;
mod phase_worker;
mod phases;
mod playable;
pub mod playing;
mod sets;
mod worker;

pub use gate::{Gate, NoGate};
pub use playing::{play, play_map};
pub use vbr_settings::{Config, ConfigError, MAX_WORKERS};
pub use vbr_transcript::{MAX_SCRIPT_LEN, MapTotals, Reply, RunError, Totals};
