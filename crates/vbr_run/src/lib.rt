//! The player of scripts under one name: it reads a script of calls on a set or on a map, plays it on
//! worker threads, and prints replies and totals. Set and map are those of `vbr_set`: Michael's
//! list-based set (Michael 2002) over slots that are used again by Version Based Reclamation (Sheffi,
//! Herlihy and Petrank 2021).
//!
//! [`parse_script`] reads a script, [`play`] plays one over any reader and writer, and [`run`] is the
//! body of the program, with its options, its exit statuses and its lines on standard error; tests from
//! outside call it with arguments and streams of their own. [`parse_map_script`] and [`play_map`] do
//! with a map what the first two do with a set. What the others do stands in the crates
//! that are named here; a user needs this one alone.
//!
//! ```rattle file=crates/vbr_example/src/main.rt
//! let config = Config::new(Shape::new(64, 16, MAX_EPOCH)?, 3, 100_000, false)?;
//! let mut script = File::open(&rt, "phases.script")?;
//! let mut output = rt.stdout();
//! play(&rt, rt.alloc(), config, &mut script, &mut output, &NoGate)?;
//! ```
//!
//! Each line of a script is one call on the set, by the member of its worker, with the budget of the
//! config: at most so many steps, and 2(w - 1) steps more after each phase of w workers, which then
//! meet. A call that is refused is written as `full`, `spent` or `tired`, and the run goes on. A run that
//! isn't done is a [`RunError`]: for a faulty script, a failing reader, want of memory or of a thread
//! nothing was written; a failing writer has a beginning of the output.
#![tactic(auto)]

mod explanations;
pub mod program;
mod report;

pub use program::run;
pub use vbr_player as player;
pub use vbr_player::{Gate, MapTotals, NoGate, Reply, RunError, Totals, play, play_map};
pub use vbr_script as script;
pub use vbr_script::{
    Kind, Line, MAX_OPERATIONS, MAX_SYNCS, Meaning, Script, ScriptError, ScriptFault,
    parse_map_script, parse_script,
};
pub use vbr_settings::{Config, ConfigError, MAX_WORKERS, config};
