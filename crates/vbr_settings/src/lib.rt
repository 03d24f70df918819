//! The settings of the player: how a script is played, and the options of the command line that say
//! so.
//!
//! A [`Config`] has the shape of the set, the number of workers, the budget of each call, and whether
//! the epoch is printed. [`read_options`] reads the [`Options`] off the arguments of a command line: such
//! a config, whether the script is one of a map, the file that it is in, and whether something is to
//! be explained in its place.
#![tactic(auto)]

pub mod command;
pub mod config;
pub mod options;

pub use command::{knows_its_faults, knows_its_options, read_options};
pub use config::{Config, ConfigError, MAX_WORKERS};
pub use options::Options;
