//! Scripts of calls on a set or on a map: what a text of bytes means as a script, its first fault,
//! and the parser.
//!
//! [`parse_script`] and [`parse_map_script`] go over the bytes once, line by line and each line token by token.
#![tactic(auto)]

mod number;
mod operation;
pub mod parser;
pub mod script;
mod text;

pub use parser::{parse, parse_map_script, parse_script};
pub use script::{
    Kind, Line, MAX_OPERATIONS, MAX_SYNCS, Meaning, Script, ScriptError, ScriptFault,
};
