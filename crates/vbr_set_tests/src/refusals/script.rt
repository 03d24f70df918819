//! The parser.
use crate::refusals::round::is_right;
use std::alloc::Global;
use vbr_script::{Script, ScriptError, parse_script};

const TEXT: &[u8] =
    b"0 insert 5\n0 insert 5\nsync\n0 has 5\n0 remove 5\n0 has 5\n0 has 6\n0 has 7\n0 has 8\n0 has 9\n";

// The script, and whether memory was refused.
fn script_of(alloc: Global) -> Option<(Script, bool)> {
    match parse_script(alloc, TEXT, 1) {
        Ok(script) => Some((script, false)),
        Err(ScriptError::Memory) => Some((parse_script(alloc, TEXT, 1).ok()?, true)),
        Err(ScriptError::Fault { .. }) => None,
    }
}

// Reads a script.
fn reads(alloc: Global) -> Option<bool> {
    let (script, refused) = script_of(alloc)?;
    let is_whole = script.lines.len() == 9
        && script.phases == 2
        && script
            .lines
            .iter()
            .map(|line| line.key)
            .eq([5, 5, 5, 5, 5, 6, 7, 8, 9]);
    is_whole.then_some(refused)
}

#[test]
fn script_reads(rt: HostRuntime) {
    is_right(&rt, reads(rt.alloc()));
}
