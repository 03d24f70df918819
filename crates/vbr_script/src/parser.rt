//! The parser: line by line, each line token by token.
ghost use Rattle.std.specs.Prelude.{◌≡◌, ◌<◌, ◌+◌, ℕ, Some, None, IfOk, IsErrOf};
ghost use Rattle.vbr_script.specs.Text.{tokens_of};
ghost use Rattle.vbr_script.specs.Number.{number_below};
ghost use Rattle.vbr_script.specs.Grammar.{meaning_of, meaning_of_tokens, lone_token};
ghost use Rattle.vbr_script.specs.Scripts.{first_fault, limited, HasSome, IsScriptOf, ReadsScript};
ghost use Rattle.vbr_script.specs.declared.script.ScriptFault.{ScriptFault};
ghost use Rattle.vbr_script.specs.declared.script.Kind.TheVariants.{Set, Map};

use crate::number::number;
use crate::operation::{op_with_value, operation};
use crate::script::{
    Kind, Line, MAX_OPERATIONS, MAX_SYNCS, Meaning, Script, ScriptError, ScriptFault,
};
use crate::text::{first_line, first_token};
use std::alloc::Global;
use vbr_machine::Op;

/// Reads a script of a set for so many workers. It goes over the bytes once, and reaches no set.
///
/// # Errors
///
/// Nothing is kept then.
///
/// - Fault: the text's first faulty line, counted from 1, and what is wrong with it.
/// - Memory: there was none for one more operation or renewal; no line before it is faulty.
///
/// # Example
///
/// ```rattle file=crates/vbr_run_tests/src/scripts.rt
/// parse_script(alloc, text, workers)
/// ```
pub fn parse_script(alloc: Global, text: &[u8], workers: u32) -> Result<Script, ScriptError>
    ensures { ReadsScript Set workers text.now result }
{
    parse(alloc, Kind::Set, text, workers)
}

/// Reads a script of a map, as [`parse_script`] reads one of a set: an insert may have a value after
/// its key, and there is one more operation, `get`.
///
/// # Errors
///
/// Those of [`parse_script`].
pub fn parse_map_script(alloc: Global, text: &[u8], workers: u32) -> Result<Script, ScriptError>
    ensures { ReadsScript Map workers text.now result }
{
    parse(alloc, Kind::Map, text, workers)
}

/// Reads a script of this kind, as [`parse_script`] does of a set, and [`parse_map_script`] of a map.
pub fn parse(alloc: Global, kind: Kind, text: &[u8], workers: u32) -> Result<Script, ScriptError>
    ensures script { IfOk result (IsScriptOf kind workers text.now) }
    ensures fault { (line : ℕ) (fault : ScriptFault) →
        IsErrOf result (ScriptError.Fault line fault) →
        first_fault kind workers text.now ≡ Some (line, fault) }
    ensures memory_only_for_a_line { IsErrOf result ScriptError.Memory →
        HasSome kind workers text.now }
{
    let mut lines = Vec::new(alloc);
    let mut renewals = Vec::new(alloc);
    let mut phase: u32 = 0;
    let mut number: u64 = 1;
    let mut rest = text;
    loop {
        let (line, after) = first_line(rest);
        match limited(meaning(kind, line, workers), lines.len(), phase) {
            Meaning::Blank => {}
            Meaning::Sync => phase += 1,
            Meaning::Renew => {
                renewals.push(phase).map_err(|_| ScriptError::Memory)?;
                phase += 1;
            }
            Meaning::Asks(worker, op, key, value) => {
                let line = Line {
                    phase,
                    worker,
                    op,
                    key,
                    value,
                };
                lines.push(line).map_err(|_| ScriptError::Memory)?;
            }
            Meaning::Faulty(kind) => return Err(ScriptError::Fault { line: number, kind }),
        }
        match after {
            Some(text) => rest = text,
            None => {
                let phases = phase + 1;
                return Ok(Script {
                    lines,
                    phases,
                    renewals,
                });
            }
        }
        number += 1;
    }
}

// What a line means after so many operations and lines that end a phase: one past the limits is
// faulty.
fn limited(meaning: Meaning, operations: usize, syncs: u32) -> Meaning
    ensures { result ≡ limited operations syncs meaning }
{
    match meaning {
        Meaning::Asks(..) if operations >= MAX_OPERATIONS => {
            Meaning::Faulty(ScriptFault::TooMany)
        }
        Meaning::Sync | Meaning::Renew if syncs >= MAX_SYNCS => {
            Meaning::Faulty(ScriptFault::TooMany)
        }
        meaning => meaning,
    }
}

// What the tokens of a line mean to a script of this kind for so many workers.
fn meaning(kind: Kind, line: &[u8], workers: u32) -> Meaning
    ensures { result ≡ meaning_of kind workers (tokens_of line.now) }
{
    let Some((worker, rest)) = first_token(line) else {
        return Meaning::Blank;
    };
    let Some((name, rest)) = first_token(rest) else {
        return lone_token(worker);
    };
    let Some((key, rest)) = first_token(rest) else {
        return Meaning::Faulty(ScriptFault::Words);
    };
    let worker = worker_number(worker, workers);
    let op = operation(kind, name);
    let Some((value, rest)) = first_token(rest) else {
        return asked(worker, op, number(key), Some(0));
    };
    if kind == Kind::Set || first_token(rest).is_some() {
        return Meaning::Faulty(ScriptFault::Words);
    }
    asked(worker, op_with_value(op), number(key), number(value))
}

// What a worker, an operation, a key and a value mean, each of which may be none.
fn asked(worker: Option<u32>, op: Option<Op>, key: Option<u64>, value: Option<u64>) -> Meaning
    ensures { result ≡ meaning_of_tokens worker op key value }
{
    let Some(worker) = worker else {
        return Meaning::Faulty(ScriptFault::Worker);
    };
    let Some(op) = op else {
        return Meaning::Faulty(ScriptFault::Operation);
    };
    let Some(key) = key else {
        return Meaning::Faulty(ScriptFault::Key);
    };
    let Some(value) = value else {
        return Meaning::Faulty(ScriptFault::Value);
    };
    Meaning::Asks(worker, op, key, value)
}

// What a token alone on its line means.
#[tactic(auto, unfolding(crate::specs::Grammar::lone_token))]
fn lone_token(token: &[u8]) -> Meaning
    ensures { result ≡ lone_token token.now }
{
    if token == b"sync".as_slice() {
        Meaning::Sync
    } else if token == b"renew".as_slice() {
        Meaning::Renew
    } else {
        Meaning::Faulty(ScriptFault::Words)
    }
}

// The worker that a token names, if there is one of that number.
fn worker_number(token: &[u8], workers: u32) -> Option<u32>
    ensures { result ≡ number_below workers token.now }
{
    let worker = number(token)?;
    if worker < u64::from(workers) {
        Some(worker as u32)
    } else {
        None
    }
}
