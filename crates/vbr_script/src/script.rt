//! What a script is: its lines, the meaning of each, and what may be wrong with it.
use thiserror::Error;
use vbr_machine::Op;

/// What a script asks: a set, or a map, whose keys have values.
#[derive(Clone, Copy, Debug, PartialEq, Eq)]
pub enum Kind {
    /// It has no values, and no operation that gives one.
    Set,
    /// An insert may have a value, and a `get` gives it.
    Map,
}

/// One operation of a script.
#[derive(Clone, Copy, Debug, PartialEq, Eq)]
pub struct Line {
    /// The phase that it is played in, from 0: the number of `sync` and `renew` lines before it.
    pub phase: u32,
    /// The worker that plays it, from 0.
    pub worker: u32,
    /// What is asked of the set, or of the map.
    pub op: Op,
    /// The key that it is asked of.
    pub key: u64,
    /// The value that an insert in a map stores with its key; 0 if none is written.
    pub value: u64,
}

/// The greatest number of operations in a script.
pub const MAX_OPERATIONS: usize = 1_000_000;

/// The greatest number of `sync` and `renew` lines in a script.
pub const MAX_SYNCS: u32 = 10_000;

/// A script: its operations in order, how many phases they are played in, and after which of them
/// the set is renewed. A `sync` or `renew` line ends a phase: each operation before it is played
/// before any after it.
#[derive(Debug, Drop)]
pub struct Script {
    /// The operations, in the order of the text.
    pub lines: Vec<Line>,
    /// The number of phases: one more than there are `sync` and `renew` lines.
    pub phases: u32,
    /// The phases that end with a `renew` line, from 0 and ascending.
    pub renewals: Vec<u32>,
}

/// What is wrong with a line. The tests are made in this order.
#[derive(Clone, Copy, Debug, PartialEq, Eq, Error)]
pub enum ScriptFault {
    /// The line has neither three tokens nor the one token `sync` or `renew`; in a script of a map it
    /// may also have four.
    #[error("a line is a worker, an operation and a key, of a map's insert a value too, or `sync` or `renew` alone")]
    Words,
    /// The first token is no number, or not one below the number of workers.
    #[error("no such worker")]
    Worker,
    /// The second token is no operation, or, with a fourth token, another than an insert.
    #[error("no such operation: insert, remove and has are known, and get in a script of a map")]
    Operation,
    /// The third token is no number, or one above the greatest key.
    #[error("a key is a number from 0 to 18446744073709551615")]
    Key,
    /// The fourth token is no number, or one above the greatest value.
    #[error("a value is a number from 0 to 18446744073709551615")]
    Value,
    /// With this line there are more operations than `MAX_OPERATIONS`, or more `sync` and `renew`
    /// lines than `MAX_SYNCS`.
    #[error("a script has at most {MAX_OPERATIONS} operations and {MAX_SYNCS} `sync` and `renew` lines")]
    TooMany,
}

impl ScriptFault {
    ghost use Rattle.std.specs.Prelude.{◌≡◌};
    ghost use Rattle.vbr_script.specs.Grammar.{fault_number};

    /// The fault's number, as the program prints it: from 1, in the order of the tests, but for that
    /// of a value, which scripts of sets don't have.
    pub fn number(self) -> u8
        ensures { result ≡ fault_number self }
    {
        match self {
            ScriptFault::Words => 1,
            ScriptFault::Worker => 2,
            ScriptFault::Operation => 3,
            ScriptFault::Key => 4,
            ScriptFault::TooMany => 5,
            ScriptFault::Value => 6,
        }
    }
}

/// What the tokens of a line mean by themselves.
#[derive(Clone, Copy, Debug, PartialEq, Eq)]
pub enum Meaning {
    /// The line has no tokens.
    Blank,
    /// The line ends a phase.
    Sync,
    /// The line ends a phase, and the set is renewed.
    Renew,
    /// The worker, the operation, the key and the value that the line asks for.
    Asks(u32, Op, u64, u64),
    /// What is wrong with the line.
    Faulty(ScriptFault),
}

/// Why a text gave no script.
#[derive(Clone, Copy, Debug, PartialEq, Eq, Error)]
pub enum ScriptError {
    /// The first faulty line, counted from 1 with blank lines counted too, and its fault.
    #[error("line {line}: {kind}")]
    Fault { line: u64, kind: ScriptFault },
    /// There was no memory for the script.
    #[error("no memory for the script")]
    Memory,
}
