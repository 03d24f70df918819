//! Why a call rolls back.
use std::error::Error;
use std::fmt;

/// Why a call rolls back: the caller begins again at a checkpoint.
#[derive(Clone, Copy, Debug, PartialEq, Eq)]
pub enum Rollback {
    /// The epoch is another one: nothing is held any more but the heads.
    EpochMoved {
        /// The epoch now.
        now: u64,
    },
    /// Another link word stood there than the expected one.
    LostExchange {
        /// The word that was found.
        found: u64,
    },
}

impl fmt::Display for Rollback {
    ghost use Rattle.std.specs.Prelude.{Some};
    ghost use Rattle.vbr_at_table.specs.Messages.{rollback_text};

    ghost output = { λ e. Some (rollback_text e) };

    fn fmt<W: fmt::Write>(&self, f: &mut fmt::Formatter<W>) -> fmt::Result {
        match self {
            Rollback::EpochMoved { now } => write!(f, "the epoch has moved to {now}"),
            Rollback::LostExchange { found } => write!(f, "another word stood there: {found}"),
        }
    }
}

impl Error for Rollback {}
