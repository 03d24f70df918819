//! Why a run of a script wasn't done.
use std::alloc::AllocError;
use thiserror::Error;
use vbr_script::{ScriptError, ScriptFault};

/// Why a run wasn't done.
#[derive(Clone, Copy, Debug, PartialEq, Eq, Error)]
pub enum RunError {
    /// The text is no script: its first faulty line, counted from 1, and what is wrong with it.
    #[error("line {line}: {kind}")]
    Script { line: u64, kind: ScriptFault },
    /// The script couldn't be read, or it is too long.
    #[error("the script can't be read")]
    Read,
    /// The output couldn't be written.
    #[error("the output can't be written")]
    Write,
    /// There was no memory for the run.
    #[error("no memory for the run")]
    Memory,
    /// A thread for a worker couldn't be started.
    #[error("a worker can't be started")]
    Worker,
}

impl From<AllocError> for RunError {
    ghost use Rattle.std.specs.Prelude.{◌≡◌};
    ghost use Rattle.vbr_transcript.specs.declared.error.RunError.TheVariants.{Memory};

    ghost from_gives = { λ _ e. e ≡ Memory };

    fn from(_error: AllocError) -> RunError {
        RunError::Memory
    }
}

impl From<ScriptError> for RunError {
    ghost use Rattle.vbr_transcript.specs.Errors.{run_error_of};
    ghost use Rattle.std.specs.Prelude.{◌≡◌};

    ghost from_gives = { λ s e. e ≡ run_error_of s };

    fn from(error: ScriptError) -> RunError {
        match error {
            ScriptError::Fault { line, kind } => RunError::Script { line, kind },
            ScriptError::Memory => RunError::Memory,
        }
    }
}
