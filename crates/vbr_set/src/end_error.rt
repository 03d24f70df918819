//! Why the last member of a set or of a map got no report.
use crate::member::Member;
use std::error::Error;
use std::fmt;

/// Why the last member of a set, or of a map, got no report; `M` is the type of its members.
#[derive(Drop)]
pub enum EndError<M = Member> {
    /// A pass never came back. The set is gone. A member that is closed or dropped gives its pass back,
    /// so no program is known to get this. For a set opened for one member a contract says that it
    /// doesn't come; for several, tests do, even if memory is short.
    Lost,
    /// There is no memory for the report. The member comes back, by its contract the same pass of the
    /// same set: it can make calls, and be closed again. Tests, and no contract, say that it still has
    /// what the other members gave back: its next close returns the report.
    Memory(M),
}

impl<M> fmt::Debug for EndError<M> {
    fn fmt<W: fmt::Write>(&self, f: &mut fmt::Formatter<W>) -> fmt::Result {
        match self {
            EndError::Lost => write!(f, "Lost"),
            EndError::Memory(_) => write!(f, "Memory"),
        }
    }
}

impl<M> fmt::Display for EndError<M> {
    ghost use Rattle.std.specs.Prelude.{Some};
    ghost use Rattle.vbr_set.specs.Messages.{end_error_text};

    ghost output = { λ e. Some (end_error_text e) };

    fn fmt<W: fmt::Write>(&self, f: &mut fmt::Formatter<W>) -> fmt::Result {
        match self {
            EndError::Lost => write!(f, "a pass never came back"),
            EndError::Memory(_) => write!(f, "there is no memory for the report"),
        }
    }
}

impl<M: Drop> Error for EndError<M> {}
