//! Why all members of a set or of a map got no report.
use crate::member::Member;
use std::error::Error;
use std::fmt;

/// Why all members of a set, or of a map, got no report; `M` is the type of its members. Tested in
/// this order; the members come back as they were.
#[derive(Drop)]
pub enum CloseAllError<M = Member> {
    /// There are fewer members than were opened with the set, or none.
    Missing(Vec<M>),
    /// There is no memory for the report.
    Memory(Vec<M>),
}

impl<M> fmt::Debug for CloseAllError<M> {
    fn fmt<W: fmt::Write>(&self, f: &mut fmt::Formatter<W>) -> fmt::Result {
        match self {
            CloseAllError::Missing(_) => write!(f, "Missing"),
            CloseAllError::Memory(_) => write!(f, "Memory"),
        }
    }
}

impl<M> fmt::Display for CloseAllError<M> {
    ghost use Rattle.std.specs.Prelude.{Some};
    ghost use Rattle.vbr_set.specs.Messages.{close_all_error_text};

    ghost output = { λ e. Some (close_all_error_text e) };

    fn fmt<W: fmt::Write>(&self, f: &mut fmt::Formatter<W>) -> fmt::Result {
        match self {
            CloseAllError::Missing(_) => write!(f, "there are fewer members than were opened"),
            CloseAllError::Memory(_) => write!(f, "there is no memory for the report"),
        }
    }
}

impl<M: Drop> Error for CloseAllError<M> {}
