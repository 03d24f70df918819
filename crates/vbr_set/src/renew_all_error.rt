//! Why the members of a set or of a map were not renewed.
use crate::member::Member;
use std::error::Error;
use std::fmt;

/// Why the members of a set, or of a map, were not renewed; `M` is the type of its members. Tested
/// in this order; the members come back as they were.
#[derive(Drop)]
pub enum RenewAllError<M = Member> {
    /// There are not as many members as were opened with the set.
    Missing(Vec<M>),
    /// There are more keys than the fresh set would have slots.
    Room(Vec<M>),
    /// There is no memory for the fresh set.
    Memory(Vec<M>),
}

impl<M> fmt::Debug for RenewAllError<M> {
    fn fmt<W: fmt::Write>(&self, f: &mut fmt::Formatter<W>) -> fmt::Result {
        match self {
            RenewAllError::Missing(_) => write!(f, "Missing"),
            RenewAllError::Room(_) => write!(f, "Room"),
            RenewAllError::Memory(_) => write!(f, "Memory"),
        }
    }
}

impl<M> fmt::Display for RenewAllError<M> {
    ghost use Rattle.std.specs.Prelude.{Some};
    ghost use Rattle.vbr_set.specs.Messages.{renew_all_error_text};

    ghost output = { λ e. Some (renew_all_error_text e) };

    fn fmt<W: fmt::Write>(&self, f: &mut fmt::Formatter<W>) -> fmt::Result {
        match self {
            RenewAllError::Missing(_) => write!(f, "there are not as many members as were opened"),
            RenewAllError::Room(_) => write!(f, "there are more keys than slots"),
            RenewAllError::Memory(_) => write!(f, "there is no memory for the fresh set"),
        }
    }
}

impl<M: Drop> Error for RenewAllError<M> {}
