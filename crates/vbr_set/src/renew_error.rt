//! Why a set or a map was not renewed.
use crate::report::Report;
use crate::set::VbrSet;
use std::error::Error;
use std::fmt;
use vbr_slots::Pass;

/// Why a set, or a map, was not renewed; `S` is the type of the set or map. Tested in this order.
#[derive(Drop)]
pub enum RenewError<S = VbrSet, R = Report> {
    /// There are fewer passes than were opened. All comes back as it was.
    Missing(S, Vec<Pass>),
    /// There is no memory to close the set. All comes back as it was.
    Memory(S, Vec<Pass>),
    /// The set is closed, and there is no memory to open it anew: [`VbrSet::open_with`] with the keys,
    /// or the entries, of the report goes on from there.
    Closed(R),
}

impl<S, R> fmt::Debug for RenewError<S, R> {
    fn fmt<W: fmt::Write>(&self, f: &mut fmt::Formatter<W>) -> fmt::Result {
        match self {
            RenewError::Missing(_, _) => write!(f, "Missing"),
            RenewError::Memory(_, _) => write!(f, "Memory"),
            RenewError::Closed(_) => write!(f, "Closed"),
        }
    }
}

impl<S, R> fmt::Display for RenewError<S, R> {
    ghost use Rattle.std.specs.Prelude.{Some};
    ghost use Rattle.vbr_set.specs.Messages.{renew_error_text};

    ghost output = { λ e. Some (renew_error_text e) };

    fn fmt<W: fmt::Write>(&self, f: &mut fmt::Formatter<W>) -> fmt::Result {
        match self {
            RenewError::Missing(_, _) => write!(f, "there are fewer passes than were opened"),
            RenewError::Memory(_, _) => write!(f, "there is no memory to close it"),
            RenewError::Closed(_) => write!(
                f,
                "it is closed, and there is no memory to open it anew"
            ),
        }
    }
}

impl<S: Drop, R: Drop> Error for RenewError<S, R> {}
