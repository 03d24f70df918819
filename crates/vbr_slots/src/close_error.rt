//! Why a table was not closed.
use crate::pass::Pass;
use std::error::Error;
use std::fmt;

/// Why a table was not closed. The tests are made in this order, and all comes back as it was.
#[derive(Drop)]
pub enum CloseError<T> {
    /// There are fewer passes than were opened.
    Missing(T, Vec<Pass>),
    /// There is no memory for the words.
    Memory(T, Vec<Pass>),
}

impl<T> fmt::Debug for CloseError<T> {
    fn fmt<W: fmt::Write>(&self, f: &mut fmt::Formatter<W>) -> fmt::Result {
        match self {
            CloseError::Missing(_, _) => write!(f, "Missing"),
            CloseError::Memory(_, _) => write!(f, "Memory"),
        }
    }
}

impl<T> fmt::Display for CloseError<T> {
    ghost use Rattle.std.specs.Prelude.{Some};
    ghost use Rattle.vbr_slots.specs.Messages.{close_error_text};

    ghost output = { λ e. Some (close_error_text e) };

    fn fmt<W: fmt::Write>(&self, f: &mut fmt::Formatter<W>) -> fmt::Result {
        match self {
            CloseError::Missing(_, _) => write!(f, "there are fewer passes than were opened"),
            CloseError::Memory(_, _) => write!(f, "there is no memory to close it"),
        }
    }
}

impl<T: Drop> Error for CloseError<T> {}
