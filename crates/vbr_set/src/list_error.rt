//! Why no list of all keys came, or of all entries.
use std::error::Error;
use std::fmt;
use vbr_list::Refusal;

/// Why no list of all keys, or of all entries, came. The pass has made no call on the set, and can go
/// on at once.
#[derive(Clone, Copy, Debug, PartialEq, Eq, Hash)]
pub enum ListError {
    /// A whole call was refused for want of steps, and brought the cursor no further.
    Refused(Refusal),
    /// There is no memory for the list.
    Memory,
}

impl fmt::Display for ListError {
    ghost use Rattle.std.specs.Prelude.{Some};
    ghost use Rattle.vbr_set.specs.Messages.{list_error_text};

    ghost output = { λ e. Some (list_error_text e) };

    fn fmt<W: fmt::Write>(&self, f: &mut fmt::Formatter<W>) -> fmt::Result {
        match self {
            ListError::Refused(refusal) => write!(f, "{refusal}"),
            ListError::Memory => write!(f, "there is no memory for the list"),
        }
    }
}

impl Error for ListError {}
