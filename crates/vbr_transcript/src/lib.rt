//! The transcript of a run of a script: a reply for each operation, and totals; what explains them,
//! and how they are put together, printed, and written.
//!
//! The way of the data: the text of a script is read ([`read_text`]), and the replies that each
//! worker was given are merged into script order ([`merge`]), counted ([`tally_of`]), laid out as a
//! text ([`layout`]) and written ([`write_whole`]).
#![tactic(auto)]

pub mod error;
pub mod merging;
pub mod printing;
pub mod reading;
pub mod reply;
pub mod totals;
pub mod writing;

pub use error::RunError;
pub use merging::merge;
pub use printing::{Printed, layout};
pub use reading::{MAX_SCRIPT_LEN, read_text};
pub use reply::Reply;
pub use totals::{MapTotals, Tally, Totals, tally_of};
pub use writing::{WriteFault, write_pieces, write_whole};
