//! Handles to a set or to a map, which cross to C: each thread has one.
//!
//! A [`Handle`] is one pointer to a member on the heap, and null while it is empty. Beside it stands
//! the budget of its calls, which belongs to the caller. A handle is moved and never copied, and one
//! call at a time has it. A [`MapHandle`] is the same, with a member of a map. Both are an [`Owner`] of
//! a member of any type, which makes the calls. What C gives and gets are keys, or for a map entries
//! ([`Listed`]).
#![tactic(auto)]

pub mod accessors;
mod ample;
pub mod asking_all;
mod box_parts;
pub mod closing;
pub mod closing_all;
pub mod coded_calls;
pub mod cursor;
mod each_once;
mod entries;
pub mod entry;
pub mod found;
pub mod handle;
pub mod handle_of;
pub mod handle_owners;
pub mod incarnation;
pub mod items;
mod keys;
pub mod lent_member;
pub mod opening;
pub mod openings;
pub mod owner;
pub mod progress;
pub mod renewing_all;
pub mod report_numbers;
pub mod reserves;
pub mod tallies;

pub use ample::AMPLE_STEPS;
pub use asking_all::AskRefusal;
pub use closing::{CloseRefusal, abandon, close};
pub use closing_all::{CloseAllRefusal, abandon_all, close_all, report_all, report_all_with_slots};
pub use cursor::HandleCursor;
pub use entry::Entry;
pub use found::Found;
pub use handle::{Handle, MapHandle};
pub use handle_of::HandleOf;
pub use incarnation::Incarnation;
pub use items::Listed;
pub use opening::{OpenRefusal, ShapeNumbers, open_many, open_with};
pub use owner::Owner;
pub use renewing_all::{RenewAllRefusal, renew_all};
pub use report_numbers::ReportNumbers;
