//! A hash set of `u64` keys that threads share, in fixed memory and without a lock: Michael's
//! list-based set (Michael 2002) over slots that are used again by Version Based Reclamation
//! (Sheffi, Herlihy and Petrank 2021).
//!
//! [`Member::open`] makes a set of a [`Shape`] and gives its members, from 1 to 64 of them. A member is
//! moved to its thread, and makes the calls [`Member::insert`], [`Member::remove`] and
//! [`Member::has`]. None of them waits for another or takes memory, and each ends within its budget of
//! steps. A look-up writes nothing that another thread can see. [`Member::close`] gives a member back,
//! and the last close returns what is in the set.
//!
//! A set may open with keys ([`Member::open_with`]), such as the keys of a report. So a set whose epoch
//! nears its last one goes on as a fresh set.
//!
//! What a member has seen has one legal history of a set. An answered call stands in it, once, after
//! the calls that the member had made before; members that meet ([`Member::meet`]) share one history.
//! [`Member::seen`] gives a token of what a member has seen, to be sent with whatever the program
//! orders its threads by. If another member takes the token in by [`Member::catch_up`], each of its
//! later calls stands after all of that.
//!
//! From `crates/vbr_example`, whose workers claim pages in threads of their own:
//!
//! ```rattle file=crates/vbr_example/src/claiming.rt
//! let members = Member::open(alloc, Shape::new(64, 16, MAX_EPOCH)?, 4)?;
//! ...
//!     &|_, worker| worker.claim_all(),
//! ```
//!
//! A step is one atomic operation on one word that threads share, and the unit of budgets. A call makes
//! 3 steps to start, 5 for each node that it looks at in the key's bucket, up to 9 for a removed one,
//! and 1 to 7 for its answer. An insert of an absent key takes a slot and goes through the bucket
//! twice. See `docs/USING.md` for all of this, and for how large to open a set.
//!
//! If the set is to be borrowed, [`VbrSet::open`] returns the set and its passes apart.
//! [`VbrSet::with_pass`] makes a [`VbrSetRef`] of a pass, with the calls of a member. [`VbrSet::close`]
//! takes all passes back and returns one report, and [`VbrSet::renew`] opens a fresh set with the keys
//! at once. The calls of [`VbrSet`] itself take a pass, which must be one of the set with no slot in
//! hand.
#![tactic(auto)]

pub mod at_set;
pub mod batches;
pub mod close_all_error;
pub mod contents;
pub mod end_error;
mod entry_slots;
pub mod kind;
pub mod laws;
pub mod left_marked;
pub mod list_error;
pub mod member;
pub mod progressing;
pub mod record_laws;
pub mod record_refusals;
pub mod renew_all_error;
pub mod renew_error;
pub mod report;
pub mod report_with_slots;
pub mod room;
pub mod set;
pub mod set_ref;
pub mod slot_laws;
pub mod stretches;
mod walking;

pub use at_set::AtSet;
pub use close_all_error::CloseAllError;
pub use end_error::EndError;
pub use kind::Kind;
pub use list_error::ListError;
pub use record_refusals::{HeldRefusal, HoldRefusal};
pub use renew_all_error::RenewAllError;
pub use renew_error::RenewError;
pub use report::{MapReport, Report};
pub use report_with_slots::ReportWithSlots;
pub use set_ref::VbrSetRef;
pub use vbr_list::{Cursor, Entry, NotReplaced, Outcome, Refusal, StillInHand, Wanted};
pub use vbr_machine::{Call, Op};
pub use vbr_slots::{
    CloseError, MAX_MANY_PASSES, MAX_PASSES, OpenError, OpenManyError, Pass, Seen,
};
pub use vbr_words::link::MAX_SLOTS;
pub use vbr_words::shape::{MAX_BUCKETS, MAX_EPOCH, MAX_SPREAD_BUCKETS};
pub use vbr_words::{Shape, ShapeError, SpreadError};
use vbr_words::{Entries, Keys};

/// A set of `u64` keys, shared by the passes that were opened with it.
pub type VbrSet = set::VbrSet<Keys>;

/// A map from `u64` keys to `u64` values, shared by the passes that were opened with it. The value of a key
/// stays until the key is removed or gets another.
pub type VbrMap = set::VbrSet<Entries>;

/// A member of a set: one of its passes, with a share of the set.
pub type Member = member::Member<Keys>;

/// A member of a map, with the calls on a map in place of the calls on a set: one of its passes, with a
/// share of the map.
pub type MapMember = member::Member<Entries>;

/// A pass with a reference to its map, like a [`VbrSetRef`] of a set.
pub type VbrMapRef<'s> = set_ref::VbrSetRef<'s, Entries>;
