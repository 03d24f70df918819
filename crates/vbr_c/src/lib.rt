//! The set and the map for C: Michael's list-based set (Michael 2002) over slots that are used again by
//! Version Based Reclamation (Sheffi, Herlihy and Petrank 2021), as `vbr_set` has it. Each thread has a
//! handle, which owns a pass of the set or the map and a share of it.
//!
//! Exports that take a budget, such as `vbr_insert_within`, have it as their last argument. For each of
//! them the header also has a form without it, which makes the same call with the budget of the handle.
//! No export reads or writes that budget.
//!
//! No call asks anything of its caller but what the types say: a handle is moved and never copied, and
//! one call at a time has it. Only calls on all handles at once, such as `vbr_close_all`, also ask that
//! the handles are of one set or map, and calls on several keys that there is room for each answer.
//! A C programmer reads `bindings/include/vbr.h`, which says what each call does and answers. An export
//! that is given an array for its results, beside that of its items, is called by the file
//! `bindings/src/null_pointers.c`: it is given the number of items once.
//!
//! ```c file=bindings/examples/example.c
//! /* handles, count, slots (keys, and 64 for each handle), buckets (as many as keys), last_epoch */
//! if (vbr_open(handle, 2, 1024 + 2 * 64, 1024, VBR_MAX_EPOCH) != VBR_OK) return 1;
//! vbr_answer added = vbr_insert(&handle[0], 5);       /* VBR_YES: 5 was absent */
//! vbr_answer there = vbr_has(&handle[1], 5);          /* VBR_YES, from another thread too */
//! vbr_answer first = vbr_close(&handle[0], keys, 8, &report); /* VBR_NO: the other handle is open */
//! vbr_answer last = vbr_close(&handle[1], keys, 8, &report);  /* VBR_YES: report.live is 1, keys[0] is 5 */
//! ```
//!
//! A negative number is a refusal, after which no call was made. A step is one atomic operation on one
//! word that threads share. The calls of `Member` in `vbr_set` say what is proved of each call.
#![tactic(auto)]

ghost use Rattle.std.specs.Prelude.{◌≡◌, ◌+◌, ◌*◌};

// The numbers of a shape, from the parameters of an export.
macro_rules! numbers {
    ($($number:ident),*) => {
        vbr_handles::ShapeNumbers { $($number),* }
    };
}

pub(crate) use numbers;

pub mod map;
pub mod own_slots;
pub mod records;
pub mod set;
pub mod tallies;

pub use vbr_handles::{Entry, Found, Incarnation, ReportNumbers};

// 0.3.0
const VERSION: u32 = 3_000;

/// `vbr_version` of vbr.h.
#[unsafe(no_mangle)]
pub extern "C" fn vbr_version() -> u32
    ensures { result ≡ 0 * 1000000 + 3 * 1000 + 0 }
{
    VERSION
}
