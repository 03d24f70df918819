//! Michael's list in one bucket of a set or a map (Michael 2002), over slots that are used again
//! (Sheffi, Herlihy and Petrank 2021).
//!
//! **The list.** From the head of the bucket on, each link word names the slot of the next node.
//! It has a mark and a version too. A set mark says that its own node is out of the set. Such a
//! node may still be in the list, and its link no longer changes. The version is the greater birth
//! of the two nodes. So an exchange of a link finds only the very pair of nodes that was read.
//!
//! **Order.** Nodes ascend by key, and nodes of one key by rank. At most one node of a key is
//! unmarked. A node that replaces another comes right after it, with the next rank. Each node goes
//! through its states in one order: in hand, linked, marked, unlinked, stamped. Only a stamped
//! slot, or one whose node was given up, is born in again.
//!
//! **A traversal.** A call starts at the head and goes from place to place (`src/visiting.rt`). What it
//! reads counts once the epoch is read again and hasn't moved. If it has moved, or an exchange is lost,
//! the call starts again at the head. A piece of a call is begun only if eight steps of the budget are
//! left (`PIECE`).
//!
//! **Calls.** Each is answered at one step, and nothing rolls back past that:
//!
//! - A look-up passes marked nodes by their links. A load answers it, which finds a link as it was
//!   read: the link of the node, or of the last unmarked place before the key.
//! - An insert takes a slot once the key was found absent, and searches again with it. The exchange
//!   that links the node answers it; if the key is there, a load does.
//! - A remove is answered by the exchange that sets the mark in the node's own link. If the key is
//!   absent, a load answers it.
//! - A store replaces a node by one exchange of that node's link: it sets the mark, and names the slot
//!   in hand. An absent key is inserted. If the key's state isn't the wanted one, it is answered as a
//!   get.
//! - A walk over all keys confirms nothing: each key that it passed was absent at some moment.
//!
//! **Helping.** A search unlinks the marked nodes that it meets (`src/helping.rt`). Whoever wins that
//! exchange stamps the slot and has it. Look-ups and walks help nobody. A remove or a store that loses
//! its own unlinking searches once more. So its node has left the list when it returns, unless fewer
//! than eight steps of the budget are left.
//!
//! **Progress.** Nobody waits for anybody. A call starts again only for what another pass did: it moved
//! the epoch, or changed the list of the bucket. Each such change counts once. With n nodes and m
//! changes there are at most m + 1 traversals, each of at most n + m nodes. An insert makes one
//! traversal more. It isn't claimed that a call is answered while others go on.
//!
//! **What is proved,** and by which contracts:
//!
//! - The pass made just this call, at one step, or was refused and made none: `Calls`, `CallsInsert`,
//!   `CallsRemove`, `CallsGet`, `CallsRemoveIf`, `CallsStore`. On a table with one pass the answers are
//!   what a plain set or map answers.
//! - A look-up and a walk make no step but loads: `OnlyLoads`.
//! - What was removed or replaced has left its list: `Leaves`, `LeavesReplaced`.
//! - No slot is lost: `KeepsSlots`, `TakesNoSlot`. The epoch is advanced only when that is needed:
//!   `AdvancesWhereNeeded`.
//! - Which budgets are enough, and what an answer costs: the fields `within` and `costs` for a
//!   pass that is alone, `disturbed_within` and `disturbed_costs` for one that others disturb.
//! - What a search found stood so at moments of the call: `FindsIn`. What walks give together:
//!   `an_iteration_goes_on`, and the laws beside it.
//! - Order, marks and reuse are so in every run of the machine: `every_run_is_safe` of
//!   `vbr_machine`.
#![tactic(auto)]

mod call;
pub mod cursor;
pub mod entries;
pub mod finding;
pub mod found;
mod helping;
pub mod holding;
pub mod inserting;
pub mod iterating;
pub mod laws;
mod looking;
pub mod looking_up;
mod new_value;
pub mod next;
pub mod outcome;
mod preparing;
pub mod record_laws;
pub mod removing;
mod replacing;
mod seeking;
pub mod storing;
mod taking;
mod telling;
mod traversal;
mod valuing;
mod visiting;
pub mod wanted;

pub use cursor::Cursor;
pub use entries::{Entry, get_entry, has_entry, is_still};
pub use finding::find;
pub use found::Found;
pub use holding::{
    NotReplaced, StillInHand, hold, insert_entry_held, insert_held, let_go, put_held, replace_held,
};
pub use inserting::{insert, insert_entry};
pub use iterating::{
    next_entry_at, next_key_at, next_named_entry_at, next_named_key_at, next_where_at,
};
pub use looking_up::{get, has};
pub use next::{next_entry, next_key, next_named_entry, next_named_key};
pub use outcome::Outcome;
pub use removing::{remove, remove_entry, remove_exactly, remove_if, remove_key_exactly};
pub use storing::{compare_exchange, fetch_add, get_or_insert, put, replace, store};
pub use vbr_at_table::Refusal;
pub use wanted::Wanted;
