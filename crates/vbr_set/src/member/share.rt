//! What a member has of its set.
use crate::member::common::Common;
use crate::member::mailbox::{Mailbox, SeatKnows};
use crate::set::VbrSet;
use atomic_table::Seat;
use std::alloc::Global;
use std::sync::Arc;
use vbr_slots::Pass;
use vbr_words::Nodes;

/// What a member has of its set.
#[derive(Drop)]
pub enum Share<N: Nodes> {
    /// A share of it, with the right to lay its pass into its mailbox.
    Among(Arc<Common<N>, Global>, Seat<Option<Pass>, SeatKnows>),
    /// All of it, with the mailboxes of the other passes, after a close that found no memory.
    Alone(VbrSet<N>, Vec<Mailbox<N>>),
    /// All of it, with the other passes, after a close that found no memory later on; or with no
    /// others, if it was opened for one pass.
    Gathered(VbrSet<N>, Vec<Pass>),
}
