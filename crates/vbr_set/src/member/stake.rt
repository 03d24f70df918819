//! What a member has beside its pass.
use crate::member::share::Share;
use vbr_at_table::Aside;
use vbr_words::Nodes;

/// What a member has beside its pass.
#[derive(Drop)]
pub struct Stake<N: Nodes> {
    /// What it has of its set.
    pub(crate) share: Share<N>,
    /// The number of keys that its calls have added, less the number that they took out.
    pub(crate) balance: i64,
    /// The slot that it has put aside, if any.
    pub(crate) aside: Option<Aside>,
}
