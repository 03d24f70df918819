//! What a pass counts for those who operate a program.

/// How often a pass did what interference makes it do, since the opening. No contract says what a count is: tests do. A
/// count begins anew after 2^64.
#[derive(Clone, Copy, Debug, PartialEq, Eq)]
pub struct Tally {
    /// Traversals of a list that it broke off and began anew.
    pub restarts: u64,
    /// Marked nodes that it met on its way, and unlinked.
    pub helps: u64,
    /// Advances of the epoch that it won.
    pub advances: u64,
}

impl Tally {
    // Nothing is counted yet.
    #[inline]
    pub(crate) fn new() -> Tally {
        Tally {
            restarts: 0,
            helps: 0,
            advances: 0,
        }
    }
}
