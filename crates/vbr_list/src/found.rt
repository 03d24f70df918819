//! What a traversal finds.
use vbr_at_table::Held;

/// Where a key stands, or would stand, in the list of its bucket.
#[derive(Clone, Copy, Debug, PartialEq, Eq)]
pub struct Found {
    /// The last place before the key: the head, or a node with a smaller key.
    pub pred: Held,
    /// The node that the link of `pred` names, if any: its key isn't smaller.
    pub cur: Option<Held>,
    /// Whether that node has the key.
    pub present: bool,
    /// The steps that were made.
    pub used: u32,
}
