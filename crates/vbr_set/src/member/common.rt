//! What the members of a set share.
ghost use Rattle.std.specs.Prelude.{◌≡◌, All};

use crate::member::mailbox::Mailbox;
use crate::set::VbrSet;
use vbr_words::Nodes;

/// A set, with a mailbox for each of its passes to come back to, in the order of their numbers.
///
/// Nothing else lies on its lines of the cache: the memory before and after it is written all the
/// time.
#[derive(Drop)]
#[repr(C)]
pub struct Common<N: Nodes> {
    pub(crate) before: [u64; 16],
    pub(crate) set: VbrSet<N>,
    pub(crate) mailboxes: Vec<Mailbox<N>>,
    pub(crate) after: [u64; 16],
    ghost of_set: { All (λ mailbox. mailbox.table.shared.key ≡ set) mailboxes.items },
}
