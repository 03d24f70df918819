//! A worker: a member of a set, the pages that it came upon, and how many it has claimed.
ghost use Rattle.std.specs.Prelude.{IfOk};
ghost use Rattle.vbr_example.specs.Claims.{IsClaimedOnce};

use vbr_set::{Member, Refusal};

/// The steps that a call may make: far more than any call needs on a set of this size.
pub const BUDGET: u32 = 100_000;

/// A worker that claims pages.
#[derive(Drop)]
pub struct Worker {
    /// Its right to make calls of the set.
    pub member: Member,
    /// The pages that it came upon.
    pub pages: &'static [u64],
    /// How many of them it has claimed, or why it gave up.
    pub claimed: Result<u32, Refusal>,
}

impl Worker {
    /// A worker that has claimed nothing.
    pub fn new(member: Member, pages: &'static [u64]) -> Worker {
        Worker {
            member,
            pages,
            claimed: Ok(0),
        }
    }

    /// Claims its pages, in their order, up to the first refusal.
    pub fn claim_all(&mut self) {
        self.claimed = claim_each(&mut self.member, self.pages);
    }
}

// Claims pages by a member of the set, and returns how many of them.
fn claim_each(member: &mut Member, pages: &[u64]) -> Result<u32, Refusal> {
    let mut claimed = 0u32;
    for page in pages {
        if claim(member, *page)? {
            claimed = claimed.saturating_add(1);
        }
    }
    Ok(claimed)
}

/// Claims a page, if nobody has: it is claimed by the one whose insert of it is answered yes. However
/// the threads run, no page is claimed twice while nobody removes any.
pub fn claim(member: &mut Member, page: u64) -> Result<bool, Refusal>
    ensures { IfOk result (IsClaimedOnce member.old member.new page) }
{
    member.insert(page, BUDGET)
}
