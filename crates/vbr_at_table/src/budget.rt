//! The budget of a call: how many steps it may make.
ghost use Rattle.std.specs.Prelude.{◌+◌, ◌≤◌, ◌↔◌, IsTrue};

/// No piece of a call has more steps than this.
pub const PIECE: u32 = 8;

/// Whether a call that has used so many steps has room in its budget for one more piece.
#[inline]
pub fn affords(budget: u32, used: u32) -> bool
    ensures { IsTrue result ↔ (used + PIECE ≤ budget) }
{
    used < budget.saturating_sub(PIECE - 1)
}
