//! Why a call gave no slot, or no answer.
use std::error::Error;
use std::fmt;

/// Why [`crate::take`] took no slot, or why a call of the list gave no answer, which stands on it.
///
/// If no slot was taken, nothing is in hand, and the own pool is as it was; or it was empty, and
/// has the one slot whose flag was won. If a call gave no answer, the pass made no call, it has no
/// slot in hand, and each slot that it could take is in its own pool.
#[derive(Clone, Copy, Debug, PartialEq, Eq, Hash)]
pub enum Refusal {
    /// The steps that were made leave no room in the budget for one more piece.
    OutOfSteps {
        /// The steps of the whole call.
        used: u32,
    },
    /// The own pool is empty, and each slot was outside the shared pool when it was looked for. An
    /// insert answers this only if the key was absent.
    NoSlot,
    /// The epoch is the last, and each slot of the own pool, which has some, is stamped with it.
    /// The budget had room to advance it. An insert answers this only if the key was absent.
    EpochSpent {
        /// The last epoch.
        epoch: u64,
    },
}

impl fmt::Display for Refusal {
    ghost use Rattle.std.specs.Prelude.{Some};
    ghost use Rattle.vbr_at_table.specs.Messages.{refusal_text};

    ghost output = { λ e. Some (refusal_text e) };

    fn fmt<W: fmt::Write>(&self, f: &mut fmt::Formatter<W>) -> fmt::Result {
        match self {
            Refusal::OutOfSteps { used } => {
                write!(f, "the budget has no room after {used} steps")
            }
            Refusal::NoSlot => write!(f, "there is no slot in the pools"),
            Refusal::EpochSpent { epoch } => write!(f, "the last epoch, {epoch}, is spent"),
        }
    }
}

impl Error for Refusal {}
