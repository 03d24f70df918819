//! Why a member doesn't hold a slot, or doesn't publish the one that it holds.
use std::error::Error;
use std::fmt;
use vbr_list::Refusal;

/// Why a member took no slot to hold.
#[derive(Clone, Copy, Debug, PartialEq, Eq, Hash)]
pub enum HoldRefusal {
    /// It holds one already.
    Held,
    /// No slot was taken, for want of steps, of a slot or of an epoch.
    Refused(Refusal),
}

impl fmt::Display for HoldRefusal {
    ghost use Rattle.std.specs.Prelude.{Some};
    ghost use Rattle.vbr_set.specs.Messages.{hold_refusal_text};

    ghost output = { λ e. Some (hold_refusal_text e) };

    fn fmt<W: fmt::Write>(&self, f: &mut fmt::Formatter<W>) -> fmt::Result {
        match self {
            HoldRefusal::Held => write!(f, "the member holds a slot already"),
            HoldRefusal::Refused(refusal) => write!(f, "{refusal}"),
        }
    }
}

impl Error for HoldRefusal {}

/// Why a member gave no answer to an insert or a store by the slot that it holds. It made no call.
#[derive(Clone, Copy, Debug, PartialEq, Eq, Hash)]
pub enum HeldRefusal {
    /// It holds none.
    NotHeld,
    /// Its own pool is full, as an insert with a slot of its own may leave it. It still holds the slot,
    /// and can make the call once it has given slots back.
    Full,
    /// The steps that were made leave no room in the budget for one more piece. It still holds the
    /// slot.
    OutOfSteps {
        /// The steps of the whole call.
        used: u32,
    },
}

impl fmt::Display for HeldRefusal {
    ghost use Rattle.std.specs.Prelude.{Some};
    ghost use Rattle.vbr_set.specs.Messages.{held_refusal_text};

    ghost output = { λ e. Some (held_refusal_text e) };

    fn fmt<W: fmt::Write>(&self, f: &mut fmt::Formatter<W>) -> fmt::Result {
        match self {
            HeldRefusal::NotHeld => write!(f, "the member holds no slot"),
            HeldRefusal::Full => write!(f, "the pool of the member is full"),
            HeldRefusal::OutOfSteps { used } => {
                write!(f, "the budget has no room after {used} steps")
            }
        }
    }
}

impl Error for HeldRefusal {}
