//! What a call did that changes a key only if what is there is as it is wanted.
ghost use Rattle.std.specs.Prelude.{◌≡◌};
ghost use Rattle.vbr_list.specs.updates.Outcomes.{changed_in, is_changed, there_in, there_of};

use vbr_at_table::Refusal;

/// What a call did that changes a key only if what is there is as it is wanted: the value of the key, or none if
/// it is absent.
#[derive(Clone, Copy, Debug, PartialEq, Eq)]
pub enum Outcome {
    /// This was there, as it is wanted, and the call changed it.
    Changed(Option<u64>),
    /// This is there, which isn't as it is wanted, and it stays.
    Unchanged(Option<u64>),
}

impl Outcome {
    /// What was there when the call was answered: the value of the key, or none if it was absent.
    #[inline(always)]
    pub fn there(self) -> Option<u64>
        ensures { result ≡ there_of self }
    {
        match self {
            Outcome::Changed(there) | Outcome::Unchanged(there) => there,
        }
    }

    /// Whether the call changed it.
    #[inline(always)]
    pub fn is_changed(self) -> bool
        ensures { result ≡ is_changed self }
    {
        matches!(self, Outcome::Changed(_))
    }
}

// An answer without whether the call changed what was there.
#[inline(always)]
pub(crate) fn there_in(answer: Result<Outcome, Refusal>) -> Result<Option<u64>, Refusal>
    ensures { result ≡ there_in answer }
{
    match answer {
        Ok(outcome) => Ok(outcome.there()),
        Err(refusal) => Err(refusal),
    }
}

/// Whether an answered call changed what was there.
#[inline(always)]
pub(crate) fn changed_in(answer: Result<Outcome, Refusal>) -> Result<bool, Refusal>
    ensures { result ≡ changed_in answer }
{
    match answer {
        Ok(outcome) => Ok(outcome.is_changed()),
        Err(refusal) => Err(refusal),
    }
}
