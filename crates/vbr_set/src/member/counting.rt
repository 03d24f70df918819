//! The balance of a member.
ghost use Rattle.std.specs.Prelude.{◌≡◌};
ghost use Rattle.vbr_list.specs.updates.Outcomes.{is_changed};
ghost use Rattle.vbr_list.specs.updates.Wanted.{wants};
ghost use Rattle.vbr_set.specs.members.Balances.{balance_of, one_where};

use crate::member::Member;
use vbr_list::{Outcome, Refusal, Wanted};
use vbr_words::Nodes;

impl<N: Nodes> Member<N> {
    /// The number of keys that its calls have added, less the number that they took out: the inserts of
    /// its history that were answered yes, less the removes that were. The member with the number 0
    /// begins with the number of keys that its set opened with, and the others with 0. A refused call,
    /// or one answered no, leaves the balance as it was. It wraps in 64 bits.
    ///
    /// So while the members of a set stand still, the balances of all of them add up to the number of
    /// its keys (`balances_add_up` of [`crate::laws`]). It makes no step, and takes the same time for
    /// any set.
    ///
    /// # Example
    ///
    /// ```rattle file=crates/vbr_set_tests/src/balances.rt
    /// one.balance().wrapping_add(other.balance())
    /// ```
    #[inline]
    pub fn balance(&self) -> i64
        ensures { result ≡ balance_of self.now }
    {
        self.balance
    }
}

// One for an answer that is yes.
#[inline(always)]
pub(crate) fn one_if_yes(answer: &Result<bool, Refusal>) -> i64
    ensures { result ≡ one_where (λ reply. reply) answer.now }
{
    match answer {
        Ok(true) => 1,
        _ => 0,
    }
}

// One if the call changed what was there.
#[inline(always)]
pub(crate) fn one_if_changed(answer: &Result<Outcome, Refusal>) -> i64
    ensures { result ≡ one_where is_changed answer.now }
{
    match answer {
        Ok(outcome) if outcome.is_changed() => 1,
        _ => 0,
    }
}

// One if the answer says that the key's state matched.
#[inline(always)]
pub(crate) fn one_if_wanted(answer: &Result<Option<u64>, Refusal>, wanted: Wanted) -> i64
    ensures { result ≡ one_where (wants wanted) answer.now }
{
    match answer {
        Ok(there) if wanted.wants(*there) => 1,
        _ => 0,
    }
}
