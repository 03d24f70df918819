// The reply that an answer is.
ghost use Rattle.std.specs.Prelude.{◌≡◌};
ghost use Rattle.vbr_player.specs.Calling.{reply_given, reply_refused, reply_told};

use vbr_set::Refusal;
use vbr_transcript::Reply;

// The reply that an answer of yes or no is.
pub fn reply_told(answer: Result<bool, Refusal>) -> Reply
    ensures { result ≡ reply_told answer }
{
    match answer {
        Ok(true) => Reply::Yes,
        Ok(false) => Reply::No,
        Err(refusal) => reply_refused(refusal),
    }
}

// The reply that an answer is which gives a value if it is yes.
pub fn reply_given(answer: Result<Option<u64>, Refusal>) -> Reply
    ensures { result ≡ reply_given answer }
{
    match answer {
        Ok(Some(value)) => Reply::Value(value),
        Ok(None) => Reply::No,
        Err(refusal) => reply_refused(refusal),
    }
}

// The reply that a refusal is.
fn reply_refused(refusal: Refusal) -> Reply
    ensures { result ≡ reply_refused refusal }
{
    match refusal {
        Refusal::NoSlot => Reply::Full,
        Refusal::EpochSpent { epoch: _ } => Reply::Spent,
        Refusal::OutOfSteps { used: _ } => Reply::Tired,
    }
}
