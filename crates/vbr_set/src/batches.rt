//! Look-ups in batches: keys are looked up one after another, once their words are on the way into the cache.
ghost use Rattle.std.specs.Prelude.{◌≡◌, ℕ, length};
ghost use Rattle.vbr_set.specs.calls.Batches.{InTurn};

use vbr_slots::BATCH;

/// What brings words of keys into the cache.
pub trait Warms {
    /// Brings into the cache what look-ups of these keys, or of the first [`BATCH`] of them, begin
    /// with. It makes no step.
    fn warm(&mut self, keys: &[u64])
        ensures { self.new ≡ self.old };
}

/// What looks keys up, with an `A` for each answer.
pub trait LooksUp<A>: Warms {
    ghost told: { Self → Self → ℕ → ℕ → A → Type 0 };

    /// Looks a key up, in at most `budget` steps.
    fn look_up(&mut self, key: u64, budget: u32) -> A
        ensures { told self.old self.new key budget result };
}

/// Looks keys up in their order, each in at most `budget` steps, and writes each answer at the place of
/// its key.
pub fn look_up_all<A: Drop, W: LooksUp<A>>(
    who: &mut W,
    keys: &[u64],
    answers: &mut [A],
    budget: u32,
)
    requires { length answers.old ≡ length keys.now }
    ensures { InTurn (λ m n key answer. W.told m n key budget answer)
        who.old who.new keys.now answers.new }
{
    for i in 0..keys.len() {
        if i % BATCH == 0 {
            who.warm(&keys[i..]);
        }
        answers[i] = who.look_up(keys[i], budget);
    }
}
