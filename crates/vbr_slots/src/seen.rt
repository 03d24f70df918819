//! A token of what a pass has seen.
ghost use Rattle.std.specs.Prelude.{◌≡◌};
ghost use Rattle.vbr_machine.specs.Runs.{Begins};
ghost use Rattle.vbr_slots.specs.Tokens.{Since};
ghost use Rattle.vbr_slots.specs.views.Views.{IsOf, KeepsPool};

use crate::pass::Pass;
use crate::rule::Witness;
use crate::slots::Slots;
use atomic_table::Seat;
use std::collections::LinkedList;
use std::marker::{Brand, Model};
use vbr_words::Nodes;

/// What a pass had seen when the token was made. It has no bytes, and goes from thread to thread as any
/// value does. One that is dropped, or lost, takes nothing with it: its table can be closed all the same.
#[derive(Drop)]
pub struct Seen {
    pub(crate) seat: Seat<(), LinkedList<Witness>>,
}

impl Model for Seen {
    ghost use Rattle.vbr_slots.specs.Tokens.{SeenView};

    ghost Value = { SeenView };

    ghost use Rattle.vbr_slots.specs.views.TokenView.{token_of, IsToken};

    ghost view = { token_of };

    ghost invariant = { IsToken };
}

impl<N: Nodes> Slots<N> {
    /// A token of what the pass has seen. It is no step, and the pass stays as it was; it costs one load,
    /// of which nothing is kept.
    #[inline]
    pub fn seen(&self, pass: &mut Pass) -> Seen
        requires own { IsOf pass.old.trace self.now }
        ensures same { pass.new ≡ pass.old }
        ensures table { result.table ≡ self.now.table }
        ensures seen { result.seen ≡ pass.old.trace.seen }
    {
        self.note_runner(&mut pass.stepper.runner)
    }

    /// Another token that tells the same. It is no step; it costs one load, of which nothing is kept.
    #[inline]
    pub fn seen_again(&self, token: &mut Seen) -> Seen
        requires own { token.old.table ≡ self.now.table }
        ensures same { token.new ≡ token.old }
        ensures again { result ≡ token.old }
    {
        self.note_again(token)
    }

    /// Lets the pass see all that was done before, and so all that the token tells, which is spent. It is no
    /// step, and the pass knows what it knew; it costs two loads, of which nothing is kept.
    #[inline]
    pub fn catch_up(&self, pass: &mut Pass, token: Seen)
        requires own { IsOf pass.old.trace self.now }
        requires token { token.table ≡ self.now.table }
        ensures since { Since pass.old.trace pass.new.trace }
        ensures pool { KeepsPool pass.old pass.new }
        ensures begins { Begins token.seen pass.new.trace.seen }
    {
        self.catch_up_as::<Brand>(&mut pass.stepper.runner, token);
    }
}
