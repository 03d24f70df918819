//! Closing a table.
ghost use Rattle.std.specs.Prelude.{◌≡◌, ◌<◌, ◌≤◌, ◌↔◌, [], length, IfOk, IfErr, OnOk};
ghost use Rattle.std.specs.Vec.{vec_capacity};
ghost use Rattle.std.specs.Mem.Slots.{slots_items, slots_len, IsFull};
ghost use Rattle.vbr_slots.specs.runs.Closing.{AllOf, Ends, HandsBack, IsMissing};

use crate::close_error::CloseError;
use crate::pass::Pass;
use crate::rule::{Both, Nobody};
use crate::runner::Runner;
use crate::slots::Slots;
use crate::stepper::Stepper;
use atomic_table::Closed;
use std::alloc::Global;
use vbr_words::Nodes;

impl<N: Nodes> Slots<N> {
    /// Ends the table and gives its words, in the order of `place_index`: the image of a run that
    /// begins with what each pass has seen and has no other event of it.
    ///
    /// Missing is tested first; then the room for the words is made, before any seat is joined. What
    /// is refused comes back as it was.
    pub fn close(self, alloc: Global, passes: Vec<Pass>) -> Result<Vec<u64>, CloseError<Slots<N>>>
        requires { AllOf self passes.items }
        ensures ok { IfOk result (λ words. Ends self passes.items words.items) }
        ensures all { OnOk result (self.passes ≤ length passes.items) }
        ensures back { IfErr result (λ e. HandsBack e self passes.items) }
        ensures missing { IfErr result (λ e. IsMissing e ↔ (length passes.items < self.passes)) }
    {
        if passes.len() < self.opening.passes as usize {
            return Err(CloseError::Missing(self, passes));
        }
        let count = self.table.word_count();
        let Ok(words) = Vec::with_capacity(alloc, count) else {
            return Err(CloseError::Memory(self, passes));
        };
        let Slots {
            table,
            opening: _,
            nodes: _,
        } = self;
        let (_, mut seat) = table.shared.load_new_seat::<Nobody>(0);
        for pass in passes {
            let Pass { stepper, steps: _ } = pass;
            let Stepper {
                runner,
                pool: _,
                hand: _,
                tried: _,
                tally: _,
            } = stepper;
            let Runner {
                seat: other,
                opening: _,
                who: _,
                epoch: _,
            } = runner;
            table.shared.join_seat::<Both>(&mut seat, other);
        }
        Ok(words_of(table.close_with(seat), words))
    }
}

// The words of a closed table, into a vector with room for them.
fn words_of(closed: Closed<(), Global>, mut words: Vec<u64>) -> Vec<u64>
    requires closed { IsFull closed.words × (slots_len closed.slots ≡ 0) }
    requires room { (words.items ≡ []) × (slots_len closed.words ≤ vec_capacity words) }
    ensures { result.items ≡ slots_items closed.words }
{
    for i in 0..closed.words.len() {
        let Ok(()) = words.push(closed.word(i)) else {
            unreachable!()
        };
    }
    closed.free();
    words
}
