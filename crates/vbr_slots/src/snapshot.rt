//! Reading the words of a table that stays open.
ghost use Rattle.std.specs.Prelude.{◌≡◌, ◌≤◌, [], length, IfOk};
ghost use Rattle.std.specs.Vec.{vec_capacity};
ghost use Rattle.vbr_words.specs.Places.{words_in};
ghost use Rattle.vbr_slots.specs.runs.Closing.{AllOf, Ends};
ghost use Rattle.vbr_slots.specs.runs.Snapshots.{AreHalted, AreReadBy, IsJoined, witnesses_of};

use crate::pass::Pass;
use crate::pool::Pool;
use crate::rule::{Both, First, Naming, Nobody, Opening, Surveys, Witness};
use crate::runner::Runner;
use crate::slots::Slots;
use crate::stepper::Stepper;
use crate::tally::Tally;
use atomic_table::Seat;
use std::alloc::{AllocError, Global};
use std::collections::LinkedList;
use std::marker::Brand;
use vbr_words::Nodes;

type AnySeat = Seat<(), LinkedList<Witness>>;

// What is kept of a pass while its seat is joined to the seats of the others.
#[derive(Drop)]
pub(crate) struct Halted {
    opening: Opening,
    who: u32,
    epoch: u64,
    pool: Pool,
    hand: Option<u32>,
    tried: u32,
    tally: Tally,
    steps: u64,
}

impl<N: Nodes> Slots<N> {
    /// The words of the table, in the order of `place_index`, as [`Slots::close`] gives them, and the
    /// table stays open: the image of a run that begins with what each pass has seen and has no other
    /// event of it. It has all passes, so no step is made meanwhile; the passes stay as they were.
    ///
    /// It loads each word once, which is no step, and twice one for each pass. It takes 8 bytes for each word
    /// and 616 for each pass, before it loads any.
    pub fn snapshot(&self, alloc: Global, passes: &mut Vec<Pass>) -> Result<Vec<u64>, AllocError>
        requires of_table { AllOf self.now passes.old.items }
        requires all { self.now.passes ≤ length passes.old.items }
        ensures same { passes.new.items ≡ passes.old.items }
        ensures words { IfOk result (λ words. Ends self.now passes.old.items words.items) }
    {
        let mut words = Vec::with_capacity(alloc, self.table.word_count())?;
        let mut halted = Vec::with_capacity(alloc, passes.len())?;
        let (_, none) = self.table.shared.load_new_seat::<Nobody>(0);
        let mut joined = self.halt_all(none, passes, &mut halted);
        self.read_all(&mut joined, &mut words);
        while let Some(kept) = halted.pop() {
            let others = self.table.shared.split_seat::<First>(&mut joined);
            let runner = Runner {
                seat: joined,
                opening: kept.opening,
                who: kept.who,
                epoch: kept.epoch,
            };
            let stepper = Stepper {
                runner,
                pool: kept.pool,
                hand: kept.hand,
                tried: kept.tried,
                tally: kept.tally,
            };
            let steps = kept.steps;
            let Ok(()) = passes.push(Pass { stepper, steps }) else {
                unreachable!()
            };
            joined = others;
        }
        Ok(words)
    }

    // Joins this seat, which has no witness, to the seats of the passes, from the last one on, and keeps
    // the rest.
    fn halt_all(&self, none: AnySeat, passes: &mut Vec<Pass>, halted: &mut Vec<Halted>) -> AnySeat
        requires of_table { AllOf self.now passes.old.items }
        requires none { (none.table_id ≡ self.now.table) × (none.me ≡ ([], [])) }
        requires empty { halted.old.items ≡ [] }
        requires room { length passes.old.items ≤ vec_capacity halted.old }
        ensures seat { IsJoined self.now result }
        ensures me { result.me ≡ (witnesses_of passes.old.items, []) }
        ensures left { (passes.new.items ≡ [])
            × (vec_capacity passes.new ≡ vec_capacity passes.old) }
        ensures halted { AreHalted passes.old.items halted.new.items }
    {
        let mut joined = none;
        while let Some(pass) = passes.pop() {
            let Pass { stepper, steps } = pass;
            let Stepper {
                runner,
                pool,
                hand,
                tried,
                tally,
            } = stepper;
            let Runner {
                mut seat,
                opening,
                who,
                epoch,
            } = runner;
            self.table.shared.join_seat::<Both>(&mut seat, joined);
            joined = seat;
            let kept = Halted {
                opening,
                who,
                epoch,
                pool,
                hand,
                tried,
                tally,
                steps,
            };
            let Ok(()) = halted.push(kept) else {
                unreachable!()
            };
        }
        joined
    }

    // Reads all words by a seat with the witnesses of all passes.
    fn read_all(&self, seat: &mut AnySeat, words: &mut Vec<u64>)
        requires seat { IsJoined self.now seat.old }
        requires all { self.now.passes ≤ length seat.old.me.0 }
        requires none { words.old.items ≡ [] }
        requires room { words_in self.now.start.shape ≤ vec_capacity words.old }
        ensures seat { (seat.new.table_id ≡ seat.old.table_id) × (seat.new.me ≡ seat.old.me) }
        ensures read { AreReadBy self.now seat.old.me.0 words.new.items }
    {
        self.read_all_as::<Brand>(seat, words);
    }

    fn read_all_as<E: Naming>(&self, seat: &mut AnySeat, words: &mut Vec<u64>)
        requires named { E.opening ≡ record { start = self.now.start; passes = self.now.passes } }
        requires seat { IsJoined self.now seat.old }
        requires all { self.now.passes ≤ length seat.old.me.0 }
        requires none { words.old.items ≡ [] }
        requires room { words_in self.now.start.shape ≤ vec_capacity words.old }
        ensures seat { (seat.new.table_id ≡ seat.old.table_id) × (seat.new.me ≡ seat.old.me) }
        ensures read { AreReadBy self.now seat.old.me.0 words.new.items }
    {
        for index in 0..self.table.word_count() {
            let found = self.table.shared.load::<Surveys<E>>(seat, index);
            let Ok(()) = words.push(found) else {
                unreachable!()
            };
        }
    }
}
