// The ways in which a step reaches its word: a load, a store, an exchange, an `|` or an `&` with
// bits, and a load while the seat of another pass is joined.
//
// A step is given to the table as an event: each of these functions takes it as its type argument, which
// the caller picks.
ghost use Rattle.std.specs.Prelude.{◌≡◌, ◌↔◌, ℕ, ◌+◌, ◌<◌, ◌≤◌, ◌^◌, IsTrue};
ghost use Rattle.vbr_machine.specs.Acceptance.{Accepts};
ghost use Rattle.vbr_machine.specs.Machine.{Load, Store, Exchange, FetchOr, FetchAnd, access_of, place_of_step};
ghost use Rattle.vbr_machine.specs.Runs.{Begins, BeginsFor};
ghost use Rattle.vbr_machine.specs.declared.event.Step.TheVariants.{ReadEpoch};
ghost use Rattle.vbr_words.specs.Places as places;
ghost use Rattle.vbr_slots.specs.steps.LookUpStep.{link_from};
ghost use Rattle.vbr_slots.specs.steps.Reads.{Reads};
ghost use Rattle.vbr_slots.specs.steps.Stepping.{NamesStep};
ghost use Rattle.vbr_slots.specs.Tokens.{Since};
ghost use Rattle.vbr_slots.specs.views.Views.{IsOf, Did, KeepsPool, knows, epoch_after};
ghost use Rattle.vbr_slots.specs.words.Words.{IsPlain};
ghost use Rattle.vbr_slots.specs.words.WideWords.{wide_in};

use crate::rule::{Both, Catches, Does, DoesAtLink, First, Naming, Note, Whole};
use crate::runner::{EpochRead, Runner, keep_epoch, keep_epoch_found};
use crate::seen::Seen;
use crate::slots::Slots;
use crate::stepper::Stepper;
use std::marker::Brand;
use vbr_machine::Step;
use vbr_words::{At, Nodes, Place, Shape, place_index_in, words_of_node};

// The index of the link word at a place, if the words of slots begin at this one, and each slot has
// so many. No branch is needed to find it.
#[inline]
fn link_from(slots: usize, words: usize, holder: At) -> usize
    requires slots { slots < 2 ^ 33 }
    requires words { words ≤ 5 }
    ensures { result ≡ link_from slots words holder }
{
    match holder {
        At::Head(bucket) => 2 + bucket as usize,
        At::Slot(slot) => slots + words * slot as usize,
    }
}

// The index of the link word at a place in a shape with nodes of this kind.
#[inline]
fn link_index_in<N: Nodes>(shape: &Shape, holder: At) -> usize
    requires { shape.now.values ≡ N.VALUES }
    ensures { result ≡ link_from (2 + shape.now.buckets) (places.node_words shape.now) holder }
{
    let words = words_of_node(N::VALUES);
    prove!(words <= 5);
    link_from(2 + shape.buckets() as usize, words, holder)
}

impl<N: Nodes> Slots<N> {
    // One load of a link word, which is the step. The stepper's own pool and hand stay.
    #[inline]
    pub(crate) fn load_at<E: Naming>(&self, stepper: &mut Stepper, step: Step, holder: At) -> u64
        requires named { NamesStep E.event E.opening stepper.old.trace self.now step }
        requires own { IsOf stepper.old.trace self.now }
        requires accepted { Accepts self.now.start (knows stepper.old.trace) step }
        requires place { places.place_of holder ≡ place_of_step step }
        requires access { access_of (knows stepper.old.trace) step ≡ Load }
        ensures step { Did step stepper.old.trace stepper.new.trace (wide_in self.now result) }
        ensures pool { KeepsPool stepper.old stepper.new }
    {
        let word = link_index_in::<N>(&self.opening.shape, holder);
        self.load_link_at::<E>(stepper, step, holder, word)
    }

    // One load of the link word with this index, which is the step. The stepper's own pool and hand stay.
    #[inline]
    pub(crate) fn load_link_at<E: Naming>(
        &self,
        stepper: &mut Stepper,
        step: Step,
        holder: At,
        word: usize,
    ) -> u64
        requires named { NamesStep E.event E.opening stepper.old.trace self.now step }
        requires own { IsOf stepper.old.trace self.now }
        requires accepted { Accepts self.now.start (knows stepper.old.trace) step }
        requires place { places.place_of holder ≡ place_of_step step }
        requires index { word ≡ places.index_of self.now.start.shape (places.place_of holder) }
        requires access { access_of (knows stepper.old.trace) step ≡ Load }
        ensures step { Did step stepper.old.trace stepper.new.trace (wide_in self.now result) }
        ensures pool { KeepsPool stepper.old stepper.new }
    {
        let runner = &mut stepper.runner;
        let _ = &runner.epoch;
        self.table
            .shared
            .load::<DoesAtLink<E>>(&mut runner.seat, word)
    }

    // One load of a link word, and one of the epoch: two steps.
    #[inline]
    pub(crate) fn load_at_and_epoch(
        &self,
        stepper: &mut Stepper,
        step: Step,
        holder: At,
    ) -> (u64, EpochRead)
        requires own { IsOf stepper.old.trace self.now }
        requires accepted { Accepts self.now.start (knows stepper.old.trace) step }
        requires place { places.place_of holder ≡ place_of_step step }
        requires access { access_of (knows stepper.old.trace) step ≡ Load }
        requires stays { (found epoch : ℕ) → epoch_after step found epoch ≡ epoch }
        ensures reads { Reads step stepper.old stepper.new
            (wide_in self.now result.0) result.1.epoch }
        ensures stays { IsTrue result.1.stays ↔
            (result.1.epoch ≡ (knows stepper.old.trace).epoch) }
    {
        let found = self.load_at::<Brand>(stepper, step, holder);
        let read = self.read_epoch_as::<Brand>(&mut stepper.runner);
        (found, read)
    }

    // One load, which is the step. The stepper's own pool and hand stay.
    #[inline]
    pub(crate) fn load<E: Naming>(&self, stepper: &mut Stepper, step: Step, place: Place) -> u64
        requires named { NamesStep E.event E.opening stepper.old.trace self.now step }
        requires own { IsOf stepper.old.trace self.now }
        requires accepted { Accepts self.now.start (knows stepper.old.trace) step }
        requires place { place ≡ place_of_step step }
        requires plain { IsPlain place }
        requires access { access_of (knows stepper.old.trace) step ≡ Load }
        ensures step { Did step stepper.old.trace stepper.new.trace result }
        ensures pool { KeepsPool stepper.old stepper.new }
    {
        let word = place_index_in::<N>(&self.opening.shape, place);
        self.load_word::<E>(stepper, step, word)
    }

    // One load of the word with this index, which is the step. The stepper's own pool and hand stay.
    #[inline]
    pub(crate) fn load_word<E: Naming>(&self, stepper: &mut Stepper, step: Step, word: usize) -> u64
        requires named { NamesStep E.event E.opening stepper.old.trace self.now step }
        requires own { IsOf stepper.old.trace self.now }
        requires accepted { Accepts self.now.start (knows stepper.old.trace) step }
        requires index { word ≡ places.index_of self.now.start.shape (place_of_step step) }
        requires plain { IsPlain (place_of_step step) }
        requires access { access_of (knows stepper.old.trace) step ≡ Load }
        ensures step { Did step stepper.old.trace stepper.new.trace result }
        ensures pool { KeepsPool stepper.old stepper.new }
    {
        let runner = &mut stepper.runner;
        let found = self.table.shared.load::<Does<E>>(&mut runner.seat, word);
        keep_epoch(&mut runner.epoch, step, found);
        found
    }

    // One load of the epoch, which is the step. The epoch that the runner read before is compared where it
    // stands, after the load.
    #[inline]
    pub(crate) fn read_epoch_as<E: Naming>(&self, runner: &mut Runner) -> EpochRead
        requires named { NamesStep E.event E.opening runner.old self.now ReadEpoch }
        requires own { IsOf runner.old self.now }
        requires accepted { Accepts self.now.start (knows runner.old) ReadEpoch }
        ensures step { Did ReadEpoch runner.old runner.new result.epoch }
        ensures stays { IsTrue result.stays ↔ (result.epoch ≡ (knows runner.old).epoch) }
    {
        let word = place_index_in::<N>(&self.opening.shape, Place::Epoch);
        let epoch = self.table.shared.load::<Does<E>>(&mut runner.seat, word);
        let stays = keep_epoch_found(&mut runner.epoch, epoch);
        EpochRead { epoch, stays }
    }

    // One load of another word than the epoch, and one of the epoch: two steps.
    #[inline]
    pub(crate) fn load_and_epoch(
        &self,
        stepper: &mut Stepper,
        step: Step,
        place: Place,
    ) -> (u64, EpochRead)
        requires own { IsOf stepper.old.trace self.now }
        requires accepted { Accepts self.now.start (knows stepper.old.trace) step }
        requires place { place ≡ place_of_step step }
        requires plain { IsPlain place }
        requires access { access_of (knows stepper.old.trace) step ≡ Load }
        requires stays { (found epoch : ℕ) → epoch_after step found epoch ≡ epoch }
        ensures reads { Reads step stepper.old stepper.new result.0 result.1.epoch }
        ensures stays { IsTrue result.1.stays ↔
            (result.1.epoch ≡ (knows stepper.old.trace).epoch) }
    {
        let found = self.load::<Brand>(stepper, step, place);
        let read = self.read_epoch_as::<Brand>(&mut stepper.runner);
        (found, read)
    }

    // One store of a word, which is the step.
    #[inline]
    pub(crate) fn store<E: Naming>(&self, runner: &mut Runner, step: Step, place: Place, new: u64)
        requires named { NamesStep E.event E.opening runner.old self.now step }
        requires own { IsOf runner.old self.now }
        requires accepted { Accepts self.now.start (knows runner.old) step }
        requires place { place ≡ place_of_step step }
        requires plain { IsPlain place }
        requires access { access_of (knows runner.old) step ≡ Store new }
        ensures { Did step runner.old runner.new new }
    {
        let word = place_index_in::<N>(&self.opening.shape, place);
        self.table
            .shared
            .store::<Does<E>>(&mut runner.seat, word, new);
        keep_epoch(&mut runner.epoch, step, new);
    }

    // One store of a link word, which is the step.
    #[inline]
    pub(crate) fn store_at<E: Naming>(&self, runner: &mut Runner, step: Step, holder: At, new: u64)
        requires named { NamesStep E.event E.opening runner.old self.now step }
        requires own { IsOf runner.old self.now }
        requires accepted { Accepts self.now.start (knows runner.old) step }
        requires place { places.place_of holder ≡ place_of_step step }
        requires access { access_of (knows runner.old) step ≡ Store (wide_in self.now new) }
        ensures { Did step runner.old runner.new (wide_in self.now new) }
    {
        let _ = &runner.epoch;
        let word = link_index_in::<N>(&self.opening.shape, holder);
        self.table
            .shared
            .store::<DoesAtLink<E>>(&mut runner.seat, word, new);
    }

    // One exchange of an expected link word for a new one, which is the step. Returns what it found.
    #[inline]
    pub(crate) fn exchange_at<E: Naming>(
        &self,
        runner: &mut Runner,
        step: Step,
        holder: At,
        expected: u64,
        new: u64,
    ) -> u64
        requires named { NamesStep E.event E.opening runner.old self.now step }
        requires own { IsOf runner.old self.now }
        requires accepted { Accepts self.now.start (knows runner.old) step }
        requires place { places.place_of holder ≡ place_of_step step }
        requires access { access_of (knows runner.old) step ≡
            Exchange (wide_in self.now expected) (wide_in self.now new) }
        ensures { Did step runner.old runner.new (wide_in self.now result) }
    {
        let _ = &runner.epoch;
        let word = link_index_in::<N>(&self.opening.shape, holder);
        self.table
            .shared
            .compare_exchange::<DoesAtLink<E>>(&mut runner.seat, word, expected, new)
    }

    // One exchange of an expected word for a new one, which is the step. Returns what it found.
    #[inline]
    pub(crate) fn exchange<E: Naming>(
        &self,
        runner: &mut Runner,
        step: Step,
        place: Place,
        expected: u64,
        new: u64,
    ) -> u64
        requires named { NamesStep E.event E.opening runner.old self.now step }
        requires own { IsOf runner.old self.now }
        requires accepted { Accepts self.now.start (knows runner.old) step }
        requires place { place ≡ place_of_step step }
        requires plain { IsPlain place }
        requires access { access_of (knows runner.old) step ≡ Exchange expected new }
        ensures { Did step runner.old runner.new result }
    {
        let word = place_index_in::<N>(&self.opening.shape, place);
        let found = self
            .table
            .shared
            .compare_exchange::<Does<E>>(&mut runner.seat, word, expected, new);
        keep_epoch(&mut runner.epoch, step, found);
        found
    }

    // One `|` of the word with bits, which is the step. Returns the word that it found.
    #[inline]
    pub(crate) fn fetch_or<E: Naming>(
        &self,
        runner: &mut Runner,
        step: Step,
        place: Place,
        bits: u64,
    ) -> u64
        requires named { NamesStep E.event E.opening runner.old self.now step }
        requires own { IsOf runner.old self.now }
        requires accepted { Accepts self.now.start (knows runner.old) step }
        requires place { place ≡ place_of_step step }
        requires plain { IsPlain place }
        requires access { access_of (knows runner.old) step ≡ FetchOr bits }
        ensures { Did step runner.old runner.new result }
    {
        let word = place_index_in::<N>(&self.opening.shape, place);
        let found = self
            .table
            .shared
            .fetch_or::<Does<E>>(&mut runner.seat, word, bits);
        keep_epoch(&mut runner.epoch, step, found);
        found
    }

    // One `&` of the word with bits, which is the step. Returns the word that it found.
    #[inline]
    pub(crate) fn fetch_and<E: Naming>(
        &self,
        runner: &mut Runner,
        step: Step,
        place: Place,
        bits: u64,
    ) -> u64
        requires named { NamesStep E.event E.opening runner.old self.now step }
        requires own { IsOf runner.old self.now }
        requires accepted { Accepts self.now.start (knows runner.old) step }
        requires place { place ≡ place_of_step step }
        requires plain { IsPlain place }
        requires access { access_of (knows runner.old) step ≡ FetchAnd bits }
        ensures { Did step runner.old runner.new result }
    {
        let word = place_index_in::<N>(&self.opening.shape, place);
        let found = self
            .table
            .shared
            .fetch_and::<Does<E>>(&mut runner.seat, word, bits);
        keep_epoch(&mut runner.epoch, step, found);
        found
    }

    // One load of the epoch, which is the step, while the other's seat is joined to the runner's.
    #[inline]
    pub(crate) fn meet_as<E: Naming>(&self, runner: &mut Runner, other: &mut Runner) -> u64
        requires named { NamesStep E.event E.opening runner.old self.now ReadEpoch }
        requires own { IsOf runner.old self.now }
        requires other { IsOf other.old self.now }
        ensures step { Did ReadEpoch runner.old runner.new result }
        ensures same { other.new ≡ other.old }
        ensures met { BeginsFor other.old.who other.old.seen runner.new.seen }
    {
        let shared = &self.table.shared;
        let word = place_index_in::<N>(&self.opening.shape, Place::Epoch);
        let theirs = shared.split_seat::<Whole>(&mut other.seat);
        shared.join_seat::<Both>(&mut runner.seat, theirs);
        let found = shared.load::<Does<E>>(&mut runner.seat, word);
        keep_epoch(&mut runner.epoch, Step::ReadEpoch, found);
        other.seat = shared.split_seat::<First>(&mut runner.seat);
        found
    }

    // A token of what the runner has seen, which stays as it was.
    #[inline]
    pub(crate) fn note_runner(&self, runner: &mut Runner) -> Seen
        requires own { IsOf runner.old self.now }
        ensures same { runner.new ≡ runner.old }
        ensures table { result.table ≡ self.now.table }
        ensures seen { result.seen ≡ runner.old.seen }
    {
        let seat = self.table.shared.split_seat::<Note>(&mut runner.seat);
        Seen { seat }
    }

    // Another token that tells the same.
    #[inline]
    pub(crate) fn note_again(&self, token: &mut Seen) -> Seen
        requires own { token.old.table ≡ self.now.table }
        ensures same { token.new ≡ token.old }
        ensures again { result ≡ token.old }
    {
        let seat = self.table.shared.split_seat::<Note>(&mut token.seat);
        Seen { seat }
    }

    // The runner sees all of the run, and so what a token tells, which is spent. It is no step: the two
    // loads are of the word 0, and nothing is kept of them.
    #[inline]
    pub(crate) fn catch_up_as<E: Naming>(&self, runner: &mut Runner, token: Seen)
        requires named { NamesStep E.event E.opening runner.old self.now ReadEpoch }
        requires own { IsOf runner.old self.now }
        requires token { token.table ≡ self.now.table }
        ensures since { Since runner.old runner.new }
        ensures begins { Begins token.seen runner.new.seen }
    {
        let shared = &self.table.shared;
        let Seen { seat: theirs } = token;
        shared.join_seat::<Both>(&mut runner.seat, theirs);
        shared.load::<Catches<E>>(&mut runner.seat, 0);
    }
}
