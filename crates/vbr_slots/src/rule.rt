//! The rule of the table, and what its steps return. No value of these types is made but `Opening` and
//! `OpeningWithEntries`.
ghost use Rattle.std.specs.Prelude.{◌≡◌, IfOk};
ghost use Rattle.vbr_machine.specs.Start.{start_with};

use atomic_table::{Join, Play, Split, TableRule};
use std::alloc::{AllocError, Global};
use std::collections::LinkedList;
use std::marker::{Brand, Model, PhantomData};
use vbr_machine::Event;
use vbr_words::Shape;

/// What a table is opened with: its shape, and how many passes it has.
#[derive(Clone, Copy)]
pub struct Opening {
    pub shape: Shape,
    pub passes: u32,
}

/// What a table is opened with, and the keys that it opens with, with their values if nodes have
/// values. The rule of the table goes by it, and once the table stands nothing of it is kept.
#[derive(Drop)]
pub struct OpeningWithEntries {
    opening: Opening,
    keys: Vec<u64>,
    values: Vec<u64>,
}

impl Model for OpeningWithEntries {
    ghost use Rattle.vbr_slots.specs.runs.TableStart.{TableStart};

    ghost Value = { TableStart };

    ghost use Rattle.vbr_slots.specs.views.OpeningView.{opening_with};

    ghost view = { opening_with };
}

impl OpeningWithEntries {
    // The opening with a copy of these keys and values.
    pub(crate) fn new(
        alloc: Global,
        opening: Opening,
        keys: &[u64],
        values: &[u64],
    ) -> Result<OpeningWithEntries, AllocError>
        ensures { IfOk result (λ whole.
            whole ≡ record {
              start = start_with opening.shape keys.now values.now;
              passes = opening.passes;
            }) }
    {
        let mut key_copy = Vec::new(alloc);
        key_copy.extend_from_slice(keys)?;
        let mut value_copy = Vec::new(alloc);
        value_copy.extend_from_slice(values)?;
        Ok(OpeningWithEntries {
            opening,
            keys: key_copy,
            values: value_copy,
        })
    }
}

/// The keys that a table opened with, and their values, one for each key if nodes have values.
pub struct Opened {
    pub keys: LinkedList<u64>,
    pub payloads: LinkedList<u64>,
}

/// What a seat knows of one pass: what its table opened with, its number, and the events of the run
/// that it has seen.
pub struct Witness {
    pub opened: Opened,
    pub who: u32,
    pub seen: LinkedList<Event>,
}

/// The rule: the table is the state of a run of the machine.
pub struct RunRule;

impl TableRule<(), LinkedList<Witness>, OpeningWithEntries> for RunRule {
    ghost use Rattle.vbr_slots.specs.runs.Rule.{Kept, first_witnesses};

    ghost holds = { Kept };

    ghost first = { first_witnesses };
}

/// Which event a step is, at which table. Each call picks it.
pub trait Naming {
    ghost use Rattle.vbr_machine.specs.declared.event.Event.{Event};
    ghost use Rattle.vbr_slots.specs.runs.TableStart.{TableStart};

    ghost event: { Event };

    ghost opening: { TableStart };
}

impl Naming for Brand {
    ghost use Rattle.vbr_slots.specs.runs.Rule.{no_event, no_opening};

    ghost event = { no_event };

    ghost opening = { no_opening };
}

/// The step is the event that `E` names.
pub struct Does<E> {
    event: PhantomData<E>,
}

impl<E: Naming> Play<(), LinkedList<Witness>> for Does<E> {
    ghost use Rattle.vbr_slots.specs.runs.Rule.{Told};

    ghost then = { λ _. Told E.opening E.event };
}

/// The same at a link word, which the table keeps packed.
pub struct DoesAtLink<E> {
    event: PhantomData<E>,
}

impl<E: Naming> Play<(), LinkedList<Witness>> for DoesAtLink<E> {
    ghost use Rattle.vbr_words.specs.Packing.{slot_bits, unpacked};
    ghost use Rattle.vbr_slots.specs.runs.Rule.{Told};

    ghost then = { λ _ m r n. Told E.opening E.event m
        (unpacked (slot_bits E.opening.start.shape.slots) r) n };
}

/// The pass of the event that `E` names sees all of the run, which is no event; the tokens beside it are
/// spent.
pub struct Catches<E> {
    event: PhantomData<E>,
}

impl<E: Naming> Play<(), LinkedList<Witness>> for Catches<E> {
    ghost use Rattle.vbr_slots.specs.runs.Rule.{Caught};

    ghost then = { λ _ m _ n. Caught E.opening E.event.pass m n };
}

/// A load by a seat with the witnesses of all passes of the opening that `E` names, which is no event: it
/// returns the word after all that they have seen.
pub struct Surveys<E> {
    event: PhantomData<E>,
}

impl<E: Naming> Play<(), LinkedList<Witness>> for Surveys<E> {
    ghost use Rattle.vbr_slots.specs.runs.Snapshots.{ReadsWord};

    ghost then = { λ step m r n. ReadsWord E.opening step.word m r n };
}

/// A new seat, which has no witness.
pub struct Nobody;

impl Play<(), LinkedList<Witness>> for Nobody {
    ghost use Rattle.std.specs.Prelude.{◌≡◌, []};

    ghost then = { λ _ _ _ n. n.0 ≡ [] };
}

/// The first witness stays, and the others go.
pub struct First;

impl Split<LinkedList<Witness>> for First {
    ghost use Rattle.vbr_slots.specs.runs.Rule.{head_of, tail_of};

    ghost left = { head_of };

    ghost right = { tail_of };
}

/// The seat stays as it is, and a token goes: it tells what the first witness has seen.
pub struct Note;

impl Split<LinkedList<Witness>> for Note {
    ghost use Rattle.vbr_slots.specs.runs.Rule.{noted};

    ghost left = { λ v. v };

    ghost right = { noted };
}

/// All witnesses go.
pub struct Whole;

impl Split<LinkedList<Witness>> for Whole {
    ghost use Rattle.std.specs.Prelude.{[]};

    ghost left = { λ _. [] };

    ghost right = { λ v. v };
}

/// The witnesses of both seats.
pub struct Both;

impl Join<LinkedList<Witness>> for Both {
    ghost use Rattle.std.specs.Prelude.{[], ◌++◌};

    ghost both = { λ v w. v ++ w };

    ghost spent = { [] };
}
