//! The totals of a run.
ghost use Rattle.std.specs.Prelude.{◌≡◌, zip, count_by};
ghost use Rattle.vbr_script.specs.declared.script.Kind.TheVariants.{Set, Map};
ghost use Rattle.vbr_transcript.specs.Totals.{tally_in};
ghost use Rattle.vbr_transcript.specs.Runs.{is_yes_to, was_found, was_refused, is_yes_reply, is_look_up, is_refusal, Counts};

use crate::reply::Reply;
use vbr_machine::Op;
use vbr_script::Line;

/// The totals of a run on a set.
#[derive(Debug, Drop)]
pub struct Totals {
    /// How many inserts were answered yes.
    pub inserted: u64,
    /// How many removes were answered yes.
    pub removed: u64,
    /// How many look-ups were answered yes.
    pub found: u64,
    /// How many operations were refused.
    pub refused: u64,
    /// The keys that the set has in the end, ascending.
    pub keys: Vec<u64>,
    /// The epoch of the set in the end.
    pub epoch: u64,
}

/// The totals of a run on a map.
#[derive(Debug, Drop)]
pub struct MapTotals {
    /// How many inserts were answered yes.
    pub inserted: u64,
    /// How many removes were answered yes.
    pub removed: u64,
    /// How many look-ups were answered yes: those for a value too.
    pub found: u64,
    /// How many operations were refused.
    pub refused: u64,
    /// The keys that the map has in the end, each with its value, ascending by key.
    pub entries: Vec<(u64, u64)>,
    /// The epoch of the map in the end.
    pub epoch: u64,
}

/// How many operations of a run were answered in which way.
#[derive(Clone, Copy, Debug, PartialEq, Eq)]
pub struct Tally {
    /// How many inserts were answered yes.
    pub inserted: u64,
    /// How many removes were answered yes.
    pub removed: u64,
    /// How many look-ups were answered yes.
    pub found: u64,
    /// How many operations were refused.
    pub refused: u64,
}

impl Totals {
    /// Those of a run of these counts, and of a set that has these keys and this epoch in the end.
    pub fn new(tally: Tally, keys: Vec<u64>, epoch: u64) -> Totals
        ensures tally { tally_in Set result ≡ tally }
        ensures keys { result.keys.items ≡ keys.items }
        ensures epoch { result.epoch ≡ epoch }
    {
        Totals {
            inserted: tally.inserted,
            removed: tally.removed,
            found: tally.found,
            refused: tally.refused,
            keys,
            epoch,
        }
    }
}

impl MapTotals {
    /// Those of a run of these counts, and of a map that has these entries and this epoch in the end.
    pub fn new(tally: Tally, entries: Vec<(u64, u64)>, epoch: u64) -> MapTotals
        ensures tally { tally_in Map result ≡ tally }
        ensures entries { result.entries.items ≡ entries.items }
        ensures epoch { result.epoch ≡ epoch }
    {
        MapTotals {
            inserted: tally.inserted,
            removed: tally.removed,
            found: tally.found,
            refused: tally.refused,
            entries,
            epoch,
        }
    }
}

/// The counts of lines with their replies.
pub fn tally_of(lines: &[Line], replies: &[Reply]) -> Tally
    ensures { Counts result (zip lines.now replies.now) }
{
    Tally {
        inserted: yes_count(lines, replies, Op::Insert),
        removed: yes_count(lines, replies, Op::Remove),
        found: found_count(lines, replies),
        refused: refused_count(lines, replies),
    }
}

// How many lines with this operation were answered yes.
fn yes_count(lines: &[Line], replies: &[Reply], op: Op) -> u64
    ensures { result ≡ count_by (is_yes_to op) (zip lines.now replies.now) }
{
    lines
        .iter()
        .zip(replies)
        .filter(|(line, reply)| is_yes_reply(**reply) && line.op == op)
        .count() as u64
}

// How many look-ups were answered yes.
fn found_count(lines: &[Line], replies: &[Reply]) -> u64
    ensures { result ≡ count_by was_found (zip lines.now replies.now) }
{
    lines
        .iter()
        .zip(replies)
        .filter(|(line, reply)| is_yes_reply(**reply) && is_look_up(line.op))
        .count() as u64
}

// How many lines were refused.
fn refused_count(lines: &[Line], replies: &[Reply]) -> u64
    ensures { result ≡ count_by was_refused (zip lines.now replies.now) }
{
    lines
        .iter()
        .zip(replies)
        .filter(|(_line, reply)| is_refusal(**reply))
        .count() as u64
}

fn is_yes_reply(reply: Reply) -> bool
    ensures { result ≡ is_yes_reply reply }
{
    matches!(reply, Reply::Yes | Reply::Value(_))
}

fn is_look_up(op: Op) -> bool
    ensures { result ≡ is_look_up op }
{
    matches!(op, Op::Has | Op::Get)
}

fn is_refusal(reply: Reply) -> bool
    ensures { result ≡ is_refusal reply }
{
    match reply {
        Reply::Yes | Reply::Value(_) | Reply::No => false,
        Reply::Full | Reply::Spent | Reply::Tired => true,
    }
}
