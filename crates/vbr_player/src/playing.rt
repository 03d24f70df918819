//! The player.
ghost use Rattle.vbr_script.specs.declared.script.Kind.TheVariants.{Set, Map};
ghost use Rattle.vbr_player.specs.Playing.{Plays, PlaysBy};

use crate::gate::Gate;
use crate::playable::Playable;
use crate::sets::open_and_play;
use std::alloc::Global;
use std::io::{Read, Write};
use std::sync::Wait;
use std::thread::Threads;
use vbr_script::parse;
use vbr_settings::Config;
use vbr_transcript::{MapTotals, RunError, Totals, WriteFault, read_text, tally_of, write_whole};
use vbr_words::{Entries, Keys};

/// Reads a script to its end, plays it, and writes the replies and the totals.
///
/// The phases are played one after the other. In each, every worker that has lines of the phase plays
/// them in order, on a thread of its own; they are joined, and then each worker sees all that the
/// others have seen. After a phase that ends with `renew` the set is closed, and one is opened with
/// its keys, at epoch 1, which the workers go on over; that takes memory and time in proportion to
/// the slots, and the keys are sorted. In the end the set is closed.
///
/// It takes memory for the text, the script, the replies and the output, and for the set. Each line is
/// one call, of at most the config's budget of steps; the meeting after a phase of w workers is 2(w - 1)
/// steps.
///
/// # Errors
///
/// All but Write come before anything is written, and leave the writer as it was.
///
/// - Read: the reader failed, or the text is longer than 67,108,864 bytes.
/// - Script: the text's first faulty line, and what is wrong with it.
/// - Memory: there was none for the run.
/// - Worker: a thread couldn't be started.
/// - Write: the writer failed, and has a beginning of the text.
///
/// # Example
///
/// ```rattle file=crates/vbr_example/src/main.rt
/// let config = Config::new(Shape::new(64, 16, MAX_EPOCH)?, 3, 100_000, false)?;
/// let mut script = File::open(&rt, "phases.script")?;
/// let mut output = rt.stdout();
/// play(&rt, rt.alloc(), config, &mut script, &mut output, &NoGate)?;
/// ```
pub fn play<RT: Threads + Wait, R: Read, W: Write, G: Gate + Sync>(
    rt: &RT,
    alloc: Global,
    config: Config,
    reader: &mut R,
    writer: &mut W,
    gate: &G,
) -> Result<Totals, RunError>
    ensures { Plays Set config (R.remaining reader.old)
        (W.contents writer.old) (W.contents writer.new) result }
{
    play_on::<Keys, RT, R, W, G>(rt, alloc, config, reader, writer, gate)
}

/// Reads a script of a map to its end, plays it, and writes the replies and the totals, as [`play`] does
/// of a set: an insert stores the value of its line, and a remove and a get are answered with the one that
/// was stored; a renewal keeps each key with its value. The config's shape has no values, and the map that
/// is opened has them.
///
/// Memory and steps are those of [`play`], with a word more for each slot.
///
/// # Errors
///
/// Those of [`play`].
pub fn play_map<RT: Threads + Wait, R: Read, W: Write, G: Gate + Sync>(
    rt: &RT,
    alloc: Global,
    config: Config,
    reader: &mut R,
    writer: &mut W,
    gate: &G,
) -> Result<MapTotals, RunError>
    ensures { Plays Map config (R.remaining reader.old)
        (W.contents writer.old) (W.contents writer.new) result }
{
    play_on::<Entries, RT, R, W, G>(rt, alloc, config, reader, writer, gate)
}

// Reads a script of a kind to its end, plays it, and writes the replies and the totals.
fn play_on<N: Playable + Sync, RT: Threads + Wait, R: Read, W: Write, G: Gate + Sync>(
    rt: &RT,
    alloc: Global,
    config: Config,
    reader: &mut R,
    writer: &mut W,
    gate: &G,
) -> Result<N::Totals, RunError>
    ensures { PlaysBy N.script N.totals config (R.remaining reader.old)
        (W.contents writer.old) (W.contents writer.new) result }
{
    let text = read_text(alloc, reader)?;
    let script = parse(alloc, N::script(), &text, config.workers())?;
    let (replies, report) = open_and_play::<N, RT, G>(rt, alloc, &config, &script, gate)?;
    let tally = tally_of(&script.lines, &replies);
    let output = N::layout(alloc, config.epoch(), &replies, tally, &report)?;
    let totals = N::totals(tally, report);
    match write_whole(writer, &output) {
        Ok(()) => Ok(totals),
        Err(WriteFault) => Err(RunError::Write),
    }
}
