//! The body of the program, and its exit statuses.
ghost use Rattle.std.specs.Prelude.{◌≡◌, ◌≢◌, ◌⊎◌, map, option_map, Some};
ghost use Rattle.std.specs.Fn.{FnReturnsAt};
ghost use Rattle.clap.specs.Words.{kind_of};
ghost use Rattle.vbr_settings.specs.Options.{AreComplete, settings_among, asks_map_among, shape_fault, file_among, explained_among};
ghost use Rattle.vbr_settings.specs.Given.{rows_in};
ghost use Rattle.vbr_run.specs.declared.program.TheConstants.{USAGE};
ghost use Rattle.vbr_run.specs.Program.{AnswersCommand, ExplainsName, MayOpenAs, IsCutShort, IsDone, IsPlayed, IsShown, ReadsNoInput, ShowsError, TellsOutcome, is_explained, kind_asked};

use crate::explanations::explanation;
use crate::report::{report, report_shape, report_unopened};
use clap::error::ErrorKind;
use std::alloc::Global;
use std::fmt::Display;
use std::io;
use std::io::{Read, Write};
use std::sync::Wait;
use std::thread::Threads;
use vbr_player::{Gate, play, play_map};
use vbr_script::Kind;
pub use vbr_settings::knows_its_options;
use vbr_settings::{Config, Options, read_options};
use vbr_transcript::{RunError, WriteFault, write_pieces, write_whole};

/// The exit status of a run that was done.
pub const DONE: u8 = 0;

/// The exit status if the options are at fault, or give no shape.
pub const USAGE: u8 = 2;

/// The exit status if the script is at fault.
pub const SCRIPT_FAULT: u8 = 3;

/// The exit status if the script couldn't be read or the output couldn't be written.
pub const DEVICE_FAULT: u8 = 4;

/// The exit status if there was no memory, or no thread for a worker.
pub const NO_RESOURCES: u8 = 5;

// The end of the line on a name that isn't known.
const UNKNOWN: &[u8] = b"'; --help has the names\n";

/// The program's body: reads the options from the arguments, of which the first is the program's name,
/// does what they ask for, and answers the exit status. They ask that the script is played that the
/// reader gives, or the one in the file that they name, which `files` opens, on a set, or with `--map`
/// on a map; or that a fault or a refusal is explained, for which nothing is read.
///
/// A fault is written in one line on `errors`; an error of `errors` itself is ignored. A fault in the
/// options comes before a shape that is none, and both before anything is opened or read; for a fault
/// in the options `clap`'s text is written to `errors`, and with `--help` or `--version` its text is
/// written to the writer.
///
/// The gate is that of the script's play; what it writes itself, and where, is its own.
///
/// # Example
///
/// ```rattle file=crates/vbr_main/src/main.rt
/// let files = |name: &str| File::open(&rt, name);
/// let mut reader = rt.stdin();
/// let (mut output, mut errors) = (rt.stdout(), rt.stderr());
/// // ...
/// let status = vbr_run::run(
///     &rt,
///     alloc,
///     &texts,
///     &mut reader,
///     &files,
///     &mut output,
///     &mut errors,
///     &line,
/// );
/// ```
pub fn run<
    T: Threads + Wait,
    R: Read,
    F: Read + Drop,
    O: Fn(&str) -> io::Result<F>,
    W: Write,
    E: Write,
    G: Gate + Sync,
>(
    rt: &T,
    alloc: Global,
    arguments: &[&str],
    reader: &mut R,
    files: &O,
    writer: &mut W,
    errors: &mut E,
    gate: &G,
) -> u8
    requires { O.IsAlwaysCallable files.now }
    ensures answers { AnswersCommand (map (λ argument. argument.now) arguments.now)
        (R.remaining reader.old) (MayOpenAs F.remaining (FnReturnsAt O.Fn files.now)) (record {
          output_before = W.contents writer.old;
          output = W.contents writer.new;
          errors_before = E.contents errors.old;
          errors = E.contents errors.new;
          status = result;
        }) }
    ensures unread { result ≡ USAGE → reader.new ≡ reader.old }
    ensures apart { ReadsNoInput (map (λ argument. argument.now) arguments.now) →
        reader.new ≡ reader.old }
{
    match read_options(alloc, arguments) {
        Ok(options) => do_asked(rt, alloc, &options, reader, files, writer, errors, gate),
        Err(refusal) => show(alloc, &refusal, writer, errors),
    }
}

// Does what options ask for.
fn do_asked<
    T: Threads + Wait,
    R: Read,
    F: Read + Drop,
    O: Fn(&str) -> io::Result<F>,
    W: Write,
    E: Write,
    G: Gate + Sync,
>(
    rt: &T,
    alloc: Global,
    options: &Options,
    reader: &mut R,
    files: &O,
    writer: &mut W,
    errors: &mut E,
    gate: &G,
) -> u8
    requires callable { O.IsAlwaysCallable files.now }
    requires complete { AreComplete (rows_in options.now) }
    ensures done { IsDone (explained_among (rows_in options.now))
        (shape_fault (settings_among (rows_in options.now))) (file_among (rows_in options.now))
        (kind_asked (asks_map_among (rows_in options.now)))
        (settings_among (rows_in options.now)) (R.remaining reader.old)
        (MayOpenAs F.remaining (FnReturnsAt O.Fn files.now)) (record {
          output_before = W.contents writer.old;
          output = W.contents writer.new;
          errors_before = E.contents errors.old;
          errors = E.contents errors.new;
          status = result;
        }) }
    ensures unread { result ≡ USAGE → reader.new ≡ reader.old }
    ensures explained { (name : _) → explained_among (rows_in options.now) ≡ Some name →
        reader.new ≡ reader.old }
    ensures unshaped { (error : _) →
        shape_fault (settings_among (rows_in options.now)) ≡ Some error →
        reader.new ≡ reader.old }
    ensures filed { (name : _) → file_among (rows_in options.now) ≡ Some name →
        reader.new ≡ reader.old }
{
    if let Some(name) = options.explained() {
        return explain(name, writer, errors);
    }
    let kind = kind_asked(options.asks_map());
    match (options.config(), options.file()) {
        (Err(error), _) => report_shape(errors, error),
        (Ok(config), None) => {
            play_script(rt, alloc, kind, config, None, reader, writer, errors, gate)
        }
        (Ok(config), Some(name)) => match files(name) {
            Ok(mut file) => {
                play_script(
                    rt,
                    alloc,
                    kind,
                    config,
                    Some(name),
                    &mut file,
                    writer,
                    errors,
                    gate,
                )
            }
            Err(error) => report_unopened(errors, name, error.kind()),
        },
    }
}

// The kind of script that is played, by whether a map is asked for.
fn kind_asked(is_map: bool) -> Kind
    ensures { result ≡ kind_asked is_map }
{
    if is_map { Kind::Map } else { Kind::Set }
}

// Plays the script that a reader gives, which is a file if one is named.
fn play_script<T: Threads + Wait, R: Read, W: Write, E: Write, G: Gate + Sync>(
    rt: &T,
    alloc: Global,
    kind: Kind,
    config: Config,
    file: Option<&str>,
    reader: &mut R,
    writer: &mut W,
    errors: &mut E,
    gate: &G,
) -> u8
    ensures played { IsPlayed kind config (option_map (λ name. name.now) file.entry)
        (R.remaining reader.old) (record {
          output_before = W.contents writer.old;
          output = W.contents writer.new;
          errors_before = E.contents errors.old;
          errors = E.contents errors.new;
          status = result;
        }) }
    ensures status { result ≢ USAGE }
{
    match kind {
        Kind::Set => tell(play(rt, alloc, config, reader, writer, gate), file, errors),
        Kind::Map => tell(
            play_map(rt, alloc, config, reader, writer, gate),
            file,
            errors,
        ),
    }
}

// Tells how a run ended, and answers the exit status. The script was in a file, if one is named.
fn tell<T: Drop, E: Write>(answer: Result<T, RunError>, file: Option<&str>, errors: &mut E) -> u8
    ensures told { TellsOutcome (option_map (λ name. name.now) file.entry) answer
        (E.contents errors.old) (E.contents errors.new) result }
    ensures status { result ≢ USAGE }
{
    match answer {
        Ok(_totals) => DONE,
        Err(error) => report(errors, file, error),
    }
}

// Tells what is known by a name of faults and refusals.
fn explain<W: Write, E: Write>(name: &str, writer: &mut W, errors: &mut E) -> u8
    ensures { ExplainsName (is_explained name.now) (record {
      output_before = W.contents writer.old;
      output = W.contents writer.new;
      errors_before = E.contents errors.old;
      errors = E.contents errors.new;
      status = result;
    }) }
{
    match explanation(name) {
        Some(text) => show_text(text, writer, errors),
        None => {
            let pieces = [
                b"error: nothing is explained by the name '".as_slice(),
                name.as_bytes(),
                UNKNOWN,
            ];
            write_pieces(errors, &pieces);
            USAGE
        }
    }
}

// Shows what `clap` answers in place of the options: the help, the version, or what is wrong with the
// arguments.
fn show<W: Write, E: Write>(
    alloc: Global,
    refusal: &clap::Error,
    writer: &mut W,
    errors: &mut E,
) -> u8
    ensures { ShowsError (kind_of refusal.now) (record {
      output_before = W.contents writer.old;
      output = W.contents writer.new;
      errors_before = E.contents errors.old;
      errors = E.contents errors.new;
      status = result;
    }) }
{
    if refusal.kind() == ErrorKind::OutOfMemory {
        return report(errors, None, RunError::Memory);
    }
    let Ok(text) = refusal.to_string(alloc) else {
        return report(errors, None, RunError::Memory);
    };
    if refusal.use_stderr() {
        write_pieces(errors, &[text.as_bytes()]);
        return USAGE;
    }
    show_text(&text, writer, errors)
}

// Shows a text that was asked for.
fn show_text<W: Write, E: Write>(text: &str, writer: &mut W, errors: &mut E) -> u8
    ensures { IsShown (record {
      output_before = W.contents writer.old;
      output = W.contents writer.new;
      errors_before = E.contents errors.old;
      errors = E.contents errors.new;
      status = result;
    }) ⊎ IsCutShort (record {
      output_before = W.contents writer.old;
      output = W.contents writer.new;
      errors_before = E.contents errors.old;
      errors = E.contents errors.new;
      status = result;
    }) }
{
    match write_whole(writer, text.as_bytes()) {
        Ok(()) => DONE,
        Err(WriteFault) => report(errors, None, RunError::Write),
    }
}
