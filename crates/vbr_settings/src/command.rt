//! The command of the program: its options, its texts, and how the arguments are read.
ghost use Rattle.std.specs.Prelude.{◌≡◌, ℕ, List, [], ◌∷◌, Some, None, true, false, IfOk, IfErr, map, fold, codes};
ghost use Rattle.clap.specs.Words.{app_of, rule_of, with_rule, kind_of};
ghost use Rattle.vbr_settings.specs.Options.{AreOptions, HasFault, own_settings, each_option, settings_of_each, number_option, switch, lone_argument, shape_options, asked_options, command_line, settings_of, asks_map, file_of, explained_of};
ghost use Rattle.vbr_settings.specs.Given.{IsReadOff, IsOptionsErrorOf};

use crate::config::MAX_WORKERS;
use crate::options::Options;
use clap::builder::ValueParser;
use clap::error::ErrorKind;
use clap::{Arg, ArgAction, Command, Error};
use std::alloc::Global;

const VERSION: &str = "0.3.0";

const ABOUT: &str =
    "Plays a script of calls of a concurrent set or map, and prints the replies and the totals.";

const HELP: &str = "\
The script is read from FILE, or on standard input where no FILE is given or it
is -, one operation a line:

  WORKER OPERATION KEY

WORKER is the number of a worker, from 0. OPERATION is insert, remove or has.
KEY is a number from 0 to 18446744073709551615. Words are separated by spaces or
tabs; lines without words are skipped.

Each worker plays its lines in order, on a thread of its own. A line that is
sync alone ends a phase: the workers go on once all have played their lines of
it, and each has then seen what the others did. A line that is renew alone ends a
phase too, and then the set is renewed: it is closed, and one is opened with its
keys, at epoch 1. That takes time in proportion to the slots, of which the keys
are a part.

The output has a line for each operation, in script order: yes or no. An insert
is answered yes where the key was absent, a remove and a has where it was
present. A refused operation has one of these lines, and made no call:

  tired  the budget of steps is used up; a greater --budget helps, or more --buckets
  full   an insert found no slot; more --slots help, or fewer keys
  spent  no epoch is left; a line renew helps, or a greater --last-epoch

Then come the totals: how many inserts, removes and look-ups were answered yes,
how many operations were refused, and the keys that are left, ascending.

With --map the script is one of a map, in which each key has a value. What is said
here of the set and its keys holds of the map, and besides:

  WORKER get KEY
  WORKER insert KEY VALUE

VALUE is a number as KEY is, and 0 where none is written. An insert that is answered
yes stores it with the key, and one that is answered no leaves the value that is
there. A get is a look-up that gives the value: it and a remove are answered yes with
the value after it, as in yes 70. The last total is entries, with KEY=VALUE for each
key that is left.

The more slots, the less room for epochs: --last-epoch may be up to 2251799813685247
with up to 4095 slots, 8796093022207 with up to 1048575, 549755813887 with up to
16777215, and 4294967295 with 2147483647. Its default is taken with any number of
slots: where they leave room for less, it means the greatest.

Where standard error is a terminal, a line there tells which phase of a long script
plays, and how many lines have been played. It is gone before anything is printed.

Exit status 0 says that the script was played, also where operations were refused.
Else one line on standard error tells what was wrong; for status 2 it may be text
of the option parser. Nothing was written on standard output then, but after a
write fault, which leaves a beginning of the output.

  2  a fault in the options, or
     vbr_run: shape fault N
       1  --slots isn't from 1 to 2147483647
       2  --buckets isn't from 1 to 65536
       3  --last-epoch is 0, or greater than so many slots leave room for
  3  vbr_run: script fault N at line M
       the first faulty line, from 1, lines without words counted, and its first fault:
       1  it has neither three words nor the one word sync or renew
       2  WORKER is no number below the number of workers
       3  OPERATION is none of the three
       4  KEY is no number from 0 to 18446744073709551615
       5  it is one operation above 1000000, or one line above 10000 that ends a phase
       and with --map
       1  it has neither three nor four words, nor the one word sync or renew
       3  OPERATION is none of the four, or it isn't insert and there are four words
       6  VALUE is no number from 0 to 18446744073709551615, which is told before 5
  4  vbr_run: read fault
       standard input failed, is closed, is a directory, or has above 67108864 bytes
     vbr_run: file fault: WHY: FILE
       FILE is not to be played, and WHY says why: no such file; permission denied;
       can't be opened; can't be read, as a directory or above 67108864 bytes
     vbr_run: write fault
       standard output failed, is closed, or is a pipe that nobody reads any more
  5  vbr_run: no memory
     vbr_run: no worker
       a thread for a worker couldn't be started

--explain NAME tells what such a line means, and what helps. NAME is one of shape-1
to shape-3, script-1 to script-6, read, file, write, memory, worker, tired, full and
spent.

Examples:

  printf '0 insert 5\\nsync\\n1 has 5\\n' | vbr_run --workers 2

prints

  yes
  yes
  inserted 1
  removed 0
  found 1
  refused 0
  keys 5

and

  printf '0 insert 5 70\\n0 get 5\\n' | vbr_run --map

prints

  yes
  yes 70
  inserted 1
  removed 0
  found 1
  refused 0
  entries 5=70
";

const WORKERS_HELP: &str = "How many workers play the script, from 1 to 16";

const SLOTS_HELP: &str =
    "How many slots the set has, from 1 to 2147483647: the most keys at one time, and 64 for each worker";

const BUCKETS_HELP: &str = "How many buckets the set has, from 1 to 65536";

const LAST_EPOCH_HELP: &str =
    "The last epoch of the set, from 1 to as many as its slots leave room for";

const BUDGET_HELP: &str = "How many steps a call may make, from 0 to 4294967295";

const EPOCH_HELP: &str = "Prints the epoch of the set in the end";

const MAP_HELP: &str = "Plays the script on a map, whose keys have values, and not on a set";

const EXPLAIN_HELP: &str = "Plays nothing, and explains a fault or a refusal, and what helps";

const FILE_HELP: &str = "The file that the script is read from; - is standard input";

// The greatest number of an option of 32 bits.
const MOST: u64 = u32::MAX as u64;

/// Reads the options: how a script is to be played, or what is to be printed in its place. Arguments
/// that the command takes lack nothing but a shape, or memory.
///
/// # Errors
///
/// The arguments are at fault, or ask for the help or the version: `clap`'s error has a kind that
/// the command has for these arguments. Or there was no memory for them.
pub fn read_options<'a>(alloc: Global, arguments: &'a [&'a str]) -> Result<Options<'a>, Error>
    ensures ok { IfOk result (IsReadOff (map (λ argument. argument.now) arguments.entry.now)) }
    ensures error { IfErr result
        (IsOptionsErrorOf (map (λ argument. argument.now) arguments.entry.now)) }
{
    let matches = command(alloc)?.try_get_matches_from(arguments)?;
    Ok(Options { matches })
}

/// A law: command lines that are accepted, and what they give. The program's name alone gives each
/// option its own value, a set and no file, and each option may be given. A word that is no option is
/// the name of a file, also before options, and each word after `--`; and `-` is standard input.
pub fn knows_its_options()
    ensures name_alone { (name : List ℕ) → AreOptions (name ∷ [])
        × (settings_of (name ∷ []) ≡ own_settings) × (asks_map (name ∷ []) ≡ false)
        × (file_of (name ∷ []) ≡ None) × (explained_of (name ∷ []) ≡ None) }
    ensures all_given { (name : List ℕ) → AreOptions (name ∷ each_option)
        × (settings_of (name ∷ each_option) ≡ settings_of_each)
        × (asks_map (name ∷ each_option) ≡ true)
        × (file_of (name ∷ each_option) ≡ Some (codes "a.script"))
        × (explained_of (name ∷ each_option) ≡ Some (codes "script-1")) }
    ensures file { (name : List ℕ) → AreOptions (name ∷ codes "a" ∷ codes "--epoch" ∷ [])
        × (file_of (name ∷ codes "a" ∷ codes "--epoch" ∷ []) ≡ Some (codes "a")) }
    ensures dashes { (name : List ℕ) → AreOptions (name ∷ codes "--" ∷ codes "--epoch" ∷ [])
        × (file_of (name ∷ codes "--" ∷ codes "--epoch" ∷ []) ≡ Some (codes "--epoch")) }
    ensures standard { (name : List ℕ) → AreOptions (name ∷ codes "-" ∷ [])
        × (file_of (name ∷ codes "-" ∷ []) ≡ None) }
{}

/// A law: command lines that are refused, and with which kind of error. A number out of its option's
/// limits is one that can't be taken, an option that there isn't and a second file are unknown, and
/// the help and the version are printed if they are asked for.
pub fn knows_its_faults()
    ensures workers { HasFault (codes "--workers" ∷ codes "17" ∷ []) ErrorKind.ValueValidation }
    ensures no_number { HasFault (codes "--slots=many" ∷ []) ErrorKind.ValueValidation }
    ensures no_value { HasFault (codes "--budget" ∷ []) ErrorKind.InvalidValue }
    ensures twice { HasFault (codes "--epoch" ∷ codes "--epoch" ∷ []) ErrorKind.ArgumentConflict }
    ensures unknown { HasFault (codes "--worker=4" ∷ []) ErrorKind.UnknownArgument }
    ensures stray { HasFault (codes "a.script" ∷ codes "b.script" ∷ []) ErrorKind.UnknownArgument }
    ensures help { HasFault (codes "--help" ∷ []) ErrorKind.DisplayHelp }
    ensures version { HasFault (codes "--version" ∷ []) ErrorKind.DisplayVersion }
{}

// The command, with its options.
fn command<'a>(alloc: Global) -> Result<Command<'a>, Error>
    ensures options { IfOk result (λ command. app_of command ≡ command_line) }
    ensures memory { IfErr result (λ e. kind_of e ≡ ErrorKind.OutOfMemory) }
{
    let command = Command::new(alloc, "vbr_run")
        .bin_name("vbr_run")?
        .version(VERSION)
        .about(ABOUT)
        .after_help(HELP);
    let workers = number(
        alloc,
        "workers",
        WORKERS_HELP,
        1,
        u64::from(MAX_WORKERS),
        "1",
    );
    let command = with_shape(alloc, command.arg(workers)?)?;
    let budget = number(alloc, "budget", BUDGET_HELP, 0, MOST, "100000");
    let epoch = switch(alloc, "epoch", EPOCH_HELP);
    let map = switch(alloc, "map", MAP_HELP);
    with_asked(alloc, command.arg(budget)?.arg(epoch)?.arg(map)?)
}

// The command with what may be asked of it: that something is explained, or that a file is played.
fn with_asked<'a>(alloc: Global, command: Command<'a>) -> Result<Command<'a>, Error>
    ensures options { IfOk result
        (λ asked. app_of asked ≡ fold with_rule (app_of command.entry) asked_options) }
    ensures memory { IfErr result (λ e. kind_of e ≡ ErrorKind.OutOfMemory) }
{
    let explain = text(alloc, "explain", EXPLAIN_HELP, "NAME").long("explain");
    let file = text(alloc, "file", FILE_HELP, "FILE");
    Ok(command.arg(explain)?.arg(file)?)
}

// The command with the options that give the set's shape.
fn with_shape<'a>(alloc: Global, command: Command<'a>) -> Result<Command<'a>, Error>
    ensures options { IfOk result
        (λ shaped. app_of shaped ≡ fold with_rule (app_of command.entry) shape_options) }
    ensures memory { IfErr result (λ e. kind_of e ≡ ErrorKind.OutOfMemory) }
{
    let slots = number(alloc, "slots", SLOTS_HELP, 0, MOST, "1024");
    let buckets = number(alloc, "buckets", BUCKETS_HELP, 0, MOST, "16");
    let last_epoch = number(
        alloc,
        "last-epoch",
        LAST_EPOCH_HELP,
        0,
        u64::MAX,
        "549755813887",
    );
    Ok(command.arg(slots)?.arg(buckets)?.arg(last_epoch)?)
}

// An option that takes a number between two limits, and is this number if it isn't given.
fn number<'a>(
    alloc: Global,
    name: &'a str,
    help: &'a str,
    least: u64,
    most: u64,
    default: &'a str,
) -> Arg<'a>
    ensures rule { rule_of result ≡ number_option name.entry.now least most default.entry.now }
    ensures local { result.global ≡ false }
{
    Arg::new(alloc, name)
        .long(name)
        .help(help)
        .action(ArgAction::Set)
        .value_name("N")
        .value_parser(ValueParser::unsigned(least, most))
        .default_value(default)
}

// An argument that is a text, and needn't be given.
fn text<'a>(alloc: Global, name: &'a str, help: &'a str, shown: &'a str) -> Arg<'a>
    ensures rule { rule_of result ≡ lone_argument name.entry.now }
    ensures local { result.global ≡ false }
{
    Arg::new(alloc, name)
        .help(help)
        .action(ArgAction::Set)
        .value_name(shown)
        .value_parser(ValueParser::string())
}

// An option that is given or not.
fn switch<'a>(alloc: Global, name: &'a str, help: &'a str) -> Arg<'a>
    ensures rule { rule_of result ≡ switch name.entry.now }
    ensures local { result.global ≡ false }
{
    Arg::new(alloc, name)
        .long(name)
        .help(help)
        .action(ArgAction::SetTrue)
        .value_parser(ValueParser::bool())
}
