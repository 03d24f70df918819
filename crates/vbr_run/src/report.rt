// The line on standard error, and the exit status, of a run that wasn't done.
ghost use Rattle.std.specs.Prelude.{◌≡◌, option_map};
ghost use Rattle.vbr_transcript.specs.Writing.{AppendsSome};
ghost use Rattle.vbr_run.specs.Program.{error_status, error_line, fault_line, file_line, unopened, shape_line, shape_fault_number};
ghost use Rattle.vbr_run.specs.declared.program.TheConstants.{DEVICE_FAULT, USAGE};
ghost use Rattle.vbr_transcript.specs.declared.error.RunError.TheVariants.{Read, Script};

use crate::program::{DEVICE_FAULT, NO_RESOURCES, SCRIPT_FAULT, USAGE};
use std::io::{ErrorKind, Write};
use vbr_script::ScriptFault;
use vbr_transcript::{RunError, write_pieces};
use vbr_words::ShapeError;

// Tells an error in a line, and answers the exit status. The script was in a file, if one is named.
pub fn report<E: Write>(errors: &mut E, file: Option<&str>, error: RunError) -> u8
    ensures status { result ≡ error_status error }
    ensures told { AppendsSome (E.contents errors.old) (E.contents errors.new)
        (fault_line (option_map (λ name. name.now) file.entry) error) }
{
    match error {
        RunError::Script { line, kind } => {
            report_script(errors, line, kind);
            SCRIPT_FAULT
        }
        RunError::Read => {
            report_read(errors, file);
            DEVICE_FAULT
        }
        RunError::Write => {
            write_pieces(errors, &[b"vbr_run: write fault\n".as_slice()]);
            DEVICE_FAULT
        }
        RunError::Memory => {
            write_pieces(errors, &[b"vbr_run: no memory\n".as_slice()]);
            NO_RESOURCES
        }
        RunError::Worker => {
            write_pieces(errors, &[b"vbr_run: no worker\n".as_slice()]);
            NO_RESOURCES
        }
    }
}

fn report_read<E: Write>(errors: &mut E, file: Option<&str>)
    ensures { AppendsSome (E.contents errors.old) (E.contents errors.new)
        (fault_line (option_map (λ name. name.now) file.entry) Read) }
{
    match file {
        Some(name) => report_file(errors, "can't be read", name),
        None => write_pieces(errors, &[b"vbr_run: read fault\n".as_slice()]),
    }
}

// Tells why a file isn't played.
fn report_file<E: Write>(errors: &mut E, why: &str, name: &str)
    ensures { AppendsSome (E.contents errors.old) (E.contents errors.new)
        (file_line why.now name.now) }
{
    let pieces = [
        b"vbr_run: file fault: ".as_slice(),
        why.as_bytes(),
        b": ".as_slice(),
        name.as_bytes(),
        b"\n".as_slice(),
    ];
    write_pieces(errors, &pieces);
}

// Tells why a file couldn't be opened, and answers the exit status.
pub fn report_unopened<E: Write>(errors: &mut E, name: &str, kind: ErrorKind) -> u8
    ensures status { result ≡ DEVICE_FAULT }
    ensures told { AppendsSome (E.contents errors.old) (E.contents errors.new)
        (file_line (unopened kind) name.now) }
{
    report_file(errors, unopened(kind), name);
    DEVICE_FAULT
}

// Why a file couldn't be opened.
fn unopened(kind: ErrorKind) -> &'static str
    ensures { result.now ≡ unopened kind }
{
    match kind {
        ErrorKind::NotFound => "no such file",
        ErrorKind::PermissionDenied => "permission denied",
        _ => "can't be opened",
    }
}

fn report_script<E: Write>(errors: &mut E, line: u64, kind: ScriptFault)
    ensures { AppendsSome (E.contents errors.old) (E.contents errors.new)
        (error_line (Script line kind)) }
{
    let mut number = itoa::Buffer::new();
    let mut place = itoa::Buffer::new();
    let pieces = [
        b"vbr_run: script fault ".as_slice(),
        number.format(kind.number()).as_bytes(),
        b" at line ".as_slice(),
        place.format(line).as_bytes(),
        b"\n".as_slice(),
    ];
    write_pieces(errors, &pieces);
}

// Tells what is wrong with a shape in a line, and answers the exit status.
pub fn report_shape<E: Write>(errors: &mut E, error: ShapeError) -> u8
    ensures status { result ≡ USAGE }
    ensures told { AppendsSome (E.contents errors.old) (E.contents errors.new) (shape_line error) }
{
    let mut number = itoa::Buffer::new();
    let pieces = [
        b"vbr_run: shape fault ".as_slice(),
        number.format(shape_fault_number(error)).as_bytes(),
        b"\n".as_slice(),
    ];
    write_pieces(errors, &pieces);
    USAGE
}

// The number of what is wrong with a shape: from 1, in the order of the tests.
fn shape_fault_number(error: ShapeError) -> u8
    ensures { result ≡ shape_fault_number error }
{
    match error {
        ShapeError::Slots => 1,
        ShapeError::Buckets => 2,
        ShapeError::LastEpoch => 3,
    }
}
