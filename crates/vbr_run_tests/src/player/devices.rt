//! Readers and writers that fail, and inputs that are too long.
use crate::player::expect_totals;
use std::alloc::Global;
use std::io;
use std::io::{ErrorKind, Read, Write};
use std::process::Abort;
use std::sync::Wait;
use std::test::Fail;
use std::thread::Threads;
use vbr_run::{Config, NoGate, RunError, Totals, play};
use vbr_words::Shape;

const SCRIPT: &[u8] = b"0 insert 5\n0 insert 5\n0 has 5\n0 remove 5\n0 has 5\n";

const OUTPUT: &[u8] = b"yes\nno\nyes\nyes\nno\ninserted 1\nremoved 1\nfound 1\nrefused 0\nkeys\n";

/// Plays a script for one worker on a small set.
fn play_small<T: Threads + Wait + Abort, R: Read, W: Write>(
    rt: &T,
    alloc: Global,
    reader: &mut R,
    writer: &mut W,
) -> Result<Totals, RunError> {
    let shape = Shape::new(4, 2, 10).expect(rt, "a shape");
    let config = Config::new(shape, 1, 1_000, false).expect(rt, "settings");
    play(rt, alloc, config, reader, writer, &NoGate)
}

/// A reader that gives its bytes one at a time, and then an error of this kind.
#[derive(Drop)]
struct BrittleReader {
    bytes: &'static [u8],
    kind: ErrorKind,
}

impl Read for BrittleReader {
    fn read(&mut self, buf: &mut [u8]) -> io::Result<usize> {
        let Some((first, rest)) = self.bytes.split_first() else {
            return Err(io::Error::from(self.kind));
        };
        if buf.is_empty() {
            return Ok(0);
        }
        buf[0] = *first;
        self.bytes = rest;
        Ok(1)
    }
}

/// A reader of so many spaces.
#[derive(Drop)]
struct Spaces {
    left: usize,
}

impl Read for Spaces {
    fn read(&mut self, buf: &mut [u8]) -> io::Result<usize> {
        let n = buf.len().min(self.left);
        buf[..n].fill(b' ');
        self.left -= n;
        Ok(n)
    }
}

/// What a writer does when its room is used up.
#[derive(Clone, Copy, PartialEq, Eq)]
enum AtEnd {
    Fails(ErrorKind),
    TakesNone,
}

/// A writer that takes so many bytes, one at a time.
#[derive(Drop)]
struct SmallWriter {
    taken: Vec<u8>,
    room: usize,
    at_end: AtEnd,
    // The kind of error of a flush that fails.
    flush: Option<ErrorKind>,
}

impl SmallWriter {
    fn new(alloc: Global, room: usize, at_end: AtEnd) -> Self {
        SmallWriter {
            taken: Vec::new(alloc),
            room,
            at_end,
            flush: None,
        }
    }
}

impl Write for SmallWriter {
    fn write(&mut self, buf: &[u8]) -> io::Result<usize> {
        let Some(first) = buf.first() else {
            return Ok(0);
        };
        if self.room == 0 {
            return match self.at_end {
                AtEnd::Fails(kind) => Err(io::Error::from(kind)),
                AtEnd::TakesNone => Ok(0),
            };
        }
        self.taken.push(*first)?;
        self.room -= 1;
        Ok(1)
    }

    fn flush(&mut self) -> io::Result<()> {
        match self.flush {
            None => Ok(()),
            Some(kind) => Err(io::Error::from(kind)),
        }
    }
}

// An interrupted call isn't tried again: it is a fault as any other error is.
const KINDS: [ErrorKind; 2] = [ErrorKind::Other, ErrorKind::Interrupted];

// Plays a beginning of the script, after which the reader fails, which is a read fault.
fn expect_read_fault<T: Threads + Wait + Abort>(
    rt: &T,
    alloc: Global,
    kind: ErrorKind,
    bytes: &'static [u8],
) {
    let n = bytes.len();
    let mut reader = BrittleReader { bytes, kind };
    let mut output = Vec::new(alloc);
    let played = play_small(rt, alloc, &mut reader, &mut output);
    assert_eq!(rt; played.err(), Some(RunError::Read), "after {n} bytes");
    assert!(rt; output.is_empty());
}

#[test]
fn a_failing_reader_is_a_read_fault(rt: HostRuntime) {
    for kind in KINDS {
        for n in 0..=SCRIPT.len() {
            expect_read_fault(&rt, rt.alloc(), kind, &SCRIPT[..n]);
        }
    }
}

#[test]
fn an_input_that_is_too_long_is_a_read_fault(rt: HostRuntime) {
    let mut output = Vec::new(rt.alloc());
    let mut longest = Spaces { left: 67_108_864 };
    assert!(rt; play_small(&rt, rt.alloc(), &mut longest, &mut output).is_ok());

    let mut output = Vec::new(rt.alloc());
    let mut longer = Spaces { left: 67_108_865 };
    let played = play_small(&rt, rt.alloc(), &mut longer, &mut output);
    assert_eq!(rt; played.err(), Some(RunError::Read));
    assert!(rt; output.is_empty());
}

// Plays a script with a writer that takes just these bytes, which is a write fault.
fn expect_write_fault<T: Threads + Wait + Abort>(
    rt: &T,
    alloc: Global,
    at_end: AtEnd,
    taken: &[u8],
) {
    let n = taken.len();
    let mut reader = SCRIPT;
    let mut writer = SmallWriter::new(alloc, n, at_end);
    let played = play_small(rt, alloc, &mut reader, &mut writer);
    assert_eq!(rt; played.err(), Some(RunError::Write), "after {n} bytes");
    assert_eq!(rt; writer.taken.as_slice(), taken);
}

#[test]
fn a_failing_writer_is_a_write_fault(rt: HostRuntime) {
    for at_end in [
        AtEnd::Fails(ErrorKind::Other),
        AtEnd::Fails(ErrorKind::Interrupted),
        AtEnd::TakesNone,
    ] {
        for n in 0..OUTPUT.len() {
            expect_write_fault(&rt, rt.alloc(), at_end, &OUTPUT[..n]);
        }
    }
}

#[test]
fn a_slow_writer_gets_the_whole_text(rt: HostRuntime) -> Result<(), Fail> {
    let mut reader = SCRIPT;
    let mut writer = SmallWriter::new(rt.alloc(), OUTPUT.len(), AtEnd::Fails(ErrorKind::Other));
    let totals = play_small(&rt, rt.alloc(), &mut reader, &mut writer)?;
    assert_eq!(rt; writer.taken.as_slice(), OUTPUT);
    expect_totals(&rt, &totals, [1, 1, 1, 0], 1, &[]);
    Ok(())
}

#[test]
fn a_flush_that_fails_is_a_write_fault(rt: HostRuntime) {
    for kind in KINDS {
        let mut reader = SCRIPT;
        let mut writer = SmallWriter::new(rt.alloc(), OUTPUT.len(), AtEnd::TakesNone);
        writer.flush = Some(kind);
        let played = play_small(&rt, rt.alloc(), &mut reader, &mut writer);
        assert_eq!(rt; played.err(), Some(RunError::Write));
        assert_eq!(rt; writer.taken.as_slice(), OUTPUT);
    }
}

// Runs the program with these arguments on a faulty script: its exit status, and what it writes. What it doesn't read of
// standard input is left.
fn run_on<T: Threads + Wait, F: Read + Drop, O: Fn(&str) -> io::Result<F>, E: Write>(
    rt: &T,
    alloc: Global,
    arguments: &[&str],
    reader: &mut &[u8],
    files: &O,
    errors: &mut E,
) -> (u8, Vec<u8>)
    requires { O.IsAlwaysCallable files.now }
{
    let mut output = Vec::new(alloc);
    let status = vbr_run::run(
        rt,
        alloc,
        arguments,
        reader,
        files,
        &mut output,
        errors,
        &NoGate,
    );
    (status, output)
}

// A script that is refused.
const FAULTY: &[u8] = b"0 insert";

/// A writer of standard error that fails is ignored.
#[test]
fn failing_errors_are_ignored(rt: HostRuntime) {
    let mut errors = SmallWriter::new(rt.alloc(), 9, AtEnd::Fails(ErrorKind::Other));
    let mut reader = FAULTY;
    let (status, output) = run_on(
        &rt,
        rt.alloc(),
        &["vbr_run"],
        &mut reader,
        &no_file,
        &mut errors,
    );
    assert_eq!(rt; status, 3);
    assert!(rt; output.is_empty());
    assert_eq!(rt; errors.taken.as_slice(), b"vbr_run: ".as_slice());
}

// No file can be opened.
fn no_file(_name: &str) -> io::Result<&'static [u8]> {
    Err(io::Error::from(io::ErrorKind::NotFound))
}

// A file that gives an error after its script.
fn brittle_file(_name: &str) -> io::Result<BrittleReader> {
    Ok(BrittleReader {
        bytes: SCRIPT,
        kind: ErrorKind::Other,
    })
}

/// A file that can't be read to its end is reported by its name, and standard input is left as it was.
#[test]
fn a_failing_file_is_a_file_fault(rt: HostRuntime) {
    let mut errors = Vec::new(rt.alloc());
    let mut reader = FAULTY;
    let (status, output) = run_on(
        &rt,
        rt.alloc(),
        &["vbr_run", "a.script"],
        &mut reader,
        &brittle_file,
        &mut errors,
    );
    assert_eq!(rt; status, 4);
    assert!(rt; output.is_empty());
    assert_eq!(rt; reader, FAULTY);
    let line = b"vbr_run: file fault: can't be read: a.script\n".as_slice();
    assert_eq!(rt; errors.as_slice(), line);
}
