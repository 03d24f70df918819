//! The program `vbr_run`: plays the script in a file, or on standard input. If standard error is a
//! terminal, a line there says how far a long script is, and is erased before anything else is written.
#![tactic(auto)]

mod progress;

use crate::progress::Progress;
use std::alloc::{AllocError, Global};
use std::fs::File;
use std::io::{ErrorKind, IsTerminal};
use std::process::ExitCode;
use std::{env, io};
use vbr_run::NoGate;

fn main(rt: HostRuntime) -> ExitCode {
    let alloc = rt.alloc();
    let arguments = match arguments(&rt) {
        Ok(arguments) => arguments,
        Err(error) => return refused(&rt, &error),
    };
    let texts = match texts_of(alloc, &arguments) {
        Ok(texts) => texts,
        Err(error) => return refused(&rt, &io::Error::from(error)),
    };
    let files = |name: &str| File::open(&rt, name);
    let mut reader = rt.stdin();
    let (mut output, mut errors) = (rt.stdout(), rt.stderr());
    if !errors.is_terminal() {
        let status = vbr_run::run(
            &rt,
            alloc,
            &texts,
            &mut reader,
            &files,
            &mut output,
            &mut errors,
            &NoGate,
        );
        return ExitCode::from(status);
    }
    let line = Progress::new(errors);
    let mut output = line.ahead_of(output);
    let mut errors = line.ahead_of(errors);
    let status = vbr_run::run(
        &rt,
        alloc,
        &texts,
        &mut reader,
        &files,
        &mut output,
        &mut errors,
        &line,
    );
    line.erase();
    ExitCode::from(status)
}

// The arguments, of which the first is the program's name.
fn arguments(rt: &HostRuntime) -> io::Result<Vec<String>> {
    let arguments = env::args(rt)?.collect(rt.alloc())?;
    Ok(arguments)
}

fn texts_of<'a>(alloc: Global, arguments: &'a [String]) -> Result<Vec<&'a str>, AllocError> {
    arguments
        .iter()
        .map(|argument| argument.as_str())
        .collect(alloc)
}

// The arguments couldn't be read: for want of memory, or since one is no text.
fn refused(rt: &HostRuntime, error: &io::Error) -> ExitCode {
    if error.kind() == ErrorKind::OutOfMemory {
        let _ = eprintln!(rt; "vbr_run: no memory");
        ExitCode::from(vbr_run::program::NO_RESOURCES)
    } else {
        let _ = eprintln!(rt; "error: an argument is no UTF-8 text");
        ExitCode::from(vbr_run::program::USAGE)
    }
}
