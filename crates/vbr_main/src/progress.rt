//! The line of progress that the program shows on a terminal while a long script plays.
use std::io;
use std::io::{Stderr, Write};
use std::sync::atomic::{AtomicBool, AtomicU32, AtomicU64, Ordering};
use vbr_run::{Gate, Reply};

// The line is written each time that so many lines of the script have been played.
const LINES_BETWEEN: u64 = 16_384;

/// A line on standard error that says which phase plays, counted from 1 on, and how many lines of the
/// script have been played. It is written over itself when a phase begins, but for the first one, and
/// after each 16,384 lines, by one worker at a time; and it is erased in the end.
#[derive(Drop)]
pub struct Progress {
    errors: Stderr,
    phase: AtomicU32,
    lines: AtomicU64,
    is_being_shown: AtomicBool,
    is_shown: AtomicBool,
}

impl Progress {
    /// No line is shown yet.
    pub fn new(errors: Stderr) -> Self {
        Progress {
            errors,
            phase: AtomicU32::new(0),
            lines: AtomicU64::new(0),
            is_being_shown: AtomicBool::new(false),
            is_shown: AtomicBool::new(false),
        }
    }

    /// A writer whose text comes after the line: the line is erased before it.
    pub fn ahead_of<W: Write>(&self, to: W) -> Behind<'_, W> {
        Behind { line: self, to }
    }

    /// Erases the line, if it is shown.
    pub fn erase(&self) {
        if self.is_shown.swap(false, Ordering::SeqCst) {
            let mut errors = self.errors;
            let _ = errors.write_all(b"\r\x1b[K");
        }
    }

    // Shows how far the run is, unless another worker does so now.
    fn show(&self) {
        if self.is_being_shown.swap(true, Ordering::SeqCst) {
            return;
        }
        self.is_shown.store(true, Ordering::SeqCst);
        let phase = u64::from(self.phase.load(Ordering::SeqCst)) + 1;
        let lines = self.lines.load(Ordering::SeqCst);
        let mut errors = self.errors;
        let _ = write!(errors, "\rvbr_run: phase {phase}, lines played: {lines}");
        self.is_being_shown.store(false, Ordering::SeqCst);
    }
}

impl Gate for Progress {
    fn phase(&self, phase: u32) {
        self.phase.store(phase, Ordering::SeqCst);
        if phase > 0 {
            self.show();
        }
    }

    fn before(&self, _worker: u32, _line: u64) {}

    fn after(&self, _worker: u32, _line: u64, _reply: Reply) {
        let before = self.lines.fetch_add(1, Ordering::SeqCst);
        if before % LINES_BETWEEN == LINES_BETWEEN - 1 {
            self.show();
        }
    }
}

/// A writer that erases the line of progress before it writes.
#[derive(Drop)]
pub struct Behind<'l, W> {
    line: &'l Progress,
    to: W,
}

impl<'l, W: Write> Write for Behind<'l, W> {
    ghost contents = { λ behind. W.contents behind.to };

    fn write(&mut self, buf: &[u8]) -> io::Result<usize> {
        self.line.erase();
        self.to.write(buf)
    }

    fn flush(&mut self) -> io::Result<()> {
        self.to.flush()
    }
}
