//! What is done round each call of a run.
use vbr_transcript::Reply;

/// What a run does before each phase, and its workers round each call, each in its own thread. A line is
/// given by its index in the lines of the script, and a phase as its lines have it. That it is called for
/// each is tested; no contract says it.
pub trait Gate {
    /// Comes before a phase, also one without lines.
    fn phase(&self, _phase: u32) {}

    /// Comes before the call of a line.
    fn before(&self, worker: u32, line: u64);

    /// Comes after the call of a line, with its reply.
    fn after(&self, worker: u32, line: u64, reply: Reply);
}

/// A gate that does nothing.
#[derive(Clone, Copy, Debug)]
pub struct NoGate;

impl Gate for NoGate {
    fn before(&self, _worker: u32, _line: u64) {}

    fn after(&self, _worker: u32, _line: u64, _reply: Reply) {}
}
