// What a worker is given to play.
ghost use Rattle.std.specs.Prelude.{◌≡◌, ◌+◌, ◌-◌, ◌<◌, ◌≤◌, ◌^◌, length, take, drop};
ghost use Rattle.vbr_player.specs.Working.{HasRoomForReplies};

use crate::worker::Worker;
use std::alloc::AllocError;
use vbr_script::Line;
use vbr_words::Nodes;

/// Some lines of a script, to be played: what the workers share that play them.
pub struct Part<'p, G> {
    /// The lines.
    pub lines: &'p [Line],
    /// The index of the first of these lines in the script.
    pub first: u64,
    /// The budget of each call, in steps.
    pub budget: u32,
    /// What is done round each call.
    pub gate: &'p G,
    ghost index: { first + length lines.now < 2 ^ 64 },
}

impl<'p, G> Clone for Part<'p, G> {
    ghost is_clone = { λ p q. q ≡ p };

    ghost is_infallible = { λ _. Unit {0} };

    fn clone(&self) -> Result<Part<'p, G>, AllocError> {
        Ok(*self)
    }
}

impl<'p, G> Copy for Part<'p, G> {}

impl<'p, G> Part<'p, G> {
    // Its lines from an index on and up to another, which isn't among them.
    pub fn slice(&self, first: usize, end: usize) -> Part<'p, G>
        requires order { first ≤ end }
        requires inside { end ≤ length self.now.lines.now }
        ensures lines { result.lines.now ≡ take (end - first) (drop first self.now.lines.now) }
        ensures budget { result.budget ≡ self.now.budget }
    {
        Part {
            lines: &self.lines[first..end],
            first: self.first + first as u64,
            budget: self.budget,
            gate: self.gate,
        }
    }
}

/// The lines of a script that are played on one set or map, with their phases.
#[derive(Drop)]
pub struct Span<'p, G> {
    /// The lines.
    pub part: Part<'p, G>,
    /// The first of the phases.
    pub from: u32,
    /// The first phase after them.
    pub to: u32,
}

/// A worker, and the lines among which are those that it is to play. It has room for the replies.
#[derive(Drop)]
pub struct Task<'p, N: Nodes, G> {
    /// The lines.
    pub part: Part<'p, G>,
    /// The worker.
    pub worker: Worker<'p, N>,
    ghost room: { HasRoomForReplies worker part.lines.now },
}
