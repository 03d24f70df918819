// A phase: each worker that has lines in it plays them in a thread of its own.
ghost use Rattle.std.specs.Prelude.{◌≡◌, [], IfOk, IfErr};
ghost use Rattle.vbr_player.specs.Working.{EachPlayed, HaveRoomForReplies, MayBeAsked};
ghost use Rattle.vbr_player.specs.Meeting.{AreOfOne, PlayedAndMet};
ghost use Rattle.vbr_player.specs.Playing.{IsWant};
ghost use Rattle.vbr_player.specs.Starting.{EndAll};

use crate::asking::Asked;
use crate::gate::Gate;
use crate::meeting::meet_all;
use crate::part::{Part, Task};
use crate::phase_worker::{PhaseWorker, end, start_worker};
use crate::worker::Worker;
use std::alloc::Global;
use std::sync::Wait;
use std::thread;
use std::thread::{Scope, Threads};
use vbr_transcript::RunError;

// Plays a phase, each worker that has lines in it in a thread of its own, and joins them all; then
// all meet. If a thread can't be started, those that were end first.
pub fn play_phase<'e, R: Threads + Wait, N: Asked + Sync, G: Gate + Sync>(
    rt: &'e R,
    alloc: Global,
    part: Part<'e, G>,
    workers: Vec<Worker<'e, N>>,
) -> Result<Vec<Worker<'e, N>>, RunError>
    requires of { AreOfOne workers.items }
    requires room { HaveRoomForReplies workers.items part.lines.now }
    requires may_ask { MayBeAsked N.KIND part.lines.now }
    ensures met { IfOk result (λ met. PlayedAndMet N.KIND part.entry.budget
        part.entry.lines.now workers.entry.items met.items) }
    ensures fault { IfErr result IsWant }
{
    let workers = thread::scope(
        thread::scope_env::<'e>(),
        rt,
        move |scope| -> Result<Vec<Worker<N>>, RunError>
            requires room { HaveRoomForReplies workers.items part.lines.now }
            requires may_ask { MayBeAsked N.KIND part.lines.now }
            ensures played { IfOk result (λ played. EachPlayed N.KIND part.entry.budget
                part.entry.lines.now workers.entry.items played.items) }
            ensures fault { IfErr result IsWant }
        { play_in_threads(scope, rt, alloc, part, workers) },
    )?;
    Ok(meet_all(workers))
}

// Starts each worker, in a thread of its own if it has lines, and waits for all.
fn play_in_threads<'s, 'e, R: Threads + Wait, N: Asked + Sync, G: Gate + Sync>(
    scope: &'s Scope<'s, &'e ()>,
    rt: &'e R,
    alloc: Global,
    part: Part<'e, G>,
    workers: Vec<Worker<'e, N>>,
) -> Result<Vec<Worker<'e, N>>, RunError>
    requires room { HaveRoomForReplies workers.items part.lines.now }
    requires may_ask { MayBeAsked N.KIND part.lines.now }
    ensures played { IfOk result (λ played. EachPlayed N.KIND part.entry.budget
        part.entry.lines.now workers.entry.items played.items) }
    ensures fault { IfErr result IsWant }
{
    let mut all_started = Vec::with_capacity(alloc, workers.len())?;
    let played = Vec::with_capacity(alloc, workers.len())?;
    for worker in workers {
        let started = start_worker(scope, Task { part, worker })?;
        let Ok(()) = all_started.push(started) else {
            return Err(RunError::Memory);
        };
    }
    join_all(rt, all_started, played)
}

// Waits for the workers, in their order. The vector for them has room for all.
fn join_all<'l, R: Threads, N: Asked>(
    rt: &R,
    all_started: Vec<PhaseWorker<'l, N>>,
    mut played: Vec<Worker<'l, N>>,
) -> Result<Vec<Worker<'l, N>>, RunError>
    requires none { played.items ≡ [] }
    ensures ended { EndAll N.KIND all_started.entry.items result }
    ensures fault { IfErr result IsWant }
{
    for started in all_started {
        let Ok(()) = played.push(end(rt, started)) else {
            return Err(RunError::Memory);
        };
    }
    Ok(played)
}
