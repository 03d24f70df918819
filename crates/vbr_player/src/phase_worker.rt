// How a worker starts and ends in a phase.
ghost use Rattle.std.specs.Prelude.{◌≡◌, IfOk, IfErr};
ghost use Rattle.vbr_player.specs.Starting.{EndsAs, IsFor};
ghost use Rattle.vbr_player.specs.Working.{MayBeAsked, Played};

use crate::asking::Asked;
use crate::gate::Gate;
use crate::part::Task;
use crate::worker::{Worker, play};
use std::snapshot::Snapshot;
use std::thread::{Promise, PromisedHandle, Scope, Threads};
use vbr_script::Line;
use vbr_transcript::RunError;

/// That a worker will have played these lines, with this budget for each.
#[derive(Drop)]
pub struct WillPlay<'l, N: Asked> {
    pub before: Snapshot<Worker<'l, N>>,
    pub lines: &'l [Line],
    pub budget: u32,
}

impl<'l, N: Asked> Promise<Worker<'l, N>> for WillPlay<'l, N> {
    ghost kept_by = { λ p r. Played N.KIND p.budget p.lines.now p.before.value r };
}

/// A worker in a phase.
#[derive(Drop)]
pub enum PhaseWorker<'l, N: Asked> {
    /// It plays its lines in a thread of its own.
    Started(PromisedHandle<Worker<'l, N>, WillPlay<'l, N>>),
    /// It has no lines, and so has played them.
    Done(Worker<'l, N>),
}

// Starts a worker's thread, if it has lines.
pub fn start_worker<'s, 'e, N: Asked + Sync, G: Gate + Sync>(
    scope: &'s Scope<'s, &'e ()>,
    task: Task<'e, N, G>,
) -> Result<PhaseWorker<'e, N>, RunError>
    requires { MayBeAsked N.KIND task.part.lines.now }
    ensures started { IfOk result (λ started.
        IsFor N.KIND task.entry.part.budget task.entry.part.lines.now started task.entry.worker) }
    ensures fault { IfErr result (λ error. error ≡ RunError.Worker) }
{
    let who = task.worker.caller.pass().who();
    if !task.part.lines.iter().any(|line| line.worker == who) {
        return Ok(PhaseWorker::Done(play(task)));
    }
    let promise = WillPlay {
        before: Snapshot::of(&task.worker),
        lines: task.part.lines,
        budget: task.part.budget,
    };
    Ok(PhaseWorker::Started(begin(scope, promise, task, play)?))
}

// Waits for a worker, if it plays.
pub fn end<'l, R: Threads, N: Asked>(rt: &R, started: PhaseWorker<'l, N>) -> Worker<'l, N>
    ensures { EndsAs N.KIND started.entry result }
{
    match started {
        PhaseWorker::Started(thread) => thread.join(rt),
        PhaseWorker::Done(worker) => worker,
    }
}

// Starts a thread for a function that keeps a promise. The closure's result has to be of a type
// parameter: of one that holds a reference, what the closure ensures isn't known.
fn begin<
    's,
    'e,
    A: Send + Drop + 's,
    T: Send + Drop + 's,
    P: Promise<T> + Drop,
    W: FnOnce(A) -> T + Send + Drop + 's,
>(
    scope: &'s Scope<'s, &'e ()>,
    promise: P,
    given: A,
    work: W,
) -> Result<PromisedHandle<T, P>, RunError>
    requires pre { W.pre work given }
    requires keeps { (result : T) → W.post work given result → P.kept_by promise result }
    ensures started { IfOk result (λ started. started.promise ≡ promise) }
    ensures fault { IfErr result (λ error. error ≡ RunError.Worker) }
{
    let call = move || -> T
        requires { W.pre work given }
        ensures { W.post work given result }
    { work(given) };
    match scope.spawn_with(promise, call) {
        Ok(started) => Ok(started),
        Err(_) => Err(RunError::Worker),
    }
}
