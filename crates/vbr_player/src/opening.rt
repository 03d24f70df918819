// The workers of a set or a map, before its first phase.
ghost use Rattle.std.specs.Prelude.{◌≡◌, ℕ, ◌==◌, [], None, count_by, IfOk};
ghost use Rattle.vbr_slots.specs.views.Views.{IsOf, new_passes};
ghost use Rattle.vbr_player.specs.Standing.{IsNewWorker, Stand};

use crate::asking::Asked;
use crate::worker::Worker;
use std::alloc::{AllocError, Global};
use vbr_script::Line;
use vbr_set::Pass;
use vbr_set::set::VbrSet;
use vbr_words::Nodes;

// A worker for each pass of a new set.
pub fn workers_of<'w, N: Asked>(
    alloc: Global,
    set: &'w VbrSet<N>,
    lines: &[Line],
    passes: Vec<Pass>,
) -> Result<Vec<Worker<'w, N>>, AllocError>
    requires { passes.items ≡ new_passes set.now 0 set.now.passes }
    ensures { IfOk result (λ workers.
        (budget : ℕ) → Stand N.KIND set.now budget lines.now [] set.now.passes 0 0 workers.items) }
{
    let mut workers = Vec::with_capacity(alloc, passes.len())?;
    for pass in passes {
        let worker = new_worker(alloc, set, lines, pass)?;
        let Ok(()) = workers.push(worker) else {
            return Err(AllocError);
        };
    }
    Ok(workers)
}

// A worker with room for the replies to its lines.
fn new_worker<'w, N: Nodes>(
    alloc: Global,
    set: &'w VbrSet<N>,
    lines: &[Line],
    pass: Pass,
) -> Result<Worker<'w, N>, AllocError>
    requires own { IsOf pass.trace set.now }
    requires empty_hand { pass.hand ≡ None }
    ensures { IfOk result (λ worker. IsNewWorker set.now lines.now pass worker) }
{
    let own = count_of(lines, pass.who());
    let replies = Vec::with_capacity(alloc, own)?;
    Ok(Worker {
        caller: set.with_pass(pass),
        replies,
    })
}

// How many lines are of a worker.
fn count_of(lines: &[Line], who: u32) -> usize
    ensures { result ≡ count_by (λ line. line.worker == who) lines.now }
{
    lines.iter().filter(|line| line.worker == who).count()
}
