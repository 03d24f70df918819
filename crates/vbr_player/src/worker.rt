// A worker: it plays its lines of a script, one after the other.
ghost use Rattle.vbr_player.specs.Working.{MayBeAsked, Played};

use crate::asking::Asked;
use crate::gate::Gate;
use crate::part::Task;
use vbr_set::VbrSetRef;
use vbr_transcript::Reply;
use vbr_words::Nodes;

/// A worker: its calls of the set or the map, and the replies that it was given so far.
#[derive(Drop)]
pub struct Worker<'w, N: Nodes> {
    pub caller: VbrSetRef<'w, N>,
    pub replies: Vec<Reply>,
}

// Plays a worker's own lines, in order: what its thread runs.
pub fn play<'w, N: Asked, G: Gate>(task: Task<'w, N, G>) -> Worker<'w, N>
    requires { MayBeAsked N.KIND task.part.lines.now }
    ensures { Played N.KIND task.entry.part.budget task.entry.part.lines.now task.entry.worker
        result }
{
    let Task { part, mut worker } = task;
    let who = worker.caller.pass().who();
    let mut next = part.first;
    for line in part.lines {
        let index = next;
        next += 1;
        if line.worker != who {
            continue;
        }
        part.gate.before(who, index);
        let reply = N::ask(&mut worker.caller, line, part.budget);
        part.gate.after(who, index, reply);
        let Ok(()) = worker.replies.push(reply) else {
            unreachable!()
        };
    }
    worker
}
