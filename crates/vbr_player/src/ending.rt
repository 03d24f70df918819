// The end of a set or a map of a script: the passes of its workers, and their replies in script order.
ghost use Rattle.std.specs.Prelude.{◌≡◌, map, IfOk};
ghost use Rattle.vbr_transcript.specs.Merging.{HaveReplies, IsMerged};
ghost use Rattle.vbr_player.specs.Ending.{passes_of};
ghost use Rattle.vbr_player.specs.Standing.{replies_of};

use crate::worker::Worker;
use std::alloc::{AllocError, Global};
use vbr_script::Line;
use vbr_set::Pass;
use vbr_transcript::{Reply, merge};
use vbr_words::Nodes;

// The replies that workers have to these lines, in script order.
pub fn merged(alloc: Global, lines: &[Line], own: Vec<Vec<Reply>>) -> Result<Vec<Reply>, AllocError>
    requires { HaveReplies (map (λ replies. replies.items) own.items) lines.now }
    ensures { IfOk result
        (λ replies. IsMerged lines.now (map (λ replies. replies.items) own.items) replies.items) }
{
    let mut replies = Vec::with_capacity(alloc, lines.len())?;
    merge(alloc, lines, &own, &mut replies)?;
    Ok(replies)
}

// The passes of workers, and their replies.
pub fn take_apart<N: Nodes>(
    alloc: Global,
    workers: Vec<Worker<N>>,
) -> Result<(Vec<Pass>, Vec<Vec<Reply>>), AllocError>
    ensures passes { IfOk result (λ parts. parts.0.items ≡ passes_of workers.entry.items) }
    ensures replies { IfOk result
        (λ parts. map (λ replies. replies.items) parts.1.items ≡ replies_of workers.entry.items) }
{
    let mut passes = Vec::with_capacity(alloc, workers.len())?;
    let mut own = Vec::with_capacity(alloc, workers.len())?;
    for worker in workers {
        let Worker { caller, replies } = worker;
        let Ok(()) = passes.push(caller.into_pass()) else {
            return Err(AllocError);
        };
        let Ok(()) = own.push(replies) else {
            return Err(AllocError);
        };
    }
    Ok((passes, own))
}
