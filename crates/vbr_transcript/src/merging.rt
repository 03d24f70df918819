//! The workers' replies in script order.
ghost use Rattle.std.specs.Prelude.{◌≡◌, [], map, OnOk};
ghost use Rattle.vbr_transcript.specs.Merging.{HaveReplies, IsMerged};

use crate::reply::Reply;
use std::alloc::{AllocError, Global};
use vbr_script::Line;

/// Puts the replies that each worker has to its own lines together in script order: each line takes
/// the next reply of its worker. If `merged` has room for all lines, no more is made for it.
pub fn merge(
    alloc: Global,
    lines: &[Line],
    own: &[Vec<Reply>],
    merged: &mut Vec<Reply>,
) -> Result<(), AllocError>
    requires replies { HaveReplies (map (λ replies. replies.items) own.now) lines.now }
    requires empty { merged.old.items ≡ [] }
    ensures { OnOk result
        (IsMerged lines.now (map (λ replies. replies.items) own.now) merged.new.items) }
{
    let mut next = vec![in alloc; 0usize; own.len()]?;
    for line in lines {
        let worker = line.worker as usize;
        merged.push(own[worker][next[worker]])?;
        next[worker] += 1;
    }
    Ok(())
}
