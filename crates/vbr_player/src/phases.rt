// The phases that are played on one set or map.
ghost use Rattle.std.specs.Prelude.{◌≡◌, ◌≤◌, nat_le, length, IfOk, IfErr};
ghost use Rattle.std.specs.List.{prefix_len};
ghost use Rattle.vbr_slots.specs.views.Views.{new_passes};
ghost use Rattle.vbr_player.specs.Playing.{IsWant};
ghost use Rattle.vbr_player.specs.Spans.{IsSpan, PlayedSpan};

use crate::asking::Asked;
use crate::ending::{merged, take_apart};
use crate::gate::Gate;
use crate::opening::workers_of;
use crate::part::Span;
use crate::phase::play_phase;
use std::alloc::Global;
use std::sync::Wait;
use std::thread::Threads;
use vbr_script::Line;
use vbr_set::Pass;
use vbr_set::set::VbrSet;
use vbr_transcript::{Reply, RunError};

// Plays all lines of a span on a new set or map: by a worker for each of its passes, one phase after the
// other. It gives the passes of the set, and the replies in script order.
pub fn play_span<'e, R: Threads + Wait, N: Asked + Sync, G: Gate + Sync>(
    rt: &'e R,
    alloc: Global,
    set: &'e VbrSet<N>,
    passes: Vec<Pass>,
    span: Span<'e, G>,
) -> Result<(Vec<Pass>, Vec<Reply>), RunError>
    requires span { IsSpan N.KIND set.now.passes span.from span.to span.part.lines.now }
    requires new { passes.items ≡ new_passes set.now 0 set.now.passes }
    ensures played { IfOk result (λ played. PlayedSpan N.KIND N set.now span.entry.part.budget
        span.entry.part.lines.now span.entry.from span.entry.to played.0.items played.1.items) }
    ensures fault { IfErr result IsWant }
{
    let whole = span.part;
    let mut workers = workers_of(alloc, set, whole.lines, passes)?;
    let mut first = 0;
    for number in span.from..span.to {
        whole.gate.phase(number);
        let end = first + count_up_to(&whole.lines[first..], number);
        workers = play_phase(rt, alloc, whole.slice(first, end), workers)?;
        first = end;
    }
    let (passes, own) = take_apart(alloc, workers)?;
    let replies = merged(alloc, whole.lines, own)?;
    Ok((passes, replies))
}

// How many of the first lines are of the phases up to one.
pub fn count_up_to(lines: &[Line], phase: u32) -> usize
    ensures count { result ≡ prefix_len (λ line. nat_le line.phase phase) lines.now }
    ensures inside { result ≤ length lines.now }
{
    lines.iter().take_while(|line| line.phase <= phase).count()
}
