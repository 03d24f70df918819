// The sets or maps of a script, one after the other.
ghost use Rattle.std.specs.Prelude.{◌≡◌, ◌+◌, ◌≤◌, length, zip, IfOk, IfErr};
ghost use Rattle.vbr_script.specs.Scripts.{ArePhased, AreRenewalsFrom};
ghost use Rattle.vbr_script.specs.declared.script.TheConstants.{MAX_SYNCS};
ghost use Rattle.vbr_transcript.specs.Runs.{AreExplained};
ghost use Rattle.vbr_player.specs.Calling.{ArePlayed};
ghost use Rattle.vbr_player.specs.Playing.{IsWant, start_for};

use crate::gate::Gate;
use crate::opened::{Opened, close, open, renew};
use crate::part::{Part, Span};
use crate::phases::{count_up_to, play_span};
use crate::playable::Playable;
use std::alloc::Global;
use std::sync::Wait;
use std::thread::Threads;
use vbr_script::Script;
use vbr_settings::Config;
use vbr_transcript::{Reply, RunError};

// Opens a set or a map, and plays a script on it, which is renewed after each of the script's renewals. It
// gives the replies in script order, and what the last one held.
pub fn open_and_play<N: Playable + Sync, R: Threads + Wait, G: Gate + Sync>(
    rt: &R,
    alloc: Global,
    config: &Config,
    script: &Script,
    gate: &G,
) -> Result<(Vec<Reply>, N::Report), RunError>
    requires phased { ArePhased N.script config.now.workers script.now.phases
        script.now.lines.items }
    requires renewed { AreRenewalsFrom 0 script.now.phases script.now.renewals.items }
    requires few { script.now.phases ≤ MAX_SYNCS + 1 }
    ensures one_each { IfOk result
        (λ ended. length ended.0.items ≡ length script.now.lines.items) }
    ensures explained { IfOk result (λ ended. AreExplained N.script
        (ArePlayed N.script config.now.workers config.now.budget)
        (start_for N.script config.now.shape)
        config.now.workers 0 script.now.phases script.now.renewals.items
        (zip script.now.lines.items ended.0.items) (N.listed ended.1) (N.epoch ended.1)) }
    ensures fault { IfErr result IsWant }
{
    let whole = Part {
        lines: &script.lines,
        first: 0,
        budget: config.budget(),
        gate,
    };
    let mut now = open::<N>(alloc, config)?;
    let mut replies = Vec::with_capacity(alloc, whole.lines.len())?;
    let mut first = 0;
    let mut phase = 0;
    for renewal in &script.renewals {
        let end = first + count_up_to(&whole.lines[first..], *renewal);
        let span = Span {
            part: whole.slice(first, end),
            from: phase,
            to: *renewal + 1,
        };
        let Opened { set, passes } = now;
        let (passes, more) = play_span(rt, alloc, &set, passes, span)?;
        now = renew(alloc, set, passes)?;
        replies.extend_from_slice(&more)?;
        first = end;
        phase = *renewal + 1;
    }
    let last = Span {
        part: whole.slice(first, whole.lines.len()),
        from: phase,
        to: script.phases,
    };
    let Opened { set, passes } = now;
    let (passes, more) = play_span(rt, alloc, &set, passes, last)?;
    let report = close(alloc, set, passes)?;
    replies.extend_from_slice(&more)?;
    Ok((replies, report))
}
