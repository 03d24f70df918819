// What a script is played on, a set or a map: how it is opened, renewed and closed.
ghost use Rattle.std.specs.Prelude.{◌≡◌, ◌<◌, IfOk, IfErr, length};
ghost use Rattle.vbr_slots.specs.runs.Closing.{AllOf};
ghost use Rattle.vbr_script.specs.Grammar.{is_map};
ghost use Rattle.vbr_player.specs.Closing.{ClosesListing, RenewsAs};
ghost use Rattle.vbr_player.specs.Opened.{IsJustOpened};
ghost use Rattle.vbr_player.specs.Playing.{start_for};

use crate::playable::Playable;
use std::alloc::Global;
use vbr_machine::laws::entries_open_as_their_map;
use vbr_set::set::VbrSet;
use vbr_set::{CloseError, OpenError, Pass, RenewError};
use vbr_settings::Config;
use vbr_transcript::RunError;
use vbr_words::Nodes;

/// A set or a map that a script is played on, with its passes.
#[derive(Drop)]
pub struct Opened<N: Nodes> {
    /// The set or the map.
    pub set: VbrSet<N>,
    /// Its passes.
    pub passes: Vec<Pass>,
}

// Opens an empty set or map, with a pass for each worker.
pub fn open<N: Playable>(alloc: Global, config: &Config) -> Result<Opened<N>, RunError>
    ensures start { IfOk result (λ now. now.set.start ≡ start_for N.script config.now.shape) }
    ensures count { IfOk result (λ now. now.set.passes ≡ config.now.workers) }
    ensures fresh { IfOk result (IsJustOpened N.script) }
    ensures memory { IfErr result (λ error. error ≡ RunError.Memory) }
{
    match VbrSet::<N>::open(alloc, config.shape(), config.workers()) {
        Ok((set, passes)) => Ok(Opened { set, passes }),
        Err(OpenError::Passes) => unreachable!(),
        Err(OpenError::Memory) => Err(RunError::Memory),
    }
}

// Closes a set or a map, and opens the one that follows it.
pub fn renew<N: Playable>(
    alloc: Global,
    set: VbrSet<N>,
    passes: Vec<Pass>,
) -> Result<Opened<N>, RunError>
    requires all { AllOf set passes.items }
    requires count { length passes.items ≡ set.passes }
    requires values { set.start.shape.values ≡ is_map N.script }
    requires some { 0 < set.passes }
    ensures renewed { IfOk result (λ next. RenewsAs N.script set passes.items next.set) }
    ensures fresh { IfOk result (IsJustOpened N.script) }
    ensures memory { IfErr result (λ error. error ≡ RunError.Memory) }
{
    entries_open_as_their_map();
    match set.renew(alloc, passes) {
        Ok((set, passes)) => Ok(Opened { set, passes }),
        Err(RenewError::Missing(_, _)) => unreachable!(),
        Err(RenewError::Memory(_, _) | RenewError::Closed(_)) => Err(RunError::Memory),
    }
}

// Closes a set or a map.
pub fn close<N: Playable>(
    alloc: Global,
    set: VbrSet<N>,
    passes: Vec<Pass>,
) -> Result<N::Report, RunError>
    requires all { AllOf set passes.items }
    requires count { length passes.items ≡ set.passes }
    ensures closes { IfOk result
        (λ report. ClosesListing N.script set passes.items (N.listed report) (N.epoch report)) }
    ensures memory { IfErr result (λ error. error ≡ RunError.Memory) }
{
    match set.close(alloc, passes) {
        Ok(report) => Ok(report),
        Err(CloseError::Missing(_, _)) => unreachable!(),
        Err(CloseError::Memory(_, _)) => Err(RunError::Memory),
    }
}
