//! The seat of a pass at its table: what a step alone needs of the pass.
ghost use Rattle.std.specs.Prelude.{◌≡◌, ◌↔◌, IsTrue};
ghost use Rattle.vbr_slots.specs.views.Views.{epoch_after, knows};

use crate::rule::{Opening, Witness};
use atomic_table::Seat;
use std::collections::LinkedList;
use std::marker::Model;
use vbr_machine::Step;

/// What a step needs of its pass: its seat at the table, its number, and the last epoch that it
/// read.
#[derive(Drop)]
pub struct Runner {
    pub(crate) seat: Seat<(), LinkedList<Witness>>,
    pub(crate) opening: Opening,
    pub(crate) who: u32,
    pub(crate) epoch: u64,
}

impl Model for Runner {
    ghost use Rattle.vbr_slots.specs.views.Views.{Trace};

    ghost Value = { Trace };

    ghost use Rattle.vbr_slots.specs.views.RunnerView.{trace_of_runner, IsSoundRunner};

    ghost view = { trace_of_runner };

    ghost invariant = { IsSoundRunner };
}

impl Runner {
    // The last epoch that it read.
    #[inline]
    pub(crate) fn epoch(&self) -> u64
        ensures { result ≡ (knows self.now).epoch }
    {
        self.epoch
    }
}

// Keeps the last epoch read, after a step that found this word. Nothing is stored if it stayed.
#[inline]
pub(crate) fn keep_epoch(epoch: &mut u64, step: Step, found: u64)
    ensures { epoch.new ≡ epoch_after step found epoch.old }
{
    if let Step::ReadEpoch = step {
        if *epoch != found {
            *epoch = found;
        }
    }
}

/// The epoch that a pass read after its loads.
#[derive(Clone, Copy, Debug, PartialEq, Eq)]
pub struct EpochRead {
    /// The epoch.
    pub epoch: u64,
    /// Whether it is the epoch that the pass had read before. Then what it loaded in between is checked.
    pub stays: bool,
}

// Keeps the epoch that was found, and says whether it is the one that was kept. Nothing is stored if it
// stayed.
#[inline]
pub(crate) fn keep_epoch_found(epoch: &mut u64, found: u64) -> bool
    ensures kept { epoch.new ≡ found }
    ensures stays { IsTrue result ↔ (found ≡ epoch.old) }
{
    let stays = *epoch == found;
    if !stays {
        *epoch = found;
    }
    stays
}
