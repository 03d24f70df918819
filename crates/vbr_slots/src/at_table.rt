//! A pass at its table. Its methods are the steps, for calls that make several and count them once for
//! all. [`crate::Slots`] has the calls of one step, on a table and a pass: each of them puts the pass
//! at the table, makes the step there, and counts it.
pub mod bearing;
pub mod confirming;
pub mod epoch;
pub mod exchanging;
pub mod loading;
pub mod owning;
pub mod pass;
pub mod reading;
pub mod tally;

ghost use Rattle.vbr_slots.specs.views.Views.{IsOf};

use crate::slots::Slots;
use crate::stepper::Stepper;
use vbr_words::{Keys, Nodes};

/// A pass at its table, for a call: the table, and what makes the steps of the pass there. A pass lends
/// that ([`crate::Pass::during`]), and counts the steps of the whole call at once.
#[derive(Drop)]
pub struct AtTable<'c, N: Nodes = Keys> {
    /// The table.
    pub slots: &'c Slots<N>,
    /// What makes the steps of the pass.
    pub stepper: &'c mut Stepper,
    ghost own: { IsOf stepper.now.trace slots.now },
}
