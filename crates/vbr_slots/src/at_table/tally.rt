//! What a pass counts at its table for those who operate a program. None of these calls is a step.
ghost use Rattle.std.specs.Prelude.{◌≡◌};
ghost use Rattle.vbr_slots.specs.steps.AtTables.{IsSameTable, pass_of};

use crate::at_table::AtTable;
use vbr_words::Nodes;

impl<N: Nodes> AtTable<'_, N> {
    /// Counts a traversal that is begun anew.
    #[inline]
    pub fn count_restart(&mut self)
        ensures table { IsSameTable self.old self.new }
        ensures pass { pass_of self.new ≡ pass_of self.old }
    {
        let stepper = &mut *self.stepper;
        stepper.tally.restarts = stepper.tally.restarts.wrapping_add(1);
    }

    /// Counts a marked node that it unlinked on its way.
    #[inline]
    pub fn count_help(&mut self)
        ensures table { IsSameTable self.old self.new }
        ensures pass { pass_of self.new ≡ pass_of self.old }
    {
        let stepper = &mut *self.stepper;
        stepper.tally.helps = stepper.tally.helps.wrapping_add(1);
    }
}
