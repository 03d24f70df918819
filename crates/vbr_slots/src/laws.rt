//! The law of the running table. The function says it in its contract, and does nothing.
ghost use Rattle.vbr_slots.specs.runs.Running.{TheTableIsARun};

/// A law: whatever meets the rule of the table, as the table does before and after every atomic
/// step, is the state of a safe run of the machine.
pub fn the_table_is_a_run()
    ensures { TheTableIsARun }
{}
