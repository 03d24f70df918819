//! Giving the slots of the own pool back, so that every pass may take them.
ghost use Rattle.vbr_slots.specs.steps.AtTables.{IsSameTable, pass_of};
ghost use Rattle.vbr_at_table.specs.pools.GivingSlotsBack.{GivesSlotsBack};

use vbr_slots::AtTable;
use vbr_words::Nodes;

/// Puts all slots of the own pool into the shared pool, one step for each, and returns how many they were.
/// From there any pass may take them. It makes no call on the set, changes no list, and can't fail.
pub fn give_slots_back<N: Nodes>(at: &mut AtTable<'_, N>) -> u32
    ensures table { IsSameTable at.old at.new }
    ensures gives { GivesSlotsBack (pass_of at.old) (pass_of at.new) result }
{
    let shared = at.pool().len() as u32;
    for _ in 0..shared {
        at.law();
        let oldest = at.pool()[0];
        at.raise(oldest);
    }
    shared
}
