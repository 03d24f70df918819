//! Look-ups in batches by handles, with each answer as the number of its call.
ghost use Rattle.std.specs.Prelude.{◌≡◌, length};
ghost use Rattle.vbr_machine.specs.declared.history.Op.TheVariants.{Has};
ghost use Rattle.vbr_handles.specs.Batches.{TellsGetAll, TellsHasAll, TellsFound};
ghost use Rattle.vbr_handles.specs.Calls.{TellsCall};

use crate::coded_calls::{entries, has};
use crate::found::Found;
use crate::owner::Owner;
use vbr_set::MapMember;
use vbr_set::batches::{LooksUp, Warms, look_up_all};
use vbr_set::member::Member;
use vbr_words::Nodes;

impl<N: Nodes> Warms for Owner<Member<N>> {
    #[inline(always)]
    fn warm(&mut self, keys: &[u64]) {
        if !self.is_empty() {
            self.member_mut().warm(keys);
        }
    }
}

impl<N: Nodes> LooksUp<i32> for Owner<Member<N>> {
    ghost told = { λ m n key budget code. TellsCall Has m.member n.member key budget code };

    #[inline(always)]
    fn look_up(&mut self, key: u64, budget: u32) -> i32 {
        has(self, key, budget)
    }
}

impl LooksUp<Found> for Owner<MapMember> {
    ghost told = { λ m n key budget found. TellsFound m.member n.member key budget found };

    #[inline(always)]
    fn look_up(&mut self, key: u64, budget: u32) -> Found {
        let mut value = 0;
        let answer = entries::get(self, key, &mut value, budget);
        Found { value, answer }
    }
}

/// Looks keys up in their order by the member of a handle, of a set or of a map, and writes the number of each
/// answer at its place.
pub fn has_all<N: Nodes>(
    owner: &mut Owner<Member<N>>,
    keys: &[u64],
    answers: &mut [i32],
    budget: u32,
)
    requires { length answers.old ≡ length keys.now }
    ensures { TellsHasAll owner.old.member owner.new.member keys.now budget answers.new }
{
    look_up_all(owner, keys, answers, budget);
}

/// Looks keys up in their order by the member of a handle, and writes the number of each answer at its place,
/// with the value of its key.
pub fn get_all(owner: &mut Owner<MapMember>, keys: &[u64], found: &mut [Found], budget: u32)
    requires { length found.old ≡ length keys.now }
    ensures { TellsGetAll owner.old.member owner.new.member keys.now budget found.new }
{
    look_up_all(owner, keys, found, budget);
}
