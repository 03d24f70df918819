//! Inserts.
ghost use Rattle.std.specs.Prelude.{◌≡◌, None};
ghost use Rattle.vbr_machine.specs.declared.history.Op.TheVariants.{Insert};
ghost use Rattle.vbr_slots.specs.views.Views.{IsOf};
ghost use Rattle.vbr_list.specs.calls.CallBounds.{Calls, CallsInsert};

use crate::new_value::NewValue;
use crate::outcome::changed_in;
use crate::storing::store_by;
use crate::wanted::Wanted;
use vbr_at_table::Refusal;
use vbr_slots::{Pass, Slots};
use vbr_words::Entries;

/// Adds a key to the set, in at most `budget` steps, and returns whether it was absent. It takes a slot
/// only once it has found the key absent, and traverses anew with it. A slot that is left over goes
/// back to the own pool, and what the call unlinked is retired when it ends, answered or not, into the
/// own pool while that has room. The rest is as `AtSet::insert` of `vbr_set` says.
pub fn insert(slots: &Slots, pass: &mut Pass, key: u64, budget: u32) -> Result<bool, Refusal>
    requires own { IsOf pass.old.trace slots.now }
    requires empty_hand { pass.old.hand ≡ None }
    ensures { Calls Insert pass.old pass.new key budget result }
{
    slots.kind();
    let value = NewValue::Exactly(0);
    let answer = pass.during(
        |stepper|
            requires own { IsOf stepper.old.trace slots.now }
            requires empty_hand { stepper.old.hand ≡ None }
        { store_by(slots, stepper, key, value, Wanted::Absent, false, budget) },
    );
    changed_in(answer)
}

/// Like [`insert`], at a table whose nodes have values: puts an entry, a key with its value, into the
/// map. The value is stored before the node is published, and is fixed from then on. The rest is as the
/// insert of a map by `AtSet` of `vbr_set`.
pub fn insert_entry(
    slots: &Slots<Entries>,
    pass: &mut Pass,
    key: u64,
    value: u64,
    budget: u32,
) -> Result<bool, Refusal>
    requires own { IsOf pass.old.trace slots.now }
    requires empty_hand { pass.old.hand ≡ None }
    ensures { CallsInsert pass.old pass.new key value budget result }
{
    pass.law();
    slots.kind();
    let value = NewValue::Exactly(value);
    let answer = pass.during(
        |stepper|
            requires own { IsOf stepper.old.trace slots.now }
            requires empty_hand { stepper.old.hand ≡ None }
        { store_by(slots, stepper, key, value, Wanted::Absent, false, budget) },
    );
    changed_in(answer)
}
