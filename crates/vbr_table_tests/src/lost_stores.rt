//! A reader stands on a node while another pass replaces its value: what its next calls return.
ghost use Rattle.std.specs.Prelude.{◌≡◌, true, None, IfOk};
ghost use Rattle.vbr_words.specs.declared.place.At.TheVariants.{Slot};
ghost use Rattle.vbr_table_tests.specs.Names.{IsHeld, IsOf, IsReplaceable, IsUnmarked, KeepsOwn, Names, knows, said};
ghost use Rattle.vbr_table_tests.specs.Buckets.{HasEntryLists};

use crate::kept_words::to_slot;
use crate::retiring::{head_of, last_node};
use crate::running_table::{expect_words, open_two};
use std::alloc::Global;
use std::process::Abort;
use std::test::Fail;
use vbr_access::{Held, Rollback, confirm_present_entry, key_of, value_of};
use vbr_list::{Wanted, get, insert_entry, store};
use vbr_machine::Op;
use vbr_slots::{Pass, Slots};
use vbr_words::{Entries, Shape};

// The one node, which stands in this slot and has key 7 and this value, behind the head that names it: 3 steps to the
// head, 3 to the node, 2 for the key and 2 for the value.
pub fn read_entry(
    rt: &impl Abort,
    slots: &Slots<Entries>,
    pass: &mut Pass,
    there: (u32, u64),
) -> (Held, Held)
    requires own { IsOf pass.old.trace slots.now }
    requires shape { HasEntryLists slots.now }
    ensures own { IsOf pass.new.trace slots.now }
    ensures keeps { KeepsOwn pass.old pass.new }
    ensures head { IsUnmarked (knows pass.new.trace) (said slots.now result.0) }
    ensures node { IsReplaceable pass.new.trace (said slots.now result.1) 7 0 }
    ensures place { result.1.at ≡ Slot there.0 }
    ensures names { Names (said slots.now result.0) there.0 }
{
    let (slot, value) = there;
    let head = head_of(rt, slots, pass, to_slot(slot));
    let node = last_node(rt, slots, pass, &head, slot);
    let key = key_of(slots, pass, &node).expect(rt, "the epoch has not moved");
    assert!(rt; key == 7);
    let told = value_of(slots, pass, &node).expect(rt, "the epoch has not moved");
    assert!(rt; told == value);
    (head, node)
}

// The node in slot 0 was replaced since it was read. It keeps its value, but a get by it is lost to its marked link,
// which names slot 1.
fn lose_get(rt: &impl Abort, slots: &Slots<Entries>, pass: &mut Pass, node: &Held)
    requires own { IsOf pass.old.trace slots.now }
    requires values { slots.now.start.shape.values ≡ true }
    requires node { IsReplaceable pass.old.trace (said slots.now node.now) 7 0 }
    requires place { node.now.at ≡ Slot 0 }
    ensures own { IsOf pass.new.trace slots.now }
    ensures hand { pass.new.hand ≡ pass.old.hand }
    ensures held { IsHeld (knows pass.new.trace) (said slots.now node.now) }
{
    let value = value_of(slots, pass, node).expect(rt, "the epoch has not moved");
    assert!(rt; value == 107);
    let told = confirm_present_entry(slots, pass, Op::Get, node);
    assert_eq!(rt; told, Err(Rollback::LostExchange { found: 14 }));
}

// Pass 1 reads 107 in slot 0. Pass 0 gives the key 207, in slot 1, and then 307, in slot 0 again, for which it moves
// the epoch.
fn stand_on_replaced(rt: &impl Abort, slots: &Slots<Entries>, a: &mut Pass, b: &mut Pass)
    requires bucket { slots.now.start.shape.buckets ≡ 1 }
    requires values { slots.now.start.shape.values ≡ true }
    requires first { IsOf a.old.trace slots.now × (a.old.hand ≡ None) }
    requires second { IsOf b.old.trace slots.now × (b.old.hand ≡ None) }
    ensures first { IsOf a.new.trace slots.now }
    ensures second { IsOf b.new.trace slots.now }
{
    let (_, node) = read_entry(rt, slots, b, (0, 107));
    assert_eq!(rt;
        store(slots, a, 7, 207, Wanted::Present, 100),
        Ok(Some(107))
    );
    lose_get(rt, slots, b, &node);
    assert_eq!(rt;
        store(slots, a, 7, 307, Wanted::Present, 100),
        Ok(Some(207))
    );
    let told = value_of(slots, b, &node);
    assert_eq!(rt; told, Err(Rollback::EpochMoved { now: 2 }));
    assert_eq!(rt; get(slots, b, 7, 100), Ok(Some(307)));
}

// A map with so many slots and one bucket, in which pass 0 has inserted 7 with 107, in slot 0.
pub fn one_entry(
    rt: &impl Abort,
    alloc: Global,
    slots: u32,
) -> Result<(Slots<Entries>, Pass, Pass), Fail>
    ensures start { IfOk result
        (λ r. (r.0.start.shape.buckets ≡ 1) × (r.0.start.shape.values ≡ true)) }
    ensures first { IfOk result (λ r. IsOf r.1.trace r.0 × (r.1.hand ≡ None)) }
    ensures second { IfOk result (λ r. IsOf r.2.trace r.0 × (r.2.hand ≡ None)) }
{
    let shape = Shape::new(slots, 1, 10)?.with_values();
    let (slots, mut a, b) = open_two::<Entries>(alloc, shape).expect(rt, "there is memory");
    assert_eq!(rt; insert_entry(&slots, &mut a, 7, 107, 100), Ok(true));
    Ok((slots, a, b))
}

/// A reader stands on the node of 107 while that is replaced. It still reads 107, which the node keeps, but its get is
/// lost to the marked link. Once a second replacement has moved the epoch, to use slot 0 again, its read rolls back.
#[test]
fn a_reader_on_a_replaced_node(rt: HostRuntime) -> Result<(), Fail> {
    let (slots, mut a, mut b) = one_entry(&rt, rt.alloc(), 2)?;
    stand_on_replaced(&rt, &slots, &mut a, &mut b);
    // epoch, shape and head; then link, birth, stamp, key and value of each slot; and the flags
    let words = [2, 42, 17, 16, 2, 1, 7, 307, 21, 1, 2, 7, 207, 0];
    expect_words(&rt, rt.alloc(), slots, a, b, &words);
    Ok(())
}
