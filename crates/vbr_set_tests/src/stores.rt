//! Stores in a map, and removes by a value: each call with each outcome.
ghost use Rattle.std.specs.Prelude.{◌≡◌};

use crate::alone::{expect_left, expect_report, open_alone};
use crate::map_rows::open_two;
use std::alloc::Global;
use std::process::Abort;
use std::test::Fail;
use vbr_set::Outcome::{Changed, Unchanged};
use vbr_set::{Refusal, Shape, VbrMapRef};
use vbr_words::Entries;

// A key that is absent stays so for who replaces, exchanges or removes; a put stores.
fn store_where_absent(rt: &impl Abort, caller: &mut VbrMapRef)
    ensures { caller.new.set ≡ caller.old.set }
{
    assert_eq!(rt; caller.replace(5, 70, 200), Ok(None));
    assert_eq!(rt; caller.compare_exchange(5, 0, 70, 200), Ok(Unchanged(None)));
    assert_eq!(rt; caller.remove_if(5, 0, 200), Ok(Unchanged(None)));
    assert_eq!(rt; caller.get(5, 200), Ok(None));
    assert_eq!(rt; caller.put(5, 70, 200), Ok(None));
    assert_eq!(rt; caller.get(5, 200), Ok(Some(70)));
}

// A key that is there gets another value, but of who inserts only if it is absent.
fn store_where_present(rt: &impl Abort, caller: &mut VbrMapRef)
    ensures { caller.new.set ≡ caller.old.set }
{
    assert_eq!(rt; caller.replace(5, 71, 200), Ok(Some(70)));
    assert_eq!(rt; caller.put(5, 72, 200), Ok(Some(71)));
    assert_eq!(rt; caller.get_or_insert(5, 73, 200), Ok(Some(72)));
    assert_eq!(rt; caller.get(5, 200), Ok(Some(72)));
}

// An exchange and a remove change nothing if the value is another one.
fn change_by_value(rt: &impl Abort, caller: &mut VbrMapRef)
    ensures { caller.new.set ≡ caller.old.set }
{
    assert_eq!(rt;
        caller.compare_exchange(5, 71, 74, 200),
        Ok(Unchanged(Some(72)))
    );
    assert_eq!(rt;
        caller.compare_exchange(5, 72, 74, 200),
        Ok(Changed(Some(72)))
    );
    assert_eq!(rt; caller.remove_if(5, 72, 200), Ok(Unchanged(Some(74))));
    assert_eq!(rt; caller.get(5, 200), Ok(Some(74)));
}

// The key goes with its value, and comes again.
fn remove_by_value(rt: &impl Abort, caller: &mut VbrMapRef)
    ensures { caller.new.set ≡ caller.old.set }
{
    assert_eq!(rt; caller.remove_if(5, 74, 200), Ok(Changed(Some(74))));
    assert_eq!(rt; caller.get(5, 200), Ok(None));
    assert_eq!(rt; caller.get_or_insert(5, 75, 200), Ok(None));
    assert_eq!(rt; caller.get(5, 200), Ok(Some(75)));
}

// A sum begins with what is added to an absent key, and comes round at 2^64.
fn add_to_value(rt: &impl Abort, caller: &mut VbrMapRef)
    ensures { caller.new.set ≡ caller.old.set }
{
    assert_eq!(rt; caller.fetch_add(6, 3, 200), Ok(None));
    assert_eq!(rt;
        caller.fetch_add(6, 18_446_744_073_709_551_615, 200),
        Ok(Some(3))
    );
    assert_eq!(rt; caller.fetch_add(6, 40, 200), Ok(Some(2)));
    assert_eq!(rt; caller.remove(6, 200), Ok(Some(42)));
}

/// One caller makes each call with each outcome, and the close reports the entry that is left.
#[test]
fn a_value_is_changed(rt: HostRuntime) -> Result<(), Fail> {
    let (map, pass) = open_alone::<Entries>(rt.alloc(), Shape::new(4, 2, 20)?, &[])?;
    let mut caller = map.with_pass(pass);
    store_where_absent(&rt, &mut caller);
    store_where_present(&rt, &mut caller);
    change_by_value(&rt, &mut caller);
    remove_by_value(&rt, &mut caller);
    add_to_value(&rt, &mut caller);
    let pass = caller.into_pass();
    expect_left(&rt, rt.alloc(), map, pass, &[(5, 75)], (1, 0, 3))
}

// In a map whose slots are all taken up nothing can be stored, and what changes nothing is answered.
fn store_without_a_slot(rt: &impl Abort, caller: &mut VbrMapRef)
    ensures { caller.new.set ≡ caller.old.set }
{
    assert_eq!(rt; caller.insert(5, 70, 200), Ok(true));
    assert_eq!(rt; caller.replace(5, 71, 200), Err(Refusal::NoSlot));
    assert_eq!(rt; caller.put(6, 71, 200), Err(Refusal::NoSlot));
    assert_eq!(rt; caller.fetch_add(5, 1, 200), Err(Refusal::NoSlot));
    assert_eq!(rt;
        caller.compare_exchange(5, 70, 71, 200),
        Err(Refusal::NoSlot)
    );
    assert_eq!(rt;
        caller.compare_exchange(5, 71, 72, 200),
        Ok(Unchanged(Some(70)))
    );
    assert_eq!(rt; caller.get_or_insert(5, 71, 200), Ok(Some(70)));
}

// One slot more than there are keys is enough for one replacement after another.
fn replace_thrice(rt: &impl Abort, caller: &mut VbrMapRef)
    ensures { caller.new.set ≡ caller.old.set }
{
    assert_eq!(rt; caller.put(5, 70, 200), Ok(None));
    assert_eq!(rt; caller.replace(5, 71, 200), Ok(Some(70)));
    assert_eq!(rt; caller.put(5, 72, 200), Ok(Some(71)));
    assert_eq!(rt;
        caller.compare_exchange(5, 72, 73, 200),
        Ok(Changed(Some(72)))
    );
}

// Stores 5 in a map of so many slots: of one, or of two, in which it is replaced. Compares the value that
// is left.
fn expect_stored(rt: &impl Abort, alloc: Global, slots: u32, value: u64) -> Result<(), Fail> {
    let (map, pass) = open_alone::<Entries>(alloc, Shape::new(slots, 1, 20)?, &[])?;
    let mut caller = map.with_pass(pass);
    if slots == 1 {
        store_without_a_slot(rt, &mut caller);
    } else {
        replace_thrice(rt, &mut caller);
    }
    let pass = caller.into_pass();
    let free = slots.saturating_sub(1);
    expect_left(rt, alloc, map, pass, &[(5, value)], (1, 0, free))
}

/// A map with one slot keeps its one value.
#[test]
fn a_full_map_keeps_its_value(rt: HostRuntime) -> Result<(), Fail> {
    expect_stored(&rt, rt.alloc(), 1, 70)
}

/// The slot of a node that was replaced is back when the call returns.
#[test]
fn replaced_slots_come_back(rt: HostRuntime) -> Result<(), Fail> {
    expect_stored(&rt, rt.alloc(), 2, 73)
}

// Two callers change one key in turn, and each finds what the other stored.
fn take_turns(rt: &impl Abort, first: &mut VbrMapRef, second: &mut VbrMapRef)
    ensures same { first.new.set ≡ first.old.set }
    ensures same_too { second.new.set ≡ second.old.set }
{
    assert_eq!(rt; first.get_or_insert(5, 70, 200), Ok(None));
    assert_eq!(rt; second.get_or_insert(5, 71, 200), Ok(Some(70)));
    assert_eq!(rt; second.replace(5, 72, 200), Ok(Some(70)));
    assert_eq!(rt;
        first.compare_exchange(5, 70, 73, 200),
        Ok(Unchanged(Some(72)))
    );
    assert_eq!(rt; first.put(5, 74, 200), Ok(Some(72)));
    assert_eq!(rt; second.remove_if(5, 74, 200), Ok(Changed(Some(74))));
}

/// The map reports no entry of the key that both changed, once it is removed.
#[test]
fn two_callers_change_a_value(rt: HostRuntime) -> Result<(), Fail> {
    let (map, first, second) = open_two(rt.alloc(), (8, 1, 20))?;
    let (mut one, mut other) = (map.with_pass(first), map.with_pass(second));
    take_turns(&rt, &mut one, &mut other);
    let passes = Vec::from_array(rt.alloc(), [one.into_pass(), other.into_pass()])?;
    let report = map.close(rt.alloc(), passes)?;
    expect_report(&rt, &report, &[], (0, 0, 8));
    Ok(())
}
