//! Maps that open with entries, and maps that are renewed.
ghost use Rattle.std.specs.Prelude.{◌≡◌, IfOk};
ghost use Rattle.vbr_slots.specs.views.Views.{new_passes};

use crate::alone::{expect_left, open_alone};
use std::alloc::Global;
use std::process::Abort;
use std::test::Fail;
use vbr_set::{MapReport, Pass, Shape, VbrMap, VbrMapRef};
use vbr_words::Entries;

const ENTRIES: [(u64, u64); 3] = [(2, 70), (5, 71), (9, 70)];

// Opens a map with three entries in four slots, and with two passes.
fn open_three(alloc: Global) -> Result<(VbrMap, Vec<Pass>), Fail>
    ensures passes { IfOk result (λ r. r.1.items ≡ new_passes r.0 0 2) }
    ensures two { IfOk result (λ r. r.0.passes ≡ 2) }
{
    Ok(VbrMap::open_with(alloc, Shape::new(4, 2, 10)?, 2, &ENTRIES)?)
}

// Whether a report is that of these three entries.
fn expect_three(rt: &impl Abort, report: &MapReport) {
    assert_eq!(rt; report.entries.as_slice(), ENTRIES.as_slice());
    let told = (report.epoch, report.live, report.marked, report.free);
    assert_eq!(rt; told, (1, 3, 0, 1));
}

/// The entries are there before any call, and a map that is closed at once reports them.
#[test]
fn opens_with_entries(rt: HostRuntime) -> Result<(), Fail> {
    let (map, passes) = open_three(rt.alloc())?;
    expect_three(&rt, &map.close(rt.alloc(), passes)?);
    Ok(())
}

/// A map that stays open reports the same.
#[test]
fn tells_its_entries(rt: HostRuntime) -> Result<(), Fail> {
    let (map, mut passes) = open_three(rt.alloc())?;
    expect_three(&rt, &map.report(rt.alloc(), &mut passes)?);
    expect_three(&rt, &map.close(rt.alloc(), passes)?);
    Ok(())
}

/// A renewal carries the values.
#[test]
fn a_map_is_renewed(rt: HostRuntime) -> Result<(), Fail> {
    let (map, passes) = open_three(rt.alloc())?;
    let (map, passes) = map.renew(rt.alloc(), passes)?;
    assert_eq!(rt; passes.len(), 2);
    expect_three(&rt, &map.close(rt.alloc(), passes)?);
    Ok(())
}

/// Fewer passes than were opened close no map, and all of them do afterwards.
#[test]
fn a_map_waits_for_its_passes(rt: HostRuntime) -> Result<(), Fail> {
    let (map, mut passes) = open_three(rt.alloc())?;
    let last = passes.pop().expect(&rt, "a pass");
    let Err(vbr_set::CloseError::Missing(map, mut passes)) = map.close(rt.alloc(), passes) else {
        panic!(rt; "closed without a pass")
    };
    passes.push(last)?;
    expect_three(&rt, &map.close(rt.alloc(), passes)?);
    Ok(())
}

// One key comes, stays as it is, is given, and taken out.
fn store_and_take(rt: &impl Abort, caller: &mut VbrMapRef)
    ensures { caller.new.set ≡ caller.old.set }
{
    assert_eq!(rt; caller.insert(5, 70, 100), Ok(true));
    assert_eq!(rt; caller.insert(5, 71, 100), Ok(false));
    assert_eq!(rt; caller.get(5, 100), Ok(Some(70)));
    assert_eq!(rt; caller.remove(5, 100), Ok(Some(70)));
    assert_eq!(rt; caller.get(5, 100), Ok(None));
}

// The key comes again with another value, and then another key.
fn store_again(rt: &impl Abort, caller: &mut VbrMapRef)
    ensures { caller.new.set ≡ caller.old.set }
{
    assert_eq!(rt; caller.insert(5, 71, 100), Ok(true));
    assert_eq!(rt; caller.get(5, 100), Ok(Some(71)));
    assert_eq!(rt; caller.has(5, 100), Ok(true));
    assert_eq!(rt; caller.insert(6, 0, 100), Ok(true));
}

/// A key has the value that was stored with it when it came, until it is removed.
#[test]
fn a_key_keeps_its_value(rt: HostRuntime) -> Result<(), Fail> {
    let (map, pass) = open_alone::<Entries>(rt.alloc(), Shape::new(4, 2, 10)?, &[])?;
    let mut caller = map.with_pass(pass);
    store_and_take(&rt, &mut caller);
    store_again(&rt, &mut caller);
    let pass = caller.into_pass();
    expect_left(&rt, rt.alloc(), map, pass, &[(5, 71), (6, 0)], (2, 0, 2))
}
