//! Sets and maps of more than 64 passes: the last of them makes calls, and the numbers that are refused.

use std::test::Fail;
use vbr_set::{MAX_MANY_PASSES, MapMember, Member, OpenManyError, Shape, VbrMap, VbrSet};

#[test]
fn none_and_too_many_are_refused(rt: HostRuntime) -> Result<(), Fail> {
    let shape = Shape::new(1, 1, 10)?;
    for passes in [0, MAX_MANY_PASSES + 1] {
        let set = VbrSet::open_many(rt.alloc(), shape, passes, &[]);
        assert!(rt; matches!(set, Err(OpenManyError::Passes)));
        let map = VbrMap::open_many(rt.alloc(), shape, passes, &[]);
        assert!(rt; matches!(map, Err(OpenManyError::Passes)));
        let members = Member::open_many(rt.alloc(), shape, passes, &[]);
        assert!(rt; matches!(members, Err(OpenManyError::Passes)));
        let members = MapMember::open_many(rt.alloc(), shape, passes, &[]);
        assert!(rt; matches!(members, Err(OpenManyError::Passes)));
    }
    Ok(())
}

/// The pass behind the 64 of the first way has a number of its own, and sees what the set opens with.
#[test]
fn pass_65_looks_up(rt: HostRuntime) -> Result<(), Fail> {
    let (set, mut passes) = VbrSet::open_many(rt.alloc(), Shape::new(2, 1, 10)?, 65, &[5])?;
    let Some(mut last) = passes.pop() else {
        panic!(rt; "no pass")
    };
    assert_eq!(rt; (passes.len(), last.who()), (64, 64));
    assert_eq!(rt; set.has(&mut last, 5, 100), Ok(true));
    Ok(())
}

/// What one member of many adds another finds.
#[test]
fn member_65_adds(rt: HostRuntime) -> Result<(), Fail> {
    let mut members = Member::open_many(rt.alloc(), Shape::new(2, 1, 10)?, 65, &[5])?;
    assert_eq!(rt; members.len(), 65);
    assert_eq!(rt; members[64].insert(7, 100), Ok(true));
    assert_eq!(rt; members[0].has(7, 100), Ok(true));
    Ok(())
}

/// So it is of a map.
#[test]
fn member_65_of_a_map_adds(rt: HostRuntime) -> Result<(), Fail> {
    let mut members = MapMember::open_many(rt.alloc(), Shape::new(2, 1, 10)?, 65, &[(5, 50)])?;
    assert_eq!(rt; members.len(), 65);
    assert_eq!(rt; members[64].insert(7, 70, 100), Ok(true));
    assert_eq!(rt; members[0].get(7, 100), Ok(Some(70)));
    assert_eq!(rt; members[63].get(5, 100), Ok(Some(50)));
    Ok(())
}
