//! The plain set on a few calls.
use std::test::Fail;
use vbr_machine::{Op, PlainSet};

#[test]
fn answers_as_a_set(rt: HostRuntime) -> Result<(), Fail> {
    let mut set = PlainSet::new(rt.alloc());
    let calls = [
        (Op::Insert, true),
        (Op::Insert, false),
        (Op::Has, true),
        (Op::Remove, true),
        (Op::Has, false),
    ];
    for (op, reply) in calls {
        assert_eq!(rt; set.apply(op, 5)?, reply, "{op:?}");
    }
    assert!(rt; set.keys()?.is_empty());
    Ok(())
}

#[test]
fn gives_its_keys_ascending(rt: HostRuntime) -> Result<(), Fail> {
    let mut set = PlainSet::new(rt.alloc());
    for key in [30, u64::MAX, 0, 20] {
        set.apply(Op::Insert, key)?;
    }
    set.apply(Op::Remove, 20)?;
    assert_eq!(rt; set.keys()?.as_slice(), [0, 30, u64::MAX].as_slice());
    Ok(())
}
