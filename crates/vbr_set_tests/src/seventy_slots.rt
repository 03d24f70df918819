//! A set of seventy slots, whose flags take two words: two threads fill it, empty it, and fill it
//! again. Each has a bucket of its own, so that each finds in the end all that it put there.
ghost use Rattle.std.specs.Prelude.{◌≡◌, None};
ghost use Rattle.vbr_slots.specs.views.Views.{IsOf};

use crate::set::{close_both, open_two};
use std::test::Fail;
use std::thread::join;
use vbr_set::{Pass, Shape, VbrSet, VbrSetRef};

// How many keys each thread puts into the set, which has two buckets.
const KEYS: u64 = 35;

// The steps that a call may make.
const BUDGET: u32 = 100_000;

// Inserts all keys of a bucket, or removes them, and says whether each was absent before, or present.
fn turn(caller: &mut VbrSetRef, bucket: u64, fills: bool) -> bool
    ensures { caller.new.set ≡ caller.old.set }
{
    for i in 0..KEYS {
        let key = (2 * i).saturating_add(bucket);
        if fills {
            if caller.insert(key, BUDGET) != Ok(true) {
                return false;
            }
        } else {
            if caller.remove(key, BUDGET) != Ok(true) {
                return false;
            }
        }
    }
    true
}

// Fills a bucket, empties it, and fills it again.
fn turn_over(set: &VbrSet, pass: Pass, bucket: u64) -> (Pass, bool)
    requires own { IsOf pass.trace set.now }
    requires empty_hand { pass.hand ≡ None }
    ensures { IsOf result.0.trace set.now }
{
    let mut caller = set.with_pass(pass);
    let done = turn(&mut caller, bucket, true)
        && turn(&mut caller, bucket, false)
        && turn(&mut caller, bucket, true);
    (caller.into_pass(), done)
}

#[test]
fn two_threads_fill_seventy_slots_twice(rt: HostRuntime) -> Result<(), Fail> {
    let (set, first, second) = open_two(rt.alloc(), Shape::new(70, 2, 1_000_000)?).expect(
        &rt,
        "there is memory",
    );
    let shared = &set;
    let ((first, first_done), (second, second_done)) = join(
        &rt,
        move ||
            requires { IsOf first.trace shared.now × (first.hand ≡ None) }
            ensures { IsOf result.0.trace shared.entry.now }
        { turn_over(shared, first, 0) },
        move ||
            requires { IsOf second.trace shared.now × (second.hand ≡ None) }
            ensures { IsOf result.0.trace shared.entry.now }
        { turn_over(shared, second, 1) },
    );
    assert!(rt; first_done && second_done);
    let report = close_both(rt.alloc(), set, first, second).expect(&rt, "it is closed");
    assert_eq!(rt; (report.live, report.marked, report.free), (70, 0, 0));
    for i in 0..70 {
        assert_eq!(rt; report.keys.get(i).copied(), Some(i as u64));
    }
    Ok(())
}
