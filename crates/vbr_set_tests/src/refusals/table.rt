//! The running table.
ghost use Rattle.std.specs.Prelude.{◌≡◌, ◌≤◌, length, IfOk, IfSome};
ghost use Rattle.vbr_slots.specs.runs.Closing.{AllOf};
ghost use Rattle.vbr_slots.specs.views.Views.{new_passes};

use crate::refusals::round::is_right;
use std::alloc::Global;
use vbr_slots::{CloseError, OpenError, Pass, Slots};
use vbr_words::{Keys, Nodes, Shape};

// How often a call is made: two refusals that follow one another are got over.
const ATTEMPTS: u32 = 3;

// A table with its passes, and whether memory was refused.
fn open(alloc: Global, shape: Shape) -> Option<(Slots, Vec<Pass>, bool)>
    ensures { IfSome result (λ r. AllOf r.0 r.1.items) }
{
    match Slots::open(alloc, shape, 1) {
        Ok((slots, passes)) => Some((slots, passes, false)),
        Err(OpenError::Memory) => {
            let (slots, passes) = Slots::open(alloc, shape, 1).ok()?;
            Some((slots, passes, true))
        }
        Err(OpenError::Passes) => None,
    }
}

// The words of a table that is closed, and whether memory was refused.
pub fn close<N: Nodes>(
    slots: Slots<N>,
    alloc: Global,
    passes: Vec<Pass>,
) -> Option<(Vec<u64>, bool)>
    requires { AllOf slots passes.items }
{
    match slots.close(alloc, passes) {
        Ok(words) => Some((words, false)),
        Err(CloseError::Memory(slots, passes)) => match slots.close(alloc, passes) {
            Ok(words) => Some((words, true)),
            Err(CloseError::Memory(slots, passes)) => {
                Some((slots.close(alloc, passes).ok()?, true))
            }
            Err(CloseError::Missing(..)) => None,
        },
        Err(CloseError::Missing(..)) => None,
    }
}

// The words of a table that stays open, and whether memory was refused.
pub fn read<N: Nodes>(
    slots: &Slots<N>,
    alloc: Global,
    passes: &mut Vec<Pass>,
) -> Option<(Vec<u64>, bool)>
    requires of_table { AllOf slots.now passes.old.items }
    requires all { slots.now.passes ≤ length passes.old.items }
    ensures { passes.new.items ≡ passes.old.items }
{
    match slots.snapshot(alloc, passes) {
        Ok(words) => Some((words, false)),
        Err(_) => match slots.snapshot(alloc, passes) {
            Ok(words) => Some((words, true)),
            Err(_) => Some((slots.snapshot(alloc, passes).ok()?, true)),
        },
    }
}

// Opens a table, and closes it at once.
fn opens_and_closes(alloc: Global) -> Option<bool> {
    let shape = Shape::new(1, 1, 10).ok()?;
    let (slots, passes, refused) = open(alloc, shape)?;
    let (words, refused_close) = close(slots, alloc, passes)?;
    let wanted = [1, 21, 0, 2, 0, 0, 0, 1];
    (words.as_slice() == wanted.as_slice()).then_some(refused | refused_close)
}

#[test]
fn table_opens_and_closes(rt: HostRuntime) {
    is_right(&rt, opens_and_closes(rt.alloc()));
}

// Nodes of a table that opens with three items and one pass.
pub trait OpenedWithThree: Nodes + Sized {
    fn open_once(alloc: Global, shape: Shape) -> Result<(Slots<Self>, Vec<Pass>), OpenError>
        requires { 3 ≤ shape.slots }
        ensures count { IfOk result (λ r. r.0.passes ≡ 1) }
        ensures passes { IfOk result (λ r. r.1.items ≡ new_passes r.0 0 1) };
}

impl OpenedWithThree for Keys {
    fn open_once(alloc: Global, shape: Shape) -> Result<(Slots, Vec<Pass>), OpenError> {
        Slots::open_with(alloc, shape, 1, &[2, 5, 9])
    }
}

// A table with three items and its pass, and whether memory was refused.
fn open_with_three<N: OpenedWithThree>(
    alloc: Global,
    shape: Shape,
) -> Option<(Slots<N>, Vec<Pass>, bool)>
    requires { 3 ≤ shape.slots }
    ensures count { IfSome result (λ r. r.0.passes ≡ 1) }
    ensures passes { IfSome result (λ r. r.1.items ≡ new_passes r.0 0 1) }
{
    for refusals in 0..ATTEMPTS {
        match N::open_once(alloc, shape) {
            Ok((slots, passes)) => return Some((slots, passes, refusals > 0)),
            Err(OpenError::Memory) => {}
            Err(OpenError::Passes) => return None,
        }
    }
    None
}

// Opens a table of three slots with three items, reads its words, and closes it: both times they are these.
pub fn opens_with_three_and_closes<N: OpenedWithThree>(
    alloc: Global,
    wanted: &[u64],
) -> Option<bool> {
    let shape = Shape::new(3, 1, 10).ok()?;
    let (slots, mut passes, refused) = open_with_three::<N>(alloc, shape)?;
    let (told, refused_snapshot) = read(&slots, alloc, &mut passes)?;
    let (words, refused_close) = close(slots, alloc, passes)?;
    let are_right = told.as_slice() == wanted && words.as_slice() == wanted;
    are_right.then_some(refused | refused_snapshot | refused_close)
}

// The three keys stand in three slots, one after another in one list.
#[test]
fn table_opens_with_three_and_closes(rt: HostRuntime) {
    let wanted = [1, 43, 9, 10, 1, 0, 2, 11, 1, 0, 5, 8, 1, 0, 9, 0];
    is_right(
        &rt,
        opens_with_three_and_closes::<Keys>(rt.alloc(), &wanted),
    );
}
