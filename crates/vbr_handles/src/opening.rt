//! Opening a set, or a map, for handles.
ghost use Rattle.std.specs.Prelude.{◌≡◌, ◌≤◌, true, false, length, map, None, Some, IfOk, IfSome};
ghost use Rattle.vbr_words.specs.Dimensions.{IsShape};
ghost use Rattle.vbr_slots.specs.declared.opening.TheConstants.{MAX_MANY_PASSES, MAX_PASSES};
ghost use Rattle.vbr_handles.specs.Opening.{AreEmpty, Opens, listed_start, spread_shape};
ghost use Rattle.vbr_handles.specs.Openings.{BeginAnew};

use crate::handle_of::HandleOf;
use crate::items::Listed;
use crate::openings::begin_anew;
use crate::owner::Owner;
use crate::reserves::with_reserves;
use std::alloc::{AllocError, Global};
use vbr_set::member::Member;
use vbr_set::{Kind, MAX_MANY_PASSES, MAX_PASSES, OpenManyError, Shape};
use vbr_words::Nodes;

/// Why handles were not opened. Tested in this order; the handles are as they were.
#[derive(Clone, Copy, Debug, PartialEq, Eq)]
pub enum OpenRefusal {
    /// The numbers are no shape.
    Shape,
    /// There is no handle, or there are more than this call may open. No handle is read before this test.
    Passes,
    /// One of the handles isn't empty.
    InUse,
    /// The keys don't ascend, each above the one before, or there are more of them than slots.
    Keys,
    /// There is no memory.
    Memory,
}

/// The numbers of a shape, which may be out of range.
#[derive(Clone, Copy, Debug, PartialEq, Eq)]
pub struct ShapeNumbers {
    /// How many slots.
    pub slots: u32,
    /// How many buckets.
    pub buckets: u32,
    /// The last epoch; `MAX_EPOCH` means the greatest one for so many slots, if that is less.
    pub last_epoch: u64,
    /// The seed by which keys are spread over the buckets.
    pub seed: u64,
}

impl ShapeNumbers {
    // The shape of these numbers, with keys spread over the buckets by the seed; none, if one of them is
    // out of range.
    pub(crate) fn shape(self) -> Option<Shape>
        ensures some { IfSome result (λ shape. shape ≡ spread_shape self false) }
        ensures is_shape { IfSome result IsShape }
        ensures in_range { result ≡ None → ¬ (IsShape (spread_shape self false)) }
    {
        let narrow = Shape::new(self.slots, 1, self.last_epoch).ok()?;
        narrow.spread_with(self.buckets, self.seed).ok()
    }
}

/// Opens a set of these keys, which ascend, each above the one before, with a pass for each of the
/// handles, 64 at most, in the order of the passes' numbers. It goes once over the keys, and takes 8
/// bytes for each while it runs. For handles of a map it opens a map of these entries, and takes 48
/// bytes for each. Each handle takes its reserve, unless the set has fewer than 64 slots for each.
pub fn open_with<N: Kind, I: Listed<N>, H: HandleOf<N>>(
    alloc: Global,
    handles: &mut [H],
    numbers: ShapeNumbers,
    items: &[I],
) -> Result<(), OpenRefusal>
    ensures opens { Opens H.member MAX_PASSES handles.old handles.new
        (listed_start I.listing numbers items.now) result }
    ensures steps { map H.steps handles.new ≡ map H.steps handles.old }
    ensures begins { BeginAnew H.opening handles.old handles.new result }
{
    open_up_to::<N, I, H>(alloc, handles, MAX_PASSES, numbers, items)
}

/// Opens a set of these keys, or a map of these entries, as [`open_with`] does, for as many handles as
/// [`MAX_MANY_PASSES`].
pub fn open_many<N: Kind, I: Listed<N>, H: HandleOf<N>>(
    alloc: Global,
    handles: &mut [H],
    numbers: ShapeNumbers,
    items: &[I],
) -> Result<(), OpenRefusal>
    ensures opens { Opens H.member MAX_MANY_PASSES handles.old handles.new
        (listed_start I.listing numbers items.now) result }
    ensures steps { map H.steps handles.new ≡ map H.steps handles.old }
    ensures begins { BeginAnew H.opening handles.old handles.new result }
{
    open_up_to::<N, I, H>(alloc, handles, MAX_MANY_PASSES, numbers, items)
}

// Opens a set of these keys, or a map of these entries, for so many handles at most.
fn open_up_to<N: Kind, I: Listed<N>, H: HandleOf<N>>(
    alloc: Global,
    handles: &mut [H],
    most: u32,
    numbers: ShapeNumbers,
    items: &[I],
) -> Result<(), OpenRefusal>
    requires { most ≤ MAX_MANY_PASSES }
    ensures opens { Opens H.member most handles.old handles.new
        (listed_start I.listing numbers items.now) result }
    ensures steps { map H.steps handles.new ≡ map H.steps handles.old }
    ensures begins { BeginAnew H.opening handles.old handles.new result }
{
    let Some(shape) = numbers.shape() else {
        return Err(OpenRefusal::Shape);
    };
    if handles.is_empty() || handles.len() > most as usize {
        return Err(OpenRefusal::Passes);
    }
    if !are_empty::<N, H>(handles) {
        return Err(OpenRefusal::InUse);
    }
    if !I::can_open(items, numbers.slots) {
        return Err(OpenRefusal::Keys);
    }
    let members = match I::open(alloc, shape, handles.len() as u32, items) {
        Ok(members) => with_reserves(members),
        Err(OpenManyError::Passes) => return Err(OpenRefusal::Passes),
        Err(OpenManyError::Memory) => return Err(OpenRefusal::Memory),
    };
    let Ok(opened) = box_all(alloc, members) else {
        return Err(OpenRefusal::Memory);
    };
    fill(handles, opened);
    begin_anew::<N, H>(handles);
    Ok(())
}

// Whether all handles are empty.
fn are_empty<N: Nodes, H: HandleOf<N>>(handles: &mut [H]) -> bool
    ensures same { handles.new ≡ handles.old }
    ensures empty { result ≡ true → AreEmpty H.member handles.old }
    ensures in_use { result ≡ false → ¬ (AreEmpty H.member handles.old) }
{
    for i in 0..handles.len() {
        if !handles[i].is_empty() {
            return false;
        }
    }
    true
}

// An owner for each member.
#[tactic(auto, using(crate::proofs::Opened::one_more_owned))]
fn box_all<N: Nodes>(
    alloc: Global,
    members: Vec<Member<N>>,
) -> Result<Vec<Owner<Member<N>>>, AllocError>
    ensures members { IfOk result
        (λ owners. map (λ o. o.member) owners.items ≡ map Some members.items) }
{
    let mut owners = Vec::with_capacity(alloc, members.len())?;
    for member in members {
        owners.push(Owner::of(Box::new(alloc, member)?))?;
    }
    Ok(owners)
}

// Gives each handle what the owner at its place has.
fn fill<N: Nodes, H: HandleOf<N>>(handles: &mut [H], owners: Vec<Owner<Member<N>>>)
    requires { length owners.items ≡ length handles.old }
    ensures members { map H.member handles.new ≡ map (λ o. o.member) owners.items }
    ensures steps { map H.steps handles.new ≡ map H.steps handles.old }
    ensures openings { map H.opening handles.new ≡ map H.opening handles.old }
{
    let mut owners = owners.into_iter();
    for i in 0..handles.len() {
        let Some(owner) = owners.next() else {
            unreachable!()
        };
        let mut owner = owner;
        handles[i].swap(&mut owner);
    }
}
