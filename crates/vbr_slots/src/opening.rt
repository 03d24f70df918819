//! Opening a table.
ghost use Rattle.std.specs.Prelude.{◌≡◌, ◌<◌, ◌≤◌, ◌↔◌, ◌⊎◌, [], length, IfOk, IsErrOf};
ghost use Rattle.std.specs.List.Sorted.{IsStrictlyIncreasing};
ghost use Rattle.vbr_machine.specs.Maps.{keys_listed, map_start};
ghost use Rattle.vbr_machine.specs.Start.{ArePaired, set_start, start_with};
ghost use Rattle.vbr_slots.specs.runs.Openings.{OpensAs};
ghost use Rattle.vbr_slots.specs.pools.Tried.{first_tried};
ghost use Rattle.vbr_slots.specs.declared.opening.TheConstants.{MAX_MANY_PASSES};

use crate::laying::opening_words;
use crate::pass::Pass;
use crate::pool::Pool;
use crate::rule::{First, Opening, OpeningWithEntries};
use crate::runner::Runner;
use crate::slots::Slots;
use crate::stepper::Stepper;
use crate::tally::Tally;
use atomic_table::Table;
use std::alloc::{AllocError, Global};
use std::error::Error;
use std::fmt;
use std::marker::PhantomData;
use vbr_machine::keys_and_values;
use vbr_words::flags::{FLAGS, flag_words};
use vbr_words::{Entries, Nodes, Shape};

/// The greatest number of passes that [`Slots::open`], [`Slots::open_with`] and
/// [`Slots::open_with_entries`] take.
pub const MAX_PASSES: u32 = 64;

/// The greatest number of passes that [`Slots::open_many`] and [`Slots::open_many_with_entries`] take.
pub const MAX_MANY_PASSES: u32 = 65_536;

/// Why a table isn't opened. The tests are made in this order.
#[derive(Clone, Copy, Debug, PartialEq, Eq, Hash)]
pub enum OpenError {
    /// The number of passes is 0 or above 64.
    Passes,
    /// There is no memory for the table.
    Memory,
}

impl fmt::Display for OpenError {
    ghost use Rattle.std.specs.Prelude.{Some};
    ghost use Rattle.vbr_slots.specs.Messages.{open_error_text};

    ghost output = { λ e. Some (open_error_text e) };

    fn fmt<W: fmt::Write>(&self, f: &mut fmt::Formatter<W>) -> fmt::Result {
        match self {
            OpenError::Passes => write!(f, "the number of passes is not from 1 to 64"),
            OpenError::Memory => write!(f, "there is no memory for the table"),
        }
    }
}

impl Error for OpenError {}

impl From<AllocError> for OpenError {
    ghost use Rattle.vbr_slots.specs.declared.opening.OpenError.TheVariants.{Memory};

    ghost from_gives = { λ _ e. e ≡ Memory };

    fn from(_error: AllocError) -> OpenError {
        OpenError::Memory
    }
}

/// Why a table of many passes isn't opened. The tests are made in this order.
#[derive(Clone, Copy, Debug, PartialEq, Eq, Hash)]
pub enum OpenManyError {
    /// The number of passes is 0 or above `MAX_MANY_PASSES`.
    Passes,
    /// There is no memory for the table.
    Memory,
}

impl fmt::Display for OpenManyError {
    ghost use Rattle.std.specs.Prelude.{Some};
    ghost use Rattle.vbr_slots.specs.Messages.{open_many_error_text};

    ghost output = { λ e. Some (open_many_error_text e) };

    fn fmt<W: fmt::Write>(&self, f: &mut fmt::Formatter<W>) -> fmt::Result {
        match self {
            OpenManyError::Passes => write!(f, "the number of passes is not from 1 to 65536"),
            OpenManyError::Memory => write!(f, "there is no memory for the table"),
        }
    }
}

impl Error for OpenManyError {}

impl From<AllocError> for OpenManyError {
    ghost use Rattle.vbr_slots.specs.declared.opening.OpenManyError.TheVariants.{Memory};

    ghost from_gives = { λ _ e. e ≡ Memory };

    fn from(_error: AllocError) -> OpenManyError {
        OpenManyError::Memory
    }
}

impl Slots {
    /// Opens the table of a set in the state of a fresh world of the machine, with so many passes, from 1
    /// to 64. They stand in the order of their numbers, which begin with 0. It is [`Slots::open_with`]
    /// without a key.
    ///
    /// The refusals are tested in the order of [`OpenError`], and nothing is kept then.
    pub fn open(alloc: Global, shape: Shape, passes: u32) -> Result<(Slots, Vec<Pass>), OpenError>
        ensures opened { IfOk result (λ r.
            OpensAs (set_start shape []) passes r.0 r.1.items) }
        ensures refused { IsErrOf result OpenError.Passes ↔ ((passes ≡ 0) ⊎ (64 < passes)) }
    {
        let _slots = shape.slots();
        Slots::open_with(alloc, shape, passes, &[])
    }

    /// Opens the table of a set with these keys, in the state of a world of the machine that opens with
    /// them: key number i, from 0, stands in slot i, linked in the list of its bucket, and the other
    /// slots are in the shared pool. The passes are those of [`Slots::open`].
    ///
    /// It takes time in proportion to the numbers of words and of keys, and a copy of the keys while it
    /// runs, 8 bytes for each. No pass has made a step then.
    ///
    /// The refusals are tested in the order of [`OpenError`], and nothing is kept then.
    pub fn open_with(
        alloc: Global,
        shape: Shape,
        passes: u32,
        keys: &[u64],
    ) -> Result<(Slots, Vec<Pass>), OpenError>
        requires ascending { IsStrictlyIncreasing keys.now }
        requires few { length keys.now ≤ shape.slots }
        ensures opened { IfOk result (λ r.
            OpensAs (set_start shape keys.now) passes r.0 r.1.items) }
        ensures refused { IsErrOf result OpenError.Passes ↔ ((passes ≡ 0) ⊎ (64 < passes)) }
    {
        if passes == 0 || passes > MAX_PASSES {
            return Err(OpenError::Passes);
        }
        match Slots::open_many(alloc, shape, passes, keys) {
            Ok(opened) => Ok(opened),
            Err(OpenManyError::Memory) => Err(OpenError::Memory),
            Err(OpenManyError::Passes) => unreachable!(),
        }
    }

    /// Opens the table of a set with these keys, as [`Slots::open_with`] does, for more passes: from 1 to
    /// [`MAX_MANY_PASSES`]. Each takes as much memory as there, and no step of a pass takes longer for more of
    /// them.
    ///
    /// The refusals are tested in the order of [`OpenManyError`], and nothing is kept then.
    pub fn open_many(
        alloc: Global,
        shape: Shape,
        passes: u32,
        keys: &[u64],
    ) -> Result<(Slots, Vec<Pass>), OpenManyError>
        requires ascending { IsStrictlyIncreasing keys.now }
        requires few { length keys.now ≤ shape.slots }
        ensures opened { IfOk result (λ r.
            OpensAs (set_start shape keys.now) passes r.0 r.1.items) }
        ensures refused { IsErrOf result OpenManyError.Passes
            ↔ ((passes ≡ 0) ⊎ (MAX_MANY_PASSES < passes)) }
    {
        let opening = Opening {
            shape: shape.without_values(),
            passes,
        };
        Slots::build(alloc, opening, keys, &[])
    }
}

impl Slots<Entries> {
    /// Opens the table of a map with these entries, keys with their values, in the state of a world of
    /// the machine that opens with them: each value stands in the slot of its key, and the rest is as
    /// [`Slots::open_with`] has it.
    ///
    /// It takes time in proportion to the numbers of words and of entries, and two copies of the entries
    /// while it runs, 32 bytes for each entry. No pass has made a step then.
    ///
    /// The refusals are tested in the order of [`OpenError`], and nothing is kept then.
    pub fn open_with_entries(
        alloc: Global,
        shape: Shape,
        passes: u32,
        entries: &[(u64, u64)],
    ) -> Result<(Slots<Entries>, Vec<Pass>), OpenError>
        requires ascending { IsStrictlyIncreasing (keys_listed entries.now) }
        requires few { length entries.now ≤ shape.slots }
        ensures opened { IfOk result (λ r.
            OpensAs (map_start shape entries.now) passes r.0 r.1.items) }
        ensures refused { IsErrOf result OpenError.Passes ↔ ((passes ≡ 0) ⊎ (64 < passes)) }
    {
        if passes == 0 || passes > MAX_PASSES {
            return Err(OpenError::Passes);
        }
        match Slots::open_many_with_entries(alloc, shape, passes, entries) {
            Ok(opened) => Ok(opened),
            Err(OpenManyError::Memory) => Err(OpenError::Memory),
            Err(OpenManyError::Passes) => unreachable!(),
        }
    }

    /// Opens the table of a map with these entries, as [`Slots::open_with_entries`] does, for more passes:
    /// from 1 to [`MAX_MANY_PASSES`].
    ///
    /// The refusals are tested in the order of [`OpenManyError`], and nothing is kept then.
    pub fn open_many_with_entries(
        alloc: Global,
        shape: Shape,
        passes: u32,
        entries: &[(u64, u64)],
    ) -> Result<(Slots<Entries>, Vec<Pass>), OpenManyError>
        requires ascending { IsStrictlyIncreasing (keys_listed entries.now) }
        requires few { length entries.now ≤ shape.slots }
        ensures opened { IfOk result (λ r.
            OpensAs (map_start shape entries.now) passes r.0 r.1.items) }
        ensures refused { IsErrOf result OpenManyError.Passes
            ↔ ((passes ≡ 0) ⊎ (MAX_MANY_PASSES < passes)) }
    {
        if passes == 0 || passes > MAX_MANY_PASSES {
            return Err(OpenManyError::Passes);
        }
        let opening = Opening {
            shape: shape.with_values(),
            passes,
        };
        let (keys, values) = keys_and_values(alloc, entries)?;
        Slots::build(alloc, opening, &keys, &values)
    }
}

// The slot with which a pass of so many begins to look for a free one: if keys are spread, the passes
// begin with flag words that lie as far apart as may be, so that those which fill a table at once don't
// all change one word.
fn first_tried(opening: Opening, who: u32) -> u32
    requires who { who < opening.passes }
    requires few { opening.passes ≤ MAX_MANY_PASSES }
    ensures first { result ≡ first_tried opening.shape opening.passes who }
    ensures low { result < opening.shape.slots }
{
    let shape = opening.shape;
    let _slots = shape.slots();
    if !shape.is_spread() {
        return 0;
    }
    let before = u64::from(who) * u64::from(flag_words(&shape)) / u64::from(opening.passes);
    FLAGS * before as u32
}

impl<N: Nodes> Slots<N> {
    // A table with these keys, and with a value for each if nodes have values.
    fn build(
        alloc: Global,
        opening: Opening,
        keys: &[u64],
        values: &[u64],
    ) -> Result<(Slots<N>, Vec<Pass>), OpenManyError>
        requires ascending { IsStrictlyIncreasing keys.now }
        requires few { length keys.now ≤ opening.shape.slots }
        requires kind { opening.shape.values ≡ N.VALUES }
        requires paired { ArePaired opening.shape keys.now values.now }
        ensures opened { IfOk result (λ r.
            OpensAs (start_with opening.shape keys.now values.now) opening.passes r.0 r.1.items) }
        ensures refused { IsErrOf result OpenManyError.Passes
            ↔ ((opening.passes ≡ 0) ⊎ (MAX_MANY_PASSES < opening.passes)) }
    {
        if opening.passes == 0 || opening.passes > MAX_MANY_PASSES {
            return Err(OpenManyError::Passes);
        }
        prove!(opening.shape.slots() > 0);
        let words = opening_words(alloc, &opening.shape, keys, values)?;
        let whole = OpeningWithEntries::new(alloc, opening, keys, values)?;
        let mut passes = Vec::with_capacity(alloc, opening.passes as usize)?;
        let (table, mut seat) = Table::of_words(alloc, words.as_slice(), &whole)?;
        for who in 0..opening.passes {
            let next = table.shared.split_seat::<First>(&mut seat);
            let runner = Runner {
                seat,
                opening,
                who,
                epoch: 1,
            };
            let stepper = Stepper {
                runner,
                pool: Pool::new(),
                hand: None,
                tried: first_tried(opening, who),
                tally: Tally::new(),
            };
            let Ok(()) = passes.push(Pass { stepper, steps: 0 }) else {
                return Err(OpenManyError::Memory);
            };
            seat = next;
        }
        let slots = Slots {
            table,
            opening,
            nodes: PhantomData,
        };
        Ok((slots, passes))
    }
}
