//! The shape of a set: how many slots and buckets it has, its last epoch, and whether its nodes
//! have values.
ghost use Rattle.std.specs.Prelude.{◌≡◌, ◌+◌, ◌*◌, ◌/◌, ◌<◌, ◌≤◌, ◌%◌, ◌^◌, ◌⊎◌, true, false, None, Some, IfSome, MatchOption, MatchResult, is_some};
ghost use Rattle.vbr_words.specs.declared.shape.TheConstants.{MAX_SPREAD_BUCKETS};
ghost use Rattle.vbr_words.specs.Buckets.{bucket_of, mixed, multiplier_of};
ghost use Rattle.vbr_words.specs.Dimensions.{IsShape};
ghost use Rattle.vbr_words.specs.Shapes.{last_epoch_for, shape_error};
ghost use Rattle.vbr_words.specs.Packing.{max_epoch, slot_bits};
ghost use Rattle.vbr_words.specs.declared.link.TheConstants.{MAX_SLOTS, SLOT_BITS};

use crate::link::{Layout, MAX_SLOTS};
use std::error::Error;
use std::fmt;
use std::marker::Model;

/// The greatest number of buckets that [`Shape::new`] takes.
pub const MAX_BUCKETS: u32 = 65_536;

/// The greatest number of buckets that keys are spread over, by [`Shape::spread_over`] and
/// [`Shape::spread_with`].
pub const MAX_SPREAD_BUCKETS: u32 = 2_147_483_648;

/// A last epoch that each shape takes: there is room for it with up to 16,777,215 slots, and if there are more,
/// it means the greatest one, which [`max_epoch`] gives.
pub const MAX_EPOCH: u64 = 549_755_813_887;

/// What keys are multiplied by if they are spread and no seed is given: 2^64 divided by the golden
/// ratio, an odd number.
pub const MIXER: u64 = 0x9E37_79B9_7F4A_7C15;

// Its inverse: the product of the two is 1, modulo 2^64.
const UNMIXER: u64 = 0xF1DE_83E1_9937_733D;

/// How many slots and buckets a set has, whether its keys are spread over the buckets, and by which
/// number, and its last epoch; and whether each node has a value beside its key. None of the numbers is 0.
#[derive(Clone, Copy, Debug, PartialEq, Eq, Hash)]
pub struct Shape {
    slots: u32,
    buckets: u32,
    last_epoch: u64,
    spread: Option<u64>,
    values: bool,
    layout: Layout,
}

impl Model for Shape {
    ghost use Rattle.std.specs.Prelude.{◌≡◌};
    ghost use Rattle.std.proofs.Common.{sym};
    ghost use Rattle.vbr_words.specs.Dimensions.{Dimensions, IsShape};
    ghost use Rattle.vbr_words.specs.Buckets.{IsOdd};
    ghost use Rattle.vbr_words.specs.Packing.{slot_bits};

    ghost Value = { Dimensions };

    ghost view = { λ s. record {
      slots = s.slots;
      buckets = s.buckets;
      spread = s.spread;
      last_epoch = s.last_epoch;
      values = s.values;
    } };

    ghost invariant = { λ s. IsOdd s.spread × IsShape (record {
      slots = s.slots;
      buckets = s.buckets;
      spread = s.spread;
      last_epoch = s.last_epoch;
      values = s.values;
    }) × (s.layout ≡ slot_bits s.slots) };

    ghost inverse = { λ d. record {
      slots = d.slots;
      buckets = d.buckets;
      last_epoch = d.last_epoch;
      spread = d.spread;
      values = d.values;
      layout = slot_bits d.slots;
    } };

    ghost inverse_ok = { λ a h. λ i. record {
      slots = a.slots;
      buckets = a.buckets;
      last_epoch = a.last_epoch;
      spread = a.spread;
      values = a.values;
      layout = sym h.2 i;
    } };
}

/// Why three numbers are no shape. The tests are made in this order.
#[derive(Clone, Copy, Debug, PartialEq, Eq, Hash)]
pub enum ShapeError {
    /// The number of slots is 0 or above `MAX_SLOTS`.
    Slots,
    /// The number of buckets is 0 or above `MAX_BUCKETS`.
    Buckets,
    /// The last epoch is 0 or above what [`max_epoch`] gives for so many slots.
    LastEpoch,
}

impl fmt::Display for ShapeError {
    ghost use Rattle.std.specs.Prelude.{Some};
    ghost use Rattle.vbr_words.specs.Messages.{shape_error_text};

    ghost output = { λ e. Some (shape_error_text e) };

    fn fmt<W: fmt::Write>(&self, f: &mut fmt::Formatter<W>) -> fmt::Result {
        match self {
            ShapeError::Slots => write!(f, "the number of slots is not from 1 to {MAX_SLOTS}"),
            ShapeError::Buckets => {
                write!(f, "the number of buckets is not from 1 to {MAX_BUCKETS}")
            }
            ShapeError::LastEpoch => write!(
                f,
                "the last epoch is 0, or greater than so many slots leave room for"
            ),
        }
    }
}

impl Error for ShapeError {}

/// Keys can't be spread over so many buckets: the number is 0 or above `MAX_SPREAD_BUCKETS`.
#[derive(Clone, Copy, Debug, PartialEq, Eq, Hash)]
pub struct SpreadError;

impl fmt::Display for SpreadError {
    ghost use Rattle.std.specs.Prelude.{Some};
    ghost use Rattle.vbr_words.specs.Messages.{spread_error_text};

    ghost output = { λ e. Some spread_error_text };

    fn fmt<W: fmt::Write>(&self, f: &mut fmt::Formatter<W>) -> fmt::Result {
        write!(
            f,
            "the number of buckets is not from 1 to {MAX_SPREAD_BUCKETS}"
        )
    }
}

impl Error for SpreadError {}

impl Shape {
    /// The shape of these numbers, whose nodes have no values, or what is wrong with the first
    /// faulty one. [`MAX_EPOCH`] as the last epoch means the greatest of the shape if that is less.
    pub fn new(slots: u32, buckets: u32, last_epoch: u64) -> Result<Self, ShapeError>
        ensures { MatchResult result
            (λ shape. (shape_error slots buckets last_epoch ≡ None) × (shape ≡ record {
              slots = slots;
              buckets = buckets;
              spread = None;
              last_epoch = last_epoch_for slots last_epoch;
              values = false;
            }))
            (λ error. shape_error slots buckets last_epoch ≡ Some error) }
    {
        if slots == 0 || slots > MAX_SLOTS {
            return Err(ShapeError::Slots);
        }
        if buckets == 0 || buckets > MAX_BUCKETS {
            return Err(ShapeError::Buckets);
        }
        let last_epoch = last_epoch_for(slots, last_epoch);
        if last_epoch == 0 || last_epoch > max_epoch(slots) {
            return Err(ShapeError::LastEpoch);
        }
        Ok(Shape {
            slots,
            buckets,
            last_epoch,
            spread: None,
            values: false,
            layout: Layout::of(slots),
        })
    }

    /// The same shape with this many buckets, from 1 to `MAX_SPREAD_BUCKETS`, and keys spread over
    /// them: the bucket of a key is found from a mixture of all its bits, so that keys with a pattern,
    /// as multiples of a page, fall into all buckets alike. It takes two multiplications and no
    /// division. Lists and reports stay in the order of keys. Against keys that somebody chooses to
    /// fall into one bucket it does nothing; [`Shape::spread_with`] does.
    pub fn spread_over(self, buckets: u32) -> Result<Self, SpreadError>
        ensures { MatchResult result
            (λ shape. (0 < buckets) × (buckets ≤ MAX_SPREAD_BUCKETS)
            × (shape ≡ record self { buckets = buckets; spread = Some MIXER }))
            (λ error. (buckets ≡ 0) ⊎ (MAX_SPREAD_BUCKETS < buckets)) }
    {
        self.spread_with(buckets, 0)
    }

    /// As [`Shape::spread_over`], with the mixture of the seed: one that is drawn at random and
    /// kept secret puts two keys into one bucket with a probability of at most 2 / buckets if these are
    /// a power of two, whatever the keys, so nobody can choose keys that share one. Each of the 2^63
    /// mixtures belongs to two seeds, whose difference is 2^63, and the mixture of `spread_over` to 0.
    pub fn spread_with(self, buckets: u32, seed: u64) -> Result<Self, SpreadError>
        ensures { MatchResult result
            (λ shape. (0 < buckets) × (buckets ≤ MAX_SPREAD_BUCKETS)
            × (shape ≡ record self { buckets = buckets; spread = Some (multiplier_of seed) }))
            (λ error. (buckets ≡ 0) ⊎ (MAX_SPREAD_BUCKETS < buckets)) }
    {
        if buckets == 0 || buckets > MAX_SPREAD_BUCKETS {
            return Err(SpreadError);
        }
        Ok(Shape {
            buckets,
            spread: Some(multiplier_of(seed)),
            ..self
        })
    }

    /// The same shape, whose nodes have values.
    pub fn with_values(self) -> Self
        ensures { result ≡ record self { values = true } }
    {
        Shape {
            values: true,
            ..self
        }
    }

    /// The same shape, whose nodes have no values.
    pub fn without_values(self) -> Self
        ensures { result ≡ record self { values = false } }
    {
        Shape {
            values: false,
            ..self
        }
    }

    /// Whether each node has a value beside its key.
    #[inline]
    pub fn has_values(&self) -> bool
        ensures values { result ≡ self.now.values }
        ensures shape { IsShape self.now }
    {
        self.values
    }

    /// Whether keys are spread over the buckets, as [`Shape::spread_over`] has it.
    #[inline]
    pub fn is_spread(&self) -> bool
        ensures spread { result ≡ is_some self.now.spread }
        ensures shape { IsShape self.now }
    {
        self.spread.is_some()
    }

    /// The seed by which keys are spread over the buckets, below 2^63: with it [`Shape::spread_with`]
    /// gives the same mixture. None if they aren't spread.
    pub fn seed(&self) -> Option<u64>
        ensures seed { MatchOption result (self.now.spread ≡ None)
            (λ seed. self.now.spread ≡ Some (multiplier_of seed)) }
        ensures low { IfSome result (λ seed. seed < 2 ^ 63) }
    {
        let multiplier = self.spread?;
        Some(seed_of(multiplier))
    }

    /// The number of slots.
    #[inline]
    pub fn slots(&self) -> u32
        ensures slots { result ≡ self.now.slots }
        ensures shape { IsShape self.now }
    {
        self.slots
    }

    /// The number of buckets.
    #[inline]
    pub fn buckets(&self) -> u32
        ensures buckets { result ≡ self.now.buckets }
        ensures shape { IsShape self.now }
    {
        self.buckets
    }

    /// The last epoch: the epoch counter rises to it and no further.
    #[inline]
    pub fn last_epoch(&self) -> u64
        ensures last_epoch { result ≡ self.now.last_epoch }
        ensures shape { IsShape self.now }
    {
        self.last_epoch
    }

    /// How the link words of a table of this shape are kept.
    #[inline]
    pub fn layout(&self) -> Layout
        ensures layout { result ≡ slot_bits self.now.slots }
        ensures few { result ≤ SLOT_BITS }
        ensures shape { IsShape self.now }
    {
        self.layout
    }

    /// The bucket of a key: the key modulo the number of buckets, or, if keys are spread, the bucket
    /// that its mixed bits name.
    #[inline]
    pub fn bucket_of(&self, key: u64) -> u32
        ensures bucket { result ≡ bucket_of self.now key }
        ensures in_shape { result < self.now.buckets }
    {
        let buckets = u64::from(self.buckets);
        if let Some(multiplier) = self.spread {
            part_of(mixed(multiplier, key), self.buckets)
        } else if buckets.is_power_of_two() {
            (key & (buckets - 1)) as u32
        } else {
            (key % buckets) as u32
        }
    }
}

// The last epoch that a number asks for if there are so many slots.
fn last_epoch_for(slots: u32, asked: u64) -> u64
    requires { slots ≤ MAX_SLOTS }
    ensures { result ≡ last_epoch_for slots asked }
{
    if asked == MAX_EPOCH {
        asked.min(max_epoch(slots))
    } else {
        asked
    }
}

/// The greatest last epoch of a shape with so many slots: a version, beside the number of a slot and the mark, has to
/// hold each epoch. With up to 16,777,215 slots it is at least [`MAX_EPOCH`].
pub fn max_epoch(slots: u32) -> u64
    requires { slots ≤ MAX_SLOTS }
    ensures { result ≡ max_epoch slots }
{
    (1 << (31 + slots.leading_zeros())) - 1
}

/// The word that says what a shape is: its slots, and its last epoch above as many bits as name a slot.
pub fn shape_word(shape: &Shape) -> u64
    ensures { result ≡ shape.now.slots + 2 ^ slot_bits shape.now.slots * shape.now.last_epoch }
{
    u64::from(shape.slots) + shape.layout.mark() * shape.last_epoch
}

// The part of so many buckets that mixed bits are of 2^32: a product and a shift, whatever the number of buckets.
#[inline]
fn part_of(bits: u64, buckets: u32) -> u32
    requires half { bits < 2 ^ 32 }
    ensures part { result ≡ bits * buckets / 2 ^ 32 }
{
    (bits * u64::from(buckets) >> 32) as u32
}

// The bits of a key, mixed: the upper half of a product.
#[inline]
fn mixed(multiplier: u64, key: u64) -> u64
    ensures mixed { result ≡ mixed multiplier key }
    ensures half { result < 2 ^ 32 }
{
    key.wrapping_mul(multiplier) >> 32
}

// What a seed has keys multiplied by.
fn multiplier_of(seed: u64) -> u64
    ensures multiplier { result ≡ multiplier_of seed }
    ensures odd { result % 2 ≡ 1 }
{
    seed.wrapping_mul(2).wrapping_add(1).wrapping_mul(MIXER)
}

// The lesser of the two seeds that have keys multiplied by an odd number.
fn seed_of(multiplier: u64) -> u64
    requires odd { multiplier % 2 ≡ 1 }
    ensures seed { multiplier ≡ multiplier_of result }
    ensures low { result < 2 ^ 63 }
{
    multiplier.wrapping_mul(UNMIXER) / 2
}
