// What a world starts with: its shape, and the keys that it opens with, with their values.
ghost use Rattle.std.specs.Prelude.{◌≡◌, ◌<◌, ◌≤◌, length, IfOk};
ghost use Rattle.std.specs.List.Sorted.{IsStrictlyIncreasing};
ghost use Rattle.vbr_words.specs.Buckets.{bucket_of};
ghost use Rattle.vbr_machine.specs.Machine.{shape_word};
ghost use Rattle.vbr_machine.specs.Start.{ArePaired, IsStart, start_with};

use std::alloc::{AllocError, Global};
use std::marker::Model;
use vbr_words::Shape;
use vbr_words::shape::shape_word;

// A shape, and the keys that a world of it opens with, with their values if nodes have values.
#[derive(Drop)]
pub struct Start {
    shape: Shape,
    keys: Vec<u64>,
    values: Vec<u64>,
}

impl Model for Start {
    ghost use Rattle.vbr_machine.specs.Start as declared;

    ghost Value = { declared.Start };

    ghost use Rattle.vbr_machine.specs.Start.{IsStart, start_with};

    ghost view = { λ s. start_with s.shape s.keys.items s.values.items };

    ghost invariant = { λ s. IsStart (start_with s.shape s.keys.items s.values.items) };
}

impl Start {
    // This shape with a copy of these keys and values.
    pub fn new(
        alloc: Global,
        shape: Shape,
        keys: &[u64],
        values: &[u64],
    ) -> Result<Self, AllocError>
        requires ascending { IsStrictlyIncreasing keys.now }
        requires few { length keys.now ≤ shape.slots }
        requires paired { ArePaired shape keys.now values.now }
        ensures { IfOk result (λ start. start ≡ start_with shape keys.now values.now) }
    {
        prove!(shape.slots() > 0);
        let mut key_copy = Vec::new(alloc);
        key_copy.extend_from_slice(keys)?;
        let mut value_copy = Vec::new(alloc);
        value_copy.extend_from_slice(values)?;
        Ok(Start {
            shape,
            keys: key_copy,
            values: value_copy,
        })
    }

    // The number of slots.
    pub fn slots(&self) -> u32
        ensures slots { result ≡ self.now.shape.slots }
        ensures start { IsStart self.now }
    {
        self.shape.slots()
    }

    // The number of buckets.
    pub fn buckets(&self) -> u32
        ensures buckets { result ≡ self.now.shape.buckets }
        ensures start { IsStart self.now }
    {
        self.shape.buckets()
    }

    // The last epoch.
    pub fn last_epoch(&self) -> u64
        ensures last_epoch { result ≡ self.now.shape.last_epoch }
        ensures start { IsStart self.now }
    {
        self.shape.last_epoch()
    }

    // The word that says what the shape is.
    pub fn shape_word(&self) -> u64
        ensures { result ≡ shape_word self.now }
    {
        shape_word(&self.shape)
    }

    // Whether nodes have values.
    pub fn has_values(&self) -> bool
        ensures { result ≡ self.now.shape.values }
    {
        self.shape.has_values()
    }

    // The bucket of a key.
    pub fn bucket_of(&self, key: u64) -> u32
        ensures bucket { result ≡ bucket_of self.now.shape key }
        ensures in_shape { result < self.now.shape.buckets }
    {
        self.shape.bucket_of(key)
    }
}
