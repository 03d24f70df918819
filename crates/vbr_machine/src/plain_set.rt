ghost use Rattle.std.specs.Prelude.{◌≡◌, ℕ, [], List, IfOk, OnOk, OnErr, map};
ghost use Rattle.std.specs.List.Sorted.{IsStrictlyIncreasing};
ghost use Rattle.vbr_machine.specs.Keys.{keys_of};
ghost use Rattle.vbr_machine.specs.History.{Leads, request_of};
ghost use Rattle.vbr_machine.specs.Plain.{SetAnswers, SetRefuses, SetStops};

use crate::history::{Call, Op};
use std::alloc::{AllocError, Global};
use std::collections::BTreeSet;
use std::marker::Model;

/// A set of `u64` keys for one caller. Contracts see it as the list of its keys, ascending.
#[derive(Debug, Drop)]
pub struct PlainSet {
    keys: BTreeSet<u64>,
    alloc: Global,
}

impl Model for PlainSet {
    ghost Value = { List ℕ };

    ghost view = { λ s. s.keys.keys };
}

impl PlainSet {
    /// The empty set. It takes no memory yet, and keeps the allocator for later.
    pub fn new(alloc: Global) -> Self
        ensures { result ≡ [] }
    {
        PlainSet {
            keys: BTreeSet::new(alloc),
            alloc,
        }
    }

    /// Answers one call. Only an insert of an absent key takes memory; if that is refused the
    /// set stays as it was.
    pub fn apply(&mut self, op: Op, key: u64) -> Result<bool, AllocError>
        ensures answers { IfOk result (SetAnswers self.old self.new op key) }
        ensures refused { OnErr result (SetRefuses self.old self.new op key) }
    {
        match op {
            Op::Insert => Ok(self.keys.insert(key)?),
            Op::Remove => Ok(self.keys.remove(&key)),
            Op::Has | Op::Get => Ok(self.keys.contains(&key)),
        }
    }

    /// Answers calls in order, and writes each reply into its call. The replies make a legal
    /// history that leads to the keys that the set then has. Memory is refused only at an insert of
    /// a key that is absent then: the calls before it are answered so, and the others stay as they
    /// were.
    pub fn apply_all(&mut self, calls: &mut [Call]) -> Result<(), AllocError>
        ensures requests { map request_of calls.new ≡ map request_of calls.old }
        ensures ok { OnOk result (Leads (keys_of self.old) calls.new (keys_of self.new)) }
        ensures refused { OnErr result (SetStops self.old self.new calls.old calls.new) }
    {
        for call in calls.iter_mut() {
            call.reply = self.apply(call.op, call.key)?;
        }
        Ok(())
    }

    /// The keys, ascending.
    pub fn keys(&self) -> Result<Vec<u64>, AllocError>
        ensures keys { IfOk result (λ keys. keys.items ≡ self.now) }
        ensures ascending { IfOk result (λ keys. IsStrictlyIncreasing keys.items) }
    {
        self.keys.iter().copied().collect(self.alloc)
    }
}
