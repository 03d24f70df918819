ghost use Rattle.std.specs.Prelude.{◌≡◌, ℕ, List, [], IfOk, OnOk, OnErr, map};
ghost use Rattle.std.specs.List.Sorted.{IsStrictlyIncreasing};
ghost use Rattle.vbr_machine.specs.History.{request_of};
ghost use Rattle.vbr_machine.specs.Maps.{entries_in, keys_listed, MapLeads, StoreAsked};
ghost use Rattle.vbr_machine.specs.Plain.{MapAnswers, MapRefuses, MapStops};

use crate::history::{Call, Op};
use std::alloc::{AllocError, Global};
use std::collections::BTreeMap;
use std::marker::Model;

/// A map from `u64` keys to `u64` values for one caller. Contracts see it as the list of its
/// entries, ascending by key.
#[derive(Debug, Drop)]
pub struct PlainMap {
    entries: BTreeMap<u64, u64>,
    alloc: Global,
}

impl Model for PlainMap {
    ghost Value = { List (ℕ × ℕ) };

    ghost view = { λ m. m.entries.entries };
}

impl PlainMap {
    /// The empty map. It takes no memory yet, and keeps the allocator for later.
    pub fn new(alloc: Global) -> Self
        ensures { result ≡ [] }
    {
        PlainMap {
            entries: BTreeMap::new(alloc),
            alloc,
        }
    }

    /// Answers one call: its reply, and the value that an insert answered yes has stored or that a
    /// remove or a get answered yes gives. Only an insert uses `value`, and only one of an absent
    /// key takes memory; if that is refused the map stays as it was.
    pub fn apply(&mut self, op: Op, key: u64, value: u64) -> Result<(bool, Option<u64>), AllocError>
        ensures answers { IfOk result (MapAnswers self.old self.new op key value) }
        ensures refused { OnErr result (MapRefuses self.old self.new op key) }
    {
        match op {
            Op::Insert => {
                if self.entries.contains_key(&key) {
                    return Ok((false, None));
                }
                self.entries.insert(key, value)?;
                Ok((true, Some(value)))
            }
            Op::Remove => {
                let removed = self.entries.remove(&key);
                Ok((removed.is_some(), removed))
            }
            Op::Has => Ok((self.entries.contains_key(&key), None)),
            Op::Get => {
                let found = self.entries.get(&key).copied();
                Ok((found.is_some(), found))
            }
        }
    }

    /// Answers calls in order, and writes each reply and each value into its call. An insert stores
    /// the value that stands in its call, or 0 if there is none. The answers make a legal
    /// history that leads to the entries that the map then has. Memory is refused only at an insert
    /// of a key that is absent then: the calls before it are answered so, and the others stay as
    /// they were.
    pub fn apply_all(&mut self, calls: &mut [Call]) -> Result<(), AllocError>
        ensures requests { map request_of calls.new ≡ map request_of calls.old }
        ensures ok { OnOk result (MapLeads (entries_in self.old) calls.new (entries_in self.new)) }
        ensures stored { OnOk result (StoreAsked calls.old calls.new) }
        ensures refused { OnErr result (MapStops self.old self.new calls.old calls.new) }
    {
        for call in calls.iter_mut() {
            let asked = call.value.unwrap_or(0);
            let (reply, value) = self.apply(call.op, call.key, asked)?;
            call.reply = reply;
            call.value = value;
        }
        Ok(())
    }

    /// The keys with their values, ascending by key.
    pub fn entries(&self) -> Result<Vec<(u64, u64)>, AllocError>
        ensures entries { IfOk result (λ entries. entries.items ≡ self.now) }
        ensures ascending { IfOk result
            (λ entries. IsStrictlyIncreasing (keys_listed entries.items)) }
    {
        self.entries
            .iter()
            .map(|(key, value)| (*key, *value))
            .collect(self.alloc)
    }
}
