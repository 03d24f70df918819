//! The entries of a map: keys with their values.
ghost use Rattle.std.specs.Prelude.{◌≡◌, IfOk};
ghost use Rattle.vbr_machine.specs.Maps.{keys_listed, values_listed};

use std::alloc::{AllocError, Global};

/// The keys of entries, and their values, each in the order of the entries.
pub fn keys_and_values(
    alloc: Global,
    entries: &[(u64, u64)],
) -> Result<(Vec<u64>, Vec<u64>), AllocError>
    ensures keys { IfOk result (λ both. both.0.items ≡ keys_listed entries.now) }
    ensures values { IfOk result (λ both. both.1.items ≡ values_listed entries.now) }
{
    let keys = entries.iter().map(|entry| entry.0).collect(alloc)?;
    let values = entries.iter().map(|entry| entry.1).collect(alloc)?;
    Ok((keys, values))
}
