//! What a closed set or map held.

/// What a set held when it was closed.
#[derive(Debug, Drop)]
pub struct Report {
    /// The keys in the set, ascending.
    pub keys: Vec<u64>,
    /// The epoch.
    pub epoch: u64,
    /// How many nodes were linked: one for each key.
    pub live: u32,
    /// How many nodes were marked and still in a list: their keys were removed, and nobody has
    /// unlinked them yet.
    pub marked: u32,
    /// How many slots had no node in a list.
    pub free: u32,
}

/// What a map held when it was closed.
#[derive(Debug, Drop)]
pub struct MapReport {
    /// The keys in the map, each with its value, ascending by key.
    pub entries: Vec<(u64, u64)>,
    /// The epoch.
    pub epoch: u64,
    /// How many nodes were linked: one for each key.
    pub live: u32,
    /// How many nodes were marked and still in a list: their keys were removed, and nobody has
    /// unlinked them yet.
    pub marked: u32,
    /// How many slots had no node in a list.
    pub free: u32,
}
