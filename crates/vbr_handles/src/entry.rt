//! An entry of a map, as it crosses to C.

/// A key with its value.
#[repr(C)]
#[derive(Clone, Copy, Debug, PartialEq, Eq)]
pub struct Entry {
    /// The key.
    pub key: u64,
    /// The value that is stored with it.
    pub value: u64,
}
