//! The answer to one get of a batch, as it crosses to C.

/// The answer to a look-up of a map, with the value of its key.
#[repr(C)]
#[derive(Clone, Copy, Debug, PartialEq, Eq)]
pub struct Found {
    /// The value that is stored with the key if the answer is yes, else 0.
    pub value: u64,
    /// The number of the answer.
    pub answer: i32,
}
