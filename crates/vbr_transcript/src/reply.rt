//! What a line of a script is answered.

/// What a line of a script was answered.
#[derive(Clone, Copy, Debug, PartialEq, Eq)]
pub enum Reply {
    /// The answer of the set, or of the map, is yes.
    Yes,
    /// A remove or a get in a map is answered yes: this is the value that was stored with the key.
    Value(u64),
    /// The answer is no.
    No,
    /// An insert found no slot: the set or map is full.
    Full,
    /// An insert found the last epoch spent.
    Spent,
    /// The budget of steps was used up.
    Tired,
}
