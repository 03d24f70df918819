/// What a call asks of a set, or of a map.
#[derive(Clone, Copy, Debug, PartialEq, Eq, Hash)]
pub enum Op {
    /// Adds the key: yes if it was absent.
    Insert,
    /// Takes the key out: yes if it was present.
    Remove,
    /// Looks the key up: yes if it is present.
    Has,
    /// Looks the key up in a map, and gives its value: yes if it is present.
    Get,
}

/// A call that a set or a map has answered. A history is a list of these, in the order of their
/// effects.
#[derive(Clone, Copy, Debug, PartialEq, Eq, Hash)]
pub struct Call {
    /// The number of the caller.
    pub who: u32,
    /// What was asked.
    pub op: Op,
    /// The key that it was asked of.
    pub key: u64,
    /// The answer: `true` is yes.
    pub reply: bool,
    /// The value that an insert answered yes has stored, or that a remove or a get answered yes
    /// gives. Other calls have none, and neither has any call on a set.
    pub value: Option<u64>,
}
