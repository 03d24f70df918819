//! The kinds of nodes. A table has nodes of one kind, which is known when a program is compiled: so
//! what is about values costs nothing if there are none.
ghost use Rattle.std.specs.Prelude.{Bool, true, false};

/// A kind of nodes.
pub trait Nodes {
    ghost VALUES: { Bool };

    /// Whether each node has a value behind its key.
    const VALUES: bool;
}

/// The nodes of a set: a key each, in four words.
pub struct Keys;

impl Nodes for Keys {
    ghost VALUES = { false };

    const VALUES: bool = false;
}

/// The nodes of a map: a key and its value each, in five words.
pub struct Entries;

impl Nodes for Entries {
    ghost VALUES = { true };

    const VALUES: bool = true;
}
