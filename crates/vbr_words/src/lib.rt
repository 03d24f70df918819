//! The words of a set in fixed memory: its shape, its packed link words and flag words, and the
//! places of words.
#![tactic(auto)]

pub mod flags;
pub mod link;
pub mod nodes;
pub mod place;
pub mod shape;

pub use link::{Layout, Link, WideWord, decode, encode, version_of, wide, with_mark, with_version};
pub use nodes::{Entries, Keys, Nodes};
pub use place::{At, Place, place_index, place_index_in, word_count, words_of_node};
pub use shape::{Shape, ShapeError, SpreadError};
