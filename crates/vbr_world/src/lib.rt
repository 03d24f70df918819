//! The machine of `vbr_machine` as a program: a world that makes steps one at a time, plain and
//! exact. The names of `vbr_machine` stand here as well, so a user of the world names this crate
//! alone.
#![tactic(auto)]

pub mod world;

pub use vbr_machine::{
    Call, CoreRefusal, Effect, Event, Holding, Op, PlainMap, PlainSet, Read, SlotPlace, Step,
    Unpublished, keys_and_values, laws,
};
pub use world::{World, WorldRefusal, replay, replay_with_entries};
