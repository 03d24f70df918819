//! `vbr_world` under its first name: the machine of `vbr_machine` as a program.
#![tactic(auto)]

pub use vbr_world::{
    Call, CoreRefusal, Effect, Event, Holding, Op, PlainMap, PlainSet, Read, SlotPlace, Step,
    Unpublished, World, WorldRefusal, keys_and_values, laws, replay, replay_with_entries, world,
};
