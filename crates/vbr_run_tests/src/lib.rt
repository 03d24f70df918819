//! Tests of scripts, of the player and of the program, from outside.
#![tactic(auto)]

#[cfg(test)]
mod player;
#[cfg(test)]
mod scripts;
