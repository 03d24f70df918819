//! Tests of the set, and of the calls that take memory, from outside.
#![tactic(auto)]

#[cfg(test)]
mod alone;
#[cfg(test)]
mod balances;
#[cfg(test)]
mod batches;
#[cfg(test)]
mod emptying;
#[cfg(test)]
mod given_back;
#[cfg(test)]
mod held_slots;
#[cfg(test)]
mod iterating;
#[cfg(test)]
mod listing_threads;
#[cfg(test)]
mod many;
#[cfg(test)]
mod map_rows;
#[cfg(test)]
mod maps;
#[cfg(test)]
mod members;
#[cfg(test)]
mod members_of_maps;
#[cfg(test)]
mod refusals;
#[cfg(test)]
mod renewals;
#[cfg(test)]
mod reports;
#[cfg(test)]
mod set;
#[cfg(test)]
mod seventy_slots;
#[cfg(test)]
mod slots;
#[cfg(test)]
mod stores;
#[cfg(test)]
mod threads;
#[cfg(test)]
mod tokens;
#[cfg(test)]
mod worker;
