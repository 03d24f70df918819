//! Tests of words, the plain set and map and the machine, and of the running table, pools, checked access and
//! the list, from outside.
#![tactic(auto)]

#[cfg(test)]
mod access;
#[cfg(test)]
mod entries;
#[cfg(test)]
mod flag_words;
#[cfg(test)]
mod kept_words;
#[cfg(test)]
mod list;
#[cfg(test)]
mod listed_calls;
#[cfg(test)]
mod lost_exchanges;
#[cfg(test)]
mod lost_stores;
#[cfg(test)]
mod plain_map;
#[cfg(test)]
mod plain_set;
#[cfg(test)]
mod pools;
#[cfg(test)]
mod retiring;
#[cfg(test)]
mod rows;
#[cfg(test)]
mod running_table;
#[cfg(test)]
mod standing_still;
#[cfg(test)]
mod stores;
#[cfg(test)]
mod stores_between;
#[cfg(test)]
mod values;
#[cfg(test)]
mod words;
#[cfg(test)]
mod world;
