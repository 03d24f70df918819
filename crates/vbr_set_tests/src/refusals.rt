//! Rounds over the calls that take memory, as tests. A call that finds no memory must leave all as it
//! was, and give what it should when it is made again. `tests/refused-memory` runs each of them with each
//! allocation refused in turn.
mod maps;
mod members_of_maps;
mod plain_set;
mod renewal;
mod round;
mod script;
mod set;
mod table;
mod world;
