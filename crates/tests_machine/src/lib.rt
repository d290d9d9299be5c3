//! Tests of what the program asks of the machine around it, in memory and over the machine itself.
//!
//! | Module | Shows |
//! |---|---|
//! | `lending` | a keeper and lanes that are lent by any outside and given back, each call failing in its turn |
//! | `in_memory` | what an outside in memory holds afterwards |
//! | `over_sockets` | lanes that listen at a free port of the loopback, and the line that says so |
//! | `stores` | a store that can't be opened, and one with a bad row, counted and said |
#![tactic(auto)]

#[cfg(test)]
mod in_memory;
#[cfg(test)]
mod lending;
#[cfg(test)]
mod over_sockets;
#[cfg(test)]
mod passing;
#[cfg(test)]
mod stores;
