//! Tests of the machine as the gateway meets it, over the loopback: what no clause says, as which bytes come and go, when
//! the time for a message ends, that the shutting of one port ends the others, and what exchanges with backends come to.
//!
//! | Module | Shows |
//! |---|---|
//! | `backends` | exchanges with peers that reply, close, write no HTTP, are silent or slow, and with none |
//! | `sockets` | connections over the loopback, ports that were shut, a port that another listener has |
//! | `parked` | connections whose peers are silent where a message may begin |
//! | `deadlines` | the time for a whole message, by a clock that the test moves |
//! | `readings` | the machine's clock, the first words of two lanes, and the line that says where the gateway listens |
#![tactic(auto)]

#[cfg(test)]
mod backends;
#[cfg(test)]
mod deadlines;
#[cfg(test)]
mod parked;
#[cfg(test)]
mod readings;
#[cfg(test)]
mod sockets;
