//! Tests of sources and sinks, of messages, replies and answers, of backends and ports, of buckets and periods, and of the
//! desk, through their public calls: what no clause says, as that calls succeed with ample memory, and that the definitions
//! are what was meant.
//!
//! | Module | Shows |
//! |---|---|
//! | `base` | reading and writing whole inputs and outputs, with calls that fail; names; SplitMix64 against its reference code |
//! | `messages` | tables of bytes with the messages, replies and faults that stand in them, at 1 and 4,096 bytes a read |
//! | `backends` | exchanges with a backend that follows a script, and the requests that it keeps |
//! | `ports` | the connections of a port in their order, and looks that fail; a lane on another thread; histories that are taken |
//! | `meter` | buckets, and periods against the calendar |
//! | `desk` | callers on threads of their own, and what the closed history holds |
#![tactic(auto)]

#[cfg(test)]
mod backends;
#[cfg(test)]
mod base;
#[cfg(test)]
mod desk;
#[cfg(test)]
mod message_tables;
#[cfg(test)]
mod messages;
#[cfg(test)]
mod meter;
#[cfg(test)]
mod ports;
