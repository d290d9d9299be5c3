//! Tests of the program through `run` that no run of the built program shows: its reads and writes fail at a chosen call, or come in pieces, and its session
//! is full after a few entries. What scripts print is in `tests/cases/play`.
//!
//! | Module | Shows |
//! |---|---|
//! | `scripts` | pieces of any size, a full session; what the tests stand on |
//! | `failing` | each read and each write failing once, and which fault is told |
#![tactic(auto)]

#[cfg(test)]
mod failing;
#[cfg(test)]
mod scripts;
