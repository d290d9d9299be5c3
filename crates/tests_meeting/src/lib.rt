//! Tests of two lanes that meet: each has a call to a method over HTTP, and stands at the gate before its exchange with nothing of the
//! book in its hands.
//!
//! | Module | Shows |
//! |---|---|
//! | `meetings` | both lanes of a session enter before either leaves, each asks its backend once, and is answered |
//! | `runs` | the same of the two lanes that the command `serve` is lent |
//! | `lanes`, `pets` | the lanes and the tables that the tests stand on |
#![tactic(auto)]

#[cfg(test)]
mod lanes;
#[cfg(test)]
mod meetings;
#[cfg(test)]
mod pets;
#[cfg(test)]
mod runs;
