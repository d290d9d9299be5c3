//! Tests of the book over keepers in memory.
//!
//! | Module | Shows |
//! |---|---|
//! | `books` | commands and requests one after another, what is kept and lost, and a book over what another one left |
//! | `policies` | policies that are learned, recalled and flushed, and what they count towards a session's bytes |
//! | `stores` | tables that a book does not start from, each with the row that is named |
//! | `columns` | columns of pairs, written and read |
#![tactic(auto)]

#[cfg(test)]
mod books;
#[cfg(test)]
mod columns;
#[cfg(test)]
mod policies;
#[cfg(test)]
mod stores;
