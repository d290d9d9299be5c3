//! Tests of words of the program that no case runs: a server on a port that is named, and the most calls of `load`. All other words are in
//! `tests/cases/words`.
//!
//! ```text
//! (&["serve", "memory", "8080", "4"], "serve memory 8080 4")    // a row: the words, and what they ask for
//! ```
#![tactic(auto)]

#[cfg(test)]
mod words;
