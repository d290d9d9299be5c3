//! Tests of the keeper over a file of SQLite, each in a folder of its own.
//!
//! | Module | Shows |
//! |---|---|
//! | `lasting` | rows of every table, kept, and there again for the next keeper; what a commit and a refusal leave |
//! | `starting` | files that a keeper starts from, and files that it does not |
//! | `loading` | rows that were written past the keeper, with the one that is named |
//! | `sharing` | a second keeper of the same file, and what a copy of the files holds |
#![tactic(auto)]

#[cfg(test)]
mod lasting;
#[cfg(test)]
mod loading;
#[cfg(test)]
mod rows;
#[cfg(test)]
mod sharing;
#[cfg(test)]
mod starting;
