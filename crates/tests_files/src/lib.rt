//! Tests of the commands of the program that read files, and of `load`, where a file or the output fails, through `run`: the bytes that
//! are printed and the statuses. What else they print is under `tests/cases`.
//!
//! | Module | Shows |
//! |---|---|
//! | `failing` | calls for files and writes that fail |
#![tactic(auto)]

#[cfg(test)]
mod failing;
