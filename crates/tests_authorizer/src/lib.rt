//! Tests of tokens that no connection carries, of what their authorizers are asked and how long they are waited for, and of want of memory: what no run
//! of the built program shows. All else of authorizers is in `tests/cases/play`.
//!
//! | File | What it holds |
//! |---|---|
//! | `calls.rt` | tokens with characters below 32, with the request to the byte; uris that no definition has; an exchange for which memory is wanting |
//! | `tokens.rt` | a header of a blank, and one with a line feed |
#![tactic(auto)]

#[cfg(test)]
mod calls;
#[cfg(test)]
mod tokens;
