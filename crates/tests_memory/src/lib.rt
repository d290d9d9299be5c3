//! Tests of what is remembered of policies, by public calls alone.
//!
//! ```text
//! Learn("test", "a", "first", 10, 1_000)     // a row: at a stage and under a token, a principal, for 10 seconds, from this moment on
//! Ask("test", "a", 10_999, Some("first"))    // a row: who is remembered at a moment
//! ```
//!
//! Nothing is promised here: `policy_memory` says what is remembered, and this crate that its calls succeed, and that the answers are
//! what was meant.
#![tactic(auto)]

#[cfg(test)]
mod remembers;
