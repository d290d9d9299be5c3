//! The policies of authorizers that a gateway remembers, so that it need not ask an authorizer about each request.
//!
//! * A policy is learned under a [`PolicyName`]: an API, a stage, an authorizer and a token.
//! * A [`Lesson`] is what is learned: the policy, for how many seconds it may be used, the moment, and the place of this in the session.
//! * A [`PolicyMemory`] learns, is flushed at an API and stage, and recalls.
//!
//! ```text
//! let mut memory = PolicyMemory::start(alloc)?;
//! memory.learn(name, Lesson { policy, ttl: 10, at: 1_000, place: 0 })?;
//! memory.recall(&name, 10_999)                    // Some(the policy)
//! memory.flush(alloc, "hello", "test", 1)?;
//! memory.recall(&name, 10_999)                    // None, if the name is of this API and stage
//! ```
//!
//! | Learned at 1,000 for 10 seconds, recalled | Answer |
//! |---|---|
//! | at 10,999 | the policy |
//! | at 11,000 | `None`: it may be used below 11,000 |
//! | behind a flush of its API and stage | `None`, until it is learned anew |
//! | behind a flush of another stage | the policy |
//! | behind 1,023 other names | the policy |
//! | behind 1,024 other names, however often it was recalled between | `None`: 1,024 names have a place |
//!
//! # What is proved
//! - What [`PolicyMemory::recall`] answers is what is remembered, as `specs/Remembered.antt` says it of all that was learned and flushed.
//!   [`PolicyMemory::learn`] and [`PolicyMemory::flush`] add one happening to these, or find no memory and change nothing.
//! - [`laws`]: of 1,025 names the one that was learned longest ago goes, a flush forgets what was learned at its stage and nothing else,
//!   and a name that is flushed, or whose seconds are over, keeps its place.
//!
//! The places that a caller gives must grow from call to call; others may lie between them.
//!
//! A recall costs one look into a map and one over the flushed stages, a row each. The map's hasher has a fixed seed, so tokens that are
//! chosen for it slow it down, and change no answer.
//!
//! Left out: which policy an authorizer gives, and what it decides of a request.
#![tactic(auto)]

mod flushes;
pub mod laws;
mod lessons;
mod names;

pub use lessons::{Lesson, PolicyMemory};
pub use names::PolicyName;
