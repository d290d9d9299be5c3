//! The canary of a stage: which of its calls are taken to it, and with which variables.
//!
//! ```text
//! takes_canary(2_500, 12_499)                  // true: 2,499 is below the share
//! takes_canary(2_500, 2_500)                   // false
//! merged(alloc, &stage, &canary)               // env=live,color=red and color=blue,new=1: env=live,color=blue,new=1
//! ```
//!
//! | Share | Words that are taken, by their last four digits |
//! |---|---|
//! | 0 | none |
//! | 1 | 0000 |
//! | 2,500 | 0000 to 2499 |
//! | 10,000 | all |
//!
//! What is promised: a word is taken exactly where its rest by 10,000 is below the share, so at 0 none is and at 10,000 each; and the merged
//! variables are the stage's in their order, with the canary's value where it has one, and then those that the canary alone has, in
//! theirs. As a law, each name has the canary's value where the canary has one, and else the stage's.
//!
//! Left out: where a word comes from, and which deployments a stage and its canary point to.
#![tactic(auto)]

pub mod laws;
mod merging;
mod share;

pub use merging::merged;
pub use share::{WHOLE_SHARE, takes_canary};
