//! Numbered things and what each stands on: an order in which each comes behind what it stands on, and whether one
//! thing leads to another.
//!
//! ```text
//! let edges = [[], [0], [1, 0]];                   // 1 stands on 0, and 2 on both
//! leads(alloc, &edges, 2, 0)?                      // true
//! leads(alloc, &edges, 0, 2)?                      // false
//! order(alloc, &edges)?                            // Some: the ranks 0, 1 and 2
//! order(alloc, &[[1], [0]])?                       // None: 0 leads back to itself
//! ```
//!
//! What the contracts promise: `leads` answers exactly whether a chain leads there. `order` answers ranks, each below the
//! number of things and above the ranks of what the thing stands on, or `None`, and then some thing stands on one that
//! leads back to it. A thing past the last stands on nothing. Want of memory alone has no cause.
//!
//! How it is built, not promised: both are linear in the things and the edges, and recurse nowhere.
#![tactic(auto)]

mod ranks;
mod reach;

pub use ranks::order;
pub use reach::leads;
