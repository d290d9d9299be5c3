//! The book: a machine over events, with one history, over a keeper of its tables.
//!
//! A [`Book`] loads the tables of a keeper, tests them row by row and reads what they hold. Then one call of [`Book::step`] takes one
//! event: it answers a reply, adds one entry to the history, and changes the tables as the event says. A change is asked of the keeper
//! first; where that fails the reply is `Store`, the tables stay, and the entry is marked.
//!
//! ```text
//! let mut book = Book::start(alloc, MemKeeper::new(Tables::new(alloc), Vec::new(alloc)), limits)?;
//! book.step(alloc, 0, Event::Admin { moment: 0, command: Command::PutApi { api, definition } })?;   // Reply::Done
//! book.step(alloc, 0, Event::Admin { moment: 0, command: Command::Deploy { api } })?;               // Reply::Deployed(1)
//! ```
//!
//! | A keeper | What comes |
//! |---|---|
//! | whose tables have a deployment numbered 2 and none numbered 1 | `BadStore(Table::Deployments, 0)`, and the keeper back |
//! | in memory, whose call 0, the load, fails | `StoreFault`, and the keeper back |
//! | in memory, whose call 1 fails | the first change is replied `Store`; the next is made by calls 2 and 3 |
//! | any, and a history that is full | `Err(SessionFull)`, and nothing changes |
//! | any, told `Learn` of a policy for 10 seconds at the moment 1000, and then `Recall` of its name | `Remembered` below the moment 11000, `NotRemembered` from there on, and behind a `Flush` of its stage that was replied `Done` |
//!
//! What the contracts promise, over every keeper: each entry and its reply are what the rules say after the history before
//! (`Answers` of `book_rules`); only a change is not kept, and, where the keeper tells which of its calls fail, exactly where one of
//! its calls is among these. `SessionFull` comes exactly by the numbers of the history. A book that is given back has tables that are
//! those of its history, without a bad row, so that another book may start from them, and so has the keeper where it tells them; nothing is staged there; the entries that are not kept are at most
//! the faults that the keeper counted (`Keeps` of `specs/Books.antt`). So a [`Book`] is a [`turn_desk::Machine`], with no clause of its own.
//! As a law, [`laws::what_goes_through_a_book_may_cross_threads`]; and `proofs/Sent.antt` has that a book may, where its keeper may.
//!
//! Policies stand in no table: a book remembers those of its own history, the 1,024 names that were learned last, and what it
//! remembers is at each point what `policy_memory` says of that history (`IsBook.remembers`). The next book remembers none of them.
//!
//! Left out: want of memory has no cause, but it comes only where a reply shares something, a change is written or a flush is noted.
#![tactic(auto)]

mod admitting;
mod base;
mod book;
mod changes;
mod counts;
mod current;
mod finds;
pub mod laws;
mod machine;
mod names;
mod naming;
mod plan_changes;
mod plans;
mod policies;
mod prepare;
mod sizes;
mod stage_changes;
mod start;
mod stated;

pub use base::Base;
pub use book::{Book, StepFault};
pub use counts::Counts;
pub use start::StartFault;
