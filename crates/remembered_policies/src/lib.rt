//! What a session remembers of authorizers' policies, by its history alone: laws of definitions of [`book_rules`].
//!
//! A Learn has a session remember a policy under a name, which is that of a token at a stage, for some seconds. A Flush has it forget the
//! policies of a stage, and of the names under which something was learned it remembers the 1,024 that were learned last.
//!
//! What is promised, as laws over every history from any tables:
//!
//! - [`laws::the_last_lesson_is_remembered`]: a Recall is replied the policy of a Learn of its name, where that Learn is the last of the
//!   name, no Flush that was answered Done forgot it since, fewer than 1,024 other names were learned since, and its seconds are not over.
//! - [`laws::nothing_else_is_remembered`]: a Recall is replied a policy only there.
//!
//! Left out: nothing is computed here. Whether a book replies so is its own contract.
#![tactic(auto)]

pub mod laws;
