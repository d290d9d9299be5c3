//! Rows of keys, plans and joins stay such as may stand, whatever events come.
//!
//! The tables that a book starts from have valid rows. Each event keeps what later events ask for: a key has a name, a plan its columns,
//! and a join has a plan, a level that is full at most, and a period that has begun and is not overused (`AreFit` of `book_rules`).
//!
//! What is promised, as laws over every history from such tables: [`laws::rows_may_stand`] and [`laws::no_quota_is_overused`]. The lemmas
//! of `proofs/` say the same of one event, for `book_core`.
//!
//! Left out: the references between tables, and how many rows a table has.
#![tactic(auto)]

pub mod laws;
