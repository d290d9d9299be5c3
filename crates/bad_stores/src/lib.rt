//! When a store is refused: laws of the commands `admin` and `serve`.
//!
//! The contracts of the two commands say what each status comes with: over a store with a row that no book opens with they print that
//! row and end with 1. They allow for an outside that tells nothing of its stores, and for one that refuses a store itself, as a file
//! whose columns have another form. Where an outside tells its stores and counted no fault, less is left open:
//!
//! | the first bad row of the store's tables | `admin` | `serve` |
//! |---|---|---|
//! | none | carries out the lines over these tables | holds sessions, the first over these tables, and ends with 0 |
//! | a row of a table | `refused BadStore(TABLE,ROW)`, status 1, and nothing else is done | the same |
//!
//! What is promised, as laws: [`laws::admin_refuses_bad_stores`] and [`laws::serve_refuses_bad_stores`], of every end with a status that
//! the contracts of `admin_command::administer` and `serve_command::serve` tell of. The first bad row is `bad_row` of `book_rules`.
//!
//! Left out: what is cut short by a fault or by want of memory, of which the contracts themselves tell.
#![tactic(auto)]

pub mod laws;
