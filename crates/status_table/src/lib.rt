//! Which statuses the pattern of a response rule matches: its answers for the statuses 100 to 999, computed once. A document's
//! patterns share their tables: a pattern that is repeated is not read again.
//!
//! ```text
//! let table = StatusTable::build(alloc, "2\\d\\d")?;   // Err(BadPattern) where the text is not a pattern
//! table.holds(201)                                     // true, with no memory
//! let mut tables = StatusTables::new(alloc);
//! let first = tables.table(alloc, "2..")?;             // reads the pattern
//! let second = tables.table(alloc, "2..")?;            // the same table, shared
//! ```
//!
//! | Pattern | Status | Answer |
//! |---|---|---|
//! | `2\d\d` | 201 | true |
//! | `2` | 201 | false: a pattern matches the whole text `201` |
//! | `4|5\d\d` | 404 | false: it takes `4` and `500` to `599` |
//! | `a)(?:b` | | `BadPattern`: it is refused alone |
//! | `(?x)2 #` | | `BadPattern`: it is refused as `^(?:(?x)2 #)$` |
//!
//! What the contracts promise: `holds` answers whether the pattern matches the whole three-digit text of the status, and
//! `BadPattern` comes only where the pattern, or the pattern between `^(?:` and `)$`, is no pattern of `regex`.
//!
//! Each table that [`StatusTables`] gives is the one of the pattern that was asked for, and `BadPattern` comes only where
//! [`StatusTable::build`] may answer it for that pattern. Earlier patterns change no answer.
//!
//! Not promised: how often a pattern is read (that it is once is measured), and that a pattern is compiled. `regex` bounds
//! the memory of a compiled pattern, and a refusal by that bound is an error of memory.
#![tactic(auto)]

mod table;
mod tables;

pub use pattern_core::PatternFault;
pub use table::{StatusTable, anchored};
pub use tables::StatusTables;
