//! Patterns of models, of response rules and of authorizers: a compiled `regex`, which a contract sees as its source.
//!
//! ```text
//! let vowel = Pattern::build(alloc, "[aeiou]")?;       // Err(BadPattern) where the source is no pattern
//! vowel.searches(alloc, "rhythm")?                     // false: no match stands anywhere in the text
//! let mut searcher = vowel.searcher(alloc)?;           // for many texts: what a search works with is made once
//! searcher.searches("gateway")                         // true
//! ```
//!
//! | Source | Text | Answer |
//! |---|---|---|
//! | `b+` | `abbc` | true: a match may stand anywhere |
//! | `^b+$` | `abbc` | false |
//! | `.` | one character of several bytes | true: a pattern sees characters |
//! | `a)(b` | | `BadPattern` |
//! | 251 groups in one another | | `BadPattern`: `regex` reads 250 levels |
//!
//! What the contracts promise: a source is compiled only where it is a pattern by the grammar of `regex` and nests no
//! deeper than 250 levels, `BadPattern` comes only where it is not, and a search answers true exactly where a match
//! stands somewhere in the text, by the meaning that `regex` proves of its own search. A pattern may go to another
//! thread and be shared with one (`proofs/Sent.antt`).
//!
//! Not promised: that a pattern is compiled. `regex` bounds the memory of a compiled pattern (10 MiB), and a refusal by
//! that bound is want of memory.
#![tactic(auto)]

mod pattern;

pub use pattern::{Pattern, PatternFault, Searcher};
