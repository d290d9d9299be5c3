//! The text functions that templates offer on strings, as Velocity 1.7 shows Java's, with places and lengths that count
//! characters.
//!
//! ```text
//! let name = substring("Grüße", 1, 4);                        // Some("rüß")
//! let Some(dot) = literal(alloc, "\\.")? else { .. };         // "."
//! let parts = split(alloc, "a.b..", dot.as_str())?;           // ["a", "b"]
//! let made = replace(alloc, "a.b", dot.as_str(), "-", 3)?;    // Some("a-b"), and None where 2 bytes are the most
//! ```
//!
//! | call | answers |
//! |---|---|
//! | `length("éÀ𝄞")` | 3 |
//! | `index_of("éÀ𝄞", "𝄞")` | `Some(2)` |
//! | `substring("abc", 3, 3)`; `substring("abc", 2, 4)` | `Some("")`; `None` |
//! | `literal("a+")`; `literal("a\\+")`; `literal("\\d")` | `None`; `a+`; `None` |
//! | `replacement("$1")`; `replacement("\\$1")` | `None`; `$1` |
//! | `split(",a,,", ",")`; `split(",", ",")`; `split("", ",")` | `["", "a"]`; `[]`; `[""]` |
//!
//! Each call's contract is one equation with a definition of `specs/`, so that its answer is known to the byte. What
//! may be long is bounded before it is made: [`replace`] finds the length first. Patterns are no regular expressions:
//! [`literal`] takes those that stand for one text, and answers `None` for all others. Letters outside ASCII keep their
//! case. Only a search for a part, and putting one text in the place of another, pass over the text more than once.
#![tactic(auto)]

mod characters;
mod exchange;
mod forms;
mod patterns;
mod pieces;
mod places;
mod single;

pub use characters::{index_of, length, substring, substring_from};
pub use exchange::replace;
pub use forms::{lower, trim, upper};
pub use patterns::{literal, replacement};
pub use pieces::split;
pub use places::{contains, ends_with, starts_with};
