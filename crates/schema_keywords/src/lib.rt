//! The keywords of JSON Schema draft 4 that look at one value alone, and whether a value meets them.
//!
//! ```text
//! is_met(alloc, &values, k, &Test::MinLength(2))?      // "é" is one character: false
//! ```
//!
//! | Keyword | Value | Met |
//! |---|---|---|
//! | `Minimum(3, true)` | `3`, `3.0` | no |
//! | the same | `3.5`, `"x"` | yes: a keyword about another type is met |
//! | `MultipleOf(2)` | `4.0` | no: a number that is not whole is no multiple |
//! | `UniqueItems` | `[1, 1.0]` | yes |
//!
//! What a keyword asks stands in `specs/Keywords.antt`, one clause for each; [`is_met`] answers exactly that.
#![tactic(auto)]

mod keyword;
mod meets;

pub use keyword::{Keyword, Test, TypeName};
pub use meets::{is_met, keyword_of};
