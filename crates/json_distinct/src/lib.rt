//! Whether no two values of a JSON document's list are the same, as `uniqueItems` and `enum` of JSON Schema draft 4 ask
//! (validation, sections 5.3.4 and 5.5.1).
//!
//! ```text
//! are_distinct(alloc, &values, &ids)?      // each is looked up among those behind it
//! ```
//!
//! | Values | Distinct |
//! |---|---|
//! | `1`, `1.0` | yes: a number with a fraction is compared by its source text |
//! | `{"a":1,"b":2}`, `{"b":2,"a":1}` | no |
//! | `[1,2]`, `[2,1]` | yes |
//!
//! A value's code is a number of 64 bits, by SipHash, that is the same for values which are the same. So a value is
//! compared with the one that has its code, and with those few that met another value's code before.
//!
//! What the contract promises: the answer is that of comparing each with each. How soon it comes is measured.
#![tactic(auto)]

mod codes;
mod distinct;
mod once;
mod pairs;
mod seen;

pub use distinct::are_distinct;
