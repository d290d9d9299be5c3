//! How the values of a definition document are read: flags, numbers, texts, objects, lists, patterns and templates, with
//! the faults that are told of them, and those that wait.
//!
//! ```text
//! number(alloc, &doc, 50, 29_000, "timeout", id)?     // doc: 500
//! pattern(alloc, &doc, "pattern", id)?                // doc: "2\\d\\d"
//! ```
//!
//! | Value | Read by | Answer |
//! |---|---|---|
//! | `true` | `flag(.., "body", ..)` | true |
//! | `49` | `number(.., 50, 29_000, "timeout", ..)` | `BadMember(timeout)`, at the value itself |
//! | `{"text/plain":"$a"}` | `read_templates` | one template, under its media type |
//! | `"a)("` | `pattern` | `BadPattern` |
//!
//! What the contracts promise: each call answers what the definition of `specs/Values.antt` or `specs/Texts.antt` reads of
//! the value, or just its fault, whose place is told from the value. [`defer`] keeps the first of the faults that wait.
//! Want of memory alone has no cause.
#![tactic(auto)]

mod texts;
pub mod values;
mod waiting;

pub use texts::{pattern, read_template, read_templates, token_pattern};
pub use waiting::{defer, defer_bad_mapping};
