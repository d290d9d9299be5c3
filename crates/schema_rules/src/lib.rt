//! What a schema of draft 4 says of a value: schemas as numbered rules, and the verdict of one on a value of a document.
//!
//! ```text
//! let case = Case { nodes: &nodes, targets: &targets, doc: &doc, values: &values };
//! judge_value(alloc, &case, value, schema)?            // Valid, or Invalid: the first failing part, and its keyword
//! ```
//!
//! | Rule | Value | Verdict |
//! |---|---|---|
//! | `Test(Minimum(3, true))` | `3.0` | `Invalid` by `Minimum` |
//! | `AdditionalProperties` of the names `a`, refused | `{"a":1,"c":3}` | `Invalid` at `3`, by `AdditionalProperties` |
//! | `Not(s)`, where `s` has no rule | any | `Invalid` by `Not` |
//!
//! The verdict is defined in `specs/Verdict.antt`, one clause for each keyword. What the contracts promise:
//! [`judge_value`] answers it for every document, where the schemas are sound ([`are_sound`]): each comes behind all that
//! it names for the same value, and all that is named stands. The laws of the definitions are in [`laws`].
//!
//! How it is built, not promised: a verdict costs at most one for each schema and each part of the value, schemas of one
//! value lowest first, so that the recursion is as deep as the value, whatever the schema.
//!
//! Left out: how schemas are read, which is `schema_draft4`; the keywords of one value alone, which is `schema_keywords`.
#![tactic(auto)]

mod case;
mod chain;
mod judge;
pub mod laws;
mod memo;
mod names;
mod parts;
mod rule;
mod sound;
mod verdict;

pub use case::Case;
pub use judge::judge_value;
pub use names::{is_named, no_names, push_name};
pub use rule::{Names, Node, Others, Rule};
pub use sound::are_sound;
pub use verdict::Verdict;
