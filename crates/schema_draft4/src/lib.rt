//! Models: JSON Schema draft 4, read from a document and checked against others.
//!
//! ```text
//! let schema = Schema::read(alloc, &doc, doc.root())?;     // doc: {"type":"integer","minimum":3}
//! schema.check(alloc, &value)?                             // value: 3.5: Invalid(its root, TypeIs)
//! ```
//!
//! | Schema | Value | Answer |
//! |---|---|---|
//! | `{"minimum":3,"exclusiveMinimum":true}` | `3.0` | `Invalid` by `Minimum` |
//! | the same | `3.5` | `Valid` |
//! | `{"properties":{"a":{}},"additionalProperties":false}` | `{"a":1,"c":3}` | `Invalid` at `3`, by `AdditionalProperties` |
//! | `{"uniqueItems":true}` | `[1,1.0]` | `Valid` |
//! | `{"minimum":1.5}` | | `BadKeyword` at `1.5` |
//! | `{"$ref":"#"}` | | `RefCycle(#)` |
//!
//! What a schema is stands in `specs/Reading.antt`, and when a reference comes back in `specs/Cycles.antt`; what it says
//! of a value is said and judged in `schema_rules`. What the contracts promise: [`Schema::read`] answers
//! the schemas that the part is, with what its references name, none of which comes back; or the first fault in reading
//! order, and where there is none, the name of the first reference that comes back. [`Schema::check`] answers the
//! definition's verdict, for every schema and every document. What a fault or a verdict names is a part of the document.
//! The laws of the verdict are in `schema_rules`. Want of memory alone has no cause.
//!
//! How it is built, not promised: a schema is numbered nodes, and references go by number. A check costs at most one
//! verdict for each schema and each part of the value, schemas of one value lowest first, so that its recursion is as deep
//! as the value, whatever the schema. `uniqueItems` looks each item up among the others; `enum` compares a value with each
//! of its own.
//!
//! Left out: `patternProperties`, `dependencies`, references to other documents, bounds with a fraction; `format` is
//! ignored. No clause says that want of memory is never answered in place of a schema; tests show it.
#![tactic(auto)]

mod cycle;
mod definitions;
mod fault;
pub mod laws;
mod link;
mod look;
mod read;
mod read_keyword;
mod read_rule;
mod reference;
mod schema;
mod word;

pub use fault::SchemaFault;
pub use schema::Schema;
pub use schema_keywords::{Keyword, TypeName};
pub use schema_rules::Verdict;
