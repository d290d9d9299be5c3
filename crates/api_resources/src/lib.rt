//! The resources of a definition: their paths, methods, integrations, response rules and mappings.
//!
//! ```text
//! let (resources, tree) = read_resources(alloc, &doc, "resources", id)?;   // doc: {"/a/{n}":{"GET":{"integration":..}}}
//! ```
//!
//! | Value | What refuses it, and where |
//! |---|---|
//! | `{"/a":{"FETCH":{}}}` | `Unknown(FETCH)` at `/~1a/FETCH` |
//! | `{"/a":{"GET":{}}}` | `Missing(integration)` at `/~1a/GET` |
//! | a MOCK with `parameters`, an HTTP_PROXY with `templates` | `Unknown(parameters)`, `Unknown(templates)` at that member |
//! | two response rules without a pattern | `TwoDefaults` at the second |
//! | `{"a":{}}` | `BadPart(0)` at `/a`, which waits |
//! | a mapping of `method.request.path.m` where the path is `/a/{n}` | `BadMapping` at its target, which waits |
//!
//! What the contracts promise: `read_resources` answers what `resources_in` of `specs/Resources.antt` reads of the value,
//! or just its first fault in the order of the document, its place told from the value; with the first of the faults that
//! wait (`Tree`, `BadMapping`, `NoSuch`), of which a path's own comes before those of its methods. The tree of the paths
//! is there where no fault waits. Which members an integration may have goes by its `type`, which is looked up first; so
//! are the names of validators, authorizers and models, in the document. Want of memory alone has no cause.
//!
//! How it is built, which nothing here promises: one walk over the value; a name is looked up among the members of its
//! kind, and each path is compared with those before it. A pattern that comes again is not read again: its rules share
//! one table.
#![tactic(auto)]

mod integrations;
mod mapped;
mod methods;
mod resources;
mod rules;

pub use resources::{ResourcesRead, read_resources};
