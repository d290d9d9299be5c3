//! Texts of a definition: names, the `uri` of a backend, and the targets and sources of mappings.
//!
//! ```text
//! read_uri(alloc, "http://localhost:80${stageVariables.p}/a/{id}")?     // the pieces of its port and of its path
//! request_source(alloc, "/a/{id}", "method.request.path.id")?      // Some(Parameter(Path, "id"))
//! ```
//!
//! | Text | As | Answer |
//! |---|---|---|
//! | `http://localhost:${stageVariables.p}/` | a `uri` | one, whose port is a stage variable |
//! | `http://localhost:655${stageVariables.p}${stageVariables.p}/` | a `uri` | one: nothing in the place of `p` makes the port 655 |
//! | `http://localhost:65536/`, `http://localhost:80`, `http://h:80/` | a `uri` | none |
//! | `http://localhost:80/${x}` | a `uri` | one, in whose path stand a `$` and the placeholder `x` |
//! | `integration.request.header.Host` | a target | none: that header is the gateway's own |
//! | `method.request.path.n`, where the resource is `/{m}` | a source | none |
//! | `'it's'` | a source | the text `it's` |
//!
//! What the contracts promise: each call answers the definition of `specs/Names.antt`, `specs/Uris.antt` or
//! `specs/Mappings.antt`, and `None` exactly where the text is none. Want of memory alone has no cause. As laws ([`laws`]),
//! a text is read as a `uri` just where some values of its stage variables and placeholders give it the form, and refused
//! just where none do.
#![tactic(auto)]

pub mod laws;
mod mappings;
mod names;
mod texts;
mod uri;

pub use mappings::{
    gateway_target, has_parameter, parameter, plain_source, request_source, request_target,
    response_source, response_target,
};
pub use uri::{is_plain, read_uri};
