//! The members of a definition that stand beside its resources: validators, authorizers, models, and the gateway's own
//! answers.
//!
//! ```text
//! read_validators(alloc, &doc, "validators", id)?     // doc: {"all":{"body":true}}: all, whose body is checked
//! ```
//!
//! | Member | Value | What refuses it, and where |
//! |---|---|---|
//! | `validators` | `{"a":{"body":1}}` | `BadMember(body)` at `/a/body` |
//! | `authorizers` | `{"a":{"header":"x"}}` | `Missing(uri)` at `/a` |
//! | `models` | `{"A":{"$ref":"#"}}` | `RefCycle(#)` at `/A` |
//! | `gatewayResponses` | `{"THROTTLED":{"template":"$a.b()"}}` | `UnsupportedMethod(3)` at `/THROTTLED/template` |
//! | the same | `{"THROTTLED":{"headers":{"host":"'x'"}}}` | `BadMapping` at `/THROTTLED/headers/host`, which waits |
//!
//! What the contracts promise: each reader answers what the definition of `specs/` reads of the value, or just its first
//! fault in the order of the document. A place is told from the value that is read, as a JSON Pointer; each object puts
//! its member's name before it, so that no place is built where there is no fault. A fault that waits (`BadMapping`) is
//! told only where all members of the document are of their form. Which reference of a model comes back is `comes_back`
//! of `specs/Models.antt`, a test, of which `proofs/Led.antt` shows that it agrees with the relation of `schema_draft4`.
//! Want of memory alone has no cause.
#![tactic(auto)]

mod authorizers;
mod gateway;
mod models;
mod small;
mod validators;

pub use authorizers::{AuthorizersRead, read_authorizers};
pub use gateway::{GatewaysRead, read_gateways};
pub use models::read_models;
pub use validators::read_validators;
