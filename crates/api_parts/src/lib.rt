//! The parts of a definition, and why a definition is refused.
//!
//! ```text
//! ApiFault { place: "/models/A", cause: ApiCause::Model(ModelFault::RefCycle("#")) }     // prints RefCycle(#)
//! Mapping { place: Header, name: "x-shop", origin: Parameter(Query, "shop") }
//! ```
//!
//! | Cause | As it is printed |
//! |---|---|
//! | `Missing("resources")` | `Missing(resources)` |
//! | `Template(Unclosed(0))` | `Unclosed(0)` |
//! | `BadMember("")`, of the whole document | `BadMember(~)` |
//!
//! What is promised: a cause prints as `printed` of `specs/Printed.antt` says. How places are built stands in
//! `specs/Places.antt`, and how the members of an object are read, whatever they are, in `specs/Reading.antt`.
#![tactic(auto)]

mod fault;
mod parts;
mod places;
mod uri;

pub use fault::{ApiCause, ApiFault, ModelFault};
pub use parts::{
    Authorizer, GatewayRule, Integration, IntegrationKind, Mapping, Method, Origin, Parameter,
    ParameterPlace, Passthrough, Resource, ResponseRule, TokenAuthorizer, Validator,
};
pub use places::{below, no_memory};
pub use uri::{Host, Piece, Uri};
