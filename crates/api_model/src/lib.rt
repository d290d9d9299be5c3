//! Definitions of APIs, read from their documents.
//!
//! ```text
//! let api = Api::read(alloc, br#"{"version":1,"resources":{"/":{"GET":{"integration":{"type":"MOCK"}}}}}"#)?;
//! api.entry(0, "GET")          // Some(0): the number of the method
//! api.integration(0).kind      // IntegrationKind::Mock
//! Api::text(alloc, "Hi $input.body!")?                     // a template that answers every request
//! ```
//!
//! | Document | What refuses it, and where |
//! |---|---|
//! | `{"version":1}` | `Missing(resources)`, at the document itself |
//! | `{"version":1,"models":{"A":{"$ref":"#"}},"resources":{}}` | `RefCycle(#)` at `/models/A` |
//! | `{"bogus":1}` | `Unknown(bogus)` at `/bogus`: what is missing is told behind the members |
//! | two resources `/{a}/x` and `/{b}/y` | `Clash(1)` at `/resources/~1{b}~1y` |
//! | a method with `"validator":"v"`, and no such validator | `NoSuch(v)` at that member, when all others are of their form |
//! | 1,048,577 bytes | `TooLong` |
//!
//! `docs/API-DOCUMENT.md` has the document for people who write definitions. What the contracts promise: an [`Api`] is seen
//! as its form, text or document, and its source, and these fix all its parts. [`Api::read`] and [`Api::text`] answer one
//! exactly where `stated` of `specs/Definition.antt` has parts, or just the fault that it has, with its place; want of
//! memory alone has no cause. Each getter gives its part of `parts_of`, takes no memory, and answers `None` just where the
//! definition has none. `stated` is a function of the bytes: it reads the members in their order, by the definitions of
//! `api_reading`, `api_members` and `api_resources`.
//!
//! Where the document names an authorizer, a validator or a model for a method, [`Api::authorizer`], [`Api::validator`]
//! and [`Api::model`] answer that one, and `None` just where it names none; so does [`Api::token_pattern`] where the
//! authorizer has a pattern. [`Api::backend`] gives the pieces of an integration's `uri`, so that no request reads it again.
//!
//! As laws ([`laws`]): an `Api` may go to another thread and be shared with one; each verb of a resource has the number of a
//! method, so [`Api::entry`] answers no other; what a method names is found, and has the name; each
//! `method.request.path.N` names a parameter of the resource's path, and has a value where a request for that resource is
//! found; each integration with a backend has the pieces of its `uri`.
//!
//! Not promised: that what is stated is read, since want of memory is free.
#![tactic(auto)]

mod api;
mod document;
pub mod laws;

pub use api::Api;
pub use api_parts::{
    ApiCause, ApiFault, Authorizer, GatewayRule, Host, Integration, IntegrationKind, Mapping,
    ModelFault, Origin, Parameter, ParameterPlace, Passthrough, Piece, ResponseRule, Uri,
    Validator,
};
