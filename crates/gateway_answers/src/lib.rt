//! The gateway's own answers, as the API that is called has them.
//!
//! ```text
//! let message = Kind::Throttled.message();
//! gateway_answer(alloc, Kind::Throttled, message, Some(&api), &facts)?   // by the API's rule THROTTLED, else DEFAULT_4XX
//! gateway_answer(alloc, Kind::UnknownStage, message, None, &facts)?      // no API is known: by the table alone
//! ```
//!
//! | Rules of the API | Answer of `MISSING_AUTHENTICATION_TOKEN` |
//! |---|---|
//! | none | 403, `content-type: application/json`, `{"message":"Missing Authentication Token"}` |
//! | `MISSING_AUTHENTICATION_TOKEN` with status 404 | 404, the rest as above |
//! | the same, and `DEFAULT_4XX` with headers and a template | 404, the rest as above: a rule counts whole |
//! | `DEFAULT_4XX` with `"x-api": "context.apiId"` and `"content-type": "'text/plain'"` | 403, `content-type: text/plain`, `x-api: shop` |
//! | a header whose value is null, or has a line feed or another control character | that header is left out |
//! | a template that stops by a limit | the body of no template |
//!
//! Each has `x-gateway-cause` with its kind, as the last of its headers. A template and `context.X` see the facts of the call,
//! the kind and the message, and no request.
//!
//! What is promised, for each of the seventeen kinds, each message, each definition and all facts: [`gateway_answer`] is the
//! definition of its name (`specs/Answers.antt`), its headers and values those of `specs/Headers.antt` and
//! `specs/Values.antt`; [`fail_by`] is the same with its cause. As a law ([`laws`]): a gateway response names its kind as its
//! cause, once, whatever the rules are. Want of memory alone has no cause.
//!
//! No part of a definition is parsed here: the sources of headers and the templates were read with the definition. A dotted
//! name is parted at its dots.
#![tactic(auto)]

mod answers;
mod bodies;
mod headers;
pub mod laws;
mod values;

pub use answers::{fail_by, gateway_answer};
