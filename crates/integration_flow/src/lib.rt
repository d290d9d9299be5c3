//! The way back of an integration: which response rule a backend's status selects, and what the client is answered then; and
//! what both ways share, as the body that an integration prepares of a request.
//!
//! ```text
//! if let Some(rule) = choose_response(&api, method, reply.status) {                                 // no memory is taken
//!     let answer = client_answer(alloc, rule, &request, &target, &found, &facts, &reply)?;
//! }
//! let status = mock_status(alloc, integration, &request, &target, &found, &facts)?;                 // of type MOCK: 100 to 999
//! let reply = mock_reply(alloc, status);                                                            // answered as others are
//! ```
//!
//! | Rules | Status | Chosen |
//! |---|---|---|
//! | a default, `2\d\d`, `20.` | 204 | `2\d\d`: a default counts behind all patterns, and of patterns the first |
//! | a default, `2\d\d` | 404 | the default |
//! | `2` | 200 | none: a pattern takes the whole status |
//!
//! | Rule of status 200 | Reply | Answer |
//! |---|---|---|
//! | no more | 201, `content-type: text/csv`, `x-b: 1`, `a,b` | 200, `content-type: text/csv`, `a,b` |
//! | `X-Id` mapped from `integration.response.body.id`, `x-none` from `.none` | `{"id":"a b"}` | `content-type: application/json`, `X-Id: a b`, the body |
//! | a template for `application/json` that sets `responseOverride.header.x-id` and `.status` to 404 | `{}` | 404, its text; `x-id` in the place of a mapped `X-Id`, else behind all headers |
//! | a mapped value with a line feed, an override of `host`, of the status by `600`, or a template that stops | any | [`FlowStop::Config`] |
//!
//! The content type comes first: the mapped one, else the media type whose template is rendered, else the reply's own, else
//! JSON. A second mapped content type stays in its place.
//!
//! | Templates of an integration | Passthrough | Request | Prepared body |
//! |---|---|---|---|
//! | one for `application/json` | any | without a content type, or `Application/JSON; charset=utf-8` | the template's text |
//! | the same | `WHEN_NO_MATCH` | `text/plain` | the request's body |
//! | the same | `WHEN_NO_TEMPLATES`, `NEVER` | `text/plain` | [`FlowStop::Media`] |
//! | none | `WHEN_NO_TEMPLATES` | any | the request's body |
//!
//! Of an integration without a backend the member `statusCode` of the prepared body, a whole number from 100 to 999, stands for
//! a reply's status.
//!
//! What is promised, for every definition, request, reply and all facts: [`choose_response`] is `chosen` of
//! `specs/Choosing.antt`; [`client_answer`] is `client_of` of `specs/Answers.antt`, to the byte, with the headers of
//! `specs/Headers.antt` and the values of `specs/Values.antt`; [`prepared`] is that of `specs/Preparing.antt`, [`mock_status`]
//! that of `specs/Mocking.antt`. Each stop is told just where the definition has it; want of memory alone has no cause. As laws
//! ([`laws`]): of all rules that take a status the first is chosen, and the one without a pattern just where none takes it.
//!
//! Left out: the request to a backend, and replies that are passed on as they are. A reply's body is read as a document twice,
//! for its template and for what is mapped of it.
#![tactic(auto)]

mod answering;
mod bodies;
mod choosing;
mod headers;
pub mod laws;
mod mocking;
mod preparing;
mod rendering;
mod replies;
mod statuses;
mod stops;
mod values;
mod written;

pub use answering::client_answer;
pub use bodies::ReadBody;
pub use choosing::choose_response;
pub use headers::{are_value_bytes, are_writable, written_over};
pub use mocking::{mock_reply, mock_status};
pub use preparing::prepared;
pub use stops::FlowStop;
pub use values::{context_text, variable_text};
pub use written::Written;
