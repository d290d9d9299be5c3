//! What a call is: a request and what its target names, an answer, a backend's reply, and what the gateway knows of the call.
//!
//! ```text
//! let target = Target::read(alloc, "/hello/v1/a%2Fb?x=1&y=a+b")?;
//! target.api       // hello
//! target.stage     // v1
//! target.path      // /a%2Fb
//! target.query     // x and 1, y and `a b`
//! header_value(request.headers.as_slice(), "user-agent")   // the first of this name, in any case
//! let answered = Kind::UnknownStage;
//! answered.status()    // 403
//! answered.message()   // "Unknown stage"
//! answered             // prints as UNKNOWN_STAGE
//! ```
//!
//! | Kind | Prints as | Status | Message |
//! |---|---|---|---|
//! | `Kind::Throttled` | `THROTTLED` | 429 | `Too Many Requests` |
//! | `Kind::StoreFailure` | `STORE_FAILURE` | 500 | `Store unavailable` |
//! | `Kind::IntegrationTimeout` | `INTEGRATION_TIMEOUT` | 504 | `Endpoint request timed out` |
//!
//! | Target | API | Stage | Path |
//! |---|---|---|---|
//! | `/a/s`, `/a/s/`, `/a/s/p/q?x` | `a` | `s` | empty, `/`, `/p/q` |
//! | `http://h:1/a/s/p` | `a` | `s` | `/p` |
//! | `/a`, `/`, `*`, `https://h/a/s` | `a`, else empty | empty | empty |
//!
//! What is promised: each kind's name, status and message are those of the tables in `specs/Kinds.antt`; a target's parts are
//! those of `specs/Target.antt`; the look-ups of names are those of `specs/Pairs.antt`.
#![tactic(auto)]

mod answer;
mod facts;
mod kind;
mod pairs;
mod request;
mod target;
mod vars;

pub use answer::Answer;
pub use facts::CallFacts;
pub use kind::Kind;
pub use pairs::{first_value, header_value, last_value};
pub use request::{Request, WireReply};
pub use target::{Target, decode_form};
pub use vars::Vars;
