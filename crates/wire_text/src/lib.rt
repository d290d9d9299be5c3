//! The texts of a request to a backend, and what a proxy passes on.
//!
//! ```text
//! if let Some(to) = destination(alloc, &uri, variables, &values)? {                  // 127.0.0.1, 9002, /items/a%2Fb
//!     let target = with_query(alloc, to.path.as_str(), query_text(alloc, &pairs)?.as_str())?;   // /items/a%2Fb?n=1&s=a+b
//!     let bytes = message(alloc, "GET", target.as_str(), &headers, body)?;           // GET /items/a%2Fb?n=1&s=a+b HTTP/1.1 ..
//! }
//! let answer = proxy_answer(alloc, &reply)?;                                         // of a reply that is passed on
//! ```
//!
//! | Uri | Values | Destination |
//! |---|---|---|
//! | `http://127.0.0.1:9002/x/{p}` | p is `a/b` | port 9002, `/x/a%2Fb` |
//! | the same | p is `a/b`, greedy | port 9002, `/x/a/b` |
//! | the same | p is `a b`, then `c` | port 9002, `/x/a%20b`: the first of a name counts |
//! | `http://localhost:${stageVariables.port}/` | port is `00080` | port 80, written `00080`, `/` |
//! | the same | port is `9000/x`, `0`, `123456`, empty, or no variable | none |
//! | `http://localhost:80/${stageVariables.v}` | v is `a?b` or `a b` | none |
//!
//! | Headers of a reply | Headers of the proxied answer |
//! |---|---|
//! | `X-A: 1`, `Content-Type: text/csv`, `Connection: close` | `content-type: text/csv`, `x-a: 1` |
//! | `X-Gateway-Cause: THROTTLED`, `Content-Length: 2` | `content-type: application/json` |
//!
//! What is promised: [`destination`] is `destination_of` of `specs/Destinations.antt`, and names none just where that has none;
//! [`query_text`] and [`with_query`] are as `specs/Queries.antt` says, [`message`] as `specs/Messages.antt`, to the byte;
//! [`passed_on`] and [`proxy_answer`] as `specs/Passing.antt`. Want of memory alone has no cause. As laws ([`laws`]): no header
//! that concerns one connection, and no cause of the gateway's own answers, is passed on, either way.
//!
//! Left out: which headers, queries and path values a request has; that names and values may be written, which the caller
//! tests; headers that a `connection` header names.
#![tactic(auto)]

mod aiming;
mod coding;
pub mod laws;
mod passing;
mod pieces;
mod places;
mod query;
mod writing;

pub use aiming::destination;
pub use passing::{passed_on, proxy_answer};
pub use places::{Destination, PathValue};
pub use query::{query_text, with_query};
pub use writing::message;
