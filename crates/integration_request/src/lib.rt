//! What an integration makes of a request: the status that stands for a reply where it has no backend, else the request that is
//! sent there.
//!
//! ```text
//! match wire_request(alloc, &api, method, &request, &target, &found, &facts)? {
//!     Prepared::Mock(status) => {}     // mock_reply(alloc, status) is answered as a backend's reply
//!     Prepared::Wire(sent) => {}       // HTTP: the reply is answered by the response rules
//!     Prepared::Proxy(sent) => {}      // HTTP_PROXY: the reply is passed on
//! }
//! ```
//!
//! | Integration | Request | What is sent |
//! |---|---|---|
//! | HTTP, `POST http://127.0.0.1:9002/e`, an empty template | any of JSON | `POST /e`, `host: 127.0.0.1:9002`, `content-type: application/json`, `connection: close`, `content-length: 0` |
//! | the same with `header.X-Id` mapped from `header.x-id`, `querystring.n` from `querystring.m` | `?m=a+b`, `x-id: 7` | `POST /e?n=a+b`, `x-id: 7` behind the host |
//! | the same, and a template that sets `requestOverride.header.x-id` to `8` | the same | `x-id: 8` in that place |
//! | HTTP_PROXY, `GET http://127.0.0.1:9002/p` | `?a=%41`, `host: h`, `x-a: 1` | `GET /p?a=%41`, `host: 127.0.0.1:9002`, `x-a: 1`, `connection: close`, `content-length: 0` |
//! | the same with `querystring.a` mapped from `'m'` | `?a=1&b=2` | `GET /p?b=2&a=m` |
//! | `path.q` mapped from `path.p` | `p` is `a/b` | `a%2Fb` for `{q}`; `a/b` where the resource has `{p+}` |
//! | a mapping whose source has no value | any | nothing in its place |
//! | a mapped or overriding value with a line feed, an overriding `host`, a port of `9000/x` | any | [`FlowStop::Config`](integration_flow::FlowStop) |
//! | HTTP with NEVER, and no template for the media type | any | [`FlowStop::Media`](integration_flow::FlowStop), whatever else is wrong |
//!
//! HTTP sends what is mapped, over which its template writes, and nothing else of the request's headers and query but the
//! content type. HTTP_PROXY sends the request's headers but for those that concern one connection, its query as it is written,
//! and its body; a mapped header takes the place of the client's, and mapped pairs stand behind the client's others.
//!
//! What is promised, for every definition, request, target, path that was found and all facts: [`wire_request`] is `wire_of` of
//! `specs/Requests.antt`, each message to the byte, with the values of `specs/Values.antt`, the headers of
//! `specs/Headers.antt`, the query of `specs/Queries.antt` and the path of `specs/PathValues.antt`; what may not be written
//! stands in `specs/Writing.antt`. Each stop is told just where the definition has it. Want of memory alone has no cause.
//!
//! Left out: the exchange with the backend, and the answer to its reply. A request's body is read as a document twice, for its
//! template and for what is mapped of it; the path of the resource is read for each value that is mapped onto the path from one.
#![tactic(auto)]

mod asking;
mod copies;
mod headers;
mod http;
mod made;
mod mapping;
mod outgoing;
mod placing;
mod proxy;
mod queries;
mod requests;
mod wire;
mod writing;

pub use made::Prepared;
pub use requests::wire_request;
