//! Administration over HTTP: the routes, what a body asks for, and the answers.
//!
//! [`order_of`] tells what a request asks of the book, or how it is answered where it asks nothing: by [`find_route`], the route
//! of its verb and target, whose path a router finds (crate `admin_paths`), and by [`ask_for`], what the body asks for. [`answer_reply`] makes the answer to what the book replied.
//! No such answer names a cause.
//!
//! ```text
//! let target = Target::read(alloc, "/_admin/apis/hello/text")?;
//! let route = find_route(alloc, "PUT", &target)?;                    // Some(PutTemplate { api: hello })
//! let command = ask_for(alloc, route, b"Hi $input.body!")?;          // Ok(PutApi)
//! answer_reply(alloc, &Reply::Done)?                                 // 200, {"reply":"done"}
//! ```
//!
//! | Verb and path | Body | Command |
//! |---|---|---|
//! | `PUT /_admin/apis/{api}` | a definition document | PutApi |
//! | `PUT /_admin/apis/{api}/text` | a template | PutApi |
//! | `POST /_admin/apis/{api}/deployments` | | Deploy |
//! | `PUT /_admin/apis/{api}/stages/{stage}` | `DEPLOYMENT`, and variables as `name=value`, parted by one space | PutStage |
//! | `PUT /_admin/apis/{api}/stages/{stage}/canary` | `DEPLOYMENT SHARE`, and variables | PutCanary |
//! | `POST /_admin/apis/{api}/stages/{stage}/promote` | | PromoteCanary |
//! | `POST /_admin/apis/{api}/stages/{stage}/flush` | | Flush |
//! | `PUT /_admin/keys/{key}` | `VALUE on` or `VALUE off` | PutKey |
//! | `PUT /_admin/plans/{plan}` | `THROTTLE QUOTA`, and stages as `API/STAGE` | PutPlan |
//! | `PUT /_admin/plans/{plan}/keys/{key}` | | JoinKey |
//! | `POST /_admin/plans/{plan}/keys/{key}/grant` | `AMOUNT` | Grant |
//! | `GET /_admin/plans/{plan}/keys/{key}/usage` | | Usage |
//! | `POST /_admin/shutdown` | | Shutdown |
//!
//! Fields are coded as crate `record_fields` reads them; a THROTTLE, a QUOTA and an `API/STAGE` are those of crate `plan_fields`.
//!
//! | Where | Answer |
//! |---|---|
//! | the command was carried out | 200, `{"reply":"done"}` or `{"reply":"deployed 1"}` |
//! | a usage | 200, `{"reply":"usage period=DAY:0 allowance=7 used=1 remaining=6"}` |
//! | the book refused it | 409, `{"reply":"refused NoApi"}` |
//! | the change was not kept | 500, `{"reply":"store"}` |
//! | the body has not its form, or a definition a fault | 400, `{"refused":"BadRecord"}`, `{"refused":"Missing(version) at ~"}` |
//! | no route has this verb and path | 404, `{"refused":"NoRoute"}` |
//! | a page of another site made a browser send it | 403, `{"refused":"Origin"}` |
//! | the body is too large | 413, `{"refused":"TooLarge"}` |
//!
//! Browsers send the field `origin` with every request of a page that is not a GET or HEAD. Its value is `http://` or
//! `https://`, then `127.0.0.1`, `localhost` or `[::1]`, and perhaps a port, where the page is of this machine; any other
//! value, such as `null`, refuses the request. A request without the field comes from no page.
//!
//! Parameters are taken as they are written: nothing is decoded, and a trailing slash is a segment without a byte, which no
//! route has. Where the table gives no body, one that is sent is ignored.
//!
//! What is promised: each answer is that of the definition of its name (`order_of`, `route_in`, `asked_by`, `replied_made` in `specs/`); memory that runs out alone has no cause. As a law ([`laws`]), a route is found exactly where the verb is its own and the
//! path has its literals in their places and one segment with a byte for each parameter.
#![tactic(auto)]

mod answers;
mod asking;
pub mod laws;
mod orders;
mod origins;
mod plans;
mod routes;

pub use answers::answer_reply;
pub use asking::ask_for;
pub use orders::order_of;
pub use routes::{Route, find_route, is_admin};
