//! The paths of the administration's table, found by a router.
//!
//! [`AdminPaths`] keeps a router of the thirteen paths of the table, and finds which of them a path behind `/_admin/` is. Its answer
//! has the parameters of the path.
//!
//! ```text
//! let paths = AdminPaths::new(alloc)?;
//! paths.find(alloc, "apis/hello/text")?                  // Some(Template { api: hello })
//! paths.find(alloc, "apis/hello/text/")?                 // None: a segment more, without a byte
//! ```
//!
//! | Path | Answer |
//! |---|---|
//! | `apis/{api}` | `Document { api }` |
//! | `apis/{api}/text` | `Template { api }` |
//! | `apis/{api}/deployments` | `Deployments { api }` |
//! | `apis/{api}/stages/{stage}` | `Stage { api, stage }` |
//! | `apis/{api}/stages/{stage}/canary` | `Canary { api, stage }` |
//! | `apis/{api}/stages/{stage}/promote` | `Promote { api, stage }` |
//! | `apis/{api}/stages/{stage}/flush` | `Flush { api, stage }` |
//! | `keys/{key}` | `Key { key }` |
//! | `plans/{plan}` | `Plan { plan }` |
//! | `plans/{plan}/keys/{key}` | `PlanKey { plan, key }` |
//! | `plans/{plan}/keys/{key}/grant` | `Grant { plan, key }` |
//! | `plans/{plan}/keys/{key}/usage` | `Usage { plan, key }` |
//! | `shutdown` | `Shutdown` |
//! | `apis/`, `apis//text`, `apis/hello/`, `APIS/hello`, `apis/hello/keys/ann`, `keys/ann/usage`, `shutdown/`, the empty path | none |
//!
//! A path is taken as it is written: nothing in it is decoded. A parameter is one segment that has a byte.
//!
//! What is promised: the answer is `path_in` of the path's segments, in `specs/`, where the table stands without a router. Want of
//! memory alone has no cause. As a law ([`laws`]), a path is found exactly where its literals are in their places, with one segment
//! that has a byte for each parameter.
//!
//! How it is built, not promised: the router is made once for an [`AdminPaths`], and takes memory for each path then, and none when it
//! is asked. A path that is found takes memory for the list of its segments and a copy of each parameter.
#![tactic(auto)]

mod find;
pub mod laws;
mod paths;
mod table;

pub use find::AdminPaths;
pub use paths::AdminPath;
