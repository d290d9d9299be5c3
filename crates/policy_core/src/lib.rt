//! Policies of authorizers: which replies are policies, and what a policy decides of a request.
//!
//! An authorizer replies with a JSON object that has a `principalId`, a `policyDocument` with its
//! statements, and perhaps a `context`. A statement covers a request where one of its actions covers
//! `execute-api:Invoke`, without regard to ASCII case, and one of its resources covers the request's
//! name. In both, `*` stands for any run of characters and `?` for any one.
//!
//! ```text
//! let policy = AuthReply::read(alloc, bytes)?;
//! match decide(&policy, "arn:aws:execute-api:local:000000000000:a/s/GET/") {
//!     Decision::Allow(statement) => ..,       // no Deny covers it, and this Allow is the first that does
//!     Decision::Deny(statement) => ..,        // the first Deny that covers it
//!     Decision::NoAllow => ..,
//! }
//! ```
//!
//! | Statements, each for every action | Name | Decision |
//! |---|---|---|
//! | Allow `*`, Deny `*/POST/*` | `a/s/POST/` | `Deny(1)`: a Deny decides wherever it stands |
//! | Allow `*`, Deny `*/POST/*` | `a/s/GET/` | `Allow(0)` |
//! | Allow `a/?/c` | `a/é/c` | `Allow(0)`: `?` is a character, not a byte |
//! | Allow `A` | `a` | `NoAllow`: resources are compared with regard to case |
//!
//! | Reply | What refuses it |
//! |---|---|
//! | more than 65,536 bytes | `Malformed(65536)`, before all else |
//! | `{}` | `Malformed(0)`: the object lacks a member |
//! | `{"policyDocument":{},"principalId":7}` | `Malformed(18)`: the first fault met, in the order of the document |
//! | an `Action` of `["a",7]` | `Malformed` at the `7`: the innermost value of a wrong form |
//! | a statement with `Condition`, `NotAction` or `NotResource` | `Malformed` at the statement |
//! | `{"a":}` | `Malformed(5)`: the fault of the JSON document |
//!
//! Which trees are policies stands in `specs/Forms.antt`, the first fault of the others and the parts
//! of a policy in `specs/Replies.antt`, what a pattern covers in `specs/Patterns.antt`, and what a policy
//! decides in `specs/Decisions.antt`. [`AuthReply::read`] promises that it reads just the policies, each
//! with its parts, and that a refusal is at the first fault. [`decide`] promises the first Deny that
//! covers, else the first Allow that does, and takes no memory. The functions of [`laws`] prove that
//! the tests and the faults agree with the relations that say what they are for.
//!
//! Names of members, `Allow` and `Deny` are compared with regard to case, other members are ignored, and
//! values of a context are kept as their texts: a number as it is written.
//!
//! How it is built, not promised: a pattern is compared in one scan with a place to return to, and looks at
//! no more pairs of characters than the product of the two lengths, whatever the stars.
//!
//! Left out: conditions, principals other than `principalId`, variables in patterns, and escapes of `*` and `?`.
#![tactic(auto)]

mod children;
mod decision;
mod fault;
mod judge;
pub mod laws;
mod parts;
mod pattern;
mod policy;
mod reply;

pub use decision::decide;
pub use fault::PolicyFault;
pub use policy::{Decision, Policy, Statement};
pub use reply::{AuthReply, LIMIT};
