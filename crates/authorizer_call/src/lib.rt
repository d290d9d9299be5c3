//! What an authorizer of tokens is asked, to the byte, and what its reply comes to.
//!
//! ```text
//! let name = arn(alloc, &target, "POST")?;                    // arn:aws:execute-api:local:000000000000:shop/prod/POST/orders
//! if let Some(asked) = authorizer_request(alloc, authorizer, "Bearer abc123", name.as_str())? {
//!     let policy = policy_of(alloc, &backend.exchange(alloc, &asked))?;
//!     is_allowed(&policy, name.as_str())                      // else ACCESS_DENIED
//! }
//! ```
//!
//! The request of that authorizer, whose uri is `http://127.0.0.1:9001/auth`:
//!
//! ```text
//! POST /auth HTTP/1.1
//! host: 127.0.0.1:9001
//! content-type: application/json
//! connection: close
//! content-length: 128
//!
//! {"type":"TOKEN","authorizationToken":"Bearer abc123","methodArn":"arn:aws:execute-api:local:000000000000:shop/prod/POST/orders"}
//! ```
//!
//! | Target, asked for by GET | Name, behind `arn:aws:execute-api:local:000000000000:` |
//! |---|---|
//! | `/a/s/x/y?q=1` | `a/s/GET/x/y` |
//! | `/a/s/`, `/a/s` | `a/s/GET/` |
//! | `/a/s//x` | `a/s/GET//x`: one `/` goes |
//! | `/a/s/%6Frders` | `a/s/GET/%6Frders`: the path stays as it is written, though routes read it decoded |
//!
//! | The exchange with the authorizer | Comes to |
//! |---|---|
//! | failed, or lapsed | [`AuthorizerFault::Failure`], which is told as `AUTHORIZER_FAILURE` |
//! | a reply of any status but 200, whatever its body | the same |
//! | 200, and a body that is no policy, as `{}` or one of 65,537 bytes | [`AuthorizerFault::Configuration`], `AUTHORIZER_CONFIGURATION_ERROR` |
//! | 200, and a policy | that policy, also where it denies all |
//!
//! What is promised: [`arn`] is `arn_of` of `specs/Names.antt`; [`authorizer_request`] is `authorizer_request_of` of
//! `specs/Requests.antt`, each request to the byte; [`policy_of`] comes to what `policy_of` of `specs/Outcomes.antt` says, and a
//! failure takes no memory; [`is_allowed`] is whether the policy's decision is to allow. Want of memory alone has no cause. As
//! laws ([`laws`]): a policy is had only of a reply of status 200 whose body states it, and each fault is told just where its
//! cause stands; an authorizer is asked just where its uri has neither stage variables nor placeholders; a call is allowed just
//! where no Deny covers it and an Allow does. What is asked depends on nothing of a call but its token and its name, since
//! `authorizer_request_of` takes nothing else of it.
//!
//! Left out: whether a request has a token, and whether it fits the authorizer's pattern (`method_checks::token`); the exchange
//! itself; policies that are remembered; the answers to these faults. The authorizer's uri is read once for each request.
#![tactic(auto)]

mod asking;
mod fault;
pub mod laws;
mod naming;
mod replying;

pub use asking::authorizer_request;
pub use fault::AuthorizerFault;
pub use naming::arn;
pub use replying::{is_allowed, policy_of};
