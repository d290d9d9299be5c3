//! What a call of an API that is a document comes to: its route, its authorizer, its key, its parameters and its body are looked at
//! in turn, and the first that fails is answered by the gateway itself; behind them its method's integration answers, or asks a
//! backend.
//!
//! ```text
//! let way = match plan_method(alloc, &api, &request, &target, facts)? {
//!     Course::Free(way) => way,
//!     Course::Consults(asking) => match ask(asking.request(alloc)?) {   // a policy, or AuthorizerFault::Failure
//!         Ok(policy) => asking.judged_by(alloc, policy)?,     // 403, x-gateway-cause: ACCESS_DENIED, where it does not allow
//!         Err(fault) => asking.failed(alloc, fault)?,         // 500, x-gateway-cause: AUTHORIZER_FAILURE
//!     },
//! };
//! let plan = match way {
//!     Way::Goes(plan) => plan,
//!     Way::Admits(keyed) => {
//!         let admission = admit(keyed.target(), keyed.value(alloc)?);   // Admission::Admitted(key), or Refused(Kind::Throttled)
//!         keyed.admitted(alloc, admission)?                             // else 429, x-gateway-cause: THROTTLED
//!     }
//! };
//! match plan {
//!     Plan::Answered(made) => ..                          // 400, x-gateway-cause: BAD_REQUEST_PARAMETERS
//!     Plan::Asks(exchange) => {
//!         let outcome = backend.exchange(alloc, &exchange.request);
//!         let made = exchange.answer(alloc, &outcome)?;   // 504, x-gateway-cause: INTEGRATION_TIMEOUT, where time lapsed
//!     }
//! }
//! ```
//!
//! | Call | Comes to, where the API has no rules |
//! |---|---|
//! | of a path that no resource has, or of a verb that the resource has not | 403, `MISSING_AUTHENTICATION_TOKEN` |
//! | of a method with an authorizer, without its header, with an empty one, or with one that its pattern does not match as a whole | 401, `UNAUTHORIZED` |
//! | of such a method, with a good token | the question whether its authorizer lets it by, before its key |
//! | whose authorizer failed: `AuthorizerFault::Failure` | 500, `AUTHORIZER_FAILURE` |
//! | whose authorizer's reply is no policy: `AuthorizerFault::Configuration` | 500, `AUTHORIZER_CONFIGURATION_ERROR` |
//! | that its policy does not allow | 403, `ACCESS_DENIED` |
//! | that its policy allows | as one of a method without an authorizer; `$context.authorizer.principalId` is the policy's |
//! | of a method with `"apiKeyRequired":true` | an admission, by the value of its header `x-api-key`, before its checks |
//! | that an admission refuses as `Kind::InvalidApiKey`, `Throttled`, `QuotaExceeded`, `StoreFailure` | 403, 429, 429, 500, of that kind |
//! | that is admitted | as one of a method that asks for no key; `$context.identity.apiKeyId` is the key |
//! | that lacks the required `shop` and `X-A`, whatever its body | 400, `BAD_REQUEST_PARAMETERS`, `Missing required request parameters: [shop, X-A]` |
//! | whose body its model refuses | 400, `BAD_REQUEST_BODY`, `Invalid request body` |
//! | of a `MOCK` whose prepared body tells 404 | the answer of the response rule for 404 |
//! | for whose body's media type no template stands, where it may not be passed on | 415, `UNSUPPORTED_MEDIA_TYPE` |
//! | whose template stops, whose `uri` is none with its values, or that maps a header with a line feed | 500, `API_CONFIGURATION_ERROR` |
//! | of an `HTTP` or `HTTP_PROXY` method else | an exchange |
//!
//! | Outcome of the exchange | Answer |
//! |---|---|
//! | a reply | by the response rule for its status; of `HTTP_PROXY`, as it replied, without what concerns one connection alone |
//! | a reply for whose status no rule is | 500, `API_CONFIGURATION_ERROR` |
//! | a failure, a lapse of time | 504, `INTEGRATION_FAILURE`, `INTEGRATION_TIMEOUT` |
//!
//! The gateway's own answers are made by `gateway_answers`, so that the rules of the API change their status, headers and body.
//! `$context.resourcePath` is the empty text before a route is found, and the resource's path behind it. A call that is refused by
//! its policy tells that policy's principal and context to the rules too.
//!
//! What is promised, for every definition, request, target and all facts: [`plan_method`] is `planned` of `specs/Plans.antt`,
//! [`Authorizing::judged_by`] and [`Authorizing::failed`] are `judged` there, and [`Exchange::answer`] is `outcome_made` of
//! `specs/Outcomes.antt`. Want of memory alone has no cause. As a law ([`laws`]), each of these answers names the one cause that it
//! has, and one without a cause names none, whatever an authorizer gives and a backend replied; the kinds of a refused admission
//! come of one alone; and an admission is asked for exactly where the method asks for a key and its authorizer, where it has one,
//! lets the call by. The request to an authorizer is made by [`Authorizing::request`] alone, so a policy that is remembered costs none.
//! Left out: the exchange with an authorizer, policies that are remembered, and what decides an admission.
#![tactic(auto)]

mod authorizing;
mod calls;
mod failing;
mod keys;
pub mod laws;
mod outcomes;
mod planning;
mod plans;

pub use authorizing::Authorizing;
pub use calls::RoutedCall;
pub use keys::{Admission, Keyed};
pub use planning::plan_method;
pub use plans::{Course, Exchange, Plan, Way};
