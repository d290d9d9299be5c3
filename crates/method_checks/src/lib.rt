//! What a request for a documented API is checked by before it is integrated: where it goes, the token that it hands to the
//! authorizer of its method, and whether it has its required parameters and a body that is valid.
//!
//! ```text
//! let target = Target::read(alloc, request.target.as_str())?;
//! match route(alloc, &api, &request, &target)? {
//!     Route::Hit(found, method) => {
//!         token(alloc, &api, method, &request)?                        // Token::Taken: `Bearer abc`
//!         validate(alloc, &api, method, &request, &target, &found)?    // Some: the kind, and its message
//!     }
//!     Route::Missing => {}     // 403, MISSING_AUTHENTICATION_TOKEN
//!     Route::TextApi => {}     // the text answers
//! }
//! ```
//!
//! | Request, where `/a` has GET and ANY, `/a/{x}` ANY, `/a/{p+}` GET and `/a/b` POST | Route |
//! |---|---|
//! | `GET` or `HEAD` of `/a` or `/a/` | `Hit`: GET's method, or that of ANY |
//! | `GET` of `/a/%63`, `/a/c%2Fd` | `Hit` of `/a/{x}`, x being `c`, `c/d` |
//! | `GET` of `/a/c/d` | `Hit` of `/a/{p+}`, p being `c/d` |
//! | `GET` of `/a/b`: the resource is chosen before the method | `Missing` |
//! | `GET` of `/a//b` or `/a//`: no part takes an empty segment | `Missing` |
//!
//! | Header `authorization`, where the pattern is `Bearer [a-z]+` | Token |
//! |---|---|
//! | `Bearer abc` | `Taken` |
//! | absent, empty, `a Bearer abc`, `Bearer abc!` | `Bad` |
//! | any, where the method has no authorizer | `None` |
//!
//! | Request, where the query's `shop` and the header `X-A` are required, and a model stands for `application/json` | Fails by |
//! |---|---|
//! | `?shop=+` and no `x-a` | `BAD_REQUEST_PARAMETERS`, `Missing required request parameters: [shop, X-A]` |
//! | `?shop=1`, `x-a: 1`, and the body `{` or one that the model refuses | `BAD_REQUEST_BODY`, `Invalid request body` |
//! | the same with `content-type: text/plain`, and no model for it or for `$default` | nothing |
//! | any, where the method has no validator | nothing |
//!
//! What is promised, for every definition, request, target and path that was found: [`route`] answers `route_of` of
//! `specs/Routing.antt`, and no other resources and methods than the definition's; [`token`] answers `token_of` of
//! `specs/Tokens.antt`; [`validate`] answers `failed_check` of `specs/Validating.antt`, all names in its message to the byte;
//! a body is checked by the model of its media type (`media_types`). Want of memory alone has no cause. As laws ([`laws`]): what
//! a request hits is the best resource by the relation of `resource_tree`, with its parameters; it goes nowhere just where no
//! path matches, or the best resource lacks both entries; a verb's own entry comes before that of `ANY`; each parameter that
//! is missing is named once, in the order of the definition.
//!
//! At a request nothing of the definition is parsed: its paths stand as a tree, its patterns and models compiled.
//!
//! Left out: what is asked of an authorizer, keys, integrations, and the answers of the gateway's own that these checks lead
//! to. Not promised: that memory suffices, and the time that a pattern or a model takes.
#![tactic(auto)]

mod authorizing;
pub mod laws;
mod messages;
mod missing;
mod routes;
mod routing;
mod segments;
mod tokens;
mod validating;

pub use authorizing::token;
pub use routes::Route;
pub use routing::route;
pub use tokens::Token;
pub use validating::validate;
