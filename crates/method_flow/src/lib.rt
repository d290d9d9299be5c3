//! What is answered to a request under a stage: the answer of a text API, and the gateway's own.
//!
//! ```text
//! let made = answer_text(alloc, &template, &request, &target, &facts)?;   // 200, content-type: text/plain, and the text
//! let made = answer_itself(alloc, Kind::UnknownStage)?;                   // 403, x-gateway-cause: UNKNOWN_STAGE
//! ```
//!
//! | Answer | Status | Headers | Body | Cause |
//! |---|---|---|---|---|
//! | of a text API, its template `Hi $input.body!` over `Ann` | 200 | `content-type: text/plain` | `Hi Ann!` | none |
//! | of a text API whose render stops | 500 | `content-type: application/json`, `x-gateway-cause: API_CONFIGURATION_ERROR` | `{"message":"Internal server error"}` | that kind |
//! | the gateway's own of `Kind::RequestTooLarge` | 413 | `content-type: application/json`, `x-gateway-cause: REQUEST_TOO_LARGE` | `{"message":"Request Entity Too Large"}` | that kind |
//!
//! What is promised: each answer is that of the definition of its name (`specs/Answers.antt`), with the one cause that it names;
//! [`render_text`] gives the text, or the limit that the render meets first, by the definition of rendering in `vtl_eval` with the
//! roots of `gateway_vars`; the budget of a render, [`BUDGET`], stands here alone. Left out: routes, checks and integrations.
#![tactic(auto)]

mod answers;
mod texts;

pub use answers::{Made, answer_itself};
pub use texts::{BUDGET, answer_text, render_text};
