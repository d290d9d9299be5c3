//! The values of `$input`, `$context`, `$util` and `$stageVariables` in mapping templates, and what templates write over.
//!
//! * [`RequestRoots`] and [`ResponseRoots`] are the roots of a request's template and of a response's: the
//!   [`Roots`](vtl_eval::Roots) over which a template is rendered. They borrow a request, the parts of its target, what was found
//!   of its path, the facts of the call, and a response's also the reply. The body is read as a document once, when they are made.
//! * [`FailureRoots`] are those of a gateway response: they see the facts of the call, the response's kind and its message, but
//!   no request, and nothing may be written.
//! * [`Overrides`] are the values that a template wrote over those of its message.
//! * [`input_value`], [`context_value`], [`util_value`] and [`variable_value`] are the values below one root, and
//!   [`escape_java_script`], [`url_encode`], [`base64_decode`] and the others those of one method.
//!
//! ```text
//! let template = Template::read(alloc, "$input.json('$.a') $context.httpMethod")?;
//! let mut roots = RequestRoots::new(alloc, &request, &target, &found, &facts)?;
//! let rendered = render(alloc, &template, &mut roots, 1_000_000)?;   // [1,2.50] POST
//! let overrides = roots.overrides(alloc)?;
//! ```
//!
//! | Below a root | Value, for the body `{"a": [1, 2.50, "é"]}` and `POST /t/v1/p/q?x=1&x=2` with the header `X-A: one` |
//! |---|---|
//! | `$input.body` | the body, with U+FFFD for what is no UTF-8 |
//! | `$input.json('$.a')`, `$input.json('$.a[*]')` | `[1,2.50,"é"]`, the same: a path with a star gives a list |
//! | `$input.json('$.b')`, `$input.json('$.b[*]')` | `""`, two quotes; `[]` |
//! | `$input.path('$.a[1]')`, `$input.path('$.b')` | `2.50`; null |
//! | `$input.params('x')`, `$input.params('x-a')`, `$input.params('n')` | `1`; `one`; the empty text |
//! | `$input.params()` | `{path={}, querystring={x=1}, header={x-a=one}}` |
//! | `$context.path`, `$context.requestId` | `/v1/p/q`; `0000000000000003` at place 3 |
//! | `$context.identity.userAgent`, `$context.none`, `$context['stage']` | null: there is no such header; null; null |
//! | `$context.error.message`, `.messageString`, `.responseType` | null; in a gateway response `Unknown stage`, `"Unknown stage"`, `UNKNOWN_STAGE` |
//! | `$input.body`, `$context.httpMethod`, `$context.path`, `$context.identity.userAgent`, in a gateway response | null |
//! | `$util.escapeJavaScript("it's é")` | `it\'s \u00E9` |
//! | `$util.base64Decode('YWI=')`, `$util.base64Decode('YWI')` | `ab`; null: padding is needed |
//! | `$util.urlEncode('a b')`, `$util.urlEncode(1)` | `a+b`; null: that is no text |
//! | `$stageVariables.env`, `$stageVariables['env']` | the variable, or null |
//!
//! | `#set` | What it does |
//! |---|---|
//! | `$context.requestOverride.header.Accept = 'a'`, in a request's template | writes over `accept` |
//! | `$context.responseOverride.status = 404`, in a response's | writes over the status |
//! | `$context.stage = 'x'`, or one of these in the other template | nothing |
//!
//! What is promised: the roots mean `root` and `failure_root` of `specs/Held.antt`, which say each value by the request, the
//! facts and the reply alone, or by the facts, the kind and the message; the paths that may be written are those of `slot_of` in `specs/Writing.antt`; and what `overrides` gives is
//! `overridden` of `specs/Overriding.antt`. As a law, [`laws::the_last_write_of_a_name_counts`]: that is what the writes put
//! there one after another, of each name the last value in the place of its first, header names without regard to case.
//! Each function has the definition of its one value in its contract. [`Memory`](gw_base::Memory) is answered where memory is wanting, and where
//! a value that was written over has more than 268,435,456 bytes as it is printed.
//!
//! Not promised: how long a call takes; names are searched from the first on.
#![tactic(auto)]

mod changes;
mod codings;
mod context;
mod documents;
mod escapes;
mod failure;
mod input;
pub mod laws;
mod occasion;
mod pairs;
mod payload;
mod roots;
mod slots;
mod sources;
mod steps;
mod table;
mod texts;
mod util;

pub use changes::{Overrides, printed_text};
pub use codings::{base64_decode, base64_encode, url_decode, url_encode};
pub use context::{context_value, variable_value};
pub use documents::{node_value, parse_json, read_document};
pub use escapes::{escape_java_script, json_string};
pub use failure::FailureRoots;
pub use input::{Params, input_value};
pub use occasion::Occasion;
pub use payload::Payload;
pub use roots::{RequestRoots, ResponseRoots};
pub use slots::{Part, Side, slot_of};
pub use util::util_value;
