//! JSON documents as RFC 8259 has them: read whole into an arena, with the first fault of those that are none.
//!
//! ```text
//! let doc = Json::read(alloc, br#"{"a": [1, 2.5], "b": "x\n"}"#)?;
//! let list = doc.member(doc.root(), "a");          // Some(id)
//! // doc.kind(id) is List(2), doc.span(id) is "[1, 2.5]", doc.compact(alloc, id) is "[1,2.5]"
//! ```
//!
//! | Bytes | Answer |
//! |---|---|
//! | ` {"a" : [ 1 ]} ` | a document; its compact text is `{"a":[1]}` |
//! | `"\ud834\udd1e"` | a document: a surrogate pair is one character |
//! | 64 `[` and 64 `]` | a document |
//! | 65 `[` | `Depth(64)` |
//! | `[1,]` | `Syntax(3)` |
//! | `01` | `Syntax(1)` |
//! | `"\udc00"` | `Syntax(4)`: a low surrogate stands in no other place than behind a high one |
//! | `[1,` | `Syntax(3)`: the input ends too early, so the place is its length |
//! | `{"a":1,"\u0061":2}` | `Repeated(7)`: names are compared as they are decoded |
//! | `[1,2]` and the byte FF | `NotUtf8(5)`: this fault comes before all others |
//!
//! What the contracts promise: `Json::read` answers the tree that the grammar spells, and only that tree (`spelled`,
//! `only`), or the first fault in reading order (`gives`); want of memory alone has no cause. A syntax fault stands at
//! the least place such that no document begins with the bytes up to and including it, or at the length where the
//! input is the front of a document and ends too early; a limit is met before any syntax fault (`places`; faults are
//! judged on the grammar without its rules on depth and repeated names). Each getter answers the part of that tree,
//! and `None` exactly where there is no such part. `compact` is the text of a part without the white space outside
//! strings, and spells that part but for places. The laws of the definitions are in `laws`.
//!
//! What it costs: reading is one pass, which looks each name up among those before it; `member` costs the logarithm of
//! the number of members of a large object (an index of its names, built by that pass, is kept), and walks a small one.
//!
//! Left out: byte order marks, comments, and numbers as values (a number keeps its source text).
#![tactic(auto)]

mod compact;
mod doc;
mod fault;
mod json;
pub mod laws;
mod node;
mod number;
mod parts;
mod reader;
mod scan;
mod strings;
mod turn;

pub use doc::{Doc, Kind, NodeId};
pub use fault::JsonFault;
pub use json::Json;
pub use number::{NumberParts, signed_whole};
