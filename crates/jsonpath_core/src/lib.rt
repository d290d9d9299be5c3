//! Paths into JSON documents.
//!
//! A path is `$` and steps behind it. `.name`, `['name']` and `["name"]` lead to the member of that
//! name, in an object alone; `[n]` to an item, counted from 0, in a list alone; `.*` and `[*]` to each
//! item of a list, or to the value of each member of an object.
//!
//! ```text
//! let doc = Json::read(alloc, br#"{"a": [1, {"b": 2.50}]}"#)?;
//! let path = Path::read(alloc, "$.a[1].b")?;
//! path.one(&doc)            // the node of `2.50`, found without memory
//! let starred = Path::read(alloc, "$.a[*]")?;
//! starred.all(alloc, &doc)? // the nodes of `1` and `{"b": 2.50}`
//! ```
//!
//! | Path | What it selects of `{"a": [1, {"b": 2}], "é": "x"}` |
//! |---|---|
//! | `$` | the whole document |
//! | `$.a[1].b`, `$["a"][001]['b']` | `2` |
//! | `$.a.*` | `1` and `{"b": 2}` |
//! | `$.*[1]` | `{"b": 2}` |
//! | `$.é` | `"x"` |
//! | `$.a.b`, `$[0]`, `$.a[9]` | nothing |
//!
//! | Text | What refuses it |
//! |---|---|
//! | `a`, and the empty text | `BadPath(0)` |
//! | `$..a` | `BadPath(2)`: a dot is followed by a name or a star |
//! | `$.a b` | `BadPath(3)`: a bare name has no such byte |
//! | `$[-1]`, `$[?(@.a)]` | `BadPath(2)` |
//! | `$['a` | `BadPath(4)`: the text ends too early, so the place is its length |
//!
//! How a path is spelled stands in `specs/Spelling.antt`, where a text stops being one in
//! `specs/Faults.antt`, and what a path selects in `specs/Selecting.antt`, over the tree of a document.
//! [`Path::read`] promises that it reads just the paths, each as its steps, and that a refusal is at
//! the first byte with which no path begins. [`Path::one`] and [`Path::all`] promise just the nodes
//! that are selected, in their order, and that each is a part of the document as `Doc::compact` and the
//! other getters take it. The functions of [`laws`] prove that spelling and reading
//! agree, that a path without a star selects one node at most, and that the nodes that are selected
//! come in the order of the document, no two of them the same.
//!
//! How it is built, not promised: `all` keeps the nodes of one step at a time, and a step to a name
//! costs what `Doc::member` does: the logarithm of a large object's members.
//!
//! Left out: `..`, filters, slices, unions, negative indexes, and escapes in quoted names.
#![tactic(auto)]

mod fault;
pub mod laws;
mod path;
mod reader;
mod selector;
mod step;

pub use fault::PathFault;
pub use path::Path;
