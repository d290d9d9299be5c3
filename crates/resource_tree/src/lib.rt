//! Finds the resource of a request's path.
//!
//! A path is `/`, or a list of parts, each behind a `/`: a literal, `{name}`, which takes one
//! segment, or `{name+}`, which stands last and takes all that are left. Of all paths that match a
//! request's segments the best is found: from the left, a literal comes before `{name}`, and that
//! before `{name+}`.
//!
//! ```text
//! let tree = Tree::build(alloc, &paths)?;         // "/a/b", "/a/{x}", "/a/{p+}"
//! let hit = tree.find(&segments)?;                // "a", "c", "d"
//! let found = Found::fill(alloc, &tree, hit, &segments)?;
//! found.resource                                  // 2
//! found.params                                    // ("p", "c/d")
//! ```
//!
//! | Segments | What is found of these paths |
//! |---|---|
//! | `a`, `b` | `/a/b` |
//! | `a`, `c` | `/a/{x}`, with x = `c` |
//! | `a`, `b`, `z` | `/a/{p+}`, with p = `b/z` |
//! | `a` | none: a `{p+}` takes one segment or more |
//! | `a`, and one that is empty | none: no part takes an empty segment |
//!
//! | Paths | What refuses them |
//! |---|---|
//! | `a`, `/a/`, `/a//b`, `/{}`, `/x{y}` | `BadPart` |
//! | `/{a+}/x` | `GreedyNotLast` |
//! | `/{a}/x` and `/{b}/y`, or a path twice | `Clash` |
//!
//! How a path is written stands in `specs/Spelling.antt` and how it is read in
//! `specs/Reading.antt`; which segments its parts take, with which parameters, in
//! `specs/Matching.antt`, with `IsBest`, which speaks of the list of paths alone. [`Tree::build`]
//! promises that it answers the parts of each path where none has a fault, and else the fault of
//! the first that has one, as `specs/Faults.antt` says it. [`Tree::find`] promises the best path
//! wherever one matches, and [`Found::fill`] its parameters, each with a value. The functions of
//! [`laws`] prove that a path is read as it is written, what each fault means, that each parameter
//! of a path that matches has a value, and that one path is best.
//!
//! How it is built, which nothing here promises: the nodes of the tree lie in preorder, named by
//! their index, and a node that doesn't take its segment leads to the one behind all nodes below
//! it, so that `find` goes forward alone, looks at a node once at most and needs no stack.
#![tactic(auto)]

mod fault;
mod found;
pub mod laws;
mod matching;
mod node;
mod order;
mod part;
mod paths;
mod reading;
mod search;
mod tree;

pub use fault::TreeFault;
pub use found::Found;
pub use part::{Part, has_parameter};
pub use reading::read_parts;
pub use tree::{Hit, Tree};
