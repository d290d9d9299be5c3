//! Reads a mapping template.
//!
//! A template is text in which references and directives stand, as Apache Velocity 1.7 writes them (User Guide,
//! "References", "Directives", "Velocimacros"). `docs/TEMPLATES.md` has it for people who write templates.
//!
//! ```text
//! let template = Template::read(alloc, "Hi $input.body!")?;
//! template.source()   // "Hi $input.body!"
//! template.parts()    // the nodes, and the numbers of the items: a text, an output, a text
//! template.simple()   // true: only text and references without calls and indexes
//! ```
//!
//! | Text | What is read |
//! |---|---|
//! | the empty text | no item |
//! | `Hi $input.body!` | text, reference, text |
//! | `#if($a)b#{else}c#end` | an if with one branch, and what stands behind its else |
//! | `#macro(m $p)<$p>#end#m(1)` | a macro, and a call of it |
//! | `# $ #x` | text |
//!
//! | Text | What refuses it |
//! |---|---|
//! | `#if($a)` | `Unclosed(0)` |
//! | `a#else` | `BadDirective(1)` |
//! | `#set($x = 1.5)` | `BadExpression(11)` |
//! | `$a.put(1)` | `UnsupportedMethod(3)` |
//! | `a\$b` | `Escape(1)` |
//! | `#macro(m $p)$p#end#m()` | `BadDirective(18)` |
//! | `#macro(m $p)#set($p=1)#end` | `ParamAssigned(18)` |
//! | 307,201 bytes or more | `TooLong`, before all else |
//!
//! [`Template::read`] promises that what it reads has the tree that the definition `read_of` of `vtl_grammar` gives, and
//! that each refusal is that definition's first fault with its place; want of memory alone is free. The nodes stand in
//! an [`Arena`], the parts of each before it; `expr_of` and `item_of` of `specs/Nodes.antt` say which tree a number
//! stands for, and [`macro_named`] finds a macro by its name.
//!
//! How it is built, not promised: recursion is no deeper than the 64 levels, and the time is linear in the text, but for
//! the logarithm by which names are found.
#![tactic(auto)]

mod arena;
mod blocks;
mod calls;
mod error;
mod exprs;
mod heads;
mod items;
mod macros;
mod nodes;
mod template;
mod text;

pub use arena::Arena;
pub use macros::{Macros, macro_named, macro_of};
pub use nodes::{Branch, ExprNode, ItemNode, Link, Pair, Part, Step, Target};
pub use template::{LIMIT, Template, is_body};
pub use vtl_grammar::TemplateFault;
pub use vtl_words::operators::Operator;
