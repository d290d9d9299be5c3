//! The language of mapping templates, as definitions.
//!
//! A template is text in which references and directives stand, as Apache Velocity 1.7 writes them (User Guide,
//! "References", "Formal Reference Notation", "Directives"). This crate says which texts are templates, of which tree,
//! and what is told of a text that is none; it has no reader. [`TemplateFault`] is what a text is refused with.
//!
//! | Definition | What it says |
//! |---|---|
//! | `specs/Tree.antt` | the tree of a template: items, expressions, references with their steps |
//! | `specs/Grammar.antt` | which text is a template of which tree: a relation by cases on what stands at the front |
//! | `specs/Templates.antt` | what reading a text from the left gives: its tree, or the first fault and its place |
//! | `specs/Calls.antt` | the macros of a tree, and its first call that has no macro or another number of arguments |
//! | `specs/Expanded.antt` | the tree without macros: bodies in place of calls, arguments in place of parameters |
//!
//! The functions of [`laws`] prove that the grammar and reading agree both ways, and that a text is a template of one
//! tree at most.
#![tactic(auto)]

mod fault;
pub mod laws;

pub use fault::{Fault, TemplateFault};
