//! The words of templates: what stands at the front of a text, without expressions.
//!
//! Each function looks at the bytes from some place on and tells what stands there and what follows it, or the fault.
//! A place is told by the number of bytes from it to the end of the text. Nothing is allocated, but for [`names::Names`],
//! in which names are found by text: those of a text's macros, which a scan finds before all else.
//!
//! ```text
//! front_at(&names, b"$!{a}b")   // Front::Reference { quiet: true, braced: true, name: b"a", rest: b"}b" }
//! next_operator(How::Alone, b" >= 2")   // Ok(Found::One(Operator::AtLeast, b" 2"))
//! ```
//!
//! Each contract says that the answer is that of the definition of the same name in `vtl_grammar`.
#![tactic(auto)]

pub mod bytes;
pub mod directives;
pub mod fronts;
pub mod leads;
pub mod lines;
pub mod macros;
pub mod methods;
pub mod names;
pub mod numbers;
pub mod operators;
pub mod references;
pub mod words;
