//! Renders a template: the interpreter of mapping templates.
//!
//! [`render`] evaluates the items of a template in order, within a budget of steps. References below `$input`, `$context`,
//! `$util` and `$stageVariables` ask the [`Roots`]; what a `#set` writes below `$context` is handed to them.
//!
//! ```text
//! let template = Template::read(alloc, "#foreach($x in [1..3])$x#if($foreach.hasNext),#end#end")?;
//! let rendered = render(alloc, &template, &mut roots, 1_000_000)?;   // "1,2,3", 15 steps
//! ```
//!
//! | template | `render` answers |
//! |---|---|
//! | `#set($a=1)#set($a=$none.b)$a` | `1`: a `#set` with null changes nothing |
//! | `$!x\|$x\|${x}y` | `\|$x\|${x}y`: a null reference prints its source, a quiet one nothing |
//! | `#set($a=7/2)$a#set($b=7/0)$b` | `3$b` |
//! | `#foreach($i in [1..1001]).#end` | 1,000 dots: a loop has at most 1,000 turns |
//! | `#macro(m $p)$p#set($i=2)$p#end#set($i=1)#m($i)` | `12`: an argument is evaluated at each use |
//! | `#macro(m $p)$p#end#m($none)` | `$p`: a null parameter prints its own source |
//! | `#macro(m)#m()#end#m()` | `Err(Depth)`, at the call inside twenty bodies |
//! | a template of 1,000,001 steps, within 1,000,000 | `Err(Steps)`, before the last |
//! | `$input.body$input.body`, whose body has 6,000,000 letters | `Err(Bytes)`, at the second reference |
//!
//! What is promised, for every template and every `Roots`: the text, the steps and what is written below `$context` are
//! those that the definition of rendering gives (`specs/Meaning.antt`), or the stop is the limit that it meets first, with
//! what was written before; where memory is wanting, what was written is what the same render leaves within some smaller
//! budget; and the roots mean what they meant. The definition speaks of the tree without macros (`specs/Expanded.antt` of
//! `vtl_grammar`): in place of each call its macro's body, with the arguments' expressions in place of the parameters.
//! To pass over a call whose whole body does nothing changes nothing ([`laws::passing_over_changes_nothing`]).
//!
//! How it is built, not promised: nothing is substituted here. A body is run in a `Frame` that points to the arguments in
//! the frame of the call, and a call whose whole body does nothing is passed over. Evaluation recurses no deeper than
//! brackets and blocks nest, which a template's reader holds to 64 levels, in each of at most twenty macro bodies: chains
//! of operators, steps and items are loops. A variable is found by its name from the first that was set on.
#![tactic(auto)]

mod eval;
mod frame;
mod idle;
mod items;
pub mod laws;
mod operators;
mod pieces;
mod reached;
mod references;
mod rendering;
mod roots;
mod run;
mod stop;

pub use rendering::render;
pub use roots::{Root, Roots, Step};
pub use stop::{Rendered, Stop};
