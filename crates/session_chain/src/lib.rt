//! Sessions that follow each other: where a session is full, the next one goes on over the same lanes and the same keeper.
//!
//! * [`next_session`] closes a book and starts the next one over its keeper.
//! * [`serve_all`] serves lanes over one session after another, until one ends otherwise than by being full.
//!
//! ```text
//! // limits of 2 entries, and one lane with three connections that each post Ann
//! let (keeper, outcome) = serve_all(rt, alloc, book, &mut lanes, limits, &mut output, &mut archive);
//! // the first is answered; the second finds the session full; the third is answered in the next session
//! // the output is two lines `session entries=2 calls=1 ..`, the archive has two histories, and outcome is one `Ended`
//! ```
//!
//! | A session | What comes |
//! |---|---|
//! | was full on a lane | its line, and the next session |
//! | was full, and a look failed or memory was wanting on another lane | its line, and the ends of its lanes |
//! | was full, and a Shutdown stands in its history | its line, and the ends of its lanes |
//! | was not full | its line, and the ends of its lanes |
//! | has a next one, which does not start over the keeper | its line, and `Start` with the cause |
//! | has a line that can't be written | a front of it, and `Output` |
//!
//! What is promised, whatever the threads do (`specs/Chains.antt`, `specs/Served.antt`): each session is one as `gate_session` says it,
//! over the lanes as the one before left them, and its book begins with the tables that the history before left, where the keeper tells
//! them. Each but the last has a next one exactly by the table. The line of each is written and its history handed on, in their order. Want
//! of memory alone has no cause. A next book is never refused for a bad row of tables that the keeper tells: those that a history leaves
//! are good.
//!
//! Left out: that the sessions come to an end. Connections that come to a lane whose session is full are answered by the next session, but for the one that found it full.
#![tactic(auto)]

mod all;
mod fault;
mod follow;
mod next;
mod turn;

pub use all::serve_all;
pub use fault::AllFault;
pub use follow::{any_port_fault, any_wants_memory};
pub use next::next_session;
