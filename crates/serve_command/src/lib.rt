//! The command `serve`: sessions over the lanes of an outside and the tables of a store of it, one after another where each is full.
//!
//! ```text
//! let asked = Asked { store: "memory", port: 8080, lanes: 4 };
//! serve(rt, alloc, limits, &asked, &mut output, &mut outside)      // Ok(0), and the output is one line a session
//! ```
//!
//! | What happens | is written | answers |
//! |---|---|---|
//! | each lane ends for itself, or since the session is closing | the session's line | `Ok(0)` |
//! | a lane ends since the session is full | that line | what comes of the next session |
//! | a lane ends since the session is full, in whose history a Shutdown stands | that line | `Ok(0)` |
//! | a row of the store is none that a book starts from | `refused BadStore(TABLE,ROW)` | `Ok(1)` |
//! | the store's keeper can't be had, or its load fails | nothing | `Err(Keeper)` |
//! | a next session does not start over the keeper, whose load fails, or which does not tell its tables | the lines so far | `Err(Keeper)` |
//! | the lanes can't be had | nothing | `Err(Port)` |
//! | a look for a connection fails on a lane | the lines so far | `Err(Port)` |
//! | memory is wanting on a lane | the lines so far | `Err(Memory)` |
//!
//! What is promised, over every outside (`specs/Serving.antt`): a status is answered only behind a chain of sessions (`Held`), as
//! `session_chain` says it. The first book opened with the store's tables under the limits, over the first lanes that waited; each further
//! one begins with the tables that the history before left, over the lanes as they then stood. Each session but the last has a next one.
//! Every history was handed on; the keeper was given back with the tables of the last, so that the store has them, and the
//! entries of a session that it did not keep are at most the faults that it counted. The lines are those of the histories. A fault has its
//! count, the outside's or the output's, or the bad row as its cause; where the outside tells its stores, `Err(Keeper)` comes only where its
//! count rose, since a session leaves no row that a next one refuses. All that was lent is given back, whatever comes (`AllIsBack`).
//!
//! Left out: that the sessions come to an end. Since another session
//! follows a full one, no status tells that a session was full.
#![tactic(auto)]

mod command;
mod hold;
mod lines;
mod open;
mod stop;
mod tell;

pub use command::{Asked, serve};
pub use open::{OpenStop, open_book};
pub use stop::ServeStop;
pub use tell::tell_unopened;
