//! A session: the lanes of the gateway over one book, each on a thread of its own.
//!
//! * [`serve_session`] serves all lanes until each has ended, and gives the book back with the one history that they made.
//! * [`session_line`] is the line that such a history ends with.
//!
//! ```text
//! let (book, ends) = serve_session(rt, alloc, book, &mut lanes)?;       // two lanes, each with a connection that posts Ann
//! session_line(alloc, &book)?                 // session entries=4 calls=2 admitted=0 throttled=0 quota=0 notkept=0
//! ```
//!
//! | A lane | its end |
//! |---|---|
//! | whose port ended | `Ended` |
//! | on which it was read that the session is closing | `Closing` |
//! | a look of whose port failed | `PortFault` |
//! | at whose connection the session was full, or memory wanting | `Full` with the numbers, or `Memory` |
//!
//! What is promised, whatever the threads do (`Session`, `specs/Sessions.antt`): lane i, from 0, has the number i + 1. What was
//! done on its connections stands in the book's one history, with other lanes' entries between, each reply being the book's at
//! its place, and made just the entries of that number. No other number has an entry. What each lane tells of its connections,
//! of its backend and of its port is that of its connections' stories, and it ended as these say. The book keeps its base. `Err`
//! is want of memory, found before any lane begins, and leaves the book and the lanes as they were.
//!
//! How it goes: each lane is taken to a post, where a seat of its own is split off the first one; a thread serves the lane of
//! each post; then the seats are joined again, in order, and the desk closes. Where no thread can be made the lanes are served one
//! after another, under the same clauses.
//!
//! Left out: that a lane ends at all, that two lanes ever run at once, and an order between entries of lanes that never met.
#![tactic(auto)]

mod line;
mod post;
mod seating;
mod session;

pub use line::session_line;
pub use session::serve_session;
