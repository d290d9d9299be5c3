//! The session of a play: a book over tables in memory behind a desk of one seat, the commands that it takes, and the connections
//! that are served on it.
//!
//! [`Session::start`] begins over empty tables, and is told which calls of its keeper fail. [`Session::take`] takes an event of the
//! one seat. [`Session::connect`] serves the messages that stand in some bytes by `serve_connection`, over a clock that stands
//! still, a word of chance that is always the same, a backend that gives the outcomes of a list, and a connection in memory on
//! which no read and no write fails.
//!
//! ```text
//! let mut session = Session::start(rt, alloc, limits, Vec::new(alloc))?;   // no call of its keeper fails
//! let bytes = b"POST /hello/v1 HTTP/1.1\r\nhost: localhost\r\ncontent-length: 3\r\n\r\nAnn";
//! let talk = session.connect(alloc, Reading { moment: 0, word: 0 }, bytes, Vec::new(alloc))?;          // no exchange has an outcome
//! talk.written   // HTTP/1.1 200 OK, content-type: text/plain, content-length: 7, and `Hi Ann!`
//! talk.ended     // Closed
//! ```
//!
//! | bytes | what is written | how it ends |
//! |---|---|---|
//! | none | nothing | `Closed` |
//! | a message, and the same again | both answers | `Closed` |
//! | a message cut at its 65th byte | nothing, and no entry is made | `Cut(65)` |
//! | `GET` and a line feed | 400, `connection: close` | `BadHead` |
//! | a message of version 1.0, or with `connection: close`, and another | the answer to the first, with `connection: close` | `Closed` |
//! | a message whose body passes 10,485,760 bytes | 413 with the cause `REQUEST_TOO_LARGE` and `connection: close` | `Closed` |
//! | a message to a stage that is not there | 403 with the cause `UNKNOWN_STAGE` | `Closed` |
//! | a message behind a `Shutdown`, and another | the answer to the first, with `connection: close` | `Closed` |
//! | a message where the session is full | 503, `connection: close` | `SessionFull(3,32)` |
//!
//! What is promised: a connection comes to what `ComesTo` of `gate_walk` says: its story is that of any connection of the gateway,
//! its acts stand in the history with nothing between them, and so it comes to one thing (`gate_walk::laws`). A command is taken
//! at the end of the history, or refused where that is full, and which changes are kept follows from the calls that the keeper is
//! told to fail. Want of memory alone stops either.
#![tactic(auto)]

mod conn;
mod readings;
mod session;
mod slice_source;

pub use gate_walk::{Ended, SessionFull};
pub use readings::Reading;
pub use session::{Session, SessionFault, Talk};
pub use slice_source::SliceSource;
