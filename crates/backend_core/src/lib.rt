//! The backends that a gateway asks: what is sent to one, what an exchange comes to, and a backend in memory that follows
//! a script.
//!
//! * [`Backend`] is what takes a request and answers with an [`Outcome`]. It counts its failures and its lapses of time,
//!   and an exchange fails or lapses only where that count rose.
//! * [`MemBackend`] gives the outcomes of a list, one an exchange, and keeps the requests that it was sent.
//!
//! ```text
//! let mut backend = MemBackend::new(alloc, outcomes);      // one reply, then a lapse
//! backend.exchange(alloc, &request);                       // Outcome::Reply, as the list has it
//! backend.exchange(alloc, &request);                       // Outcome::TimedOut
//! backend.exchange(alloc, &request);                       // Outcome::Failed: the list has ended
//! backend.sent().len();                                    // 3
//! ```
//!
//! | Outcome | Failures | Lapses | The request and the outcome |
//! |---|---|---|---|
//! | `Reply` | stand | stand | are noted |
//! | `Failed` | rose | stand | are noted |
//! | `TimedOut` | stand | rose | are noted |
//! | `Memory` | stand | stand | are not noted, and nothing of the script is used |
//!
//! What is promised, of every backend: the table above (`specs/Exchanges.antt`), that a reply's status is from 200 to 999,
//! and that where a backend tells what is to come, the outcome is the next of it, and a failure past its end. A list that
//! is told stays told. `MemBackend` tells all three lists, and an exchange changes of it what `exchanged` of
//! `specs/Script.antt` says and nothing else.
//!
//! Left out: how a request is written and a reply is read, which is http_edge's; that an exchange doesn't always want
//! memory, which tests show.
#![tactic(auto)]

mod backend;
mod memory;
mod outcome;
mod request;

pub use backend::Backend;
pub use memory::{MemBackend, Scripted};
pub use outcome::Outcome;
pub use request::WireRequest;
