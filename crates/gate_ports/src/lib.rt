//! What a lane of the gateway stands on: where its connections come from, what it waits for before an exchange, and who
//! takes the history at a session's end; with connections and ports in memory.
//!
//! * [`Conn`] is one connection, a source and a sink in one: a read leaves what was written, a write what is left.
//! * [`Port`] lends connections, one at a time, and takes each back. [`Accepted`] is what a look for one found.
//! * [`Gate`] is passed before each exchange; [`FreeGate`] lets all pass. [`Archive`] takes a closed session's history.
//! * [`Lane`] is a port with its [`Means`]: its backend, clock, random words and gate.
//! * [`MemConn`] and [`MemPort`] are a connection and a port in memory. The reads, writes and looks that are named by number
//!   fail, and no others.
//!
//! ```text
//! let mut port = MemPort::new(conns, fails);               // two connections, and no look that fails
//! if let Ok(Accepted::Conn(mut conn)) = port.accept() {    // the first of them
//!     write_all(&mut conn, b"HTTP/1.1 200 OK\r\n\r\n")?;
//!     port.done(conn);                                     // port.served()[0].written() are these bytes
//! }
//! port.shut();
//! port.accept()                                            // Ok(Accepted::Ended), though one was to come
//! ```
//!
//! | A look at a `MemPort` with | answers |
//! |---|---|
//! | connections that are to come | `Conn`, the first of them |
//! | none to come | `Ended` |
//! | a look whose number is listed | `Err(Failed)`, and its count of faults rose |
//! | a port that was shut, whatever else | `Ended` |
//!
//! What is promised, of every port (`specs/Lending.antt`): a connection is lent only where none is out, and taken back only
//! where one is, without memory. Where a port tells what is to come, a look lends the first of it, on which nothing was
//! written, and ends only where nothing is to come or the port was shut. A fault comes only where its count rose. Each
//! connection given back is the next of those served. What else is told stays. `MemPort` tells all, and a look changes of
//! it what `Looks` of `specs/Docks.antt` says and nothing else. A `MemConn` reads and writes just as its source and its
//! sink do. An archive adds a history to those that it tells, or wants memory and changes nothing. `lane_facts` of
//! `specs/Facts.antt` is what contracts see of a lane.
//!
//! Left out: what a lane does with its connections; that a port which tells nothing ever lends one, which tests show.
#![tactic(auto)]

mod archive;
mod conn;
mod gate;
mod lane;
mod memory;
mod port;

pub use archive::Archive;
pub use conn::Conn;
pub use gate::{FreeGate, Gate};
pub use lane::{Lane, Means};
pub use memory::{MemConn, MemPort};
pub use port::{Accepted, Port};
