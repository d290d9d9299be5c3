//! The machine as the gateway meets it when it serves: its clock, and connections and backends over sockets of the loopback.
//!
//! * [`SystemClock`] is the machine's clock, and [`begin_words`] begins the random words of a lane.
//! * [`listen`] binds a port of 127.0.0.1 and gives a [`SocketPort`] for each lane, all over one listener. [`ListenFault`]
//!   says why it could not.
//! * [`SocketConn`] is a connection that such a port lends. A client that is silent where a message may begin is parked: its
//!   lane serves others, and when the client sends a byte a port lends its connection again.
//! * [`SocketBackend`] is a backend over such sockets: one connection for each exchange, all of which has the time of the
//!   request. [`exchange_over`] is the exchange itself, over any [`Line`].
//! * [`announce`] writes the line that says where the gateway listens.
//!
//! ```text
//! let mut ports = listen(&rt, alloc, 8080, 4)?;            // Err(ListenFault::Port) where another program has 8080
//! let _ = announce(alloc, &mut stderr, 8080, 4);           // listening on 127.0.0.1:8080 with 4 lanes
//! match ports[0].accept() {                                // sleeps until a client comes, or a parked one sends
//!     Ok(Accepted::Conn(mut conn)) => {
//!         conn.begin_message(&[]);                         // the next read may answer Ok(0), and done parks the connection
//!         let count = conn.read(&mut buf)?;                // Ok(0) where the peer sends no more
//!         write_all(&mut conn, b"HTTP/1.1 200 OK\r\n\r\n")?;
//!         ports[0].done(conn);                             // closes the connection; what its peer still sends is discarded
//!     }
//!     Ok(Accepted::NotYet) => {}                           // nobody came for 75 seconds, or who came has gone
//!     Ok(Accepted::Ended) => {}                            // one of the four ports was shut
//!     Err(Failed) => {}                                    // the system failed, and the port's count of faults rose
//! }
//! SocketBackend::new(&rt).exchange(alloc, &request)        // Outcome::Reply of 127.0.0.1 at request.port
//! ```
//!
//! | A read on a connection | answers |
//! |---|---|
//! | whose peer sends in time | `Ok`, at least one byte |
//! | whose peer has ended its side | `Ok(0)` |
//! | at the beginning of a message, whose peer is silent for a millisecond | `Ok(0)`, and the port parks the connection |
//! | at the beginning of a message behind another one, where others wait | the same |
//! | within a message that is not whole 30 seconds after its first byte, or after the last write | `Err(Failed)` |
//! | that fails otherwise | `Err(Failed)` |
//!
//! | An exchange with a peer | results in |
//! |---|---|
//! | that writes a reply in time, up to where that ends or the peer closes | `Reply`, also where it has not read the whole request |
//! | that closes before its reply ends, or writes no HTTP, or too long a head or body | `Failed` |
//! | that is not there, or under another host than `127.0.0.1` and `localhost` | `Failed` |
//! | that has not taken the request and written the whole reply when the time of the request ends | `TimedOut` |
//!
//! Promised: [`listen`] gives a port for each lane, none of them shut, none with a connection out. A port, a connection and
//! a clock keep what `gate_ports` and `gw_base` promise of every one. A read, a write or an accept fails only where its own
//! count of faults rose; a read leaves the count of failed writes and a write that of failed reads. A write that succeeds took
//! at least a byte. A port lends only where no connection is out, and ends once it was shut. The words of two lanes begin with
//! different states. Over a line whose bytes are observable, [`exchange_over`] answers a reply only if it is what the bytes of
//! the peer begin with, its status is from 200 to 999, and the request was written whole or a write failed; it answers
//! `TimedOut` only where a call failed by its time, and `Failed` only where a call failed or what came is no reply
//! (`specs/Exchanges.antt`). A [`SocketBackend`] counts each exchange that fails or lapses. [`announce`] writes the line of
//! `specs/Announced.antt`, or a prefix of it where it is refused.
//!
//! Not promised, since no clause speaks of what a socket or a clock does: which bytes come and go, when a connection comes,
//! that a parked one is lent again, which outcome an exchange over a socket has, that the shutting of one port ends the
//! others, that the listener is bound to the loopback alone, and lengths of time. Tests show these. A port, a connection, a
//! backend and a clock may go to another thread where the runtime may be shared with one ([`laws`]).
//!
//! Left out: addresses other than those of the loopback, TLS, a connection for more than one exchange, and a limit on a whole
//! answer: a peer that takes each piece of it just in time keeps its lane.
#![tactic(auto)]

mod announcement;
mod backend;
mod clock;
mod conn;
mod door;
mod exchange;
mod interrupted;
pub mod laws;
mod link;
mod listening;
mod port;
mod shelf;
mod words;

pub use announcement::announce;
pub use backend::SocketBackend;
pub use clock::SystemClock;
pub use conn::SocketConn;
pub use exchange::{Line, exchange_over};
pub use listening::{ListenFault, listen};
pub use port::SocketPort;
pub use words::begin_words;
