//! Connections and lanes over the one book: what a client's bytes come to, whoever else is served meanwhile.
//!
//! * [`serve_connection`] serves the messages of one connection, in order. Each enters the book at the stage that its target
//!   names, is answered by the view that its Enter was replied, and leaves before the first byte of its answer is written. One to a
//!   method that has an authorizer is pursued first: the book is asked for the policy that is remembered, the authorizer where none is,
//!   and what it gave is learned before it decides. One to a method that asks for a key asks the book once to admit it, before its
//!   checks.
//! * [`serve_lane`] serves the connections of one lane, one after another, each through [`serve_connection`].
//!
//! ```text
//! let (desk, seat) = Desk::start(alloc, book, 1)?;
//! let (seat, ended, closing) = serve_connection(rt, alloc, &desk, seat, &mut conn, &mut means);
//! // in: POST /hello/v1 with the body Ann; out: HTTP/1.1 200 OK and `Hi Ann!`; ended: Closed; two entries more in the history
//! ```
//!
//! | A connection | is written | ends |
//! |---|---|---|
//! | whose bytes are whole messages | the answer to each, up to the first that closes it | `Closed` |
//! | that is cut within a message | nothing of that one | `Cut` of the bytes of it |
//! | with bytes that are no message | 400 or 431, `connection: close` | `BadHead`, `BadChunk`, `HeadTooLong` |
//! | a read of which fails | the answers to the messages in what was taken | `ReadFault` |
//! | a write of which fails | a front of the last answer | `WriteFault` |
//! | whose message hands in no good token, or one by whose policy it is denied | 401 and `UNAUTHORIZED`, or 403 and `ACCESS_DENIED` | as one that is answered else |
//! | whose message's authorizer gives no policy | 500 and `AUTHORIZER_FAILURE`, or `AUTHORIZER_CONFIGURATION_ERROR` | as one that is answered else |
//! | whose message no key admits | 403 and `INVALID_API_KEY`, 429 and `THROTTLED` or `QUOTA_EXCEEDED`, or 500 and `STORE_FAILURE` | as one that is answered else |
//! | at whose message the session is full | 503, `connection: close` | `SessionFull` with its numbers |
//!
//! | A lane | ends |
//! |---|---|
//! | whose port ends | `Ended` |
//! | on which the book replied to a Leave that the session is closing | `Closing`, its port shut |
//! | a look of whose port fails | `PortFault` |
//! | a connection of which ended `SessionFull` or `Memory` | `Full` with its numbers, or `Memory` |
//!
//! What is promised, in every interleaving with other seats of the same desk: there is a story of the connection
//! (`Tells`, `gate_walk/specs/Stories.antt`). Its messages are what stands next in the bytes, one after another; each goes the
//! way that is written for it (`walk`), whose steps stand in the history, with just the entries that the seat made (`Did`,
//! `specs/Serving.antt`); the bytes that were written are their answers, and the one at the edge where one is named. What an end
//! says of the message in hand is there by cases. A `ReadFault` or a `WriteFault` comes only where the connection's count rose in
//! this call, and a lane's `PortFault` only where its port's did; a lane ends `Ended` only where no connection is to come, as far as
//! that is told, and shuts its port exactly where it read that the session is closing. Messages and steps are told where a
//! connection tells no bytes, too. A backend was asked just what these steps asked of one (`Asked`): it tells their requests and
//! outcomes behind those of before, and where its script is told the outcomes are the next of it. The gate is passed before each
//! exchange, while no turn at the book is held.
//!
//! Left out: that a call returns (it may wait for its turn, and a lane for connections).
#![tactic(auto)]

mod administering;
mod awaiting;
mod called;
mod calling;
mod connection;
mod consulting;
mod edge;
mod following;
mod lane;
mod leaving;

pub use connection::serve_connection;
pub use lane::serve_lane;
