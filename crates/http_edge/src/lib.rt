//! Messages of HTTP/1.1: the requests of a connection, the reply of a backend, and the bytes of an answer.
//!
//! * [`next_message`] reads the requests of a connection one by one, and [`next_reply`] the reply of a backend. A
//!   [`Buffer`] keeps what was taken between two calls, and a fault, which is answered again.
//! * [`spell_answer`] writes an answer. [`edge_answer`] and [`busy_answer`] are the answers where no request could be read,
//!   and where one could not be carried through.
//!
//! ```text
//! let mut rest = Buffer::new(alloc);
//! match next_message(alloc, &mut connection, &mut rest) {
//!     Ok(Incoming::Whole(request)) => ..,        // a request with its body
//!     Ok(Incoming::TooLarge(request)) => ..,     // without it: answer, and close
//!     Ok(Incoming::End) => ..,                   // the input ended at a message's end
//!     Err(fault) => edge_answer(fault),          // 400, 431 or nothing, and close
//! }
//! ```
//!
//! | Bytes | `next_message` |
//! |---|---|
//! | none | `End` |
//! | `GET /p HTTP/1.0`, an empty line | `Whole`, and what follows is the next message |
//! | `GET`, a line feed | `BadHead`: no head begins so |
//! | `GET / HTTP/1.1`, an empty line | `BadHead`: HTTP/1.1 has one `host` |
//! | one `content-length` twice, or beside a `transfer-encoding` | `BadHead`, also where they agree |
//! | 101 fields, or 10,240 bytes without a head's end | `HeadTooLong` |
//! | `content-length: 5`, an empty line, `Ab` | `Cut` of all bytes of this message |
//! | `content-length: 10485761`, an empty line | `TooLarge`, and its body is not read |
//! | the chunks `3`, `Ann`, `0` | `Whole` with the body `Ann` |
//! | the chunk size `g` | `BadChunk` |
//!
//! | Bytes | `next_reply` |
//! |---|---|
//! | `HTTP/1.1 100 Continue`, an empty line, `HTTP/1.1 200 OK`, an empty line, `Ann` | 200 with the body `Ann`, up to the input's end |
//! | `HTTP/1.1 204 No Content`, `content-length: 3`, an empty line | 204 without a body |
//! | none | `Cut(0)` |
//! | a body of more than 10,485,760 bytes | `BadChunk` |
//!
//! What is promised: what is answered is what stands next in all bytes that the buffer holds and the source has left
//! (`specs/Messages.antt`, `specs/Replies.antt`), and it is one thing ([`laws`]), so that it does not matter in which
//! pieces the bytes come. Each fault has its cause there. A read fault comes only where the source's count rose, and then
//! what was taken holds no message and no fault. After every call what the source has left is the end of what it had.
//! An answer's bytes are `spelled` of `specs/Answers.antt`, for every status.
//!
//! Left out: upgrades, `expect`, trailers, codings other than `chunked`. How it is built, not promised: a head is looked at
//! again only when a line ended, the limit came, or no more comes, and a used byte is not looked at again. Nor is promised
//! how many reads a call makes.
#![tactic(auto)]

mod answer;
mod buffer;
mod incoming;
pub mod laws;
mod message;
mod refusal;
mod reply;
mod reply_head;
mod request;
mod status;
mod texts;

pub use answer::spell_answer;
pub use buffer::Buffer;
pub use http_framing::EdgeFault;
pub use incoming::Incoming;
pub use message::next_message;
pub use refusal::{busy_answer, edge_answer};
pub use reply::next_reply;
