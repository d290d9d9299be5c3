//! Where the heads and the bodies of HTTP/1.1 messages end in a stream of bytes (RFC 9112, sections 2 to 7).
//!
//! A [`ReadAhead`] has the bytes that were taken from a source and are not yet used. A call takes more of them as it needs,
//! and uses what it read: [`await_request_head`] and [`await_reply_head`] wait for a head, [`framing_of`] and
//! [`reply_framing`] say what it tells of its body, and [`read_known`], [`read_chunked`] and [`read_rest`] read one.
//!
//! ```text
//! let spans = await_request_head(alloc, &mut source, &mut held, &mut room)?;
//! let front = held.first(HEAD_LIMIT);
//! let framing = framing_of(spans.version == 0, front, &room[..spans.headers]);
//! held.skip(spans.len);
//! let body = read_chunked(alloc, &mut source, &mut held)?;      // where framing is Chunked
//! ```
//!
//! | Fields of a request of HTTP/1.1, beside its `host` | `framing_of` |
//! |---|---|
//! | none | `Absent` |
//! | `content-length: 007` | `Known(7)` |
//! | `content-length: +7`, or one of 20 digits, or two of them that agree | `Wrong` |
//! | `transfer-encoding: chunked` | `Chunked` |
//! | `transfer-encoding: Chunked`, or one beside a `content-length` | `Wrong` |
//! | 100 others | `TooMany` |
//!
//! | Behind the head | `read_chunked` |
//! |---|---|
//! | `3`, CR LF, `Ann`, CR LF, `0`, CR LF, CR LF | `Ok(Read)` of `Ann` |
//! | `3`, CR LF, `Ann`, LF | `Err(BadChunk)`: data is followed by CR LF |
//! | `a00001`, CR LF | `Ok(PastLimit)`, and nothing behind that line is used |
//! | `3`, CR LF, `An` and no more | `Err(Cut(5))` |
//!
//! What is promised, of all bytes that are held and left together, so that it does not matter in which pieces they come:
//! a head is taken exactly where one of `httparse`'s grammar stands within its limit, and each refusal has its cause
//! (`specs/Heads.antt`, `specs/ReplyHeads.antt`); a body comes to what `specs/Bodies.antt` says, which is one thing
//! ([`laws`]); a cut says after how many bytes; where a read failed, what was taken may still go on. Heads, chunk lines
//! and trailers are looked at again only when a line ended, the limit came, or no more comes, and using bytes moves none.
//!
//! Left out: the values of trailers and chunk extensions, codings other than `chunked`, and `obs-fold`. Not promised: how
//! many reads a call makes.
#![tactic(auto)]

mod body;
mod chunk;
mod chunks;
mod fault;
mod fill;
mod framing;
mod front;
pub mod laws;
mod read_ahead;
mod reply_head;
mod request_head;
mod room;
mod target;
mod trailers;

pub use body::{Body, read_known, read_rest};
pub use chunks::read_chunked;
pub use fault::EdgeFault;
pub use framing::{Framing, framing_of, reply_framing};
pub use read_ahead::ReadAhead;
pub use reply_head::await_reply_head;
pub use request_head::{HEAD_LIMIT, await_request_head};
