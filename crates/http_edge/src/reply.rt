// The reply of a backend.
ghost use Rattle.std.specs.Prelude.{◌≡◌, ◌≤◌, ◌+◌, ◌^◌, [], Some, None, false, Err, IfErr, IfSome, IsErrOf};
ghost use Rattle.gw_base.specs.Outside.{Rose};
ghost use Rattle.http_framing.specs.Faults.{CutBelow};
ghost use Rattle.http_framing.specs.Stream.{Over, Takes};
ghost use Rattle.http_edge.specs.Buffers.{KeepsFault};
ghost use Rattle.http_edge.specs.Replies.{Replies, kept};
ghost use Rattle.http_edge.specs.ReplyReads.{ReplyBodyRead, none_read};

use crate::buffer::Buffer;
use crate::reply_head::{ReplyBegun, read_final_head};
use crate::status::has_none;
use call_facts::WireReply;
use gw_base::{Bytes, Source};
use http_framing::{Body, EdgeFault, Framing, ReadAhead, read_chunked, read_known, read_rest};
use httparse::spans::HeaderSpan;
use std::alloc::Global;

// A body that passes the limit is refused.
fn kept(body: Result<Body, EdgeFault>) -> Result<Bytes, EdgeFault>
    ensures { result ≡ kept body }
{
    match body {
        Ok(Body::Read(body)) => Ok(body),
        Ok(Body::PastLimit) => Err(EdgeFault::BadChunk),
        Err(fault) => Err(fault),
    }
}

// Reads the body that a head says.
fn read_said<S: Source>(
    alloc: Global,
    source: &mut S,
    held: &mut ReadAhead,
    framing: Framing,
) -> Result<Bytes, EdgeFault>
    ensures body { Over (ReplyBodyRead false framing) held.old (S.left source.old) held.new (S.left source.new) result }
    ensures few { IfErr result (CutBelow (2 ^ 63 + 2 ^ 40)) }
    ensures taken { Takes (S.left source.old) (S.left source.new) }
    ensures fault { IsErrOf result EdgeFault.ReadFault → Rose (S.faults source.old) (S.faults source.new) }
    ensures later { S.faults source.old ≤ S.faults source.new }
    ensures beside { S.beside source.new ≡ S.beside source.old }
{
    match framing {
        Framing::TooMany => Err(EdgeFault::HeadTooLong),
        Framing::Wrong => Err(EdgeFault::BadHead),
        Framing::Absent => read_rest(alloc, source, held),
        Framing::Known(n) => kept(read_known(alloc, source, held, n)),
        Framing::Chunked => kept(read_chunked(alloc, source, held)),
    }
}

// Reads no body behind a head that says this.
fn read_none(alloc: Global, framing: Framing) -> Result<Bytes, EdgeFault>
    ensures { result ≡ none_read framing }
{
    match framing {
        Framing::TooMany => Err(EdgeFault::HeadTooLong),
        Framing::Wrong => Err(EdgeFault::BadHead),
        _ => Ok(Bytes::of(Vec::new(alloc))),
    }
}

// Reads the body of a reply, or none.
fn read_reply_body<S: Source>(
    alloc: Global,
    source: &mut S,
    held: &mut ReadAhead,
    framing: Framing,
    bare: bool,
) -> Result<Bytes, EdgeFault>
    ensures body { Over (ReplyBodyRead bare framing) held.old (S.left source.old) held.new (S.left source.new) result }
    ensures few { IfErr result (CutBelow (2 ^ 63 + 2 ^ 40)) }
    ensures taken { Takes (S.left source.old) (S.left source.new) }
    ensures fault { IsErrOf result EdgeFault.ReadFault → Rose (S.faults source.old) (S.faults source.new) }
    ensures later { S.faults source.old ≤ S.faults source.new }
    ensures beside { S.beside source.new ≡ S.beside source.old }
{
    if bare {
        return read_none(alloc, framing);
    }
    read_said(alloc, source, held, framing)
}

// The reply over what is held.
fn reply<S: Source>(
    alloc: Global,
    source: &mut S,
    held: &mut ReadAhead,
    room: &mut Vec<HeaderSpan>,
    bodiless: bool,
) -> Result<WireReply, EdgeFault>
    ensures next { Over (Replies bodiless) held.old (S.left source.old) held.new (S.left source.new) result }
    ensures taken { Takes (S.left source.old) (S.left source.new) }
    ensures fault { IsErrOf result EdgeFault.ReadFault → Rose (S.faults source.old) (S.faults source.new) }
    ensures later { S.faults source.old ≤ S.faults source.new }
    ensures beside { S.beside source.new ≡ S.beside source.old }
{
    let begun = match read_final_head(alloc, source, held, room) {
        Ok(begun) => begun,
        Err(fault) => return Err(fault),
    };
    let ReplyBegun {
        status,
        headers,
        framing,
        len,
    } = begun;
    let bare = has_none(bodiless, status);
    match read_reply_body(alloc, source, held, framing, bare) {
        Ok(body) => Ok(WireReply {
            status,
            headers,
            body,
        }),
        Err(fault) => Err(fault.shifted(len)),
    }
}

/// The reply of a backend, however its bytes come: what all that the buffer holds and the source has left begins with.
/// `bodiless` is true for the reply to a HEAD request. Replies of a status from 100 to 199 are passed over. After a fault
/// the buffer answers it again, and reads no more.
pub fn next_reply<S: Source>(
    alloc: Global,
    source: &mut S,
    rest: &mut Buffer,
    bodiless: bool,
) -> Result<WireReply, EdgeFault>
    ensures next { rest.old.fault ≡ None → Over (Replies bodiless) rest.old.bytes (S.left source.old) rest.new.bytes (S.left source.new) result }

    // A fault is kept, and answered again with all as it was.
    ensures again { IfSome rest.old.fault (λ f. (result ≡ Err f) × (rest.new ≡ rest.old) × (source.new ≡ source.old)) }
    ensures kept { rest.old.fault ≡ None → KeepsFault rest.new result }

    // At each end the bytes that were taken are known.
    ensures taken { Takes (S.left source.old) (S.left source.new) }
    ensures fault { rest.old.fault ≡ None → IsErrOf result EdgeFault.ReadFault → Rose (S.faults source.old) (S.faults source.new) }
    ensures later { S.faults source.old ≤ S.faults source.new }
    ensures beside { S.beside source.new ≡ S.beside source.old }
{
    if let Some(fault) = rest.fault {
        return Err(fault);
    }
    match reply(alloc, source, &mut rest.held, &mut rest.room, bodiless) {
        Ok(reply) => Ok(reply),
        Err(fault) => {
            rest.stop(alloc, fault);
            Err(fault)
        }
    }
}
