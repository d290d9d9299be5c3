// The head of a request.
ghost use Rattle.std.specs.Prelude.{◌≡◌, ◌≤◌, [], take, drop, IfOk, IsErrOf, OnErr, OnOk};
ghost use Rattle.httparse.specs.Grammar.{RequestHead};
ghost use Rattle.httparse.specs.Spans.{IsRequestAt, IsRequestOf, IsRequestWithin};
ghost use Rattle.gw_base.specs.Outside.{Rose};
ghost use Rattle.http_framing.specs.Stream.{Over, Takes};
ghost use Rattle.http_edge.specs.Messages.{request_of, with_body};
ghost use Rattle.http_edge.specs.Reads.{HeadRead, IsBegun};

use crate::texts::{headers, lossy};
use call_facts::Request;
use gw_base::{Bytes, Memory, Source};
use http_framing::{EdgeFault, Framing, HEAD_LIMIT, ReadAhead, await_request_head, framing_of};
use httparse::spans::{HeaderSpan, RequestSpans};
use std::alloc::Global;

// A request of which the head was read: without its body, with what the head says of it and the head's length.
#[derive(Drop)]
pub struct Begun {
    pub request: Request,
    pub framing: Framing,
    pub len: u64,
}

// The request of a head that was read, without its body.
fn request_at(
    alloc: Global,
    buf: &[u8],
    spans: &RequestSpans,
    room: &[HeaderSpan],
) -> Result<Request, Memory>
    requires within { IsRequestWithin buf.now room.now spans.now }
    requires of { IsRequestOf buf.now room.now spans.now }
    ensures { IfOk result (λ r. (h : RequestHead) → IsRequestAt buf.now room.now spans.now h → r ≡ request_of h []) }
{
    Ok(Request {
        method: lossy(alloc, spans.method.of(buf))?,
        target: lossy(alloc, spans.path.of(buf))?,
        http10: spans.version == 0,
        headers: headers(alloc, buf, &room[..spans.headers])?,
        body: Bytes::of(Vec::new(alloc)),
    })
}

// Uses a head that was read.
fn begin(
    alloc: Global,
    held: &mut ReadAhead,
    spans: &RequestSpans,
    room: &[HeaderSpan],
) -> Result<Begun, Memory>
    requires within { IsRequestWithin (take 10240 held.old) room.now spans.now }
    requires of { IsRequestOf (take 10240 held.old) room.now spans.now }
    ensures begun { IfOk result (λ b. (h : RequestHead) → IsRequestAt (take 10240 held.old) room.now spans.now h → IsBegun h b) }
    ensures used { OnOk result (held.new ≡ drop spans.now.len held.old) }
    ensures err { OnErr result (held.new ≡ held.old) }
{
    let front = held.first(HEAD_LIMIT);
    let request = request_at(alloc, front, spans, room)?;
    let framing = framing_of(spans.version == 0, front, &room[..spans.headers]);
    held.skip(spans.len);
    Ok(Begun {
        request,
        framing,
        len: spans.len as u64,
    })
}

/// Reads the head that stands next, and uses it.
pub fn read_head<S: Source>(
    alloc: Global,
    source: &mut S,
    held: &mut ReadAhead,
    room: &mut Vec<HeaderSpan>,
) -> Result<Begun, EdgeFault>
    ensures head { Over HeadRead held.old (S.left source.old) held.new (S.left source.new) result }
    ensures short { IfOk result (λ b. b.len ≤ 10240) }
    ensures taken { Takes (S.left source.old) (S.left source.new) }
    ensures fault { IsErrOf result EdgeFault.ReadFault → Rose (S.faults source.old) (S.faults source.new) }
    ensures later { S.faults source.old ≤ S.faults source.new }
    ensures beside { S.beside source.new ≡ S.beside source.old }
{
    let spans = match await_request_head(alloc, source, held, room) {
        Ok(spans) => spans,
        Err(fault) => return Err(fault),
    };
    match begin(alloc, held, &spans, room.as_slice()) {
        Ok(begun) => Ok(begun),
        Err(_) => Err(EdgeFault::Memory),
    }
}

/// The request with this body.
pub fn with_body(request: Request, body: Bytes) -> Request
    ensures { result ≡ with_body request body }
{
    let Request {
        method,
        target,
        http10,
        headers,
        body: _,
    } = request;
    Request {
        method,
        target,
        http10,
        headers,
        body,
    }
}
