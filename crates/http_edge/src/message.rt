// The next message of a stream.
ghost use Rattle.std.specs.Prelude.{◌≡◌, ◌≤◌, ◌+◌, ◌^◌, Some, None, Err, IfErr, IfSome, IsErrOf};
ghost use Rattle.gw_base.specs.Outside.{Rose};
ghost use Rattle.http_framing.specs.BodyReads.{BodyRead};
ghost use Rattle.http_framing.specs.Faults.{CutBelow};
ghost use Rattle.http_framing.specs.Stream.{Over, Takes};
ghost use Rattle.http_edge.specs.Buffers.{KeepsFault};
ghost use Rattle.http_edge.specs.Messages.{Comes, IsRequestBody};
ghost use Rattle.http_edge.specs.Reads.{ended, told};

use crate::buffer::Buffer;
use crate::incoming::Incoming;
use crate::request::{Begun, read_head, with_body};
use call_facts::Request;
use gw_base::{Bytes, Source};
use http_framing::{Body, EdgeFault, Framing, ReadAhead, read_chunked, read_known};
use httparse::spans::HeaderSpan;
use std::alloc::Global;

// Reads the body of a request whose head says this.
fn read_body<S: Source>(
    alloc: Global,
    source: &mut S,
    held: &mut ReadAhead,
    framing: Framing,
) -> Result<Body, EdgeFault>
    ensures body { Over (BodyRead (IsRequestBody framing)) held.old (S.left source.old) held.new (S.left source.new) result }
    ensures few { IfErr result (CutBelow (2 ^ 63 + 2 ^ 40)) }
    ensures taken { Takes (S.left source.old) (S.left source.new) }
    ensures fault { IsErrOf result EdgeFault.ReadFault → Rose (S.faults source.old) (S.faults source.new) }
    ensures later { S.faults source.old ≤ S.faults source.new }
    ensures beside { S.beside source.new ≡ S.beside source.old }
{
    match framing {
        Framing::TooMany => Err(EdgeFault::HeadTooLong),
        Framing::Wrong => Err(EdgeFault::BadHead),
        Framing::Absent => Ok(Body::Read(Bytes::of(Vec::new(alloc)))),
        Framing::Known(n) => read_known(alloc, source, held, n),
        Framing::Chunked => read_chunked(alloc, source, held),
    }
}

// What a message comes to behind a head of this length.
fn told(request: Request, len: u64, body: Result<Body, EdgeFault>) -> Result<Incoming, EdgeFault>
    requires few { IfErr body (CutBelow (2 ^ 63 + 2 ^ 40)) }
    requires short { len ≤ 10240 }
    ensures { result ≡ told request len body }
{
    match body {
        Ok(Body::Read(body)) => Ok(Incoming::Whole(with_body(request, body))),
        Ok(Body::PastLimit) => Ok(Incoming::TooLarge(request)),
        Err(fault) => Err(fault.shifted(len)),
    }
}

// What the fault of a head that was awaited is to a reader of messages.
fn ended(fault: EdgeFault) -> Result<Incoming, EdgeFault>
    ensures { result ≡ ended fault }
{
    match fault {
        EdgeFault::Cut(n) => {
            if n == 0 {
                Ok(Incoming::End)
            } else {
                Err(EdgeFault::Cut(n))
            }
        }
        other => Err(other),
    }
}

// The next message over what is held.
fn message<S: Source>(
    alloc: Global,
    source: &mut S,
    held: &mut ReadAhead,
    room: &mut Vec<HeaderSpan>,
) -> Result<Incoming, EdgeFault>
    ensures next { Over Comes held.old (S.left source.old) held.new (S.left source.new) result }
    ensures taken { Takes (S.left source.old) (S.left source.new) }
    ensures fault { IsErrOf result EdgeFault.ReadFault → Rose (S.faults source.old) (S.faults source.new) }
    ensures later { S.faults source.old ≤ S.faults source.new }
    ensures beside { S.beside source.new ≡ S.beside source.old }
{
    match read_head(alloc, source, held, room) {
        Ok(begun) => {
            let Begun {
                request,
                framing,
                len,
            } = begun;
            told(request, len, read_body(alloc, source, held, framing))
        }
        Err(fault) => ended(fault),
    }
}

/// The next message of a connection, however its bytes come: what stands next in what the buffer holds and the source
/// has left. A head is looked at again only when a line ended, the limit came, or no more comes; a message that is too
/// large is not read further. After a fault the buffer answers it again, and reads no more.
pub fn next_message<S: Source>(
    alloc: Global,
    source: &mut S,
    rest: &mut Buffer,
) -> Result<Incoming, EdgeFault>
    ensures next { rest.old.fault ≡ None → Over Comes rest.old.bytes (S.left source.old) rest.new.bytes (S.left source.new) result }

    // A fault is kept, and answered again with all as it was.
    ensures again { IfSome rest.old.fault (λ f. (result ≡ Err f) × (rest.new ≡ rest.old) × (source.new ≡ source.old)) }
    ensures kept { rest.old.fault ≡ None → KeepsFault rest.new result }

    // At each end the bytes that were taken are known.
    ensures taken { Takes (S.left source.old) (S.left source.new) }
    ensures fault { rest.old.fault ≡ None → IsErrOf result EdgeFault.ReadFault → Rose (S.faults source.old) (S.faults source.new) }
    ensures later { S.faults source.old ≤ S.faults source.new }
    ensures beside { S.beside source.new ≡ S.beside source.old }
{
    if let Some(fault) = rest.fault {
        return Err(fault);
    }
    match message(alloc, source, &mut rest.held, &mut rest.room) {
        Ok(incoming) => Ok(incoming),
        Err(fault) => {
            rest.stop(alloc, fault);
            Err(fault)
        }
    }
}
