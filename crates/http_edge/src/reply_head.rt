// The head of a reply, and those of the interim replies before it.
ghost use Rattle.std.specs.Prelude.{◌≡◌, ◌≤◌, ◌<◌, ◌^◌, ◌&&◌, take, drop, nat_lt, IfErr, IfOk, IsErrOf, OnErr, OnOk};
ghost use Rattle.httparse.specs.Grammar.{ResponseHead, print_response};
ghost use Rattle.httparse.specs.Spans.{IsResponseAt, IsResponseOf, IsResponseWithin};
ghost use Rattle.gw_base.specs.Outside.{Rose};
ghost use Rattle.http_framing.specs.Faults.{CutBelow};
ghost use Rattle.http_framing.specs.Stream.{Over, Takes};
ghost use Rattle.http_edge.specs.Replies.{serves};
ghost use Rattle.http_edge.specs.ReplyReads.{FinalRead, IsReplyBegun, ReplyHeadRead};

use crate::texts::headers;
use gw_base::{Memory, Seq, Source, Text};
use http_framing::{EdgeFault, Framing, HEAD_LIMIT, ReadAhead, await_reply_head, reply_framing};
use httparse::spans::{HeaderSpan, ResponseSpans};
use std::alloc::Global;

// A reply of which the head was read: without its body, with what the head says of it, and how many bytes were used.
#[derive(Drop)]
pub struct ReplyBegun {
    pub status: u16,
    pub headers: Seq<(Text, Text)>,
    pub framing: Framing,
    pub len: u64,
}

impl ReplyBegun {
    // Whether it is an interim reply, which is passed over.
    fn is_interim(&self) -> bool
        ensures { result ≡ (serves self.now.framing && nat_lt self.now.status 200) }
    {
        let served = match self.framing {
            Framing::TooMany => false,
            Framing::Wrong => false,
            _ => true,
        };
        served && self.status < 200
    }
}

// The reply of a head that was read, without its body.
fn reply_at(
    alloc: Global,
    buf: &[u8],
    spans: &ResponseSpans,
    room: &[HeaderSpan],
) -> Result<ReplyBegun, Memory>
    requires within { IsResponseWithin buf.now room.now spans.now }
    ensures begun { IfOk result (λ b. (h : ResponseHead) → IsResponseAt buf.now room.now spans.now h → IsReplyBegun h b) }
    ensures len { IfOk result (λ b. b.len ≡ spans.now.len) }
{
    let fields = &room[..spans.headers];
    Ok(ReplyBegun {
        status: spans.code,
        headers: headers(alloc, buf, fields)?,
        framing: reply_framing(spans.version == 0, spans.code, buf, fields),
        len: spans.len as u64,
    })
}

// Uses a head that was read.
fn begin(
    alloc: Global,
    held: &mut ReadAhead,
    spans: &ResponseSpans,
    room: &[HeaderSpan],
    limit: usize,
) -> Result<ReplyBegun, Memory>
    requires within { IsResponseWithin (take limit held.old) room.now spans.now }
    ensures begun { IfOk result (λ b. (h : ResponseHead) → IsResponseAt (take limit held.old) room.now spans.now h → IsReplyBegun h b) }
    ensures len { IfOk result (λ b. b.len ≡ spans.now.len) }
    ensures used { OnOk result (held.new ≡ drop spans.now.len held.old) }
    ensures err { OnErr result (held.new ≡ held.old) }
{
    let begun = reply_at(alloc, held.first(limit), spans, room)?;
    held.skip(spans.len);
    Ok(begun)
}

// Reads the head of at most so many bytes that stands next, and uses it.
fn read_reply_head<S: Source>(
    alloc: Global,
    source: &mut S,
    held: &mut ReadAhead,
    room: &mut Vec<HeaderSpan>,
    limit: usize,
) -> Result<ReplyBegun, EdgeFault>
    requires { limit ≤ 10240 }
    ensures head { Over (ReplyHeadRead limit) held.old (S.left source.old) held.new (S.left source.new) result }
    ensures short { IfOk result (λ b. (0 < b.len) × (b.len ≤ limit)) }
    ensures few { IfErr result (CutBelow (2 ^ 63)) }
    ensures taken { Takes (S.left source.old) (S.left source.new) }
    ensures fault { IsErrOf result EdgeFault.ReadFault → Rose (S.faults source.old) (S.faults source.new) }
    ensures later { S.faults source.old ≤ S.faults source.new }
    ensures beside { S.beside source.new ≡ S.beside source.old }
{
    let spans = match await_reply_head(alloc, source, held, room, limit) {
        Ok(spans) => spans,
        Err(fault) => return Err(fault),
    };
    match begin(alloc, held, &spans, room.as_slice(), limit) {
        Ok(begun) => Ok(begun),
        Err(_) => Err(EdgeFault::Memory),
    }
}

// The same head behind so many bytes.
fn behind(begun: ReplyBegun, len: u64) -> ReplyBegun
    ensures { result ≡ record begun { len = len } }
{
    let ReplyBegun {
        status,
        headers,
        framing,
        len: _,
    } = begun;
    ReplyBegun {
        status,
        headers,
        framing,
        len,
    }
}

/// Reads heads up to that of the reply, and uses them. Its `len` is that of all of them.
pub fn read_final_head<S: Source>(
    alloc: Global,
    source: &mut S,
    held: &mut ReadAhead,
    room: &mut Vec<HeaderSpan>,
) -> Result<ReplyBegun, EdgeFault>
    ensures head { Over FinalRead held.old (S.left source.old) held.new (S.left source.new) result }
    ensures short { IfOk result (λ b. b.len ≤ 10240) }
    ensures taken { Takes (S.left source.old) (S.left source.new) }
    ensures fault { IsErrOf result EdgeFault.ReadFault → Rose (S.faults source.old) (S.faults source.new) }
    ensures later { S.faults source.old ≤ S.faults source.new }
    ensures beside { S.beside source.new ≡ S.beside source.old }
{
    let mut gone = 0;
    loop {
        match read_reply_head(alloc, source, held, room, HEAD_LIMIT - gone) {
            Ok(begun) => {
                gone += begun.len as usize;
                if !begun.is_interim() {
                    return Ok(behind(begun, gone as u64));
                }
            }
            Err(fault) => return Err(fault.shifted(gone as u64)),
        }
    }
}
