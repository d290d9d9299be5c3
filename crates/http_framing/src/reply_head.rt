// The head of a reply, by the grammar of `httparse`.
ghost use Rattle.std.specs.Prelude.{◌≡◌, ◌≢◌, ◌≤◌, ◌<◌, None, Err, IfOk, IfSome, IsErrOf, length};
ghost use Rattle.gw_base.specs.Outside.{Rose};
ghost use Rattle.http_framing.specs.HeadReads.{IsReplyFront, ReplyTaken};
ghost use Rattle.http_framing.specs.Stream.{SameBytes, Takes};

use crate::fault::EdgeFault;
use crate::fill::{Filled, fill_line};
use crate::framing::MAX_FIELDS;
use crate::front::Front;
use crate::read_ahead::ReadAhead;
use crate::room::{FEW_FIELDS, ROOM, make_room};
use gw_base::{Memory, Source};
use httparse::Status;
use httparse::spans::{HeaderSpan, ResponseSpans, parse_response};
use std::alloc::Global;

// What stands at the front of a buffer, or none where it has more fields than this room.
fn front_in(buf: &[u8], room: &mut [HeaderSpan]) -> Option<Front<ResponseSpans>>
    requires { length buf.now ≤ 10240 }
    ensures front { IfSome result (IsReplyFront buf.now room.new) }
    ensures none { result ≡ None → length room.old < 3414 }
{
    match parse_response(buf, room) {
        Ok(Status::Complete(head)) => Some(Front::Head(head)),
        Ok(Status::Partial) => Some(Front::Unfinished),
        Err(httparse::Error::TooManyHeaders) => None,
        Err(_) => Some(Front::Bad),
    }
}

// What stands at the front of a buffer. The room grows where a head has more fields, and stays: only a head of more than 100,
// which is refused in the end, takes the large one.
fn read_front(
    alloc: Global,
    buf: &[u8],
    room: &mut Vec<HeaderSpan>,
) -> Result<Front<ResponseSpans>, Memory>
    requires { length buf.now ≤ 10240 }
    ensures { IfOk result (IsReplyFront buf.now room.new.items) }
{
    make_room(alloc, room, FEW_FIELDS)?;
    if let Some(front) = front_in(buf, room.as_mut_slice()) {
        return Ok(front);
    }
    make_room(alloc, room, MAX_FIELDS)?;
    if let Some(front) = front_in(buf, room.as_mut_slice()) {
        return Ok(front);
    }
    make_room(alloc, room, ROOM)?;
    match front_in(buf, room.as_mut_slice()) {
        Some(front) => Ok(front),
        None => unreachable!(),
    }
}

/// Reads until a reply's head of at most `limit` bytes stands at the front of what is held, and answers where its parts
/// are. It looks as seldom as [`await_request_head`](crate::await_request_head).
pub fn await_reply_head<S: Source>(
    alloc: Global,
    source: &mut S,
    held: &mut ReadAhead,
    room: &mut Vec<HeaderSpan>,
    limit: usize,
) -> Result<ResponseSpans, EdgeFault>
    requires { limit ≤ 10240 }
    ensures head { ReplyTaken limit held.new room.new.items (S.left source.new) result }
    ensures same { result ≢ Err EdgeFault.Memory → SameBytes held.old (S.left source.old) held.new (S.left source.new) }
    ensures taken { Takes (S.left source.old) (S.left source.new) }
    ensures fault { IsErrOf result EdgeFault.ReadFault → Rose (S.faults source.old) (S.faults source.new) }
    ensures later { S.faults source.old ≤ S.faults source.new }
    ensures beside { S.beside source.new ≡ S.beside source.old }
{
    let mut filled = Filled::More;
    loop {
        match read_front(alloc, held.first(limit), room) {
            Ok(Front::Head(spans)) => return Ok(spans),
            Ok(Front::Bad) => return Err(EdgeFault::BadHead),
            Ok(Front::Unfinished) => {}
            Err(_) => return Err(EdgeFault::Memory),
        }
        if held.len() >= limit {
            return Err(EdgeFault::HeadTooLong);
        }
        match filled {
            Filled::More => {}
            Filled::End => return Err(EdgeFault::Cut(held.len() as u64)),
            Filled::Fault => return Err(EdgeFault::ReadFault),
            Filled::Memory => return Err(EdgeFault::Memory),
        }
        filled = fill_line(source, held, limit);
        if let Filled::Memory = filled {
            return Err(EdgeFault::Memory);
        }
    }
}
