// The head of a request, by the grammar of `httparse`.
ghost use Rattle.std.specs.Prelude.{◌≡◌, ◌≢◌, ◌≤◌, ◌<◌, None, Err, IfOk, IfSome, IsErrOf, length};
ghost use Rattle.gw_base.specs.Outside.{Rose};
ghost use Rattle.http_framing.specs.HeadReads.{HeadTaken, IsFront};
ghost use Rattle.http_framing.specs.Stream.{SameBytes, Takes};

use crate::fault::EdgeFault;
use crate::fill::{Filled, fill_line};
use crate::framing::MAX_FIELDS;
use crate::front::Front;
use crate::read_ahead::ReadAhead;
use crate::room::{FEW_FIELDS, ROOM, make_room};
use crate::target::ends_in_target;
use gw_base::{Memory, Source};
use httparse::Status;
use httparse::spans::{HeaderSpan, RequestSpans, parse_request};
use std::alloc::Global;

/// The most bytes of a head, its leading empty lines and its closing one included.
pub const HEAD_LIMIT: usize = 10_240;

// What stands at the front of a buffer, or none where it has more fields than this room.
fn front_in(buf: &[u8], room: &mut [HeaderSpan]) -> Option<Front<RequestSpans>>
    requires { length buf.now ≤ 10240 }
    ensures front { IfSome result (IsFront buf.now room.new) }
    ensures none { result ≡ None → length room.old < 3414 }
{
    match parse_request(buf, room) {
        Ok(Status::Complete(head)) => Some(Front::Head(head)),
        Ok(Status::Partial) => Some(Front::Unfinished),
        Err(httparse::Error::TooManyHeaders) => None,
        Err(_) => {
            if ends_in_target(buf) {
                Some(Front::Unfinished)
            } else {
                Some(Front::Bad)
            }
        }
    }
}

// What stands at the front of a buffer. The room grows where a head has more fields, and stays: only a head of more than 100,
// which is refused in the end, takes the large one.
fn read_front(
    alloc: Global,
    buf: &[u8],
    room: &mut Vec<HeaderSpan>,
) -> Result<Front<RequestSpans>, Memory>
    requires { length buf.now ≤ 10240 }
    ensures { IfOk result (IsFront buf.now room.new.items) }
{
    // Nothing is no head yet. A connection begins and ends so.
    if buf.is_empty() {
        return Ok(Front::Unfinished);
    }
    make_room(alloc, room, FEW_FIELDS)?;
    if let Some(front) = front_in(buf, room.as_mut_slice()) {
        return Ok(front);
    }
    make_room(alloc, room, MAX_FIELDS)?;
    if let Some(front) = front_in(buf, room.as_mut_slice()) {
        return Ok(front);
    }
    make_room(alloc, room, ROOM)?;
    match front_in(buf, room.as_mut_slice()) {
        Some(front) => Ok(front),
        None => unreachable!(),
    }
}

/// Reads until a request's head stands at the front of what is held, and answers where its parts are. A head is looked
/// at before the first read, and then when a line ended, the limit came, or no more comes.
pub fn await_request_head<S: Source>(
    alloc: Global,
    source: &mut S,
    held: &mut ReadAhead,
    room: &mut Vec<HeaderSpan>,
) -> Result<RequestSpans, EdgeFault>
    ensures head { HeadTaken held.new room.new.items (S.left source.new) result }
    ensures same { result ≢ Err EdgeFault.Memory → SameBytes held.old (S.left source.old) held.new (S.left source.new) }
    ensures taken { Takes (S.left source.old) (S.left source.new) }
    ensures fault { IsErrOf result EdgeFault.ReadFault → Rose (S.faults source.old) (S.faults source.new) }
    ensures later { S.faults source.old ≤ S.faults source.new }
    ensures beside { S.beside source.new ≡ S.beside source.old }
{
    let mut filled = Filled::More;
    loop {
        match read_front(alloc, held.first(HEAD_LIMIT), room) {
            Ok(Front::Head(spans)) => return Ok(spans),
            Ok(Front::Bad) => return Err(EdgeFault::BadHead),
            Ok(Front::Unfinished) => {}
            Err(_) => return Err(EdgeFault::Memory),
        }
        if held.len() >= HEAD_LIMIT {
            return Err(EdgeFault::HeadTooLong);
        }
        match filled {
            Filled::More => {}
            Filled::End => return Err(EdgeFault::Cut(held.len() as u64)),
            Filled::Fault => return Err(EdgeFault::ReadFault),
            Filled::Memory => return Err(EdgeFault::Memory),
        }
        // A head ends, and is told to be none, at a line's end: no other read is worth a look.
        filled = fill_line(source, held, HEAD_LIMIT);
        if let Filled::Memory = filled {
            return Err(EdgeFault::Memory);
        }
    }
}
