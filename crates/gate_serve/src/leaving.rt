// A message that was answered leaves.
ghost use Rattle.std.specs.Prelude.{◌≡◌, List, IfOk};
ghost use Rattle.gate_walk.specs.Acts.{Act, tell_closing};
ghost use Rattle.gate_walk.specs.Walk.{leaves, answered, is_head as is_head_of, closing_by, closes_by};
ghost use Rattle.gate_serve.specs.Serving.{Did, Reaches, Gives, seat_of};
ghost use Rattle.turn_desk.specs.Calls.{HasItsOwn};

use crate::called::{Called, refusal};
use book_core::Book;
use book_rules::{Event, Reply};
use call_facts::Request;
use gate_walk::{Message, closes};
use gw_base::{Bytes, Memory};
use http_edge::spell_answer;
use keeper_core::Keeper;
use method_flow::Made;
use std::alloc::Global;
use std::sync::Wait;
use turn_desk::{Desk, Seat};

fn is_head(request: &Request) -> bool
    ensures { result ≡ is_head_of request.now }
{
    request.method.as_str() == "HEAD"
}

// Whether a reply tells that the session is closing.
fn tells_closing(reply: &Reply) -> bool
    ensures { result ≡ closing_by reply.now }
{
    match reply {
        Reply::Left { closing } => *closing,
        _ => false,
    }
}

// Whether the connection closes behind a message that left with this reply.
fn closes_behind(alloc: Global, message: &Message, reply: &Reply) -> Result<bool, Memory>
    ensures { IfOk result (λ closing. closing ≡ closes_by message.now reply.now) }
{
    let last = closes(alloc, message.number, message.too_large, &message.request)?;
    Ok(last || tells_closing(reply))
}

// The answer, behind which the connection closes or stays open, once the message has left.
fn answer(alloc: Global, message: &Message, made: &Made, reply: &Reply) -> Result<Called, Memory>
    ensures { IfOk result (λ called. Gives (answered message.now made.now reply.now) called) }
{
    let closes = closes_behind(alloc, message, reply)?;
    let bytes = spell_answer(alloc, &made.answer, is_head(&message.request), closes)?;
    Ok(Called::Answered {
        cause: made.cause,
        bytes: Bytes::of(bytes),
        closes,
    })
}

/// Lets a message with this answer leave.
pub(crate) fn leave<R: Wait, K: Keeper>(
    rt: &R,
    alloc: Global,
    desk: &Desk<Book<K>>,
    seat: Seat<Book<K>>,
    message: &Message,
    made: &Made,
) -> (Seat<Book<K>>, Called, bool)
    requires desk { seat.desk ≡ desk.now }
    requires own { HasItsOwn seat_of seat }
    ensures { (acts : List Act) × Did seat result.0 acts × Reaches (leaves message.now made.now) acts result.1 × (result.2 ≡ tell_closing acts) }
{
    let event = Event::Leave {
        status: made.answer.status,
        cause: made.cause,
    };
    let (seat, leaving) = desk.call(rt, alloc, seat, event);
    match leaving {
        Err(fault) => (seat, refusal(fault), false),
        Ok(reply) => {
            let closing = tells_closing(&reply);
            let called = answer(alloc, message, made, &reply).unwrap_or(Called::Memory);
            (seat, called, closing)
        }
    }
}
