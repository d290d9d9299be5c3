// One administration request.
ghost use Rattle.std.specs.Prelude.{◌≡◌, List, Ok};
ghost use Rattle.admin_routes.specs.Answers.{replied_made};
ghost use Rattle.admin_routes.specs.Orders.{order_of as order_of_request};
ghost use Rattle.gate_walk.specs.Acts.{Act, tell_closing};
ghost use Rattle.gate_walk.specs.Walk.{administered, leaves};
ghost use Rattle.gate_serve.specs.Serving.{Did, Reaches, seat_of};
ghost use Rattle.turn_desk.specs.Calls.{HasItsOwn};

use crate::called::{Called, refusal};
use crate::leaving::leave;
use admin_routes::{answer_reply, order_of};
use book_core::Book;
use book_rules::{Command, Event, Reply};
use call_facts::Target;
use gate_walk::Message;
use keeper_core::Keeper;
use std::alloc::Global;
use std::sync::Wait;
use turn_desk::{Desk, Seat};

// Tells what the book replied to a command.
fn tell<R: Wait, K: Keeper>(
    rt: &R,
    alloc: Global,
    desk: &Desk<Book<K>>,
    seat: Seat<Book<K>>,
    message: &Message,
    reply: &Reply,
) -> (Seat<Book<K>>, Called, bool)
    requires desk { seat.desk ≡ desk.now }
    requires own { HasItsOwn seat_of seat }
    ensures { (acts : List Act) × Did seat result.0 acts × Reaches (leaves message.now (replied_made reply.now)) acts result.1 × (result.2 ≡ tell_closing acts) }
{
    match answer_reply(alloc, reply) {
        Ok(made) => leave(rt, alloc, desk, seat, message, &made),
        Err(_) => (seat, Called::Memory, false),
    }
}

// Asks a command of the book.
fn command<R: Wait, K: Keeper>(
    rt: &R,
    alloc: Global,
    desk: &Desk<Book<K>>,
    seat: Seat<Book<K>>,
    message: &Message,
    command: Command,
) -> (Seat<Book<K>>, Called, bool)
    requires desk { seat.desk ≡ desk.now }
    requires own { HasItsOwn seat_of seat }
    ensures { (acts : List Act) × Did seat result.0 acts × Reaches (administered message.now (Ok command)) acts result.1 × (result.2 ≡ tell_closing acts) }
{
    let event = Event::Admin {
        moment: message.moment,
        command,
    };
    let (seat, asking) = desk.call(rt, alloc, seat, event);
    match asking {
        Err(fault) => (seat, refusal(fault), false),
        Ok(reply) => tell(rt, alloc, desk, seat, message, &reply),
    }
}

/// The way of an administration request.
pub(crate) fn administer<R: Wait, K: Keeper>(
    rt: &R,
    alloc: Global,
    desk: &Desk<Book<K>>,
    seat: Seat<Book<K>>,
    message: &Message,
    target: &Target,
) -> (Seat<Book<K>>, Called, bool)
    requires desk { seat.desk ≡ desk.now }
    requires own { HasItsOwn seat_of seat }
    ensures { (acts : List Act) × Did seat result.0 acts × Reaches (administered message.now (order_of_request message.now.too_large message.now.request target.now)) acts result.1 × (result.2 ≡ tell_closing acts) }
{
    match order_of(alloc, message.too_large, &message.request, target) {
        Ok(Ok(asked)) => command(rt, alloc, desk, seat, message, asked),
        Ok(Err(made)) => leave(rt, alloc, desk, seat, message, &made),
        Err(_) => (seat, Called::Memory, false),
    }
}
