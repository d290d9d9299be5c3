// One message through the book.
ghost use Rattle.std.specs.Prelude.{◌≡◌, List, IfOk};
ghost use Rattle.call_facts.specs.Target.{target_of};
ghost use Rattle.gate_walk.specs.Acts.{Act, tell_closing};
ghost use Rattle.gate_walk.specs.Walk.{walk, walk_to};
ghost use Rattle.gate_serve.specs.Serving.{Asked, BackendTold, Did, Reaches, seat_of, enter_at};
ghost use Rattle.turn_desk.specs.Calls.{HasItsOwn};

use crate::administering::administer;
use crate::called::{Called, refusal};
use crate::consulting::pursue;
use admin_routes::is_admin;
use backend_core::Backend;
use book_core::Book;
use book_rules::Event;
use call_facts::Target;
use gate_ports::{Gate, Means};
use gate_walk::{Message, plan_for};
use gw_base::Memory;
use keeper_core::Keeper;
use std::alloc::Global;
use std::sync::Wait;
use turn_desk::{Desk, Seat};

// A message comes to the stage that its target names.
fn enter_of(alloc: Global, message: &Message, target: &Target) -> Result<Event, Memory>
    ensures { IfOk result (λ event. event ≡ enter_at message.now target.now) }
{
    Ok(Event::Enter {
        moment: message.moment,
        word: message.word,
        api: target.api.copy(alloc)?,
        stage: target.stage.copy(alloc)?,
    })
}

// The way of a message to the stage that its target names.
fn enter<R: Wait, K: Keeper, B: Backend, T, W, G: Gate>(
    rt: &R,
    alloc: Global,
    desk: &Desk<Book<K>>,
    seat: Seat<Book<K>>,
    message: &Message,
    target: &Target,
    means: &mut Means<B, T, W, G>,
) -> (Seat<Book<K>>, Called, bool)
    requires desk { seat.desk ≡ desk.now }
    requires own { HasItsOwn seat_of seat }
    ensures walked { (acts : List Act) × Did seat result.0 acts × Reaches (walk_to message.now target.now) acts result.1 × (result.2 ≡ tell_closing acts)
        × Asked (record { sent = B.sent means.old.backend; given = B.given means.old.backend; to_come = B.to_come means.old.backend })
        (record { sent = B.sent means.new.backend; given = B.given means.new.backend; to_come = B.to_come means.new.backend }) acts }
    ensures clock { means.new.clock ≡ means.old.clock }
    ensures words { means.new.words ≡ means.old.words }
{
    let Ok(event) = enter_of(alloc, message, target) else {
        return (seat, Called::Memory, false);
    };
    let (seat, entering) = desk.call(rt, alloc, seat, event);
    match entering {
        Err(fault) => (seat, refusal(fault), false),
        Ok(reply) => {
            match plan_for(alloc, message.too_large, &reply, &message.request, target) {
                Ok(course) => pursue(rt, alloc, desk, seat, message, course, means),
                Err(_) => (seat, Called::Memory, false),
            }
        }
    }
}

fn read_target(alloc: Global, message: &Message) -> Result<Target, Memory>
    ensures { IfOk result (λ target. target ≡ target_of message.now.request.target) }
{
    Target::read(alloc, message.request.target.as_str())
}

/// The whole way of a message, as far as it comes; the last tells whether the book replied that the session is closing.
pub(crate) fn call<R: Wait, K: Keeper, B: Backend, T, W, G: Gate>(
    rt: &R,
    alloc: Global,
    desk: &Desk<Book<K>>,
    seat: Seat<Book<K>>,
    message: &Message,
    means: &mut Means<B, T, W, G>,
) -> (Seat<Book<K>>, Called, bool)
    requires desk { seat.desk ≡ desk.now }
    requires own { HasItsOwn seat_of seat }
    ensures walked { (acts : List Act) × Did seat result.0 acts × Reaches (walk message.now) acts result.1 × (result.2 ≡ tell_closing acts)
        × Asked (record { sent = B.sent means.old.backend; given = B.given means.old.backend; to_come = B.to_come means.old.backend })
        (record { sent = B.sent means.new.backend; given = B.given means.new.backend; to_come = B.to_come means.new.backend }) acts }
    ensures clock { means.new.clock ≡ means.old.clock }
    ensures words { means.new.words ≡ means.old.words }
{
    let Ok(target) = read_target(alloc, message) else {
        return (seat, Called::Memory, false);
    };
    if is_admin(&target) {
        administer(rt, alloc, desk, seat, message, &target)
    } else {
        enter(rt, alloc, desk, seat, message, &target, means)
    }
}
