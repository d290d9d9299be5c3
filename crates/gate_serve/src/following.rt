// What is planned for a message.
ghost use Rattle.std.specs.Prelude.{◌≡◌, List, IfOk};
ghost use Rattle.gate_walk.specs.Acts.{Act, tell_closing};
ghost use Rattle.gate_walk.specs.Walk.{follows, performs};
ghost use Rattle.gate_serve.specs.Serving.{Asked, BackendTold, Did, Reaches, admit_at, seat_of};
ghost use Rattle.method_answers.specs.Keys.{key_value};
ghost use Rattle.method_answers.specs.Outcomes.{outcome_made};
ghost use Rattle.method_answers.specs.Plans.{admits, admitted, exchanges, plan_of, way_of};
ghost use Rattle.turn_desk.specs.Calls.{HasItsOwn};

use crate::called::{Called, refusal};
use crate::leaving::leave;
use backend_core::{Backend, Outcome};
use book_core::Book;
use book_rules::Event;
use gate_ports::{Gate, Means};
use gate_walk::{Message, admission_of};
use gw_base::Memory;
use keeper_core::Keeper;
use method_answers::{Exchange, Keyed, Plan, Way};
use std::alloc::Global;
use std::sync::Wait;
use turn_desk::{Desk, Seat};

// Sends the request to the backend, once the gate is passed, and answers by the outcome. No turn is held meanwhile.
fn ask<R: Wait, K: Keeper, B: Backend, T, W, G: Gate>(
    rt: &R,
    alloc: Global,
    desk: &Desk<Book<K>>,
    seat: Seat<Book<K>>,
    message: &Message,
    exchange: &Exchange,
    means: &mut Means<B, T, W, G>,
) -> (Seat<Book<K>>, Called, bool)
    requires desk { seat.desk ≡ desk.now }
    requires own { HasItsOwn seat_of seat }
    ensures walked { (acts : List Act) × Did seat result.0 acts
        × Reaches (performs message.now (exchanges exchange.now.request (outcome_made exchange.now.passes exchange.now.call))) acts result.1 × (result.2 ≡ tell_closing acts)
        × Asked (record { sent = B.sent means.old.backend; given = B.given means.old.backend; to_come = B.to_come means.old.backend })
        (record { sent = B.sent means.new.backend; given = B.given means.new.backend; to_come = B.to_come means.new.backend }) acts }
    ensures clock { means.new.clock ≡ means.old.clock }
    ensures words { means.new.words ≡ means.old.words }
{
    means.gate.pass(exchange.call.place());
    let outcome = means.backend.exchange(alloc, &exchange.request);
    if let Outcome::Memory = &outcome {
        return (seat, Called::Memory, false);
    }
    match exchange.answer(alloc, &outcome) {
        Ok(made) => leave(rt, alloc, desk, seat, message, &made),
        Err(_) => (seat, Called::Memory, false),
    }
}

// Does what is planned: the answer leaves, or a backend is asked first.
fn perform<R: Wait, K: Keeper, B: Backend, T, W, G: Gate>(
    rt: &R,
    alloc: Global,
    desk: &Desk<Book<K>>,
    seat: Seat<Book<K>>,
    message: &Message,
    plan: &Plan,
    means: &mut Means<B, T, W, G>,
) -> (Seat<Book<K>>, Called, bool)
    requires desk { seat.desk ≡ desk.now }
    requires own { HasItsOwn seat_of seat }
    ensures walked { (acts : List Act) × Did seat result.0 acts × Reaches (performs message.now (plan_of plan.now)) acts result.1 × (result.2 ≡ tell_closing acts)
        × Asked (record { sent = B.sent means.old.backend; given = B.given means.old.backend; to_come = B.to_come means.old.backend })
        (record { sent = B.sent means.new.backend; given = B.given means.new.backend; to_come = B.to_come means.new.backend }) acts }
    ensures clock { means.new.clock ≡ means.old.clock }
    ensures words { means.new.words ≡ means.old.words }
{
    match plan {
        Plan::Answered(made) => leave(rt, alloc, desk, seat, message, made),
        Plan::Asks(exchange) => ask(rt, alloc, desk, seat, message, exchange, means),
    }
}

// A call asks its stage to admit it.
fn admit_of(alloc: Global, message: &Message, keyed: &Keyed) -> Result<Event, Memory>
    ensures { IfOk result (λ event. event ≡ admit_at message.now keyed.now.call) }
{
    let target = keyed.target();
    Ok(Event::Admit {
        moment: message.moment,
        api: target.api.copy(alloc)?,
        stage: target.stage.copy(alloc)?,
        value: keyed.value(alloc)?,
    })
}

// Asks once whether the call is admitted, and does what follows of that.
fn admit<R: Wait, K: Keeper, B: Backend, T, W, G: Gate>(
    rt: &R,
    alloc: Global,
    desk: &Desk<Book<K>>,
    seat: Seat<Book<K>>,
    message: &Message,
    keyed: Keyed,
    means: &mut Means<B, T, W, G>,
) -> (Seat<Book<K>>, Called, bool)
    requires desk { seat.desk ≡ desk.now }
    requires own { HasItsOwn seat_of seat }
    ensures walked { (acts : List Act) × Did seat result.0 acts
        × Reaches (follows message.now (admits keyed.entry.call.target (key_value keyed.entry.call.request) (admitted keyed.entry.call))) acts result.1 × (result.2 ≡ tell_closing acts)
        × Asked (record { sent = B.sent means.old.backend; given = B.given means.old.backend; to_come = B.to_come means.old.backend })
        (record { sent = B.sent means.new.backend; given = B.given means.new.backend; to_come = B.to_come means.new.backend }) acts }
    ensures clock { means.new.clock ≡ means.old.clock }
    ensures words { means.new.words ≡ means.old.words }
{
    let Ok(event) = admit_of(alloc, message, &keyed) else {
        return (seat, Called::Memory, false);
    };
    let (seat, admitting) = desk.call(rt, alloc, seat, event);
    match admitting {
        Err(fault) => (seat, refusal(fault), false),
        Ok(reply) => {
            match keyed.admitted(alloc, admission_of(reply)) {
                Ok(plan) => perform(rt, alloc, desk, seat, message, &plan, means),
                Err(_) => (seat, Called::Memory, false),
            }
        }
    }
}

/// Follows what is planned for a message: it is done, or the call asks to be admitted first.
pub(crate) fn follow<R: Wait, K: Keeper, B: Backend, T, W, G: Gate>(
    rt: &R,
    alloc: Global,
    desk: &Desk<Book<K>>,
    seat: Seat<Book<K>>,
    message: &Message,
    way: Way,
    means: &mut Means<B, T, W, G>,
) -> (Seat<Book<K>>, Called, bool)
    requires desk { seat.desk ≡ desk.now }
    requires own { HasItsOwn seat_of seat }
    ensures walked { (acts : List Act) × Did seat result.0 acts × Reaches (follows message.now (way_of way.entry)) acts result.1 × (result.2 ≡ tell_closing acts)
        × Asked (record { sent = B.sent means.old.backend; given = B.given means.old.backend; to_come = B.to_come means.old.backend })
        (record { sent = B.sent means.new.backend; given = B.given means.new.backend; to_come = B.to_come means.new.backend }) acts }
    ensures clock { means.new.clock ≡ means.old.clock }
    ensures words { means.new.words ≡ means.old.words }
{
    match way {
        Way::Goes(plan) => perform(rt, alloc, desk, seat, message, &plan, means),
        Way::Admits(keyed) => admit(rt, alloc, desk, seat, message, keyed, means),
    }
}
