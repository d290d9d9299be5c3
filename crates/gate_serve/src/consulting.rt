// Calls whose authorizer decides first.
ghost use Rattle.std.specs.Prelude.{◌≡◌, ◌==◌, List, IfOk, Ok, true, false};
ghost use Rattle.authorizer_call.specs.Outcomes.{policy_of as policy_of_outcome};
ghost use Rattle.authorizer_call.specs.Views.{Tells};
ghost use Rattle.gate_walk.specs.Acts.{Act, tell_closing};
ghost use Rattle.gate_walk.specs.Walk.{consulted, follows, gives, inquires, inquires_by, learns, name_of as name_of_question, pursues};
ghost use Rattle.gate_serve.specs.Serving.{Asked, BackendTold, Did, Reaches, learn_at, recall_at, seat_of};
ghost use Rattle.method_answers.specs.Plans.{course_of, judged};
ghost use Rattle.turn_desk.specs.Calls.{HasItsOwn};

use crate::called::{Called, refusal};
use crate::following::follow;
use authorizer_call::{AuthorizerFault, policy_of};
use backend_core::{Backend, Outcome, WireRequest};
use book_core::Book;
use book_rules::Event;
use gate_ports::{Gate, Means};
use gate_walk::{Message, policy_in};
use gw_base::{Memory, Shared};
use keeper_core::Keeper;
use method_answers::{Authorizing, Course};
use policy_core::Policy;
use policy_memory::PolicyName;
use std::alloc::Global;
use std::sync::Wait;
use turn_desk::{Desk, Seat};

// A call, and the policy that its authorizer gave, or that is remembered of it.
#[derive(Drop)]
struct Given<'a> {
    asking: Authorizing<'a>,
    policy: Shared<Policy>,
}

// A call, and the request that asks its authorizer.
#[derive(Drop)]
struct Inquiry<'a> {
    asking: Authorizing<'a>,
    request: WireRequest,
}

// The name under which the policy of a call is remembered.
fn name_of(alloc: Global, asking: &Authorizing) -> Result<PolicyName, Memory>
    ensures { IfOk result (λ name. name ≡ name_of_question asking.now.call.target asking.now.question) }
{
    let target = asking.target();
    Ok(PolicyName {
        api: target.api.copy(alloc)?,
        stage: target.stage.copy(alloc)?,
        authorizer: asking.authorizer().copy(alloc)?,
        token: asking.token().copy(alloc)?,
    })
}

// A call asks for the policy that is remembered of it.
fn recall_of(alloc: Global, message: &Message, asking: &Authorizing) -> Result<Event, Memory>
    ensures { IfOk result (λ event. event ≡ recall_at message.now asking.now) }
{
    Ok(Event::Recall {
        moment: message.moment,
        name: name_of(alloc, asking)?,
    })
}

// The policy of a call is learned.
fn learn_of(alloc: Global, message: &Message, given: &Given) -> Result<Event, Memory>
    ensures { IfOk result (λ event. event ≡ learn_at message.now given.now.asking given.now.policy) }
{
    Ok(Event::Learn {
        moment: message.moment,
        name: name_of(alloc, &given.asking)?,
        policy: given.policy.share()?,
        ttl: given.asking.ttl(),
    })
}

// What an exchange with an authorizer comes to, ready to be shared.
fn take_policy(alloc: Global, outcome: &Outcome) -> Result<Shared<Policy>, AuthorizerFault>
    ensures { Tells (policy_of_outcome outcome.now) result }
{
    let policy = policy_of(alloc, outcome)?;
    match Shared::new(alloc, policy) {
        Ok(policy) => Ok(policy),
        Err(_) => Err(AuthorizerFault::Memory),
    }
}

// The policy decides.
fn decide<R: Wait, K: Keeper, B: Backend, T, W, G: Gate>(
    rt: &R,
    alloc: Global,
    desk: &Desk<Book<K>>,
    seat: Seat<Book<K>>,
    message: &Message,
    given: Given,
    means: &mut Means<B, T, W, G>,
) -> (Seat<Book<K>>, Called, bool)
    requires desk { seat.desk ≡ desk.now }
    requires own { HasItsOwn seat_of seat }
    ensures walked { (acts : List Act) × Did seat result.0 acts
        × Reaches (follows message.now (judged given.entry.asking.call given.entry.asking.arn (Ok given.entry.policy))) acts result.1 × (result.2 ≡ tell_closing acts)
        × Asked (record { sent = B.sent means.old.backend; given = B.given means.old.backend; to_come = B.to_come means.old.backend })
        (record { sent = B.sent means.new.backend; given = B.given means.new.backend; to_come = B.to_come means.new.backend }) acts }
    ensures clock { means.new.clock ≡ means.old.clock }
    ensures words { means.new.words ≡ means.old.words }
{
    let Given { asking, policy } = given;
    match asking.judged_by(alloc, policy) {
        Ok(way) => follow(rt, alloc, desk, seat, message, way, means),
        Err(_) => (seat, Called::Memory, false),
    }
}

// A policy that may be remembered is learned, and decides then.
fn learn<R: Wait, K: Keeper, B: Backend, T, W, G: Gate>(
    rt: &R,
    alloc: Global,
    desk: &Desk<Book<K>>,
    seat: Seat<Book<K>>,
    message: &Message,
    given: Given,
    means: &mut Means<B, T, W, G>,
) -> (Seat<Book<K>>, Called, bool)
    requires desk { seat.desk ≡ desk.now }
    requires own { HasItsOwn seat_of seat }
    ensures walked { (acts : List Act) × Did seat result.0 acts
        × Reaches (learns false message.now given.entry.asking.call.target given.entry.asking.question (judged given.entry.asking.call given.entry.asking.arn) given.entry.policy) acts result.1 × (result.2 ≡ tell_closing acts)
        × Asked (record { sent = B.sent means.old.backend; given = B.given means.old.backend; to_come = B.to_come means.old.backend })
        (record { sent = B.sent means.new.backend; given = B.given means.new.backend; to_come = B.to_come means.new.backend }) acts }
    ensures clock { means.new.clock ≡ means.old.clock }
    ensures words { means.new.words ≡ means.old.words }
{
    let Ok(event) = learn_of(alloc, message, &given) else {
        return (seat, Called::Memory, false);
    };
    let (seat, learning) = desk.call(rt, alloc, seat, event);
    match learning {
        Err(fault) => (seat, refusal(fault), false),
        Ok(_) => decide(rt, alloc, desk, seat, message, given, means),
    }
}

// A policy that the authorizer gave decides; where it may be remembered it is learned first.
fn give<R: Wait, K: Keeper, B: Backend, T, W, G: Gate>(
    rt: &R,
    alloc: Global,
    desk: &Desk<Book<K>>,
    seat: Seat<Book<K>>,
    message: &Message,
    given: Given,
    means: &mut Means<B, T, W, G>,
) -> (Seat<Book<K>>, Called, bool)
    requires desk { seat.desk ≡ desk.now }
    requires own { HasItsOwn seat_of seat }
    ensures walked { (acts : List Act) × Did seat result.0 acts
        × Reaches (gives message.now given.entry.asking.call.target given.entry.asking.question (judged given.entry.asking.call given.entry.asking.arn) (Ok given.entry.policy)) acts result.1 × (result.2 ≡ tell_closing acts)
        × Asked (record { sent = B.sent means.old.backend; given = B.given means.old.backend; to_come = B.to_come means.old.backend })
        (record { sent = B.sent means.new.backend; given = B.given means.new.backend; to_come = B.to_come means.new.backend }) acts }
    ensures clock { means.new.clock ≡ means.old.clock }
    ensures words { means.new.words ≡ means.old.words }
{
    if given.asking.ttl() == 0 {
        decide(rt, alloc, desk, seat, message, given, means)
    } else {
        learn(rt, alloc, desk, seat, message, given, means)
    }
}

// Sends the request, once the gate is passed, and goes on by what the authorizer gives. No turn is held meanwhile.
fn send<R: Wait, K: Keeper, B: Backend, T, W, G: Gate>(
    rt: &R,
    alloc: Global,
    desk: &Desk<Book<K>>,
    seat: Seat<Book<K>>,
    message: &Message,
    inquiry: Inquiry,
    means: &mut Means<B, T, W, G>,
) -> (Seat<Book<K>>, Called, bool)
    requires desk { seat.desk ≡ desk.now }
    requires own { HasItsOwn seat_of seat }
    ensures walked { (acts : List Act) × Did seat result.0 acts
        × Reaches (inquires_by (Some inquiry.entry.request) message.now inquiry.entry.asking.call.target inquiry.entry.asking.question (judged inquiry.entry.asking.call inquiry.entry.asking.arn)) acts result.1 × (result.2 ≡ tell_closing acts)
        × Asked (record { sent = B.sent means.old.backend; given = B.given means.old.backend; to_come = B.to_come means.old.backend })
        (record { sent = B.sent means.new.backend; given = B.given means.new.backend; to_come = B.to_come means.new.backend }) acts }
    ensures clock { means.new.clock ≡ means.old.clock }
    ensures words { means.new.words ≡ means.old.words }
{
    let Inquiry { asking, request } = inquiry;
    means.gate.pass(asking.place());
    let outcome = means.backend.exchange(alloc, &request);
    if let Outcome::Memory = &outcome {
        return (seat, Called::Memory, false);
    }
    match take_policy(alloc, &outcome) {
        Ok(policy) => give(
            rt,
            alloc,
            desk,
            seat,
            message,
            Given { asking, policy },
            means,
        ),
        Err(fault) => match asking.failed(alloc, fault) {
            Ok(way) => follow(rt, alloc, desk, seat, message, way, means),
            Err(_) => (seat, Called::Memory, false),
        },
    }
}

// Asks the authorizer. The request is made here, since a policy that is remembered needs none.
fn inquire<R: Wait, K: Keeper, B: Backend, T, W, G: Gate>(
    rt: &R,
    alloc: Global,
    desk: &Desk<Book<K>>,
    seat: Seat<Book<K>>,
    message: &Message,
    asking: Authorizing,
    means: &mut Means<B, T, W, G>,
) -> (Seat<Book<K>>, Called, bool)
    requires desk { seat.desk ≡ desk.now }
    requires own { HasItsOwn seat_of seat }
    ensures walked { (acts : List Act) × Did seat result.0 acts
        × Reaches (inquires message.now asking.entry.call.target asking.entry.question (judged asking.entry.call asking.entry.arn)) acts result.1 × (result.2 ≡ tell_closing acts)
        × Asked (record { sent = B.sent means.old.backend; given = B.given means.old.backend; to_come = B.to_come means.old.backend })
        (record { sent = B.sent means.new.backend; given = B.given means.new.backend; to_come = B.to_come means.new.backend }) acts }
    ensures clock { means.new.clock ≡ means.old.clock }
    ensures words { means.new.words ≡ means.old.words }
{
    match asking.request(alloc) {
        Ok(Some(request)) => send(
            rt,
            alloc,
            desk,
            seat,
            message,
            Inquiry { asking, request },
            means,
        ),
        Ok(None) => match asking.failed(alloc, AuthorizerFault::Configuration) {
            Ok(way) => follow(rt, alloc, desk, seat, message, way, means),
            Err(_) => (seat, Called::Memory, false),
        },
        Err(_) => (seat, Called::Memory, false),
    }
}

// Asks the book for the policy that is remembered, and the authorizer where none is.
fn recall<R: Wait, K: Keeper, B: Backend, T, W, G: Gate>(
    rt: &R,
    alloc: Global,
    desk: &Desk<Book<K>>,
    seat: Seat<Book<K>>,
    message: &Message,
    asking: Authorizing,
    means: &mut Means<B, T, W, G>,
) -> (Seat<Book<K>>, Called, bool)
    requires desk { seat.desk ≡ desk.now }
    requires own { HasItsOwn seat_of seat }
    ensures walked { (acts : List Act) × Did seat result.0 acts
        × Reaches (consulted false message.now asking.entry.call.target asking.entry.question (judged asking.entry.call asking.entry.arn)) acts result.1 × (result.2 ≡ tell_closing acts)
        × Asked (record { sent = B.sent means.old.backend; given = B.given means.old.backend; to_come = B.to_come means.old.backend })
        (record { sent = B.sent means.new.backend; given = B.given means.new.backend; to_come = B.to_come means.new.backend }) acts }
    ensures clock { means.new.clock ≡ means.old.clock }
    ensures words { means.new.words ≡ means.old.words }
{
    let Ok(event) = recall_of(alloc, message, &asking) else {
        return (seat, Called::Memory, false);
    };
    let (seat, recalling) = desk.call(rt, alloc, seat, event);
    match recalling {
        Err(fault) => (seat, refusal(fault), false),
        Ok(reply) => match policy_in(&reply) {
            Ok(Some(policy)) => decide(
                rt,
                alloc,
                desk,
                seat,
                message,
                Given { asking, policy },
                means,
            ),
            Ok(None) => inquire(rt, alloc, desk, seat, message, asking, means),
            Err(_) => (seat, Called::Memory, false),
        },
    }
}

// Consults the authorizer of a call.
fn consult<R: Wait, K: Keeper, B: Backend, T, W, G: Gate>(
    rt: &R,
    alloc: Global,
    desk: &Desk<Book<K>>,
    seat: Seat<Book<K>>,
    message: &Message,
    asking: Authorizing,
    means: &mut Means<B, T, W, G>,
) -> (Seat<Book<K>>, Called, bool)
    requires desk { seat.desk ≡ desk.now }
    requires own { HasItsOwn seat_of seat }
    ensures walked { (acts : List Act) × Did seat result.0 acts
        × Reaches (consulted (asking.entry.question.ttl == 0) message.now asking.entry.call.target asking.entry.question (judged asking.entry.call asking.entry.arn)) acts result.1 × (result.2 ≡ tell_closing acts)
        × Asked (record { sent = B.sent means.old.backend; given = B.given means.old.backend; to_come = B.to_come means.old.backend })
        (record { sent = B.sent means.new.backend; given = B.given means.new.backend; to_come = B.to_come means.new.backend }) acts }
    ensures clock { means.new.clock ≡ means.old.clock }
    ensures words { means.new.words ≡ means.old.words }
{
    if asking.ttl() == 0 {
        inquire(rt, alloc, desk, seat, message, asking, means)
    } else {
        recall(rt, alloc, desk, seat, message, asking, means)
    }
}

/// Pursues what is planned for a message: it takes its way, or an authorizer is consulted first.
pub(crate) fn pursue<R: Wait, K: Keeper, B: Backend, T, W, G: Gate>(
    rt: &R,
    alloc: Global,
    desk: &Desk<Book<K>>,
    seat: Seat<Book<K>>,
    message: &Message,
    course: Course,
    means: &mut Means<B, T, W, G>,
) -> (Seat<Book<K>>, Called, bool)
    requires desk { seat.desk ≡ desk.now }
    requires own { HasItsOwn seat_of seat }
    ensures walked { (acts : List Act) × Did seat result.0 acts
        × Reaches (pursues message.now (course_of course.entry)) acts result.1 × (result.2 ≡ tell_closing acts)
        × Asked (record { sent = B.sent means.old.backend; given = B.given means.old.backend; to_come = B.to_come means.old.backend })
        (record { sent = B.sent means.new.backend; given = B.given means.new.backend; to_come = B.to_come means.new.backend }) acts }
    ensures clock { means.new.clock ≡ means.old.clock }
    ensures words { means.new.words ≡ means.old.words }
{
    match course {
        Course::Free(way) => follow(rt, alloc, desk, seat, message, way, means),
        Course::Consults(asking) => consult(rt, alloc, desk, seat, message, asking, means),
    }
}
