// Lanes that meet before their exchanges, and what they were asked and answered.
ghost use Rattle.std.specs.Prelude.{◌≡◌, false, length, All, IfOk};
ghost use Rattle.backend_core.specs.Script.{HasReplyStatus};
ghost use Rattle.outside_core.specs.Held.{IsUnusedLane};

use backend_core::{MemBackend, Scripted};
use book_rules::Entry;
use call_facts::WireReply;
use gate_ports::{Gate, Lane, Means, MemConn, MemPort};
use gw_base::{Bytes, FixedClock, MemSink, MemSource, Seq, SplitMix};
use std::alloc::Global;
use std::sync::{Barrier, Wait};
use std::test::Fail;

const COMES: &'static [u8] = b"GET /pets/v1/p HTTP/1.1\r\nhost: localhost\r\n\r\n";

const CAT: &'static [u8] =
    b"HTTP/1.1 200 OK\r\ncontent-type: application/json\r\ncontent-length: 5\r\n\r\n\"cat\"";

const DOG: &'static [u8] =
    b"HTTP/1.1 200 OK\r\ncontent-type: application/json\r\ncontent-length: 5\r\n\r\n\"dog\"";

const SENT: &'static [u8] =
    b"GET /p HTTP/1.1\r\nhost: 127.0.0.1:9002\r\ncontent-type: application/json\r\nconnection: close\r\ncontent-length: 0\r\n\r\n";

/// A gate at which two lanes meet: none passes it before both stand there.
#[derive(Drop)]
pub(crate) struct Meeting<'a, R> {
    rt: &'a R,
    here: &'a Barrier,
}

impl<'a, R: Wait> Gate for Meeting<'a, R> {
    fn pass(&self, _place: u64) {
        self.here.wait(self.rt);
    }
}

/// A lane in memory that passes such a gate.
pub(crate) type MeetingLane<'a, R> = Lane<
    MemPort,
    MemBackend,
    FixedClock,
    SplitMix,
    Meeting<'a, R>,
>;

fn reply(alloc: Global, body: &[u8]) -> Result<Scripted, Fail>
    ensures { IfOk result HasReplyStatus }
{
    Ok(Scripted::Reply(WireReply {
        status: 200,
        headers: Seq::new(alloc),
        body: Bytes::of(Vec::from_slice(alloc, body)?),
    }))
}

// A backend that answers once, with this body.
fn backend(alloc: Global, body: &[u8]) -> Result<MemBackend, Fail> {
    let reply = reply(alloc, body)?;
    let mut outcomes = Vec::new(alloc);
    outcomes.push(reply)?;
    Ok(MemBackend::new(alloc, outcomes))
}

// A port with one connection, on which one call comes.
fn port(alloc: Global) -> Result<MemPort, Fail>
    ensures { IfOk result (λ p. (p.closed ≡ false) × (p.out ≡ false) × (p.faults ≡ 0)) }
{
    let source = MemSource::new(Vec::from_slice(alloc, COMES)?, 4096, Vec::new(alloc));
    let sink = MemSink::new(alloc, Vec::new(alloc));
    let mut conns = Vec::new(alloc);
    conns.push(MemConn::new(source, sink))?;
    Ok(MemPort::new(conns, Vec::new(alloc)))
}

// A lane with one call, whose backend answers with this body.
fn lane<'a, R>(
    rt: &'a R,
    alloc: Global,
    here: &'a Barrier,
    body: &[u8],
) -> Result<MeetingLane<'a, R>, Fail>
    ensures { IfOk result IsUnusedLane }
{
    Ok(Lane {
        port: port(alloc)?,
        means: Means {
            backend: backend(alloc, body)?,
            clock: FixedClock { moment: 0 },
            words: SplitMix { state: 0 },
            gate: Meeting { rt, here },
        },
    })
}

/// Two lanes with one call each: the backend of the first answers with a cat, that of the second with a dog.
pub(crate) fn lanes<'a, R>(
    rt: &'a R,
    alloc: Global,
    here: &'a Barrier,
) -> Result<Vec<MeetingLane<'a, R>>, Fail>
    ensures unused { IfOk result (λ lanes. All IsUnusedLane lanes.items) }
    ensures number { IfOk result (λ lanes. length lanes.items ≡ 2) }
{
    let cat = lane(rt, alloc, here, b"\"cat\"")?;
    let dog = lane(rt, alloc, here, b"\"dog\"")?;
    Ok(vec![in alloc; cat, dog]?)
}

// Whether one call came on the lane, its backend was asked just this once, and this was answered.
fn is_answered<R>(lane: &MeetingLane<R>, answer: &[u8]) -> bool {
    let asked = match lane.means.backend.sent() {
        [request] => request.bytes.as_slice() == SENT,
        _ => false,
    };
    let answered = match lane.port.served() {
        [conn] => conn.written() == answer,
        _ => false,
    };
    asked && answered
}

/// Whether the two lanes were asked and answered so: the first of the cat, the second of the dog.
pub(crate) fn are_answered<R>(lanes: &[MeetingLane<R>]) -> bool {
    match lanes {
        [first, second] => is_answered(first, CAT) && is_answered(second, DOG),
        _ => false,
    }
}

// Whether the entries are of the first lane and of the second, in either order.
fn are_of_both(one: &Entry, two: &Entry) -> bool {
    one.seat == 1 && two.seat == 2 || one.seat == 2 && two.seat == 1
}

/// Whether both lanes had entered before either left: each stood before its exchange with nothing of the book in its hands.
pub(crate) fn have_met(history: &[Entry]) -> bool {
    match history {
        [one, two, three, four] => are_of_both(one, two) && are_of_both(three, four),
        _ => false,
    }
}
