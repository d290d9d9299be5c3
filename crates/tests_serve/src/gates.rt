// What is passed before an exchange, and what a backend is asked.
ghost use Rattle.std.specs.Prelude.{IfOk};
ghost use Rattle.backend_core.specs.Script.{HasReplyStatus};

use crate::sessions::{OPEN, close, commands_of, conn, entries, start, take_all};
use backend_core::{MemBackend, Scripted};
use book_rules::Entry;
use call_facts::WireReply;
use gate_ports::{Gate, Means, MemConn};
use gate_serve::serve_connection;
use gate_walk::Ended;
use gw_base::{Bytes, FixedClock, Seq, SplitMix};
use std::alloc::Global;
use std::cell::Cell;
use std::sync::Wait;
use std::test::Fail;

const PROXY: &str = r#"{"version":1,"resources":{
    "/p":{"GET":{"integration":{"type":"HTTP_PROXY","method":"GET","uri":"http://127.0.0.1:9002/p"}}},
    "/m":{"GET":{"integration":{"type":"MOCK","templates":{"application/json":"{\"statusCode\":200}"},"responses":[{"status":204}]}}}
}}"#;

const COMES: &[u8] =
    b"GET /hello/v1/m HTTP/1.1\r\nhost: a\r\n\r\nGET /hello/v1/p HTTP/1.1\r\nhost: a\r\n\r\nGET /hello/v1/p HTTP/1.1\r\nhost: a\r\n\r\n";

const WRITTEN: &[u8] =
    b"HTTP/1.1 204 No Content\r\ncontent-type: application/json\r\n\r\nHTTP/1.1 200 OK\r\ncontent-type: application/json\r\ncontent-length: 1\r\n\r\nxHTTP/1.1 504 Gateway Timeout\r\ncontent-type: application/json\r\nx-gateway-cause: INTEGRATION_FAILURE\r\ncontent-length: 55\r\n\r\n{\"message\":\"Network error communicating with endpoint\"}";

const SENT: &[u8] =
    b"GET /p HTTP/1.1\r\nhost: 127.0.0.1:9002\r\nconnection: close\r\ncontent-length: 0\r\n\r\n";

/// A gate that stands open, and counts how often it was passed, and at which place last.
#[derive(Drop)]
struct Counted {
    passes: Cell<u64>,
    place: Cell<u64>,
}

impl Gate for Counted {
    fn pass(&self, place: u64) {
        self.passes.set(self.passes.get().saturating_add(1));
        self.place.set(place);
    }
}

fn reply(alloc: Global) -> Result<Scripted, Fail>
    ensures { IfOk result HasReplyStatus }
{
    Ok(Scripted::Reply(WireReply {
        status: 200,
        headers: Seq::new(alloc),
        body: Bytes::of(Vec::from_slice(alloc, b"x")?),
    }))
}

type CountedMeans = Means<MemBackend, FixedClock, SplitMix, Counted>;

fn counted_means(alloc: Global) -> Result<CountedMeans, Fail> {
    let reply = reply(alloc)?;
    let mut outcomes = Vec::new(alloc);
    outcomes.push(reply)?;
    Ok(Means {
        backend: MemBackend::new(alloc, outcomes),
        clock: FixedClock { moment: 0 },
        words: SplitMix { state: 0 },
        gate: Counted {
            passes: Cell::new(0),
            place: Cell::new(0),
        },
    })
}

// Serves the connection by the one seat of a session, and gives its history.
fn serve_counted<R: Wait>(
    rt: &R,
    alloc: Global,
    conn: &mut MemConn,
    means: &mut CountedMeans,
) -> Result<(Ended, Vec<Entry>), Fail> {
    let commands = commands_of(alloc, PROXY)?;
    let (desk, seat) = start(alloc, OPEN.limits, 1)?;
    let seat = take_all(rt, alloc, &desk, seat, commands);
    let (seat, ended, _) = serve_connection(rt, alloc, &desk, seat, conn, means);
    Ok((ended, close(desk, seat)))
}

#[test]
fn a_gate_is_passed_before_each_exchange_alone(rt: HostRuntime) -> Result<(), Fail> {
    let alloc = rt.alloc();
    let mut means = counted_means(alloc)?;
    let mut conn = conn(alloc, COMES, 4096, &[], &[])?;
    let (ended, history) = serve_counted(&rt, alloc, &mut conn, &mut means)?;
    assert_eq!(rt; ended, Ended::Closed);
    assert_eq!(rt; conn.written(), WRITTEN);
    assert_eq!(rt;
        entries(alloc, &history, 0)?.as_str(),
        "enter leave enter leave enter leave "
    );
    assert_eq!(rt; means.gate.passes.get(), 2);
    // Behind three commands and two messages of two entries.
    assert_eq!(rt; means.gate.place.get(), 7);
    assert_eq!(rt; means.backend.sent().len(), 2);
    for request in means.backend.sent() {
        assert_eq!(rt; request.bytes.as_slice(), SENT);
    }
    Ok(())
}
