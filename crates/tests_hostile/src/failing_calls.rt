// Each read and each write of a connection with two orders failing once.
ghost use Rattle.std.specs.Prelude.{◌≡◌, [], Some, All, refl, IfOk};
ghost use Rattle.backend_core.specs.Script.{HasReplyStatus};

use crate::orders::{AMPLE, joined, open, order};
use backend_core::{MemBackend, Scripted};
use book_core::Book;
use book_rules::{Entry, Event};
use gate_ports::{Conn, FreeGate, Means, MemConn};
use gate_serve::serve_connection;
use gate_walk::Ended;
use gw_base::{Failed, FixedClock, MemSink, MemSource, Sink, Source, SplitMix, WriteStop};
use http_edge::{Buffer, next_reply};
use keeper_core::MemKeeper;
use play_session::SliceSource;
use session_chain::next_session;
use std::alloc::Global;
use std::sync::Wait;
use std::test::Fail;
use tests_orders::{ALLOWS, ANSWER, TAKEN};
use turn_desk::Desk;

/// How a connection was served: its end, the history of its session, and how often a backend was asked.
#[derive(Drop)]
struct Served {
    ended: Ended,
    history: Vec<Entry>,
    exchanges: usize,
}

// A book over the tables that the commands leave, whose history is empty.
fn book<R: Wait>(rt: &R, alloc: Global) -> Result<Book<MemKeeper>, Fail>
    ensures { IfOk result (λ book. book.history ≡ []) }
{
    let (_, next) = next_session(alloc, open(rt, alloc)?.close(), AMPLE);
    match next {
        Ok(book) => Ok(book),
        Err(_) => Err(Fail::new("no next session began")),
    }
}

// The reply that has these bytes.
fn reply(alloc: Global, bytes: &[u8]) -> Result<Scripted, Fail>
    ensures { IfOk result HasReplyStatus }
{
    let mut rest = Buffer::new(alloc);
    let Ok(reply) = next_reply(alloc, &mut SliceSource::new(bytes), &mut rest, false) else {
        return Err(Fail::new("the reply is not read"));
    };
    if reply.status < 200 {
        return Err(Fail::new("the status is none of a reply"));
    }
    if reply.status > 999 {
        return Err(Fail::new("the status is none of a reply"));
    }
    Ok(Scripted::Reply(reply))
}

// What two orders are replied: the second finds the policy of the first remembered.
fn outcomes(alloc: Global) -> Result<Vec<Scripted>, Fail>
    ensures { IfOk result (λ outcomes. All HasReplyStatus outcomes.items) }
{
    let allows = reply(alloc, ALLOWS)?;
    let first = reply(alloc, TAKEN)?;
    let second = reply(alloc, TAKEN)?;
    Ok(vec![in alloc; allows, first, second]?)
}

// Serves a connection by the one seat of a session.
fn serve<R: Wait, C: Conn>(rt: &R, alloc: Global, conn: &mut C) -> Result<Served, Fail> {
    let book = book(rt, alloc)?;
    let mut means = Means {
        backend: MemBackend::new(alloc, outcomes(alloc)?),
        clock: FixedClock { moment: 0 },
        words: SplitMix { state: 0 },
        gate: FreeGate,
    };
    let Ok((desk, seat)) = Desk::start(alloc, book, 1) else {
        return Err(Fail::new("the desk did not start"));
    };
    let (seat, ended, _) = serve_connection(rt, alloc, &desk, seat, conn, &mut means);
    let (_, _, history) = desk.close(seat).close();
    Ok(Served {
        ended,
        history,
        exchanges: means.backend.sent().len(),
    })
}

// A connection on which two orders come, 512 bytes a read; its reads and writes of these numbers fail.
fn conn(alloc: Global, reads: &[u32], writes: &[u32]) -> Result<MemConn, Fail> {
    let order = order(alloc)?;
    let bytes = joined(alloc, &[&order, &order])?;
    let source = MemSource::new(bytes, 512, Vec::from_slice(alloc, reads)?);
    let sink = MemSink::new(alloc, Vec::from_slice(alloc, writes)?);
    Ok(MemConn::new(source, sink))
}

/// The entries of two orders.
const ENTRIES: [&'static str; 9] = [
    "enter", "recall", "learn", "admit", "leave", "enter", "recall", "admit", "leave",
];

/// How many entries none, one and both of the orders make, and how often they ask a backend.
const MADE: [(usize, usize); 3] = [(0, 0), (5, 2), (9, 3)];

fn word(event: &Event) -> &'static str {
    match event {
        Event::Admin { .. } => "admin",
        Event::Enter { .. } => "enter",
        Event::Recall { .. } => "recall",
        Event::Learn { .. } => "learn",
        Event::Admit { .. } => "admit",
        Event::Leave { .. } => "leave",
    }
}

// Whether a session has just what so many orders make, from none to two.
fn has_made(served: &Served, orders: usize) -> bool {
    let mut kinds = served.history.iter().zip(&ENTRIES);
    MADE.get(orders) == Some(&(served.history.len(), served.exchanges))
        && kinds.all(|(entry, kind)| word(&entry.event) == *kind)
}

/// How many orders stand whole in what was read before each read, and what is written then: an order has 2,165 bytes. The last read
/// finds the end.
const BEFORE: [(usize, &'static [&'static [u8]]); 10] = [
    (0, &[]),
    (0, &[]),
    (0, &[]),
    (0, &[]),
    (0, &[]),
    (1, &[ANSWER]),
    (1, &[ANSWER]),
    (1, &[ANSWER]),
    (1, &[ANSWER]),
    (2, &[ANSWER, ANSWER]),
];

// Whether the connection ends by its failed read of this number, behind so many orders and these answers.
fn ends_behind<R: Wait>(
    rt: &R,
    alloc: Global,
    read: u32,
    orders: usize,
    answers: &[&[u8]],
) -> Result<bool, Fail> {
    let mut conn = conn(alloc, &[read], &[])?;
    let served = serve(rt, alloc, &mut conn)?;
    let answers = joined(alloc, answers)?;
    Ok(
        served.ended == Ended::ReadFault
            && has_made(&served, orders)
            && conn.written() == answers.as_slice(),
    )
}

#[test]
fn a_failed_read_ends_behind_whole_answers(rt: HostRuntime) -> Result<(), Fail> {
    let alloc = rt.alloc();
    for (read, (orders, answers)) in BEFORE.iter().enumerate() {
        assert!(rt;
            ends_behind(&rt, alloc, read as u32, *orders, answers)?,
            "read {read}"
        );
    }
    Ok(())
}

// The end takes one read, and no more is made.
#[test]
fn two_orders_are_answered(rt: HostRuntime) -> Result<(), Fail> {
    let alloc = rt.alloc();
    let mut conn = conn(alloc, &[10], &[2])?;
    let served = serve(&rt, alloc, &mut conn)?;
    assert_eq!(rt; served.ended, Ended::Closed);
    assert!(rt; has_made(&served, 2));
    assert_eq!(rt;
        conn.written(),
        joined(alloc, &[ANSWER, ANSWER])?.as_slice()
    );
    Ok(())
}

/// A connection in memory, a write on which takes at most 32 bytes.
#[derive(Drop)]
struct Narrow {
    conn: MemConn,
}

impl Source for Narrow {
    ghost left = { λ c. Some c.conn.source.left };

    ghost faults = { λ c. c.conn.source.faults };

    ghost beside = { λ c. (Some c.conn.sink.written, c.conn.sink.faults) };

    fn read(&mut self, buf: &mut [u8]) -> Result<usize, Failed> {
        self.conn.read(buf)
    }
}

impl Sink for Narrow {
    ghost written = { λ c. Some c.conn.sink.written };

    ghost faults = { λ c. c.conn.sink.faults };

    ghost beside = { λ c. (Some c.conn.source.left, c.conn.source.faults) };

    fn write(&mut self, piece: &[u8]) -> Result<usize, WriteStop> {
        let most = piece.len().min(32);
        self.conn.write(&piece[..most])
    }
}

impl Conn for Narrow {
    ghost reads_beside = { λ _. refl };

    ghost writes_beside = { λ _. refl };

    fn begin_message(&mut self, _held: &[u8]) {}
}

/// How many bytes are written before each write, and how many orders have left then: an answer has 106 bytes.
const WRITTEN: [(usize, usize); 8] = [
    (0, 1),
    (32, 1),
    (64, 1),
    (96, 1),
    (106, 2),
    (138, 2),
    (170, 2),
    (202, 2),
];

// Whether the connection ends by its failed write of this number, behind so many bytes of the answers.
fn ends_within<R: Wait>(
    rt: &R,
    alloc: Global,
    write: u32,
    length: usize,
    orders: usize,
) -> Result<bool, Fail> {
    let mut narrow = Narrow {
        conn: conn(alloc, &[], &[write])?,
    };
    let served = serve(rt, alloc, &mut narrow)?;
    let both = joined(alloc, &[ANSWER, ANSWER])?;
    let written = narrow.conn.written();
    Ok(
        served.ended == Ended::WriteFault
            && has_made(&served, orders)
            && both.starts_with(written)
            && written.len() == length,
    )
}

// An order has left before the first byte of its answer is written.
#[test]
fn a_failed_write_ends_within_the_answer(rt: HostRuntime) -> Result<(), Fail> {
    let alloc = rt.alloc();
    for (write, (length, orders)) in WRITTEN.iter().enumerate() {
        assert!(rt;
            ends_within(&rt, alloc, write as u32, *length, *orders)?,
            "write {write}"
        );
    }
    Ok(())
}
