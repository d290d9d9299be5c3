// Sessions over a book in memory, and their connections.
ghost use Rattle.std.specs.Prelude.{◌≡◌, ◌+◌, ◌≤◌, length, IfOk};
ghost use Rattle.gate_ports.specs.Docks.{IsUnwritten};
ghost use Rattle.gate_serve.specs.Serving.{seat_of};
ghost use Rattle.turn_desk.specs.Calls.{IsSameSeat, IsWhole, HasItsOwn};

use api_model::Api;
use backend_core::MemBackend;
use book_core::Book;
use book_rules::{Command, Entry, Event, Limits};
use call_facts::Vars;
use gate_ports::{Conn, FreeGate, Means, MemConn};
use gate_serve::serve_connection;
use gate_walk::Ended;
use gw_base::{FixedClock, MemSink, MemSource, Memory, Seq, Shared, SplitMix, Text};
use keeper_core::{MemKeeper, Tables};
use std::alloc::Global;
use std::sync::Wait;
use std::test::Fail;
use turn_desk::{Desk, Seat};

pub(crate) type MemBook = Book<MemKeeper>;

pub(crate) type MemMeans = Means<MemBackend, FixedClock, SplitMix, FreeGate>;

/// A session of the tests.
#[derive(Clone, Copy)]
pub(crate) struct Plan {
    pub limits: Limits,
    /// Whether the last of its commands is Shutdown.
    pub shuts: bool,
}

const AMPLE: Limits = Limits {
    entries: 20,
    bytes: 1000,
};

/// A session that has room.
pub(crate) const OPEN: Plan = Plan {
    limits: AMPLE,
    shuts: false,
};

/// A session that is closing.
pub(crate) const SHUT: Plan = Plan {
    limits: AMPLE,
    shuts: true,
};

/// How a connection was served, and the history of its session.
#[derive(Drop)]
pub(crate) struct Served {
    pub ended: Ended,
    pub closing: bool,
    pub history: Vec<Entry>,
}

/// A text.
pub(crate) fn text(alloc: Global, from: &str) -> Result<Text, Memory> {
    Ok(Text::of(String::from_str(alloc, from)?))
}

fn hello(alloc: Global) -> Result<Shared<Api>, Memory> {
    match Api::text(alloc, "Hi $input.body!") {
        Ok(api) => Ok(Shared::new(alloc, api)?),
        Err(_) => Err(Memory),
    }
}

/// An administrator asks for a change.
pub(crate) fn ask(command: Command) -> Event {
    Event::Admin { moment: 0, command }
}

fn put(alloc: Global, definition: Shared<Api>) -> Result<Event, Memory> {
    Ok(ask(Command::PutApi {
        api: text(alloc, "hello")?,
        definition,
    }))
}

fn deploy(alloc: Global) -> Result<Event, Memory> {
    Ok(ask(Command::Deploy {
        api: text(alloc, "hello")?,
    }))
}

fn stage(alloc: Global) -> Result<Event, Memory> {
    let vars = Vars {
        pairs: Seq::new(alloc),
    };
    Ok(ask(Command::PutStage {
        api: text(alloc, "hello")?,
        stage: text(alloc, "v1")?,
        deployment: 1,
        variables: Shared::new(alloc, vars)?,
    }))
}

/// The commands of a session: three, of 32 bytes in all, or four, where the session is closing.
pub(crate) fn commands(alloc: Global, shuts: bool) -> Result<Vec<Event>, Memory> {
    commands_over(alloc, hello(alloc)?, shuts)
}

// The same, where the API has this definition.
fn commands_over(
    alloc: Global,
    definition: Shared<Api>,
    shuts: bool,
) -> Result<Vec<Event>, Memory> {
    let mut commands = Vec::new(alloc);
    commands.push(put(alloc, definition)?)?;
    commands.push(deploy(alloc)?)?;
    commands.push(stage(alloc)?)?;
    if shuts {
        commands.push(ask(Command::Shutdown))?;
    }
    Ok(commands)
}

/// A desk of so many seats before an empty book, and its first seat.
pub(crate) fn start(
    alloc: Global,
    limits: Limits,
    seats: u32,
) -> Result<(Desk<MemBook>, Seat<MemBook>), Fail>
    requires few { (1 ≤ seats) × (seats ≤ 9) }
    ensures desk { IfOk result (λ r. r.1.desk ≡ r.0) }
    ensures spare { IfOk result (λ r. length r.1.spare + 1 ≡ seats) }
    ensures own { IfOk result (λ r. HasItsOwn seat_of r.1) }
    ensures whole { IfOk result (λ r. IsWhole r.1) }
{
    let keeper = MemKeeper::new(Tables::new(alloc), Vec::new(alloc));
    let Ok(book) = Book::start(alloc, keeper, limits) else {
        return Err(Fail::new("the book did not start"));
    };
    match Desk::start(alloc, book, seats) {
        Ok(started) => Ok(started),
        Err(_) => Err(Fail::new("the desk did not start")),
    }
}

/// Puts these commands through a seat.
pub(crate) fn take_all<R: Wait>(
    rt: &R,
    alloc: Global,
    desk: &Desk<MemBook>,
    seat: Seat<MemBook>,
    commands: Vec<Event>,
) -> Seat<MemBook>
    requires desk { seat.desk ≡ desk.now }
    requires own { HasItsOwn seat_of seat }
    ensures same { IsSameSeat seat result }
    ensures own { HasItsOwn seat_of result }
{
    let mut seat = seat;
    for event in commands {
        let (next, _) = desk.call(rt, alloc, seat, event);
        seat = next;
    }
    seat
}

/// The history of a session whose last seat this is.
pub(crate) fn close(desk: Desk<MemBook>, seat: Seat<MemBook>) -> Vec<Entry>
    requires desk { seat.desk ≡ desk }
    requires whole { IsWhole seat }
{
    let (_, _, history) = desk.close(seat).close();
    history
}

/// A backend that fails, a clock and words from 0, and an open gate.
pub(crate) fn means(alloc: Global) -> MemMeans {
    Means {
        backend: MemBackend::new(alloc, Vec::new(alloc)),
        clock: FixedClock { moment: 0 },
        words: SplitMix { state: 0 },
        gate: FreeGate,
    }
}

/// A connection on which these bytes come, so many a read; its reads and writes of these numbers fail.
pub(crate) fn conn(
    alloc: Global,
    bytes: &[u8],
    step: usize,
    reads: &[u32],
    writes: &[u32],
) -> Result<MemConn, Fail>
    ensures { IfOk result IsUnwritten }
{
    let bytes = Vec::from_slice(alloc, bytes)?;
    let source = MemSource::new(bytes, step.max(1), Vec::from_slice(alloc, reads)?);
    let sink = MemSink::new(alloc, Vec::from_slice(alloc, writes)?);
    Ok(MemConn::new(source, sink))
}

/// Serves one connection by the one seat of a session.
pub(crate) fn serve<R: Wait, C: Conn>(
    rt: &R,
    alloc: Global,
    plan: &Plan,
    conn: &mut C,
) -> Result<Served, Fail> {
    serve_by(rt, alloc, plan, commands(alloc, plan.shuts)?, conn)
}

/// The same, where the API is this document.
pub(crate) fn serve_document<R: Wait, C: Conn>(
    rt: &R,
    alloc: Global,
    document: &str,
    conn: &mut C,
) -> Result<Served, Fail> {
    serve_by(rt, alloc, &OPEN, commands_of(alloc, document)?, conn)
}

/// The commands of a session whose API is this document.
pub(crate) fn commands_of(alloc: Global, document: &str) -> Result<Vec<Event>, Fail> {
    let Ok(api) = Api::read(alloc, document.as_bytes()) else {
        return Err(Fail::from("the document is refused"));
    };
    Ok(commands_over(alloc, Shared::new(alloc, api)?, false)?)
}

/// Serves one connection by the one seat of a session behind these commands.
pub(crate) fn serve_by<R: Wait, C: Conn>(
    rt: &R,
    alloc: Global,
    plan: &Plan,
    commands: Vec<Event>,
    conn: &mut C,
) -> Result<Served, Fail> {
    let mut means = means(alloc);
    let (desk, seat) = start(alloc, plan.limits, 1)?;
    let seat = take_all(rt, alloc, &desk, seat, commands);
    let (seat, ended, closing) = serve_connection(rt, alloc, &desk, seat, conn, &mut means);
    let history = close(desk, seat);
    Ok(Served {
        ended,
        closing,
        history,
    })
}

// An entry of a request in a word; those of the commands are left out.
fn word(event: &Event) -> &'static str {
    match event {
        Event::Admin { .. } => "",
        Event::Enter { .. } => "enter ",
        Event::Recall { .. } => "recall ",
        Event::Learn { .. } => "learn ",
        Event::Admit { .. } => "admit ",
        Event::Leave { .. } => "leave ",
    }
}

/// The entries of the requests of a seat, in words.
pub(crate) fn entries(alloc: Global, history: &[Entry], seat: u32) -> Result<String, Fail> {
    let mut words = String::new(alloc);
    for entry in history {
        if entry.seat == seat {
            words.push_str(word(&entry.event))?;
        }
    }
    Ok(words)
}

/// Whether these bytes were written on a connection of a session, it ended so, and the requests made these entries.
pub(crate) fn is_served_so(
    alloc: Global,
    served: &Served,
    conn: &MemConn,
    written: &[&[u8]],
    ended: Ended,
    words: &str,
) -> Result<bool, Fail> {
    let written = joined(alloc, written)?;
    let made = entries(alloc, &served.history, 0)?;
    Ok(served.ended == ended && conn.written() == written.as_slice() && made.as_str() == words)
}

/// All of these, one behind another.
pub(crate) fn joined(alloc: Global, parts: &[&[u8]]) -> Result<Vec<u8>, Fail> {
    let mut all = Vec::new(alloc);
    for part in parts {
        all.extend_from_slice(part)?;
    }
    Ok(all)
}
