// Two lanes with a call each, served by the program.
ghost use Rattle.std.specs.Prelude.{◌≡◌, IfOk, All};
ghost use Rattle.outside_core.specs.Held.{IsUnusedLane};

use crate::came::Came;
use backend_core::MemBackend;
use book_rules::{Entry, Event, Limits};
use gate_ports::{FreeGate, Lane, Means, MemConn, MemPort};
use gateway_cli::{MemOutside, MemStore, run};
use gw_base::{FixedClock, MemSink, MemSource, Memory, SplitMix, Text};
use keeper_core::{Table, Tables};
use play_script::play_line;
use play_session::Session;
use std::alloc::Global;
use std::sync::Wait;
use std::test::Fail;
use std::thread::Threads;

type Outside = MemOutside<Entry, MemBackend, FreeGate>;

type MemLane = Lane<MemPort, MemBackend, FixedClock, SplitMix, FreeGate>;

const COMMANDS: [&'static str; 3] = [
    "text 0 hello Hi%20$input.body!",
    "deploy 0 hello",
    "stage 0 hello v1 1",
];

const ANN: &'static [u8] =
    b"POST /hello/v1 HTTP/1.1\r\nhost: localhost\r\ncontent-length: 3\r\n\r\nAnn";

const HI_ANN: &'static [u8] =
    b"HTTP/1.1 200 OK\r\ncontent-type: text/plain\r\ncontent-length: 7\r\n\r\nHi Ann!";

/// The line of a session by its entries and its calls.
const LINES: [(usize, usize, &'static str); 6] = [
    (
        0,
        0,
        "session entries=0 calls=0 admitted=0 throttled=0 quota=0 notkept=0\n",
    ),
    (
        1,
        1,
        "session entries=1 calls=1 admitted=0 throttled=0 quota=0 notkept=0\n",
    ),
    (
        2,
        1,
        "session entries=2 calls=1 admitted=0 throttled=0 quota=0 notkept=0\n",
    ),
    (
        2,
        2,
        "session entries=2 calls=2 admitted=0 throttled=0 quota=0 notkept=0\n",
    ),
    (
        3,
        2,
        "session entries=3 calls=2 admitted=0 throttled=0 quota=0 notkept=0\n",
    ),
    (
        4,
        2,
        "session entries=4 calls=2 admitted=0 throttled=0 quota=0 notkept=0\n",
    ),
];

const LIMITS: Limits = Limits {
    entries: 10,
    bytes: 100,
};

fn put<R: Wait>(session: &mut Session<'_, R>, alloc: Global) -> Result<(), Memory> {
    for line in &COMMANDS {
        play_line(session, alloc, 1, line.as_bytes())?;
    }
    Ok(())
}

// The tables that the commands leave.
fn tables<R: Wait>(rt: &R, alloc: Global) -> Result<Tables, Memory> {
    let Ok(mut session) = Session::start(rt, alloc, LIMITS, Vec::new(alloc)) else {
        return Err(Memory);
    };
    let done = put(&mut session, alloc);
    let (_, tables, _) = session.close().close();
    done?;
    Ok(tables)
}

// A lane with one connection, on which one call comes.
fn lane(alloc: Global) -> Result<MemLane, Memory>
    ensures { IfOk result IsUnusedLane }
{
    let source = MemSource::new(Vec::from_slice(alloc, ANN)?, 4096, Vec::new(alloc));
    let sink = MemSink::new(alloc, Vec::new(alloc));
    let mut conns = Vec::new(alloc);
    conns.push(MemConn::new(source, sink))?;
    Ok(Lane {
        port: MemPort::new(conns, Vec::new(alloc)),
        means: Means {
            backend: MemBackend::new(alloc, Vec::new(alloc)),
            clock: FixedClock { moment: 0 },
            words: SplitMix { state: 0 },
            gate: FreeGate,
        },
    })
}

fn lanes(alloc: Global) -> Result<Vec<MemLane>, Memory>
    ensures { IfOk result (λ lanes. All IsUnusedLane lanes.items) }
{
    let first = lane(alloc)?;
    let second = lane(alloc)?;
    Ok(vec![in alloc; first, second]?)
}

fn text(alloc: Global, from: &str) -> Result<Text, Memory> {
    Ok(Text::of(String::from_str(alloc, from)?))
}

// An outside with the store `a` and two lanes.
fn outside<R: Wait>(rt: &R, alloc: Global) -> Result<Outside, Memory> {
    let store = MemStore::new(text(alloc, "a")?, tables(rt, alloc)?, Vec::new(alloc));
    let stores = vec![in alloc; store]?;
    let lanes = lanes(alloc)?;
    Ok(MemOutside::new(Vec::new(alloc), stores, lanes, Vec::new(alloc)))
}

fn words(alloc: Global) -> Result<Vec<Text>, Memory> {
    let mut words = Vec::new(alloc);
    for word in ["serve", "a", "8080", "2"] {
        words.push(text(alloc, word)?)?;
    }
    Ok(words)
}

// Whether this is the entry of a call at this place among those of its lane.
fn is_of_call(place: usize, event: &Event) -> bool {
    match event {
        Event::Enter { .. } => place == 0,
        Event::Leave {
            status: 200,
            cause: None,
        } => place == 1,
        _ => false,
    }
}

// Whether the entries of a lane are a front of those of its call.
fn is_front(history: &[Entry], seat: u32) -> bool {
    let own = history.iter().filter(|entry| entry.seat == seat);
    own.enumerate()
        .all(|(place, entry)| is_of_call(place, &entry.event))
}

// Whether each lane made a front of the entries of its call, and nobody else made any.
fn are_fronts(history: &[Entry]) -> bool {
    let of_lanes = history
        .iter()
        .all(|entry| entry.seat == 1 || entry.seat == 2);
    of_lanes && is_front(history, 1) && is_front(history, 2)
}

fn is_call(entry: &Entry) -> bool {
    matches!(entry.event, Event::Enter { .. })
}

// Whether this is the line of a session with this history.
fn is_line_of(history: &[Entry], written: &[u8]) -> bool {
    let calls = history.iter().filter(|entry| is_call(entry)).count();
    LINES.iter().any(|(entries, entered, line)| {
        *entries == history.len() && *entered == calls && line.as_bytes() == written
    })
}

// Whether so much is written on the connection of a lane as is to be: all of the answer, or a front of it.
fn is_answered(lane: &MemLane, whole: bool) -> bool {
    match lane.port.served() {
        [] => !whole,
        [conn] if whole => conn.written() == HI_ANN,
        [conn] => HI_ANN.starts_with(conn.written()),
        _ => false,
    }
}

// Whether an answer is written only where its call has left.
fn left_first(history: &[Entry], lane: &MemLane, seat: u32) -> bool {
    let unwritten = lane
        .port
        .served()
        .iter()
        .all(|conn| conn.written().is_empty());
    unwritten || history.iter().filter(|entry| entry.seat == seat).count() == 2
}

fn has_one(tables: &Tables, table: Table) -> bool {
    tables.count(table) == 1
}

// Whether the store has the rows of the commands, which no call changes.
fn has_tables(outside: &Outside) -> bool {
    let Some(tables) = outside.tables("a") else {
        return false;
    };
    has_one(tables, Table::Apis)
        && has_one(tables, Table::Deployments)
        && has_one(tables, Table::Stages)
}

fn is_line(written: &[u8]) -> bool {
    LINES.iter().any(|(_, _, line)| line.as_bytes() == written)
}

/// The seats of the two lanes.
const SEATS: [u32; 2] = [1, 2];

// Whether a session with this history, which was handed on, may have come to this.
fn may_come(outside: &Outside, history: &[Entry], written: &[u8]) -> bool {
    let mut lanes = outside.lanes_returned().iter().zip(&SEATS);
    are_fronts(history)
        && (written.is_empty() || is_line_of(history, written))
        && lanes.all(|(lane, seat)| left_first(history, lane, *seat))
}

// What came of a session that ended by want of memory.
fn cut_short(outside: &Outside, written: &[u8]) -> Came {
    match outside.sessions() {
        [history] if may_come(outside, history.as_slice(), written) => {
            Came::Memory(history.as_slice().len(), "entries")
        }
        // No history was handed on, of which a line may have been written.
        [] if written.is_empty() || is_line(written) => Came::Memory(0, "entries"),
        _ => Came::Wrong("the entries of the lanes, or the line, are others"),
    }
}

// Whether both calls have left, and the line says so.
fn is_whole(history: &[Entry], written: &[u8]) -> bool {
    history.len() == 4 && are_fronts(history) && is_line_of(history, written)
}

// What came of a session that ended with this status.
fn came(outside: &Outside, status: u8, written: &[u8]) -> Came {
    let whole = status == 0;
    let lanes = outside.lanes_returned();
    if !has_tables(outside) {
        return Came::Wrong("the store has lost its tables");
    }
    if !lanes.iter().all(|lane| is_answered(lane, whole)) {
        return Came::Wrong("a lane is answered something else");
    }
    match (status, outside.sessions()) {
        (5, _) => cut_short(outside, written),
        (0, [history]) if lanes.len() == 2 && is_whole(history.as_slice(), written) => Came::Whole,
        _ => Came::Wrong("the status is another"),
    }
}

/// Words for the program, and what they are asked of.
#[derive(Drop)]
struct Asked {
    words: Vec<Text>,
    outside: Outside,
}

fn ask<R: Wait>(rt: &R, alloc: Global) -> Result<Asked, Memory> {
    Ok(Asked {
        words: words(alloc)?,
        outside: outside(rt, alloc)?,
    })
}

fn served<R: Threads + Wait + Sync>(rt: &R, alloc: Global, asked: &mut Asked) -> Came {
    let mut input = MemSource::new(Vec::new(alloc), 1, Vec::new(alloc));
    let mut output = MemSink::new(alloc, Vec::new(alloc));
    let status = run(
        rt,
        alloc,
        &asked.words,
        &mut input,
        &mut output,
        &mut asked.outside,
    );
    came(&asked.outside, status, output.bytes())
}

#[test]
fn two_lanes_are_served_or_memory_is_wanting(rt: HostRuntime) -> Result<(), Fail> {
    let alloc = rt.alloc();
    let came = match ask(&rt, alloc) {
        Ok(asked) => {
            let mut asked = asked;
            served(&rt, alloc, &mut asked)
        }
        Err(_) => Came::Nothing,
    };
    println!(rt; "came: {came}")?;
    assert!(rt; came.may_come());
    Ok(())
}
