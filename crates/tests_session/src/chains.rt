// Sessions that follow each other over one lane.
ghost use Rattle.std.specs.Prelude.{IfOk};
ghost use Rattle.outside_core.specs.Held.{IsUnusedLane};

use crate::outsides::{ANN, MemLane, PLAIN, conn, outside};
use crate::sessions::HI_ANN;
use crate::stores::{HELLO, tables};
use backend_core::MemBackend;
use book_core::{Book, StartFault};
use book_rules::Limits;
use gate_ports::{FreeGate, Lane, Means, MemPort};
use gate_walk::LaneEnd;
use gw_base::{FixedClock, MemSink, SplitMix};
use keeper_core::MemKeeper;
use session_chain::{AllFault, serve_all};
use std::alloc::Global;
use std::sync::Wait;
use std::test::Fail;
use std::thread::Threads;

const SHUTDOWN: &'static [u8] = b"POST /_admin/shutdown HTTP/1.1\r\nhost: localhost\r\n\r\n";

const BUSY: &'static [u8] =
    b"HTTP/1.1 503 Service Unavailable\r\nconnection: close\r\ncontent-length: 0\r\n\r\n";

const ONE_CALL: &str = "session entries=2 calls=1 admitted=0 throttled=0 quota=0 notkept=0\n";

const TWO_SESSIONS: &str =
    "session entries=2 calls=1 admitted=0 throttled=0 quota=0 notkept=0\nsession entries=2 calls=1 admitted=0 throttled=0 quota=0 notkept=0\n";

const SHUT: &str = "session entries=1 calls=0 admitted=0 throttled=0 quota=0 notkept=0\n";

/// What comes on the connections of a lane, the most entries of a session, which calls of the keeper and which writes of the output fail;
/// and what is answered on the connections, printed, and how the last session ended.
#[derive(Clone, Copy)]
struct Row {
    posts: &'static [&'static [u8]],
    entries: u32,
    keeps: &'static [u32],
    writes: &'static [u32],
    answers: &'static [&'static [u8]],
    said: &'static str,
    sessions: usize,
    outcome: Result<LaneEnd, AllFault>,
}

const ROWS: &'static [Row] = &[
    // The second of three finds the session full, and the next session answers the third.
    Row {
        posts: &[ANN, ANN, ANN],
        entries: 2,
        keeps: &[],
        writes: &[],
        answers: &[HI_ANN, BUSY, HI_ANN],
        said: TWO_SESSIONS,
        sessions: 2,
        outcome: Ok(LaneEnd::Ended),
    },
    // One that is not full has no next one.
    Row {
        posts: &[ANN],
        entries: 2,
        keeps: &[],
        writes: &[],
        answers: &[HI_ANN],
        said: ONE_CALL,
        sessions: 1,
        outcome: Ok(LaneEnd::Ended),
    },
    // Nor has one in which a Shutdown stands.
    Row {
        posts: &[SHUTDOWN, ANN],
        entries: 1,
        keeps: &[],
        writes: &[],
        answers: &[BUSY],
        said: SHUT,
        sessions: 1,
        outcome: Ok(LaneEnd::Full {
            entries: 1,
            bytes: 0,
        }),
    },
    // The load of the next session fails.
    Row {
        posts: &[ANN, ANN, ANN],
        entries: 2,
        keeps: &[1],
        writes: &[],
        answers: &[HI_ANN, BUSY],
        said: ONE_CALL,
        sessions: 1,
        outcome: Err(AllFault::Start(StartFault::StoreFault)),
    },
    // The line of the first can't be written.
    Row {
        posts: &[ANN, ANN, ANN],
        entries: 2,
        keeps: &[],
        writes: &[0],
        answers: &[HI_ANN, BUSY],
        said: "",
        sessions: 1,
        outcome: Err(AllFault::Output),
    },
];

// A lane with connections on which these come.
fn lane(alloc: Global, posts: &[&[u8]]) -> Result<MemLane, Fail>
    ensures { IfOk result IsUnusedLane }
{
    let mut conns = Vec::new(alloc);
    for post in posts {
        conns.push(conn(alloc, post)?)?;
    }
    Ok(Lane {
        port: MemPort::new(conns, Vec::new(alloc)),
        means: Means {
            backend: MemBackend::new(alloc, Vec::new(alloc)),
            clock: FixedClock { moment: 0 },
            words: SplitMix { state: 0 },
            gate: FreeGate,
        },
    })
}

/// What is behind the last session: its lanes, what was printed, how many histories were handed on, and how it ended.
#[derive(Drop)]
struct Behind {
    lanes: Vec<MemLane>,
    output: MemSink,
    sessions: usize,
    outcome: Result<Vec<LaneEnd>, AllFault>,
}

fn served<R: Threads + Wait + Sync>(rt: &R, alloc: Global, row: &Row) -> Result<Behind, Fail> {
    let keeper = MemKeeper::new(tables(alloc, HELLO)?, Vec::from_slice(alloc, row.keeps)?);
    let limits = Limits {
        entries: row.entries,
        bytes: 100,
    };
    let Ok(book) = Book::start(alloc, keeper, limits) else {
        return Err(Fail::new("no book started"));
    };
    let mut lanes = vec![in alloc; lane(alloc, row.posts)?]?;
    let mut output = MemSink::new(alloc, Vec::from_slice(alloc, row.writes)?);
    let mut archive = outside(alloc, &PLAIN)?;
    let (_, outcome) = serve_all(
        rt,
        alloc,
        book,
        &mut lanes,
        limits,
        &mut output,
        &mut archive,
    );
    Ok(Behind {
        lanes,
        output,
        sessions: archive.sessions().len(),
        outcome,
    })
}

// Whether these were answered on the connections of the one lane.
fn are_answered(lanes: &[MemLane], answers: &[&[u8]]) -> bool {
    let [lane] = lanes else {
        return false;
    };
    let conns = lane.port.served();
    conns.len() == answers.len()
        && conns
            .iter()
            .zip(answers)
            .all(|(conn, answer)| conn.written() == *answer)
}

// Whether the last session of the one lane ended so.
fn has_ended(outcome: &Result<Vec<LaneEnd>, AllFault>, so: Result<LaneEnd, AllFault>) -> bool {
    match (outcome, so) {
        (Ok(ends), Ok(end)) => ends.as_slice() == [end].as_slice(),
        (Err(fault), Err(other)) => *fault == other,
        _ => false,
    }
}

#[test]
fn sessions_follow_each_other(rt: HostRuntime) -> Result<(), Fail> {
    let alloc = rt.alloc();
    for row in ROWS {
        let behind = served(&rt, alloc, row)?;
        assert!(rt; are_answered(&behind.lanes, row.answers));
        assert_eq!(rt; behind.output.bytes(), row.said.as_bytes());
        assert_eq!(rt; behind.sessions, row.sessions);
        assert!(rt; has_ended(&behind.outcome, row.outcome));
    }
    Ok(())
}
