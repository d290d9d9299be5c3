// The connections of a port, served by one lane.
ghost use Rattle.std.specs.Prelude.{◌≡◌, [], false, IfOk};
ghost use Rattle.gate_serve.specs.Serving.{seat_of};
ghost use Rattle.turn_desk.specs.Calls.{IsSameSeat, HasItsOwn};

use crate::said::{ANN, BAD_REQUEST, BOB, BUSY, HI_ANN, HI_ANN_CLOSING, HI_BOB, NO_HEAD};
use crate::sessions::{
    MemBook, OPEN, Plan, SHUT, close, commands, conn, entries, means, start, take_all,
};
use backend_core::MemBackend;
use book_rules::{Entry, Limits};
use gate_ports::{Accepted, FreeGate, Lane, MemPort, Port};
use gate_serve::serve_lane;
use gate_walk::LaneEnd;
use gw_base::{FixedClock, SplitMix};
use std::alloc::Global;
use std::sync::Wait;
use std::test::Fail;
use turn_desk::{Desk, Seat};

pub(crate) type MemLane = Lane<MemPort, MemBackend, FixedClock, SplitMix, FreeGate>;

/// A lane whose connections have these bytes, and whose looks of these numbers fail.
pub(crate) fn lane(alloc: Global, comes: &[&[u8]], fails: &[u32]) -> Result<MemLane, Fail>
    ensures home { IfOk result (λ lane. lane.port.out ≡ false) }
    ensures open { IfOk result (λ lane. lane.port.closed ≡ false) }
{
    let mut conns = Vec::new(alloc);
    for bytes in comes {
        conns.push(conn(alloc, bytes, 4096, &[], &[])?)?;
    }
    Ok(Lane {
        port: MemPort::new(conns, Vec::from_slice(alloc, fails)?),
        means: means(alloc),
    })
}

/// Serves a lane by a seat that has made no entry.
pub(crate) fn run<R: Wait>(
    rt: &R,
    alloc: Global,
    desk: &Desk<MemBook>,
    seat: Seat<MemBook>,
    lane: &mut MemLane,
) -> (Seat<MemBook>, LaneEnd)
    requires desk { seat.desk ≡ desk.now }
    requires own { HasItsOwn seat_of seat }
    requires fresh { seat.mine ≡ [] }
    requires open { lane.old.port.closed ≡ false }
    requires home { lane.old.port.out ≡ false }
    ensures same { IsSameSeat seat result.0 }
    ensures own { HasItsOwn seat_of result.0 }
    ensures home { lane.new.port.out ≡ false }
{
    serve_lane(rt, alloc, desk, seat, lane)
}

// Serves a lane of a session by its second seat, and gives the session's history.
fn serve<R: Wait>(
    rt: &R,
    alloc: Global,
    plan: &Plan,
    lane: &mut MemLane,
) -> Result<(LaneEnd, Vec<Entry>), Fail>
    requires open { lane.old.port.closed ≡ false }
    requires home { lane.old.port.out ≡ false }
    ensures home { lane.new.port.out ≡ false }
{
    let commands = commands(alloc, plan.shuts)?;
    let (desk, seat) = start(alloc, plan.limits, 2)?;
    let seat = take_all(rt, alloc, &desk, seat, commands);
    let (seat, own) = desk.split(seat);
    let (own, end) = run(rt, alloc, &desk, own, lane);
    let seat = desk.join(seat, own);
    Ok((end, close(desk, seat)))
}

/// A session, the connections of a lane and the looks that fail; what is written on those that were served, how the lane ends,
/// and the entries of its seat.
#[derive(Clone, Copy)]
struct Row {
    plan: Plan,
    comes: &'static [&'static [u8]],
    fails: &'static [u32],
    written: &'static [&'static [u8]],
    end: LaneEnd,
    entries: &'static str,
}

const ROWS: &'static [Row] = &[
    Row {
        plan: OPEN,
        comes: &[],
        fails: &[],
        written: &[],
        end: LaneEnd::Ended,
        entries: "",
    },
    Row {
        plan: OPEN,
        comes: &[ANN, BOB, ANN],
        fails: &[],
        written: &[HI_ANN, HI_BOB, HI_ANN],
        end: LaneEnd::Ended,
        entries: "enter leave enter leave enter leave ",
    },
    Row {
        plan: OPEN,
        comes: &[NO_HEAD, b"GET", BOB],
        fails: &[],
        written: &[BAD_REQUEST, b"", HI_BOB],
        end: LaneEnd::Ended,
        entries: "enter leave ",
    },
    Row {
        plan: OPEN,
        comes: &[ANN, BOB, ANN],
        fails: &[1],
        written: &[HI_ANN],
        end: LaneEnd::PortFault,
        entries: "enter leave ",
    },
    Row {
        plan: SHUT,
        comes: &[ANN, BOB, ANN],
        fails: &[],
        written: &[HI_ANN_CLOSING],
        end: LaneEnd::Closing,
        entries: "enter leave ",
    },
    Row {
        plan: SHUT,
        comes: &[NO_HEAD, ANN, BOB],
        fails: &[],
        written: &[BAD_REQUEST, HI_ANN_CLOSING],
        end: LaneEnd::Closing,
        entries: "enter leave ",
    },
    Row {
        plan: Plan {
            limits: Limits {
                entries: 6,
                bytes: 1000,
            },
            shuts: false,
        },
        comes: &[ANN, BOB, ANN],
        fails: &[],
        written: &[HI_ANN, BUSY],
        end: LaneEnd::Full {
            entries: 6,
            bytes: 46,
        },
        entries: "enter leave enter ",
    },
];

#[test]
fn the_connections_of_a_lane_are_served(rt: HostRuntime) -> Result<(), Fail> {
    let alloc = rt.alloc();
    for row in ROWS {
        let mut lane = lane(alloc, row.comes, row.fails)?;
        let (end, history) = serve(&rt, alloc, &row.plan, &mut lane)?;
        assert_eq!(rt; end, row.end);
        assert_eq!(rt; lane.port.served().len(), row.written.len());
        for (conn, written) in lane.port.served().iter().zip(row.written) {
            assert_eq!(rt; conn.written(), *written);
        }
        assert_eq!(rt; entries(alloc, &history, 1)?.as_str(), row.entries);
        assert_eq!(rt; entries(alloc, &history, 0)?.as_str(), "");
    }
    Ok(())
}

// What the next look finds: a connection, the end or a fault.
fn look(port: &mut MemPort) -> &'static str
    requires { port.old.out ≡ false }
{
    match port.accept() {
        Ok(Accepted::Conn(_)) => "connection",
        Ok(Accepted::NotYet) => "not yet",
        Ok(Accepted::Ended) => "ended",
        Err(_) => "failed",
    }
}

// Where the session is closing, the next connection is not lent; where a look failed, it is.
#[test]
fn a_closing_session_shuts_the_port(rt: HostRuntime) -> Result<(), Fail> {
    let alloc = rt.alloc();
    for (plan, found) in [(SHUT, "ended"), (OPEN, "connection")] {
        let mut lane = lane(alloc, &[ANN, BOB, ANN], &[1])?;
        serve(&rt, alloc, &plan, &mut lane)?;
        assert_eq!(rt; lane.port.served().len(), 1);
        assert_eq!(rt; look(&mut lane.port), found);
    }
    Ok(())
}
