// What is written at the edge, where no message could be read.
ghost use Rattle.std.specs.Prelude.{◌≡◌, ◌≤◌};
ghost use Rattle.gate_serve.specs.Serving.{ended_by as ended_by_fault, stopped_by as stopped_by_write};
ghost use Rattle.gate_walk.specs.Ends.{EndsWith, EndsFull};
ghost use Rattle.gw_base.specs.Outside.{Rose};

use gate_ports::Conn;
use gate_walk::{Ended, SessionFull};
use gw_base::{WriteStop, write_all};
use http_edge::{EdgeFault, busy_answer, edge_answer};

// The end that a fault of the input is.
fn ended_by(fault: EdgeFault) -> Ended
    ensures { result ≡ ended_by_fault fault }
{
    match fault {
        EdgeFault::Cut(n) => Ended::Cut(n),
        EdgeFault::BadHead => Ended::BadHead,
        EdgeFault::BadChunk => Ended::BadChunk,
        EdgeFault::HeadTooLong => Ended::HeadTooLong,
        EdgeFault::ReadFault => Ended::ReadFault,
        EdgeFault::Memory => Ended::Memory,
    }
}

/// The end that a write is which was stopped so.
pub(crate) fn stopped_by(stop: WriteStop) -> Ended
    ensures { result ≡ stopped_by_write stop }
{
    match stop {
        WriteStop::Failed => Ended::WriteFault,
        WriteStop::Memory => Ended::Memory,
    }
}

/// Writes what answers a fault of the input, if anything does.
pub(crate) fn end_at_edge<C: Conn>(conn: &mut C, fault: EdgeFault) -> Ended
    ensures ends { EndsWith fault (C.written conn.old) (C.written conn.new) result }
    ensures failed { result ≡ Ended.WriteFault → Rose (C.Sink.faults conn.old) (C.Sink.faults conn.new) }
    ensures beside { C.Sink.beside conn.new ≡ C.Sink.beside conn.old }
    ensures later { C.Sink.faults conn.old ≤ C.Sink.faults conn.new }
{
    let Some(answer) = edge_answer(fault) else {
        return ended_by(fault);
    };
    match write_all(conn, answer) {
        Ok(()) => ended_by(fault),
        Err(stop) => stopped_by(stop),
    }
}

/// Writes what answers a message a step of which was refused, since the session is full.
pub(crate) fn end_full<C: Conn>(conn: &mut C, full: SessionFull) -> Ended
    ensures ends { EndsFull (Rose (C.Sink.faults conn.old) (C.Sink.faults conn.new)) full (C.written conn.old) (C.written conn.new) result }
    ensures beside { C.Sink.beside conn.new ≡ C.Sink.beside conn.old }
    ensures later { C.Sink.faults conn.old ≤ C.Sink.faults conn.new }
{
    match write_all(conn, busy_answer()) {
        Ok(()) | Err(WriteStop::Failed) => Ended::SessionFull {
            entries: full.entries,
            bytes: full.bytes,
        },
        Err(WriteStop::Memory) => Ended::Memory,
    }
}
