// One connection.
ghost use Rattle.std.specs.Prelude.{◌≡◌, Option, IfSome, IfNone};
ghost use Rattle.gate_ports.specs.Facts.{ConnTold};
ghost use Rattle.gate_serve.specs.Serving.{Asked, BackendTold, Did, seat_of};
ghost use Rattle.gate_walk.specs.Acts.{tell_closing};
ghost use Rattle.gate_walk.specs.Stories.{Story, Tells, acts_of, incoming_of};
ghost use Rattle.http_edge.specs.declared.incoming.Incoming.TheVariants.{End as end_of_input};
ghost use Rattle.turn_desk.specs.Calls.{HasItsOwn};

use crate::awaiting::await_message;
use crate::called::Called;
use crate::calling::call;
use crate::edge::{end_at_edge, end_full, stopped_by};
use backend_core::Backend;
use book_core::Book;
use call_facts::Request;
use gate_ports::{Conn, Gate, Means};
use gate_walk::{Ended, Message};
use gw_base::{Clock, Words, write_all};
use http_edge::{Buffer, Incoming};
use keeper_core::Keeper;
use std::alloc::Global;
use std::sync::Wait;
use turn_desk::{Desk, Seat};

// The request of a message, and whether its body is too large; none at the end of the input.
fn request_of(incoming: Incoming) -> Option<(bool, Request)>
    ensures some { IfSome result (λ p. incoming ≡ incoming_of p.0 p.1) }
    ensures none { IfNone result (incoming ≡ end_of_input) }
{
    match incoming {
        Incoming::Whole(request) => Some((false, request)),
        Incoming::TooLarge(request) => Some((true, request)),
        Incoming::End => None,
    }
}

/// Serves the messages of a connection, one after another, until it ends; the last tells whether the book replied to a
/// Leave that the session is closing. Each message enters the book at the stage that its target names, goes on by the
/// view that its Enter was replied, and leaves before the first byte of its answer is written.
pub fn serve_connection<R: Wait, K: Keeper, C: Conn, B: Backend, T: Clock, W: Words, G: Gate>(
    rt: &R,
    alloc: Global,
    desk: &Desk<Book<K>>,
    seat: Seat<Book<K>>,
    conn: &mut C,
    means: &mut Means<B, T, W, G>,
) -> (Seat<Book<K>>, Ended, bool)
    requires desk { seat.desk ≡ desk.now }
    requires own { HasItsOwn seat_of seat }
    ensures served { (story : Story)
        × Did seat result.0 (acts_of story)
        × Asked (record { sent = B.sent means.old.backend; given = B.given means.old.backend; to_come = B.to_come means.old.backend })
        (record { sent = B.sent means.new.backend; given = B.given means.new.backend; to_come = B.to_come means.new.backend }) (acts_of story)
        × Tells (T.fixed means.old.clock) (W.fixed means.old.words)
        (record { left = C.left conn.old; written = C.written conn.old; read_faults = C.Source.faults conn.old; write_faults = C.Sink.faults conn.old })
        (record { left = C.left conn.new; written = C.written conn.new; read_faults = C.Source.faults conn.new; write_faults = C.Sink.faults conn.new })
        result.1 story
        × (result.2 ≡ tell_closing (acts_of story)) }
    ensures clock { T.fixed means.new.clock ≡ T.fixed means.old.clock }
    ensures words { W.fixed means.new.words ≡ W.fixed means.old.words }
{
    let mut seat = seat;
    let mut rest = Buffer::new(alloc);
    let mut number: u32 = 1;
    loop {
        let incoming = match await_message(alloc, conn, &mut rest) {
            Ok(incoming) => incoming,
            Err(fault) => return (seat, end_at_edge(conn, fault), false),
        };
        let Some((too_large, request)) = request_of(incoming) else {
            return (seat, Ended::Closed, false);
        };
        let message = Message {
            number,
            too_large,
            request,
            moment: means.clock.now(),
            word: means.words.next(),
        };
        let (next, called, closing) = call(rt, alloc, desk, seat, &message, means);
        seat = next;
        let (bytes, closes) = match called {
            Called::Answered {
                cause: _,
                bytes,
                closes,
            } => (bytes, closes),
            Called::Full(full) => return (seat, end_full(conn, full), closing),
            Called::Memory => return (seat, Ended::Memory, closing),
        };
        if let Err(stop) = write_all(conn, bytes.as_slice()) {
            return (seat, stopped_by(stop), closing);
        }
        if closes {
            return (seat, Ended::Closed, closing);
        }
        number += 1;
    }
}
