// One lane.
ghost use Rattle.std.specs.Prelude.{◌≡◌, ◌≤◌, [], List, Option, Some, IfSome, true, false};
ghost use Rattle.gate_ports.specs.Facts.{ConnTold};
ghost use Rattle.gate_ports.specs.Lending.{GivenBack};
ghost use Rattle.gate_serve.specs.Serving.{Did, GoesOnBy, lane_end_behind, seat_of};
ghost use Rattle.gate_walk.specs.Acts.{sent_by, given_to, tell_closing};
ghost use Rattle.gate_walk.specs.Lanes.{Visit, AreTold, WereLent, WereGivenBack, LaneEnds, acts_of_all};
ghost use Rattle.gw_base.specs.Outside.{Rose};
ghost use Rattle.turn_desk.specs.Calls.{HasItsOwn};

use crate::connection::serve_connection;
use backend_core::Backend;
use book_core::Book;
use gate_ports::{Accepted, Gate, Lane, Port};
use gate_walk::{Ended, LaneEnd};
use gw_base::{Clock, Words};
use keeper_core::Keeper;
use std::alloc::Global;
use std::sync::Wait;
use turn_desk::{Desk, Seat};

// Gives a connection back, and shuts the port where the session is closing.
fn give_back<P: Port>(port: &mut P, link: P::Link, closing: bool)
    requires out { P.out port.old ≡ true }
    requires unshut { P.closed port.old ≡ false }
    ensures served { GivenBack (record { left = P.Link.left link; written = P.Link.written link; read_faults = P.Link.Source.faults link; write_faults = P.Link.Sink.faults link }) (P.served port.old) (P.served port.new) }
    ensures coming { P.coming port.new ≡ P.coming port.old }
    ensures out { P.out port.new ≡ false }
    ensures closed { P.closed port.new ≡ closing }
    ensures faults { P.faults port.old ≤ P.faults port.new }
{
    port.done(link);
    if closing {
        port.shut();
    }
}

// The end of a lane behind a connection that ended so, where it serves no other one.
fn end_behind(ended: Ended, closing: bool) -> Option<LaneEnd>
    ensures { result ≡ lane_end_behind ended closing }
{
    match ended {
        Ended::SessionFull { entries, bytes } => Some(LaneEnd::Full { entries, bytes }),
        Ended::Memory => Some(LaneEnd::Memory),
        _ if closing => Some(LaneEnd::Closing),
        _ => None,
    }
}

/// Serves the connections of a lane, one after another, until its port ends or a look for the next one fails, until the
/// session is closing, which shuts the port, or until a connection ends since the session is full or memory is wanting.
/// The seat has made no entry yet.
pub fn serve_lane<R: Wait, K: Keeper, P: Port, B: Backend, T: Clock, W: Words, G: Gate>(
    rt: &R,
    alloc: Global,
    desk: &Desk<Book<K>>,
    seat: Seat<Book<K>>,
    lane: &mut Lane<P, B, T, W, G>,
) -> (Seat<Book<K>>, LaneEnd)
    requires desk { seat.desk ≡ desk.now }
    requires own { HasItsOwn seat_of seat }
    requires fresh { seat.mine ≡ [] }
    requires unshut { P.closed lane.old.port ≡ false }
    requires home { P.out lane.old.port ≡ false }

    // The port is shut exactly where it was read that the session is closing.
    ensures served { (visits : List Visit)
        × Did seat result.0 (acts_of_all visits)
        × GoesOnBy (B.sent lane.old.means.backend) (B.sent lane.new.means.backend) (sent_by (acts_of_all visits))
        × GoesOnBy (B.given lane.old.means.backend) (B.given lane.new.means.backend) (given_to (acts_of_all visits))
        × AreTold (T.fixed lane.old.means.clock) (W.fixed lane.old.means.words) visits
        × WereLent (P.coming lane.old.port) (P.coming lane.new.port) visits
        × WereGivenBack (P.served lane.old.port) (P.served lane.new.port) visits
        × LaneEnds result.1 visits
        × (P.closed lane.new.port ≡ tell_closing (acts_of_all visits)) }
    ensures ended { result.1 ≡ LaneEnd.Ended → IfSome (P.coming lane.new.port) (λ coming. coming ≡ []) }
    ensures fault { result.1 ≡ LaneEnd.PortFault → Rose (P.faults lane.old.port) (P.faults lane.new.port) }
    ensures home { P.out lane.new.port ≡ false }
    ensures clock { T.fixed lane.new.means.clock ≡ T.fixed lane.old.means.clock }
    ensures words { W.fixed lane.new.means.words ≡ W.fixed lane.old.means.words }
{
    let mut seat = seat;
    for _ in rt.forever() {
        let mut conn = match lane.port.accept() {
            Ok(Accepted::Conn(conn)) => conn,
            Ok(Accepted::NotYet) => continue,
            Ok(Accepted::Ended) => return (seat, LaneEnd::Ended),
            Err(_) => return (seat, LaneEnd::PortFault),
        };
        let (next, ended, closing) = serve_connection(
            rt,
            alloc,
            desk,
            seat,
            &mut conn,
            &mut lane.means,
        );
        seat = next;
        give_back(&mut lane.port, conn, closing);
        if let Some(end) = end_behind(ended, closing) {
            return (seat, end);
        }
    }
    unreachable!()
}
