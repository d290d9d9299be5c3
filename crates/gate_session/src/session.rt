// One session.
ghost use Rattle.std.specs.Prelude.{◌≡◌, ◌≤◌, [], All, IfOk, IfErr, OnErr, length, map};
ghost use Rattle.gate_session.specs.Posts.{IsOpen};
ghost use Rattle.outside_core.specs.Told.{told_of};
ghost use Rattle.gate_session.specs.Sessions.{Session};

use crate::post::serve_posts;
use crate::seating::{seat_lanes, unseat_lanes};
use backend_core::Backend;
use book_core::Book;
use gate_ports::{Gate, Lane, Port};
use gate_walk::LaneEnd;
use gw_base::{Clock, Words};
use keeper_core::Keeper;
use std::alloc::Global;
use std::sync::Wait;
use std::thread::Threads;
use turn_desk::Desk;

/// Serves the lanes over one book, each on a thread of its own, where one can be made, and else one after another. The entries of the
/// first lane have number 1, those of the next number 2, and so on. How each lane ended is told in their order.
///
/// `Err` hands the book back as it was, and comes only where memory is wanting, before any lane begins.
pub fn serve_session<
    R: Threads + Wait + Sync,
    K: Keeper + Send,
    P: Port + Send,
    B: Backend + Send,
    T: Clock + Send,
    W: Words + Send,
    G: Gate + Send,
>(
    rt: &R,
    alloc: Global,
    book: Book<K>,
    lanes: &mut Vec<Lane<P, B, T, W, G>>,
) -> Result<(Book<K>, Vec<LaneEnd>), Book<K>>
where
    P::Link: Send,
    requires number { (1 ≤ length lanes.old.items) × (length lanes.old.items ≤ 8) }
    requires fresh { book.history ≡ [] }
    requires are_open { All IsOpen (map (λ l. told_of (P.coming l.port) (P.served l.port) (B.sent l.means.backend) (B.given l.means.backend) (T.fixed l.means.clock) (W.fixed l.means.words) (P.closed l.port) (P.out l.port) (P.faults l.port)) lanes.old.items) }

    // Each lane did what its connections ask for in the one history of the book, which has no other entry.
    ensures session { IfOk result (λ r. Session r.0.base
        (map (λ l. told_of (P.coming l.port) (P.served l.port) (B.sent l.means.backend) (B.given l.means.backend) (T.fixed l.means.clock) (W.fixed l.means.words) (P.closed l.port) (P.out l.port) (P.faults l.port)) lanes.old.items)
        (map (λ l. told_of (P.coming l.port) (P.served l.port) (B.sent l.means.backend) (B.given l.means.backend) (T.fixed l.means.clock) (W.fixed l.means.words) (P.closed l.port) (P.out l.port) (P.faults l.port)) lanes.new.items)
        r.1.items r.0.history) }
    ensures base { IfOk result (λ r. r.0.base ≡ book.base) }
    ensures refused { IfErr result (λ b. b ≡ book) }
    ensures unserved { OnErr result (lanes.new ≡ lanes.old) }
{
    let number = lanes.len();
    let Ok(mut ends) = Vec::with_capacity(alloc, number) else {
        return Err(book);
    };
    let Ok(mut posts) = Vec::with_capacity(alloc, number) else {
        return Err(book);
    };
    let (desk, seat) = match Desk::start(alloc, book, number as u32 + 1) {
        Ok(started) => started,
        Err(book) => {
            posts.destroy_empty();
            return Err(book);
        }
    };
    let seat = seat_lanes(&desk, seat, lanes, &mut posts);
    serve_posts(rt, alloc, &desk, &mut posts);
    let seat = unseat_lanes(&desk, seat, &mut posts, lanes, &mut ends);
    posts.destroy_empty();
    Ok((desk.close(seat), ends))
}
