// Seats for lanes, and back.
ghost use Rattle.std.specs.Prelude.{◌≡◌, List, ◌≤◌, ◌+◌, [], ◌++◌, All, Some, IfSome, length, map, vec_capacity};
ghost use Rattle.std.specs.List.{range_with_len};
ghost use mathlib.Core.List.{IsPrefix};
ghost use Rattle.gate_session.specs.Posts.{AreSeated, IsBack, Seat as seat_data, share_of};
ghost use Rattle.outside_core.specs.Told.{told_of};
ghost use Rattle.gate_serve.specs.Serving.{seat_of};
ghost use Rattle.turn_desk.specs.Calls.{HasItsOwn};

use crate::post::Post;
use backend_core::Backend;
use book_core::Book;
use gate_ports::{Gate, Lane, Port};
use gate_walk::LaneEnd;
use gw_base::{Clock, Words};
use keeper_core::Keeper;
use turn_desk::{Desk, Seat};

/// Takes each lane to a post, in their order, where a seat of its own is split off for it.
pub(crate) fn seat_lanes<K: Keeper, P: Port, B: Backend, T: Clock, W: Words, G: Gate>(
    desk: &Desk<Book<K>>,
    seat: Seat<Book<K>>,
    lanes: &mut Vec<Lane<P, B, T, W, G>>,
    posts: &mut Vec<Post<K, P, B, T, W, G>>,
) -> Seat<Book<K>>
    requires desk { seat.desk ≡ desk.now }
    requires spare { seat.spare ≡ range_with_len 1 (length lanes.old.items) }
    requires fresh { (seat.seen ≡ []) × (seat.ended ≡ []) }
    requires empty { posts.old.items ≡ [] }
    requires room { length lanes.old.items ≤ vec_capacity posts.old }
    ensures seated { IfSome seat.base (λ base. AreSeated desk.now base 1 (map (λ l. told_of (P.coming l.port) (P.served l.port) (B.sent l.means.backend) (B.given l.means.backend) (T.fixed l.means.clock) (W.fixed l.means.words) (P.closed l.port) (P.out l.port) (P.faults l.port)) lanes.old.items) posts.new.items) }
    ensures left { result ≡ record seat { spare = [] } }
    ensures taken { lanes.new.items ≡ [] }
    ensures as_many { length posts.new.items ≡ length lanes.old.items }
    ensures room { vec_capacity lanes.new ≡ vec_capacity lanes.old }
{
    let mut seat = seat;
    while !lanes.is_empty() {
        let (rest, own) = desk.split(seat);
        seat = rest;
        let post = Post {
            lane: lanes.remove(0),
            seat: Some(own),
            end: None,
        };
        posts.push(post).unwrap();
    }
    seat
}

/// Takes the lanes back from their posts, in their order, with how each ended, and joins their seats into one.
pub(crate) fn unseat_lanes<K: Keeper, P: Port, B: Backend, T: Clock, W: Words, G: Gate>(
    desk: &Desk<Book<K>>,
    seat: Seat<Book<K>>,
    posts: &mut Vec<Post<K, P, B, T, W, G>>,
    lanes: &mut Vec<Lane<P, B, T, W, G>>,
    ends: &mut Vec<LaneEnd>,
) -> Seat<Book<K>>
    requires desk { seat.desk ≡ desk.now }
    requires alone { (seat.ended ≡ []) × (seat.spare ≡ []) }
    requires back { All (IsBack desk.now) posts.old.items }
    requires empty { (lanes.old.items ≡ []) × (ends.old.items ≡ []) }
    requires room { (length posts.old.items ≤ vec_capacity lanes.old) × (length posts.old.items ≤ vec_capacity ends.old) }
    ensures lanes { map (λ l. told_of (P.coming l.port) (P.served l.port) (B.sent l.means.backend) (B.given l.means.backend) (T.fixed l.means.clock) (W.fixed l.means.words) (P.closed l.port) (P.out l.port) (P.faults l.port)) lanes.new.items ≡ map (λ p. p.told) posts.old.items }
    ensures ends { map Some ends.new.items ≡ map (λ p. p.end) posts.old.items }
    ensures joined { (seats : List seat_data) × (map Some seats ≡ map (λ p. p.seat) posts.old.items) × (result.ended ≡ map share_of seats) × All (λ (s : seat_data). IsPrefix s.seen result.seen) seats }
    ensures same { (result.desk ≡ seat.desk) × (result.seats ≡ seat.seats) × (result.number ≡ seat.number) × (result.base ≡ seat.base) × (result.mine ≡ seat.mine) × (result.spare ≡ []) }
    ensures emptied { posts.new.items ≡ [] }
{
    let mut seat = seat;
    while !posts.is_empty() {
        let Post {
            lane,
            seat: own,
            end,
        } = posts.remove(0);
        let (Some(own), Some(end)) = (own, end) else {
            unreachable!()
        };
        seat = desk.join(seat, own);
        lanes.push(lane).unwrap();
        ends.push(end).unwrap();
    }
    seat
}
