// A lane at its post, and the threads that serve lanes.
ghost use Rattle.std.specs.Prelude.{◌≡◌, ◌<◌, ℕ, All, length, slice_index_or};
ghost use Rattle.gate_session.specs.Posts.{IsReady, PostFacts, WasServed};

use backend_core::Backend;
use book_core::Book;
use gate_ports::{Gate, Lane, Port};
use gate_serve::serve_lane;
use gate_walk::LaneEnd;
use gw_base::{Clock, Words};
use keeper_core::Keeper;
use std::alloc::Global;
use std::marker::Model;
use std::sync::Wait;
use std::thread::{self, Threads};
use turn_desk::{Desk, Seat};

/// A lane at its post: with the seat that its calls go through, and behind its service with how it ended.
///
/// Contracts see what the lane tells, the seat and the end.
pub(crate) struct Post<K: Keeper, P: Port, B: Backend, T: Clock, W: Words, G> {
    pub lane: Lane<P, B, T, W, G>,
    pub seat: Option<Seat<Book<K>>>,
    pub end: Option<LaneEnd>,
}

impl<K: Keeper, P: Port, B: Backend, T: Clock, W: Words, G> Model for Post<K, P, B, T, W, G> {
    ghost use Rattle.gate_session.specs.Posts.{PostFacts};
    ghost use Rattle.outside_core.specs.Told.{told_of};

    ghost Value = { PostFacts };

    ghost view = { λ p. record {
      told = told_of (P.coming p.lane.port) (P.served p.lane.port) (B.sent p.lane.means.backend) (B.given p.lane.means.backend) (T.fixed p.lane.means.clock) (W.fixed p.lane.means.words) (P.closed p.lane.port) (P.out p.lane.port) (P.faults p.lane.port);
      seat = p.seat;
      end = p.end;
    } };
}

// Serves the lane of a post.
fn serve_post<R: Wait, K: Keeper, P: Port, B: Backend, T: Clock, W: Words, G: Gate>(
    rt: &R,
    alloc: Global,
    desk: &Desk<Book<K>>,
    post: &mut Post<K, P, B, T, W, G>,
)
    requires { IsReady desk.now post.old }
    ensures { WasServed post.old post.new }
{
    let Some(seat) = post.seat.take() else {
        unreachable!()
    };
    let (seat, end) = serve_lane(rt, alloc, desk, seat, &mut post.lane);
    post.seat = Some(seat);
    post.end = Some(end);
}

/// Serves each lane on a thread of its own, where one can be made, and else one after another.
pub(crate) fn serve_posts<
    R: Threads + Wait + Sync,
    K: Keeper + Send,
    P: Port + Send,
    B: Backend + Send,
    T: Clock + Send,
    W: Words + Send,
    G: Gate + Send,
>(rt: &R, alloc: Global, desk: &Desk<Book<K>>, posts: &mut [Post<K, P, B, T, W, G>])
where
    P::Link: Send,
    requires { All (IsReady desk.now) posts.old }
    ensures { (k : ℕ) (d : PostFacts) → k < length posts.old → WasServed (slice_index_or posts.old k d) (slice_index_or posts.new k d) }
{
    if posts.is_empty() {
        return;
    }
    let lanes = posts.len();
    thread::for_each_mut(
        rt,
        posts,
        lanes,
        &|_, post| { serve_post(rt, alloc, desk, post) },
    );
}
