// Eight lanes, each on a thread of its own.
ghost use Rattle.std.specs.Prelude.{◌≡◌, ◌+◌, ◌<◌, ◌≤◌, ℕ, [], length, All, MatchOption, slice_index_or};
ghost use mathlib.Core.List.{IsPrefix};
ghost use Rattle.turn_desk.specs.Calls.{IsSameSeat, IsWhole, joined_with};

use super::{Counter, count_often, new_counter};
use std::alloc::Global;
use std::sync::Wait;
use std::test::*;
use std::thread;
use std::thread::Threads;
use turn_desk::{Desk, Seat};

const CALLS: u32 = 100;

fn serve_lane<R: Wait>(
    rt: &R,
    alloc: Global,
    desk: &Desk<Counter>,
    lane: &mut Option<Seat<Counter>>,
)
    requires { MatchOption lane.old ⊥ (λ s. s.desk ≡ desk.now) }
    ensures { MatchOption lane.old ⊥ (λ s. MatchOption lane.new ⊥ (λ t. IsSameSeat s t)) }
{
    let Some(seat) = lane.take() else {
        unreachable!()
    };
    *lane = Some(count_often(rt, alloc, desk, seat, CALLS));
}

fn serve_lanes<R: Threads + Wait + Sync>(
    rt: &R,
    alloc: Global,
    desk: &Desk<Counter>,
    lanes: &mut [Option<Seat<Counter>>],
)
    requires some_lane { 0 < length lanes.old }
    requires ready { All (λ p. MatchOption p ⊥ (λ s. s.desk ≡ desk.now)) lanes.old }
    ensures { (k : ℕ) (d : _) → k < length lanes.old → MatchOption (slice_index_or lanes.old k d) ⊥ (λ s. MatchOption (slice_index_or lanes.new k d) ⊥ (λ t. IsSameSeat s t)) }
{
    let threads = lanes.len();
    thread::for_each_mut(
        rt,
        lanes,
        threads,
        &|_, lane| { serve_lane(rt, alloc, desk, lane) },
    );
}

// A seat for each lane.
fn deal(
    desk: &Desk<Counter>,
    seat: Seat<Counter>,
    lanes: &mut [Option<Seat<Counter>>],
) -> Seat<Counter>
    requires desk { seat.desk ≡ desk.now }
    requires spare { length seat.spare ≡ length lanes.old }
    ensures kept { (result.desk ≡ desk.now) × (result.seats ≡ seat.seats) × (result.ended ≡ seat.ended) × (result.spare ≡ []) }
    ensures dealt { (k : ℕ) (d : _) → k < length lanes.old → MatchOption (slice_index_or lanes.new k d) ⊥ (λ s. (s.desk ≡ desk.now) × (s.ended ≡ []) × (s.spare ≡ [])) }
{
    let mut seat = seat;
    for i in 0..lanes.len() {
        let (rest, new) = desk.split(seat);
        seat = rest;
        lanes[i] = Some(new);
    }
    seat
}

// Joins the lanes' seats into one.
fn gather(
    desk: &Desk<Counter>,
    seat: Seat<Counter>,
    lanes: &mut [Option<Seat<Counter>>],
) -> Seat<Counter>
    requires desk { seat.desk ≡ desk.now }
    requires alone { (seat.ended ≡ []) × (seat.spare ≡ []) }
    requires done { (k : ℕ) (d : _) → k < length lanes.old → MatchOption (slice_index_or lanes.old k d) ⊥ (λ s. (s.desk ≡ desk.now) × (s.ended ≡ []) × (s.spare ≡ [])) }
    ensures kept { (result.desk ≡ desk.now) × (result.seats ≡ seat.seats) }
    ensures all { length result.ended + length result.spare ≡ length lanes.old }
    ensures seen { IsPrefix seat.seen result.seen }
    ensures behind { (k : ℕ) (d : _) → k < length lanes.old → MatchOption (slice_index_or lanes.old k d) ⊥ (λ s. IsPrefix s.seen result.seen) }
{
    let mut seat = seat;
    for i in 0..lanes.len() {
        let Some(ended) = lanes[i].take() else {
            unreachable!()
        };
        seat = desk.join(seat, ended);
    }
    seat
}

// The last two seats of a desk, joined, and its machine.
fn last_two(desk: Desk<Counter>, seat: Seat<Counter>, lane: Seat<Counter>) -> Counter
    requires desk { (seat.desk ≡ desk) × (lane.desk ≡ desk) }
    requires whole { IsWhole (joined_with seat lane) }
    ensures { IsPrefix lane.seen result.entries.items }
{
    let seat = desk.join(seat, lane);
    desk.close(seat)
}

// How many entries eight threads make.
fn entries_by_eight<R: Threads + Wait + Sync>(rt: &R, alloc: Global) -> Option<usize> {
    let Ok((desk, seat)) = Desk::start(alloc, new_counter(alloc), 9) else {
        return None;
    };
    let mut lanes: [Option<Seat<Counter>>; 8] = [None, None, None, None, None, None, None, None];
    let seat = deal(&desk, seat, &mut lanes);
    serve_lanes(rt, alloc, &desk, &mut lanes);
    let seat = gather(&desk, seat, &mut lanes);
    Some(desk.close(seat).entries.len())
}

#[test]
fn eight_lanes_make_all_their_entries(rt: HostRuntime) -> Result<(), Fail> {
    assert_eq!(rt; entries_by_eight(&rt, rt.alloc()), Some(800));
    Ok(())
}
