// A counting machine behind a desk: two callers, a refusing step, and the sizes of a desk.
ghost use Rattle.std.specs.Prelude.{◌≡◌, ◌≤◌, [], length};
ghost use Rattle.turn_desk.specs.Calls.{IsSameSeat};

mod lanes;

use std::alloc::Global;
use std::sync::Wait;
use std::test::*;
use std::thread::{Threads, join};
use turn_desk::{Desk, Machine, Seat};

#[derive(Drop)]
struct Counted {
    seat: u32,
    event: u8,
}

#[derive(Drop, Debug, PartialEq)]
enum CountFault {
    Nothing,
    Memory,
}

/// Counts events above 0, and refuses 0.
#[derive(Drop)]
struct Counter {
    opened: u32,
    entries: Vec<Counted>,
}

impl Machine for Counter {
    ghost use Rattle.std.specs.Prelude.{◌≡◌, length};
    ghost use Rattle.tests_wire.specs.declared.desk.CountFault.TheVariants.{Nothing};

    type Event = u8;

    type Entry = Counted;

    type Base = u32;

    type Reply = usize;

    type Fault = CountFault;

    ghost base = { λ c. c.opened };

    ghost history = { λ c. c.entries.items };

    ghost seat_of = { λ e. e.seat };

    ghost event_of = { λ e. e.event };

    ghost answers = { λ base before e reply. reply ≡ length before };

    ghost refuses = { λ base before seat event fault. fault ≡ Nothing → event ≡ 0 };

    fn step(&mut self, _alloc: Global, seat: u32, event: u8) -> Result<usize, CountFault> {
        if event == 0 {
            return Err(CountFault::Nothing);
        }
        let place = self.entries.len();
        if self.entries.push(Counted { seat, event }).is_err() {
            return Err(CountFault::Memory);
        }
        Ok(place)
    }
}

fn new_counter(alloc: Global) -> Counter
    ensures { result.entries.items ≡ [] }
{
    Counter {
        opened: 7,
        entries: Vec::new(alloc),
    }
}

fn count_often<R: Wait>(
    rt: &R,
    alloc: Global,
    desk: &Desk<Counter>,
    seat: Seat<Counter>,
    calls: u32,
) -> Seat<Counter>
    requires { seat.desk ≡ desk.now }
    ensures { IsSameSeat seat result }
{
    let mut seat = seat;
    for _ in 0..calls {
        let (next, _) = desk.call(rt, alloc, seat, 1);
        seat = next;
    }
    seat
}

// How many entries two threads make.
fn entries_by_two<R: Threads + Wait + Sync>(rt: &R, alloc: Global, calls: u32) -> Option<usize> {
    let Ok((desk, seat)) = Desk::start(alloc, new_counter(alloc), 3) else {
        return None;
    };
    let (seat, one) = desk.split(seat);
    let (seat, two) = desk.split(seat);
    let at = &desk;
    let (one, two) = join(
        rt,
        move || count_often(rt, alloc, at, one, calls),
        move || count_often(rt, alloc, at, two, calls),
    );
    let seat = desk.join(seat, one);
    let seat = desk.join(seat, two);
    Some(desk.close(seat).entries.len())
}

// The replies to four events, and how many entries they make.
fn replies<R: Wait>(
    rt: &R,
    alloc: Global,
    events: [u8; 4],
) -> Option<([Result<usize, CountFault>; 4], usize)> {
    let Ok((desk, seat)) = Desk::start(alloc, new_counter(alloc), 1) else {
        return None;
    };
    let (seat, first) = desk.call(rt, alloc, seat, events[0]);
    let (seat, second) = desk.call(rt, alloc, seat, events[1]);
    let (seat, third) = desk.call(rt, alloc, seat, events[2]);
    let (seat, fourth) = desk.call(rt, alloc, seat, events[3]);
    Some((
        [first, second, third, fourth],
        desk.close(seat).entries.len(),
    ))
}

// How many seats the first one may split off, and whether it is whole.
fn opened(alloc: Global, seats: u32) -> Option<(u32, bool, u32)>
    requires { (1 ≤ seats) × (seats ≤ 9) }
{
    let Ok((desk, seat)) = Desk::start(alloc, new_counter(alloc), seats) else {
        return None;
    };
    let spare = seat.spare();
    let whole = seat.whole();
    Some((spare, whole, desk.close(seat).opened))
}

#[test]
fn two_threads_make_all_their_entries(rt: HostRuntime) -> Result<(), Fail> {
    assert_eq!(rt; entries_by_two(&rt, rt.alloc(), 1000), Some(2000));
    Ok(())
}

#[test]
fn a_refused_event_makes_no_entry(rt: HostRuntime) -> Result<(), Fail> {
    let taken = Some((
        [
            Err(CountFault::Nothing),
            Ok(0),
            Err(CountFault::Nothing),
            Ok(1),
        ],
        2,
    ));
    assert_eq!(rt; replies(&rt, rt.alloc(), [0, 5, 0, 7]), taken);
    Ok(())
}

#[test]
fn a_desk_has_one_to_nine_seats(rt: HostRuntime) -> Result<(), Fail> {
    assert_eq!(rt; opened(rt.alloc(), 1), Some((0, true, 7)));
    assert_eq!(rt; opened(rt.alloc(), 9), Some((8, true, 7)));
    Ok(())
}
