// Two lanes of one session, one after another.
ghost use Rattle.std.specs.Prelude.{◌≡◌, false};

use crate::lanes::{MemLane, lane, run};
use crate::said::{ANN, BOB, HI_ANN, HI_BOB};
use crate::sessions::{OPEN, close, commands, entries, start, take_all};
use book_rules::Entry;
use gate_walk::LaneEnd;
use std::alloc::Global;
use std::sync::Wait;
use std::test::Fail;

// Serves two lanes, each by a seat of its own, and gives their ends and the session's history.
fn serve_both<R: Wait>(
    rt: &R,
    alloc: Global,
    one: &mut MemLane,
    two: &mut MemLane,
) -> Result<([LaneEnd; 2], Vec<Entry>), Fail>
    requires open { (one.old.port.closed ≡ false) × (two.old.port.closed ≡ false) }
    requires home { (one.old.port.out ≡ false) × (two.old.port.out ≡ false) }
{
    let commands = commands(alloc, false)?;
    let (desk, seat) = start(alloc, OPEN.limits, 3)?;
    let seat = take_all(rt, alloc, &desk, seat, commands);
    let (seat, first) = desk.split(seat);
    let (seat, second) = desk.split(seat);
    let (first, first_end) = run(rt, alloc, &desk, first, one);
    let (second, second_end) = run(rt, alloc, &desk, second, two);
    let seat = desk.join(seat, first);
    let seat = desk.join(seat, second);
    Ok(([first_end, second_end], close(desk, seat)))
}

fn is_written(lane: &MemLane, written: &[u8]) -> bool {
    match lane.port.served() {
        [conn] => conn.written() == written,
        _ => false,
    }
}

#[test]
fn two_lanes_make_one_history(rt: HostRuntime) -> Result<(), Fail> {
    let alloc = rt.alloc();
    let mut one = lane(alloc, &[ANN], &[])?;
    let mut two = lane(alloc, &[BOB], &[])?;
    let (ends, history) = serve_both(&rt, alloc, &mut one, &mut two)?;
    assert_eq!(rt; ends, [LaneEnd::Ended, LaneEnd::Ended]);
    assert!(rt; is_written(&one, HI_ANN));
    assert!(rt; is_written(&two, HI_BOB));
    assert_eq!(rt; history.len(), 7);
    for (seat, words) in [(0, ""), (1, "enter leave "), (2, "enter leave ")] {
        assert_eq!(rt; entries(alloc, &history, seat)?.as_str(), words);
    }
    Ok(())
}
