// A session over two lanes.
use crate::outsides::{MemOut, PLAIN, outside, told};
use std::alloc::Global;
use std::sync::Wait;
use std::test::Fail;
use std::thread::Threads;

pub(crate) const HI_ANN: &'static [u8] =
    b"HTTP/1.1 200 OK\r\ncontent-type: text/plain\r\ncontent-length: 7\r\n\r\nHi Ann!";

// The outside behind a session over both of its lanes.
fn served<R: Threads + Wait + Sync>(rt: &R, alloc: Global) -> Result<MemOut, Fail> {
    let mut outside = outside(alloc, &PLAIN)?;
    let (status, _) = told(rt, alloc, &["serve", "a", "8080", "2"], &mut outside, &[])?;
    match status {
        0 => Ok(outside),
        _ => Err(Fail::new("the session was not served")),
    }
}

#[test]
fn both_lanes_are_answered(rt: HostRuntime) -> Result<(), Fail> {
    let outside = served(&rt, rt.alloc())?;
    assert_eq!(rt; outside.lanes_returned().len(), 2);
    for lane in outside.lanes_returned() {
        assert_eq!(rt; lane.port.served().len(), 1);
        assert_eq!(rt; lane.port.served()[0].written(), HI_ANN);
    }
    Ok(())
}

#[test]
fn the_history_is_handed_on(rt: HostRuntime) -> Result<(), Fail> {
    let outside = served(&rt, rt.alloc())?;
    assert_eq!(rt; outside.sessions().len(), 1);
    for seat in [1, 2] {
        let entries = outside.sessions()[0].as_slice().iter();
        assert_eq!(rt; entries.filter(|entry| entry.seat == seat).count(), 2);
    }
    Ok(())
}

#[test]
fn the_store_is_given_back(rt: HostRuntime) -> Result<(), Fail> {
    let outside = served(&rt, rt.alloc())?;
    let stands = outside
        .tables("a")
        .is_some_and(|tables| tables.stage("hello", "v1").is_some());
    assert!(rt; stands);
    assert_eq!(rt; outside.failures(), 0);
    Ok(())
}
