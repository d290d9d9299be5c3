// Two lanes of the command `serve` that meet before their exchanges.
use crate::lanes::{Meeting, are_answered, have_met, lanes};
use crate::pets::{pets, text};
use backend_core::MemBackend;
use book_rules::Entry;
use gateway_cli::{MemOutside, MemStore, run};
use gw_base::{MemSink, MemSource, Text};
use std::alloc::Global;
use std::sync::{Barrier, Wait};
use std::test::Fail;
use std::thread::Threads;

const SESSION: &'static [u8] =
    b"session entries=4 calls=2 admitted=0 throttled=0 quota=0 notkept=0\n";

type MeetingOut<'a, R> = MemOutside<Entry, MemBackend, Meeting<'a, R>>;

// An outside with the store `a`, which has the API, and two lanes that meet.
fn outside<'a, R>(rt: &'a R, alloc: Global, here: &'a Barrier) -> Result<MeetingOut<'a, R>, Fail> {
    let store = MemStore::new(text(alloc, "a")?, pets(alloc)?, Vec::new(alloc));
    let stores = vec![in alloc; store]?;
    let lanes = lanes(rt, alloc, here)?;
    Ok(MemOutside::new(Vec::new(alloc), stores, lanes, Vec::new(alloc)))
}

fn words(alloc: Global) -> Result<Vec<Text>, Fail> {
    let mut words = Vec::new(alloc);
    for word in ["serve", "a", "8080", "2"] {
        words.push(text(alloc, word)?)?;
    }
    Ok(words)
}

// What the two lanes print and answer, served by the command.
fn served<R: Threads + Wait + Sync>(
    rt: &R,
    alloc: Global,
    outside: &mut MeetingOut<R>,
) -> Result<(u8, MemSink), Fail> {
    let mut input = MemSource::new(Vec::new(alloc), 1, Vec::new(alloc));
    let mut output = MemSink::new(alloc, Vec::new(alloc));
    let words = words(alloc)?;
    let status = run(rt, alloc, &words, &mut input, &mut output, outside);
    Ok((status, output))
}

#[test]
fn lanes_of_the_command_meet_before_their_exchanges(rt: HostRuntime) -> Result<(), Fail> {
    let alloc = rt.alloc();
    let here = Barrier::new(2);
    let mut outside = outside(&rt, alloc, &here)?;
    let (status, output) = served(&rt, alloc, &mut outside)?;
    assert_eq!(rt; output.bytes(), SESSION);
    assert_eq!(rt; status, 0);
    assert!(rt; are_answered(outside.lanes_returned()));
    assert!(rt; matches!(outside.sessions(), [history] if have_met(history.as_slice())));
    Ok(())
}
