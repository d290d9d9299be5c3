// Each read and each write of a connection failing once.
ghost use Rattle.std.specs.Prelude.{◌≡◌, Some, refl};

use crate::said::{ANN, BOB, HI_ANN, HI_BOB, NO_HEAD};
use crate::sessions::{OPEN, conn, entries, is_served_so, joined, serve};
use gate_ports::{Conn, MemConn};
use gate_walk::Ended;
use gw_base::{Failed, Sink, Source, WriteStop};
use std::alloc::Global;
use std::sync::Wait;
use std::test::Fail;

/// What is written before each of seven reads of two messages, and the entries: a message takes three reads of 22 bytes.
const BEFORE: &'static [(&'static [&'static [u8]], &'static str)] = &[
    (&[], ""),
    (&[], ""),
    (&[], ""),
    (&[HI_ANN], "enter leave "),
    (&[HI_ANN], "enter leave "),
    (&[HI_ANN], "enter leave "),
    (&[HI_ANN, HI_BOB], "enter leave enter leave "),
];

// Whether two messages end by a failed read of this number, with what was written before it.
fn ends_before<R: Wait>(
    rt: &R,
    alloc: Global,
    read: u32,
    written: &[&[u8]],
    words: &str,
) -> Result<bool, Fail> {
    let bytes = joined(alloc, &[ANN, BOB])?;
    let mut conn = conn(alloc, &bytes, 22, &[read], &[])?;
    let served = serve(rt, alloc, &OPEN, &mut conn)?;
    is_served_so(alloc, &served, &conn, written, Ended::ReadFault, words)
}

#[test]
fn a_failed_read_ends_behind_whole_answers(rt: HostRuntime) -> Result<(), Fail> {
    let alloc = rt.alloc();
    for (read, (written, words)) in BEFORE.iter().enumerate() {
        assert!(rt;
            ends_before(&rt, alloc, read as u32, written, words)?,
            "read {read}"
        );
    }
    Ok(())
}

// The input's end takes one read, and no more is made.
#[test]
fn no_read_follows_the_end(rt: HostRuntime) -> Result<(), Fail> {
    let alloc = rt.alloc();
    let bytes = joined(alloc, &[ANN, BOB])?;
    let mut conn = conn(alloc, &bytes, 22, &[7], &[])?;
    let served = serve(&rt, alloc, &OPEN, &mut conn)?;
    assert_eq!(rt; served.ended, Ended::Closed);
    assert_eq!(rt;
        conn.written(),
        joined(alloc, &[HI_ANN, HI_BOB])?.as_slice()
    );
    Ok(())
}

/// The most bytes of a write.
const WIDTH: usize = 16;

/// A connection in memory, a write on which takes few bytes.
#[derive(Drop)]
struct Narrow {
    conn: MemConn,
}

impl Source for Narrow {
    ghost left = { λ c. Some c.conn.source.left };

    ghost faults = { λ c. c.conn.source.faults };

    ghost beside = { λ c. (Some c.conn.sink.written, c.conn.sink.faults) };

    fn read(&mut self, buf: &mut [u8]) -> Result<usize, Failed> {
        self.conn.read(buf)
    }
}

impl Sink for Narrow {
    ghost written = { λ c. Some c.conn.sink.written };

    ghost faults = { λ c. c.conn.sink.faults };

    ghost beside = { λ c. (Some c.conn.source.left, c.conn.source.faults) };

    fn write(&mut self, piece: &[u8]) -> Result<usize, WriteStop> {
        let most = piece.len().min(WIDTH);
        self.conn.write(&piece[..most])
    }
}

impl Conn for Narrow {
    ghost reads_beside = { λ _. refl };

    ghost writes_beside = { λ _. refl };

    fn begin_message(&mut self, _held: &[u8]) {}
}

// What is written before each of ten writes: an answer of 71 bytes takes five.
const WRITTEN: &'static [usize] = &[0, 16, 32, 48, 64, 71, 87, 103, 119, 135];

// How many bytes of both answers are written where the write of this number fails, and how many entries the session has.
fn written_before<R: Wait>(rt: &R, alloc: Global, write: u32) -> Result<(usize, usize), Fail> {
    let bytes = joined(alloc, &[ANN, BOB])?;
    let both = joined(alloc, &[HI_ANN, HI_BOB])?;
    let conn = conn(alloc, &bytes, 4096, &[], &[write])?;
    let mut narrow = Narrow { conn };
    let served = serve(rt, alloc, &OPEN, &mut narrow)?;
    let written = narrow.conn.written();
    if served.ended != Ended::WriteFault || !both.starts_with(written) {
        return Err(Fail::new("the connection does not end within its answers"));
    }
    Ok((written.len(), served.history.len()))
}

// A message has left before the first write of its answer.
#[test]
fn a_failed_write_ends_within_the_answer(rt: HostRuntime) -> Result<(), Fail> {
    let alloc = rt.alloc();
    for (write, written) in WRITTEN.iter().enumerate() {
        let entries = if write < 5 { 5 } else { 7 };
        assert_eq!(rt;
            written_before(&rt, alloc, write as u32)?,
            (*written, entries)
        );
    }
    Ok(())
}

#[test]
fn a_failed_write_at_the_edge_ends_so(rt: HostRuntime) -> Result<(), Fail> {
    let alloc = rt.alloc();
    let mut conn = conn(alloc, NO_HEAD, 4096, &[], &[0])?;
    let served = serve(&rt, alloc, &OPEN, &mut conn)?;
    assert_eq!(rt; served.ended, Ended::WriteFault);
    assert_eq!(rt; conn.written(), b"".as_slice());
    assert_eq!(rt; entries(alloc, &served.history, 0)?.as_str(), "");
    Ok(())
}
