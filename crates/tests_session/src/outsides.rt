// Outsides in memory, and what `run` makes of them.
ghost use Rattle.std.specs.Prelude.{IfOk, All};
ghost use Rattle.gate_ports.specs.Docks.{IsUnwritten};
ghost use Rattle.outside_core.specs.Held.{IsUnusedLane};

use crate::stores::{Given, HELLO, tables, text};
use backend_core::MemBackend;
use book_rules::Entry;
use gate_ports::{FreeGate, Lane, Means, MemConn, MemPort};
use gateway_cli::{MemOutside, MemStore, run};
use gw_base::{FixedClock, MemSink, MemSource, SplitMix, Text};
use std::alloc::Global;
use std::sync::Wait;
use std::test::Fail;
use std::thread::Threads;

pub(crate) type MemOut = MemOutside<Entry, MemBackend, FreeGate>;

pub(crate) type MemLane = Lane<MemPort, MemBackend, FixedClock, SplitMix, FreeGate>;

/// An outside with the store `a` and two lanes.
#[derive(Clone, Copy)]
pub(crate) struct Plan {
    pub rows: &'static [Given],
    /// Which calls of the outside fail: the first is for the keeper, the next for the lanes.
    pub fails: &'static [u32],
    /// Which calls of its keeper fail: the first is its load.
    pub keeps: &'static [u32],
    /// Which looks at each port fail: the first finds the connection.
    pub looks: &'static [u32],
}

/// The API `hello` with its stage `v1`, and nothing fails.
pub(crate) const PLAIN: Plan = Plan {
    rows: HELLO,
    fails: &[],
    keeps: &[],
    looks: &[],
};

/// A message of 66 bytes.
pub(crate) const ANN: &'static [u8] =
    b"POST /hello/v1 HTTP/1.1\r\nhost: localhost\r\ncontent-length: 3\r\n\r\nAnn";

/// A connection on which these bytes come.
pub(crate) fn conn(alloc: Global, bytes: &[u8]) -> Result<MemConn, Fail>
    ensures { IfOk result IsUnwritten }
{
    let source = MemSource::new(Vec::from_slice(alloc, bytes)?, 4096, Vec::new(alloc));
    let sink = MemSink::new(alloc, Vec::new(alloc));
    Ok(MemConn::new(source, sink))
}

// A lane with one connection, whose looks of these numbers fail.
fn lane(alloc: Global, looks: &[u32]) -> Result<MemLane, Fail>
    ensures { IfOk result IsUnusedLane }
{
    let mut conns = Vec::new(alloc);
    conns.push(conn(alloc, ANN)?)?;
    Ok(Lane {
        port: MemPort::new(conns, Vec::from_slice(alloc, looks)?),
        means: Means {
            backend: MemBackend::new(alloc, Vec::new(alloc)),
            clock: FixedClock { moment: 0 },
            words: SplitMix { state: 0 },
            gate: FreeGate,
        },
    })
}

fn lanes(alloc: Global, looks: &[u32]) -> Result<Vec<MemLane>, Fail>
    ensures { IfOk result (λ lanes. All IsUnusedLane lanes.items) }
{
    let first = lane(alloc, looks)?;
    let second = lane(alloc, looks)?;
    Ok(vec![in alloc; first, second]?)
}

pub(crate) fn outside(alloc: Global, plan: &Plan) -> Result<MemOut, Fail> {
    let store = MemStore::new(
        text(alloc, "a")?,
        tables(alloc, plan.rows)?,
        Vec::from_slice(alloc, plan.keeps)?,
    );
    let stores = vec![in alloc; store]?;
    let lanes = lanes(alloc, plan.looks)?;
    let fails = Vec::from_slice(alloc, plan.fails)?;
    Ok(MemOutside::new(Vec::new(alloc), stores, lanes, fails))
}

fn words(alloc: Global, from: &[&str]) -> Result<Vec<Text>, Fail> {
    let mut words = Vec::new(alloc);
    for word in from {
        words.push(text(alloc, word)?)?;
    }
    Ok(words)
}

/// What these words answer and print with this input, where the writes of these numbers fail.
pub(crate) fn told_with<R: Threads + Wait + Sync>(
    rt: &R,
    alloc: Global,
    from: &[&str],
    input: &mut MemSource,
    outside: &mut MemOut,
    writes: &[u32],
) -> Result<(u8, MemSink), Fail> {
    let mut output = MemSink::new(alloc, Vec::from_slice(alloc, writes)?);
    let words = words(alloc, from)?;
    let status = run(rt, alloc, &words, input, &mut output, outside);
    Ok((status, output))
}

/// What these words answer and print, with an input of which a read would fail.
pub(crate) fn told<R: Threads + Wait + Sync>(
    rt: &R,
    alloc: Global,
    from: &[&str],
    outside: &mut MemOut,
    writes: &[u32],
) -> Result<(u8, MemSink), Fail> {
    let mut input = MemSource::new(Vec::new(alloc), 1, Vec::from_slice(alloc, &[0])?);
    told_with(rt, alloc, from, &mut input, outside, writes)
}
