// Bodies of a known length, and those that go on to the end of the input.
ghost use Rattle.std.specs.Prelude.{◌≡◌, ◌≢◌, ◌≤◌, ◌<◌, ◌+◌, ◌^◌, Err, IfErr, IsErrOf, length};
ghost use Rattle.gw_base.specs.Outside.{Rose};
ghost use Rattle.http_framing.specs.Bodies.{IsKnown};
ghost use Rattle.http_framing.specs.BodyReads.{BodyRead, BytesAwaited, BytesRead, RestAwaited, RestRead};
ghost use Rattle.http_framing.specs.Faults.{CutBelow};
ghost use Rattle.http_framing.specs.Stream.{Over, SameBytes, Takes};

use crate::fault::EdgeFault;
use crate::fill::{Filled, fill};
use crate::read_ahead::ReadAhead;
use gw_base::{Bytes, Source};
use std::alloc::Global;

/// The most bytes of a body.
pub const BODY_LIMIT: u64 = 10_485_760;

/// A body that was read.
#[derive(Drop)]
pub enum Body {
    /// All of it.
    Read(Bytes),
    /// It has more than 10,485,760 bytes, and was not read further.
    PastLimit,
}

// Reads until so many bytes are held.
fn await_bytes<S: Source>(source: &mut S, held: &mut ReadAhead, n: usize) -> Result<(), EdgeFault>
    ensures bytes { BytesAwaited n held.new (S.left source.new) result }
    ensures few { IfErr result (CutBelow (2 ^ 63)) }
    ensures same { result ≢ Err EdgeFault.Memory → SameBytes held.old (S.left source.old) held.new (S.left source.new) }
    ensures taken { Takes (S.left source.old) (S.left source.new) }
    ensures fault { IsErrOf result EdgeFault.ReadFault → Rose (S.faults source.old) (S.faults source.new) }
    ensures later { S.faults source.old ≤ S.faults source.new }
    ensures beside { S.beside source.new ≡ S.beside source.old }
{
    while held.len() < n {
        match fill(source, held) {
            Filled::More => {}
            Filled::End => return Err(EdgeFault::Cut(held.len() as u64)),
            Filled::Fault => return Err(EdgeFault::ReadFault),
            Filled::Memory => return Err(EdgeFault::Memory),
        }
    }
    Ok(())
}

// Reads so many bytes, and uses them.
fn read_bytes<S: Source>(
    alloc: Global,
    source: &mut S,
    held: &mut ReadAhead,
    n: usize,
) -> Result<Bytes, EdgeFault>
    ensures bytes { Over (BytesRead n) held.old (S.left source.old) held.new (S.left source.new) result }
    ensures few { IfErr result (CutBelow (2 ^ 63)) }
    ensures taken { Takes (S.left source.old) (S.left source.new) }
    ensures fault { IsErrOf result EdgeFault.ReadFault → Rose (S.faults source.old) (S.faults source.new) }
    ensures later { S.faults source.old ≤ S.faults source.new }
    ensures beside { S.beside source.new ≡ S.beside source.old }
{
    match await_bytes(source, held, n) {
        Ok(()) => {}
        Err(fault) => return Err(fault),
    }
    let Ok(body) = held.as_slice()[..n].to_vec(alloc) else {
        return Err(EdgeFault::Memory);
    };
    held.skip(n);
    Ok(Bytes::of(body))
}

/// Reads a body of so many bytes, and uses it. One that passes the limit is not read.
pub fn read_known<S: Source>(
    alloc: Global,
    source: &mut S,
    held: &mut ReadAhead,
    n: u64,
) -> Result<Body, EdgeFault>
    ensures body { Over (BodyRead (IsKnown n)) held.old (S.left source.old) held.new (S.left source.new) result }
    ensures few { IfErr result (CutBelow (2 ^ 63)) }
    ensures taken { Takes (S.left source.old) (S.left source.new) }
    ensures fault { IsErrOf result EdgeFault.ReadFault → Rose (S.faults source.old) (S.faults source.new) }
    ensures later { S.faults source.old ≤ S.faults source.new }
    ensures beside { S.beside source.new ≡ S.beside source.old }
{
    if n > BODY_LIMIT {
        return Ok(Body::PastLimit);
    }
    match read_bytes(alloc, source, held, n as usize) {
        Ok(body) => Ok(Body::Read(body)),
        Err(fault) => Err(fault),
    }
}

// Reads until the input ends, or more bytes are held than a body may have.
fn await_end<S: Source>(source: &mut S, held: &mut ReadAhead) -> Result<(), EdgeFault>
    ensures rest { RestAwaited held.new (S.left source.new) result }
    ensures same { result ≢ Err EdgeFault.Memory → SameBytes held.old (S.left source.old) held.new (S.left source.new) }
    ensures taken { Takes (S.left source.old) (S.left source.new) }
    ensures fault { IsErrOf result EdgeFault.ReadFault → Rose (S.faults source.old) (S.faults source.new) }
    ensures later { S.faults source.old ≤ S.faults source.new }
    ensures beside { S.beside source.new ≡ S.beside source.old }
{
    while held.len() as u64 <= BODY_LIMIT {
        match fill(source, held) {
            Filled::More => {}
            Filled::End => return Ok(()),
            Filled::Fault => return Err(EdgeFault::ReadFault),
            Filled::Memory => return Err(EdgeFault::Memory),
        }
    }
    Err(EdgeFault::BadChunk)
}

/// Reads a body that is all up to the end of the input, and uses it. One that passes the limit is `BadChunk`.
pub fn read_rest<S: Source>(
    alloc: Global,
    source: &mut S,
    held: &mut ReadAhead,
) -> Result<Bytes, EdgeFault>
    ensures rest { Over RestRead held.old (S.left source.old) held.new (S.left source.new) result }
    ensures few { IfErr result (CutBelow (2 ^ 63)) }
    ensures taken { Takes (S.left source.old) (S.left source.new) }
    ensures fault { IsErrOf result EdgeFault.ReadFault → Rose (S.faults source.old) (S.faults source.new) }
    ensures later { S.faults source.old ≤ S.faults source.new }
    ensures beside { S.beside source.new ≡ S.beside source.old }
{
    match await_end(source, held) {
        Ok(()) => {}
        Err(fault) => return Err(fault),
    }
    let Ok(body) = held.as_slice().to_vec(alloc) else {
        return Err(EdgeFault::Memory);
    };
    held.skip(body.len());
    Ok(Bytes::of(body))
}
