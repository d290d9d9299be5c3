// A chunked body.
ghost use Rattle.std.specs.Prelude.{◌≡◌, ◌≢◌, ◌≤◌, ◌<◌, ◌+◌, ◌^◌, ◌++◌, ℕ, Some, None, Ok, Err, IfOk, IfSome, IfErr, IsErrOf, OnOk, OnErr, length, take, drop};
ghost use Rattle.gw_base.specs.Outside.{Rose};
ghost use Rattle.http_framing.specs.Stream.{SameBytes, Takes, Over};
ghost use Rattle.http_framing.specs.Bodies.{IsChunked};
ghost use Rattle.http_framing.specs.BodyReads.{BodyRead};
ghost use Rattle.http_framing.specs.ChunkReads.{ChunkRead, Adds};
ghost use Rattle.http_framing.specs.Faults.{CutBelow};

use crate::body::{BODY_LIMIT, Body};
use crate::chunk::{read_data, read_line};
use crate::fault::EdgeFault;
use crate::read_ahead::ReadAhead;
use crate::trailers::read_trailers;
use gw_base::{Bytes, Source};
use std::alloc::Global;

// What a chunk that was read is: one of so many bytes behind which others come, the last, or one that passes the limit
// of a body.
#[derive(Clone, Copy, Debug, PartialEq, Eq)]
enum Step {
    More(u64),
    Last,
    TooLarge,
}

// Reads a chunk, and adds its data to the body.
fn read_chunk<S: Source>(
    source: &mut S,
    held: &mut ReadAhead,
    body: &mut Vec<u8>,
) -> Result<Step, EdgeFault>
    requires { length body.old.items ≤ 10485760 }
    ensures chunk { Over (ChunkRead body.old.items body.new.items) held.old (S.left source.old) held.new (S.left source.new) result }
    ensures adds { IfOk result (Adds (length body.old.items) (length body.new.items)) }
    ensures few { IfErr result (CutBelow (2 ^ 63 + 1024)) }
    ensures taken { Takes (S.left source.old) (S.left source.new) }
    ensures fault { IsErrOf result EdgeFault.ReadFault → Rose (S.faults source.old) (S.faults source.new) }
    ensures later { S.faults source.old ≤ S.faults source.new }
    ensures beside { S.beside source.new ≡ S.beside source.old }
{
    let line = match read_line(source, held) {
        Ok(line) => line,
        Err(fault) => return Err(fault),
    };
    if line.size == 0 {
        return match read_trailers(source, held) {
            Ok(()) => Ok(Step::Last),
            Err(fault) => Err(fault.shifted(line.len as u64)),
        };
    }
    if line.size > BODY_LIMIT - body.len() as u64 {
        return Ok(Step::TooLarge);
    }
    match read_data(source, held, line.size as usize, body) {
        Ok(()) => Ok(Step::More(line.len as u64 + line.size + 2)),
        Err(fault) => Err(fault.shifted(line.len as u64)),
    }
}

/// Reads a body in chunks, and uses it. Where a chunk line says that the chunks pass the limit of a body, it stops behind
/// that line.
pub fn read_chunked<S: Source>(
    alloc: Global,
    source: &mut S,
    held: &mut ReadAhead,
) -> Result<Body, EdgeFault>
    ensures body { Over (BodyRead IsChunked) held.old (S.left source.old) held.new (S.left source.new) result }
    ensures few { IfErr result (CutBelow (2 ^ 63 + 2 ^ 40)) }
    ensures taken { Takes (S.left source.old) (S.left source.new) }
    ensures fault { IsErrOf result EdgeFault.ReadFault → Rose (S.faults source.old) (S.faults source.new) }
    ensures later { S.faults source.old ≤ S.faults source.new }
    ensures beside { S.beside source.new ≡ S.beside source.old }
{
    let mut body = Vec::new(alloc);
    let mut gone = 0;
    loop {
        match read_chunk(source, held, &mut body) {
            Ok(Step::More(n)) => gone += n,
            Ok(Step::Last) => return Ok(Body::Read(Bytes::of(body))),
            Ok(Step::TooLarge) => return Ok(Body::PastLimit),
            Err(fault) => return Err(fault.shifted(gone)),
        }
    }
}
