// The lines of chunks, and their data.
ghost use Rattle.std.specs.Prelude.{◌≡◌, ◌≢◌, ◌≤◌, ◌<◌, ◌+◌, ◌^◌, ◌++◌, ℕ, Some, None, Ok, Err, IfOk, IfSome, IfErr, IsErrOf, OnOk, OnErr, length, take, drop};
ghost use Rattle.gw_base.specs.Outside.{Rose};
ghost use Rattle.http_framing.specs.Stream.{SameBytes, Takes, Over};
ghost use Rattle.http_framing.specs.Chunks.{closing};
ghost use Rattle.http_framing.specs.ChunkReads.{LineTaken, LineRead, DataTaken, DataRead};
ghost use Rattle.http_framing.specs.Faults.{CutBelow};

use crate::fault::EdgeFault;
use crate::fill::{Filled, fill, fill_line};
use crate::read_ahead::ReadAhead;
use gw_base::Source;
use httparse::{Status, parse_chunk_size};

// The most bytes of a chunk line.
const LINE_LIMIT: usize = 1024;

// What stands behind a chunk's data: CR LF, less than that, or something else.
#[derive(Clone, Copy, Debug, PartialEq, Eq)]
pub enum Closing {
    There,
    Awaited,
    Wrong,
}

// A chunk line: the size that it gives, and its own length.
#[derive(Clone, Copy, Debug, PartialEq, Eq)]
pub struct SizeLine {
    pub size: u64,
    pub len: usize,
}

fn closing_of(bytes: &[u8]) -> Closing
    ensures { result ≡ closing bytes.now }
{
    match bytes {
        [] => Closing::Awaited,
        [b] => {
            if *b == 13 {
                Closing::Awaited
            } else {
                Closing::Wrong
            }
        }
        [b, c, ..] => {
            if *b == 13 && *c == 10 {
                Closing::There
            } else {
                Closing::Wrong
            }
        }
    }
}

// The bytes behind the first n.
fn behind(bytes: &[u8], n: usize) -> &[u8]
    ensures { result.now ≡ drop n bytes.now }
{
    if bytes.len() < n { &[] } else { &bytes[n..] }
}

// Reads until a chunk line stands at the front of what is held.
fn await_line<S: Source>(source: &mut S, held: &mut ReadAhead) -> Result<SizeLine, EdgeFault>
    ensures line { LineTaken held.new (S.left source.new) result }
    ensures few { IfErr result (CutBelow (2 ^ 63)) }
    ensures taken { Takes (S.left source.old) (S.left source.new) }
    ensures same { result ≢ Err EdgeFault.Memory → SameBytes held.old (S.left source.old) held.new (S.left source.new) }
    ensures fault { IsErrOf result EdgeFault.ReadFault → Rose (S.faults source.old) (S.faults source.new) }
    ensures later { S.faults source.old ≤ S.faults source.new }
    ensures beside { S.beside source.new ≡ S.beside source.old }
{
    let mut filled = Filled::More;
    loop {
        match parse_chunk_size(held.first(LINE_LIMIT)) {
            Ok(Status::Complete((len, size))) => return Ok(SizeLine { size, len }),
            Ok(Status::Partial) => {}
            Err(_) => return Err(EdgeFault::BadChunk),
        }
        if held.len() >= LINE_LIMIT {
            return Err(EdgeFault::BadChunk);
        }
        match filled {
            Filled::More => {}
            Filled::End => return Err(EdgeFault::Cut(held.len() as u64)),
            Filled::Fault => return Err(EdgeFault::ReadFault),
            Filled::Memory => return Err(EdgeFault::Memory),
        }
        filled = fill_line(source, held, LINE_LIMIT);
        if let Filled::Memory = filled {
            return Err(EdgeFault::Memory);
        }
    }
}

// Reads until it is seen what stands behind a chunk's data.
fn await_data<S: Source>(source: &mut S, held: &mut ReadAhead, n: usize) -> Result<(), EdgeFault>
    ensures data { DataTaken n held.new (S.left source.new) result }
    ensures few { IfErr result (CutBelow (2 ^ 63)) }
    ensures taken { Takes (S.left source.old) (S.left source.new) }
    ensures same { result ≢ Err EdgeFault.Memory → SameBytes held.old (S.left source.old) held.new (S.left source.new) }
    ensures fault { IsErrOf result EdgeFault.ReadFault → Rose (S.faults source.old) (S.faults source.new) }
    ensures later { S.faults source.old ≤ S.faults source.new }
    ensures beside { S.beside source.new ≡ S.beside source.old }
{
    loop {
        match closing_of(behind(held.as_slice(), n)) {
            Closing::There => return Ok(()),
            Closing::Wrong => return Err(EdgeFault::BadChunk),
            Closing::Awaited => {}
        }
        match fill(source, held) {
            Filled::More => {}
            Filled::End => return Err(EdgeFault::Cut(held.len() as u64)),
            Filled::Fault => return Err(EdgeFault::ReadFault),
            Filled::Memory => return Err(EdgeFault::Memory),
        }
    }
}

/// Reads a chunk line, and uses it.
pub fn read_line<S: Source>(source: &mut S, held: &mut ReadAhead) -> Result<SizeLine, EdgeFault>
    ensures line { Over LineRead held.old (S.left source.old) held.new (S.left source.new) result }
    ensures short { IfOk result (λ s. s.len ≤ 1024) }
    ensures few { IfErr result (CutBelow (2 ^ 63)) }
    ensures taken { Takes (S.left source.old) (S.left source.new) }
    ensures fault { IsErrOf result EdgeFault.ReadFault → Rose (S.faults source.old) (S.faults source.new) }
    ensures later { S.faults source.old ≤ S.faults source.new }
    ensures beside { S.beside source.new ≡ S.beside source.old }
{
    match await_line(source, held) {
        Ok(line) => {
            held.skip(line.len);
            Ok(line)
        }
        Err(fault) => Err(fault),
    }
}

/// Reads a chunk's data with the line end behind it, and adds it to the body.
pub fn read_data<S: Source>(
    source: &mut S,
    held: &mut ReadAhead,
    n: usize,
    body: &mut Vec<u8>,
) -> Result<(), EdgeFault>
    ensures data { Over (DataRead n body.old.items body.new.items) held.old (S.left source.old) held.new (S.left source.new) result }
    ensures grown { OnOk result (length body.new.items ≡ length body.old.items + n) }
    ensures few { IfErr result (CutBelow (2 ^ 63)) }
    ensures taken { Takes (S.left source.old) (S.left source.new) }
    ensures fault { IsErrOf result EdgeFault.ReadFault → Rose (S.faults source.old) (S.faults source.new) }
    ensures later { S.faults source.old ≤ S.faults source.new }
    ensures beside { S.beside source.new ≡ S.beside source.old }
{
    match await_data(source, held, n) {
        Ok(()) => {}
        Err(fault) => return Err(fault),
    }
    if body.extend_from_slice(&held.as_slice()[..n]).is_err() {
        return Err(EdgeFault::Memory);
    }
    held.skip(n + 2);
    Ok(())
}
