// The trailers behind the last chunk.
ghost use Rattle.std.specs.Prelude.{◌≡◌, ◌≢◌, ◌≤◌, ◌<◌, ◌^◌, Err, IfErr, IsErrOf, length};
ghost use Rattle.gw_base.specs.Outside.{Rose};
ghost use Rattle.http_framing.specs.Stream.{SameBytes, Takes, Over};
ghost use Rattle.http_framing.specs.Chunks.{trailers_from};
ghost use Rattle.http_framing.specs.ChunkReads.{TrailersTaken, TrailersRead};
ghost use Rattle.http_framing.specs.Faults.{CutBelow};
ghost use Rattle.http_framing.specs.declared.trailers.Spot.TheVariants.{Fresh};

use crate::fault::EdgeFault;
use crate::fill::{Filled, fill_line};
use crate::read_ahead::ReadAhead;
use gw_base::Source;

// The most bytes of trailers.
const TRAILER_LIMIT: usize = 10_240;

// Where a byte of the trailers stands: at a line's beginning, behind a CR there, or further on.
#[derive(Clone, Copy, Debug, PartialEq, Eq)]
pub enum Spot {
    Fresh,
    Returned,
    Inside,
}

// The length of trailers with their empty line.
fn trailers_of(bytes: &[u8]) -> Option<usize>
    ensures { result ≡ trailers_from 0 Fresh bytes.now }
{
    let mut spot = Spot::Fresh;
    for (at, byte) in bytes.iter().enumerate() {
        let b = *byte;
        match spot {
            Spot::Fresh => {
                if b == 10 {
                    return Some(at + 1);
                }
                spot = if b == 13 {
                    Spot::Returned
                } else {
                    Spot::Inside
                };
            }
            Spot::Returned => {
                if b == 10 {
                    return Some(at + 1);
                }
                spot = Spot::Inside;
            }
            Spot::Inside => {
                if b == 10 {
                    spot = Spot::Fresh;
                }
            }
        }
    }
    None
}

// Reads until trailers stand at the front of what is held.
fn await_trailers<S: Source>(source: &mut S, held: &mut ReadAhead) -> Result<usize, EdgeFault>
    ensures trailers { TrailersTaken held.new (S.left source.new) result }
    ensures few { IfErr result (CutBelow (2 ^ 63)) }
    ensures taken { Takes (S.left source.old) (S.left source.new) }
    ensures same { result ≢ Err EdgeFault.Memory → SameBytes held.old (S.left source.old) held.new (S.left source.new) }
    ensures fault { IsErrOf result EdgeFault.ReadFault → Rose (S.faults source.old) (S.faults source.new) }
    ensures later { S.faults source.old ≤ S.faults source.new }
    ensures beside { S.beside source.new ≡ S.beside source.old }
{
    let mut filled = Filled::More;
    loop {
        if let Some(n) = trailers_of(held.first(TRAILER_LIMIT)) {
            return Ok(n);
        }
        if held.len() >= TRAILER_LIMIT {
            return Err(EdgeFault::HeadTooLong);
        }
        match filled {
            Filled::More => {}
            Filled::End => return Err(EdgeFault::Cut(held.len() as u64)),
            Filled::Fault => return Err(EdgeFault::ReadFault),
            Filled::Memory => return Err(EdgeFault::Memory),
        }
        filled = fill_line(source, held, TRAILER_LIMIT);
        if let Filled::Memory = filled {
            return Err(EdgeFault::Memory);
        }
    }
}

/// Reads trailers, and uses them.
pub fn read_trailers<S: Source>(source: &mut S, held: &mut ReadAhead) -> Result<(), EdgeFault>
    ensures trailers { Over TrailersRead held.old (S.left source.old) held.new (S.left source.new) result }
    ensures few { IfErr result (CutBelow (2 ^ 63)) }
    ensures taken { Takes (S.left source.old) (S.left source.new) }
    ensures fault { IsErrOf result EdgeFault.ReadFault → Rose (S.faults source.old) (S.faults source.new) }
    ensures later { S.faults source.old ≤ S.faults source.new }
    ensures beside { S.beside source.new ≡ S.beside source.old }
{
    match await_trailers(source, held) {
        Ok(n) => {
            held.skip(n);
            Ok(())
        }
        Err(fault) => Err(fault),
    }
}
