// One more read.
ghost use Rattle.std.specs.Prelude.{◌≡◌, ◌≤◌, ◌<◌, ◌==◌, length, drop};
ghost use Rattle.std.specs.List.{list_any};
ghost use Rattle.gw_base.specs.Outside.{Rose};
ghost use Rattle.http_framing.specs.Stream.{Fills, FillsOn, HasCome, Takes};

use crate::read_ahead::ReadAhead;
use gw_base::Source;

// The most bytes that are asked for at a time.
const CHUNK: usize = 4096;

// The same where a head is awaited, which is short: the room for a read is cleared first.
const HEAD_CHUNK: usize = 2048;

/// What a read came to.
#[derive(Clone, Copy, Debug, PartialEq, Eq)]
pub enum Filled {
    /// Some bytes came.
    More,
    /// The input has ended.
    End,
    /// The read failed.
    Fault,
    /// Memory is wanting.
    Memory,
}

// Takes at least one byte more, but at the end, by one read into this piece.
#[tactic(auto, using(crate::proofs::Overs::takes_consumed, crate::proofs::Overs::takes_kept))]
fn fill_by<S: Source>(source: &mut S, held: &mut ReadAhead, piece: &mut [u8]) -> Filled
    requires { 0 < length piece.old }
    ensures bytes { Fills held.old (S.left source.old) held.new (S.left source.new) result }
    ensures taken { Takes (S.left source.old) (S.left source.new) }
    ensures fault { result ≡ Filled.Fault → Rose (S.faults source.old) (S.faults source.new) }
    ensures later { S.faults source.old ≤ S.faults source.new }
    ensures beside { S.beside source.new ≡ S.beside source.old }
{
    let Ok(n) = source.read(piece) else {
        return Filled::Fault;
    };
    if n == 0 {
        return Filled::End;
    }
    match held.extend(&piece[..n]) {
        Ok(()) => Filled::More,
        Err(_) => Filled::Memory,
    }
}

/// Takes at least one byte more, but at the end.
pub fn fill<S: Source>(source: &mut S, held: &mut ReadAhead) -> Filled
    ensures bytes { Fills held.old (S.left source.old) held.new (S.left source.new) result }
    ensures taken { Takes (S.left source.old) (S.left source.new) }
    ensures fault { result ≡ Filled.Fault → Rose (S.faults source.old) (S.faults source.new) }
    ensures later { S.faults source.old ≤ S.faults source.new }
    ensures beside { S.beside source.new ≡ S.beside source.old }
{
    fill_by(source, held, &mut [0u8; CHUNK])
}

// Whether a line feed is among the bytes from this place on.
fn has_line_feed(bytes: &[u8], from: usize) -> bool
    requires { from ≤ length bytes.now }
    ensures { result ≡ list_any (λ b. b == 10) (drop from bytes.now) }
{
    bytes[from..].contains(&b'\n')
}

/// Reads until a line feed came, or so many bytes are held.
pub fn fill_line<S: Source>(source: &mut S, held: &mut ReadAhead, limit: usize) -> Filled
    ensures bytes { FillsOn held.old (S.left source.old) held.new (S.left source.new) result }

    // More is answered only where a line ended among the bytes that came, or the limit is reached.
    ensures seen { result ≡ Filled.More → HasCome limit held.old held.new }
    ensures taken { Takes (S.left source.old) (S.left source.new) }
    ensures fault { result ≡ Filled.Fault → Rose (S.faults source.old) (S.faults source.new) }
    ensures later { S.faults source.old ≤ S.faults source.new }
    ensures beside { S.beside source.new ≡ S.beside source.old }
{
    loop {
        let at = held.len();
        match fill_by(source, held, &mut [0u8; HEAD_CHUNK]) {
            Filled::More => {}
            Filled::End => return Filled::End,
            Filled::Fault => return Filled::Fault,
            Filled::Memory => return Filled::Memory,
        }
        if held.len() >= limit || has_line_feed(held.as_slice(), at) {
            return Filled::More;
        }
    }
}
