// Reading a source to its end, and writing all of some bytes.
ghost use Rattle.std.specs.Prelude.{◌≡◌, ◌≢◌, ◌≤◌, ◌<◌, ◌-◌, Err, List, ℕ, length, IfOk, IfSome, OnOk, OnErr, IsErrOf, Some};
ghost use Rattle.std.specs.Io.KnownBytes.{Appends, IsAtEnd};
ghost use Rattle.gw_base.specs.declared.outside.WriteStop.TheVariants.{Memory as memory_stop};
ghost use Rattle.gw_base.specs.declared.whole.ReadAll.TheVariants.{Memory as no_memory};
ghost use Rattle.gw_base.specs.Outside.{Rose, HasWriteCause};
ghost use Rattle.gw_base.specs.Whole.{AppendsFront};

use crate::outside::{Sink, Source, WriteStop};
use std::alloc::{AllocError, AllocFailed, Global};

/// Why a source was not read to its end.
#[derive(Clone, Copy, Debug, PartialEq, Eq)]
pub enum ReadAll {
    /// More bytes stand than the limit.
    TooLong,
    /// A read failed: the count of the source's faults rose.
    Fault,
    /// Memory is wanting.
    Memory,
}

impl From<AllocError> for ReadAll {
    ghost from_gives = { λ _ e. e ≡ no_memory };

    fn from(_: AllocError) -> Self {
        ReadAll::Memory
    }
}

/// The most bytes that are asked for at a time.
const CHUNK: usize = 4096;

/// The whole input, to its end, where it is at most `limit` bytes long.
pub fn read_all<S: Source>(alloc: Global, source: &mut S, limit: usize) -> Result<Vec<u8>, ReadAll>
    ensures whole { IfOk result (λ v. IfSome (S.left source.old) (λ bytes. v.items ≡ bytes)) }
    ensures end { OnOk result (IsAtEnd (S.left source.new)) }

    // TooLong comes exactly where more than `limit` bytes stand, and no read failed before.
    ensures within { IfOk result (λ v. length v.items ≤ limit) }
    ensures too_long { IsErrOf result ReadAll.TooLong → IfSome (S.left source.old) (λ bytes. limit < length bytes) }
    ensures fault { IsErrOf result ReadAll.Fault → Rose (S.faults source.old) (S.faults source.new) }
    ensures later { S.faults source.old ≤ S.faults source.new }

    // The count of faults rises in no other case.
    ensures kept { (result ≢ Err ReadAll.Fault) → S.faults source.new ≡ S.faults source.old }
    ensures beside { S.beside source.new ≡ S.beside source.old }
{
    let mut out = Vec::new(alloc);
    let mut buf = [0u8; CHUNK];
    for _ in 0..u64::MAX {
        let Ok(n) = source.read(&mut buf) else {
            return Err(ReadAll::Fault);
        };
        if n == 0 {
            return Ok(out);
        }
        if n > limit - out.len() {
            return Err(ReadAll::TooLong);
        }
        out.extend_from_slice(&buf[..n])?;
    }
    // Each turn took a byte, and a `Vec` has fewer than 2^63.
    unreachable!()
}

/// Writes all of the bytes, or a front of them where a write is refused.
pub fn write_all<K: Sink>(sink: &mut K, bytes: &[u8]) -> Result<(), WriteStop>
    ensures all { OnOk result (Appends (K.written sink.old) (K.written sink.new) bytes.now) }
    ensures front { AppendsFront (K.written sink.old) (K.written sink.new) bytes.now }
    ensures cause { HasWriteCause (K.faults sink.old) (K.faults sink.new) result }
    ensures beside { K.beside sink.new ≡ K.beside sink.old }
{
    let mut rest = bytes;
    while !rest.is_empty() {
        let n = sink.write(rest)?;
        rest = &rest[n..];
    }
    Ok(())
}
