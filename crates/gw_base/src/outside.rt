// What the program reads from and writes to, each with a count of its faults.
ghost use Rattle.std.specs.Prelude.{◌≡◌, ◌≤◌, ◌<◌, List, ℕ, Option, length, IfOk, IsOk};
ghost use Rattle.std.specs.Io.KnownBytes.{ReadConsumes, WriteAppends};
ghost use Rattle.gw_base.specs.Outside.{HasCause, HasWriteCause};
ghost use Rattle.gw_base.specs.declared.outside.WriteStop.TheVariants.{Memory as no_memory};

use std::alloc::{AllocError, AllocFailed};

/// Want of memory: the one answer that has no cause.
#[derive(Clone, Copy, Debug, PartialEq, Eq)]
pub struct Memory;

impl From<AllocError> for Memory {
    fn from(_: AllocError) -> Self {
        Memory
    }
}

impl<T: Drop> From<AllocFailed<T>> for Memory {
    fn from(_: AllocFailed<T>) -> Self {
        Memory
    }
}

/// A fault of the outside, which its count tells.
#[derive(Clone, Copy, Debug, PartialEq, Eq)]
pub struct Failed;

/// Why nothing of a piece was written.
#[derive(Clone, Copy, Debug, PartialEq, Eq)]
pub enum WriteStop {
    /// The write failed: the count of the sink's faults rose.
    Failed,
    /// Memory is wanting.
    Memory,
}

impl From<Memory> for WriteStop {
    ghost from_gives = { λ _ e. e ≡ no_memory };

    fn from(_: Memory) -> Self {
        WriteStop::Memory
    }
}

/// Bytes that come in.
pub trait Source {
    /// The bytes that are left, where it tells them.
    ghost left: { Self → Option (List ℕ) };

    /// How often a read has failed, up to the count's greatest value.
    ghost faults: { Self → ℕ };

    /// What a read leaves as it is: where the source is a sink too, what was written and its count of faults.
    ghost beside: { Self → Option (List ℕ) × ℕ };

    /// Takes bytes into the front of the buffer: at least one, but at the end, where it answers `Ok(0)`. A read that
    /// fails takes none.
    fn read(&mut self, buf: &mut [u8]) -> Result<usize, Failed>
        requires { 0 < length buf.old }
        ensures bound { IfOk result (λ n. n ≤ length buf.new) }
        ensures bytes { ReadConsumes (left self.old) (left self.new) result buf.new }
        ensures cause { HasCause (faults self.old) (faults self.new) result }
        ensures beside { beside self.new ≡ beside self.old };
}

/// Bytes that go out.
pub trait Sink {
    /// The bytes that were written, where it tells them.
    ghost written: { Self → Option (List ℕ) };

    /// How often a write has failed, up to the count's greatest value.
    ghost faults: { Self → ℕ };

    /// What a write leaves as it is: where the sink is a source too, what is left to read and its count of faults.
    ghost beside: { Self → Option (List ℕ) × ℕ };

    /// Takes at least one byte from the front of the piece, and answers how many. On a refusal it took none.
    fn write(&mut self, piece: &[u8]) -> Result<usize, WriteStop>
        requires { 0 < length piece.now }
        ensures bound { IfOk result (λ n. n ≤ length piece.now) }
        ensures some { IfOk result (λ n. 0 < n) }
        ensures bytes { WriteAppends (written self.old) (written self.new) result piece.now }
        ensures cause { HasWriteCause (faults self.old) (faults self.new) result }
        ensures beside { beside self.new ≡ beside self.old };
}
