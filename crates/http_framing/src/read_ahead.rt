// The bytes that were taken from a source and are not yet used.
ghost use Rattle.std.specs.Prelude.{◌≡◌, ◌≤◌, ◌<◌, ◌^◌, ◌++◌, [], length, take, drop, OnOk, OnErr};

use gw_base::Memory;
use std::alloc::Global;
use std::marker::Model;

/// Bytes in a row, seen as those that are not yet used. Using some of them moves none.
#[derive(Drop)]
pub struct ReadAhead {
    bytes: Vec<u8>,
    at: usize,
}

impl Model for ReadAhead {
    ghost use Rattle.std.specs.Prelude.{◌≤◌, ℕ, List, length, drop};

    ghost Value = { List ℕ };

    ghost view = { λ h. drop h.at h.bytes.items };

    ghost invariant = { λ h. h.at ≤ length h.bytes.items };
}

// Drops the first bytes, and moves the others down.
fn drop_front(bytes: &mut Vec<u8>, n: usize)
    requires { n ≤ length bytes.old.items }
    ensures { bytes.new.items ≡ drop n bytes.old.items }
{
    if n == 0 {
        return;
    }
    let len = bytes.len() - n;
    bytes.copy_within(n.., 0);
    bytes.truncate(len);
}

impl ReadAhead {
    /// No bytes, without memory.
    pub fn new(alloc: Global) -> Self
        ensures { result ≡ [] }
    {
        ReadAhead {
            bytes: Vec::new(alloc),
            at: 0,
        }
    }

    /// The bytes, lent.
    pub fn as_slice(&self) -> &[u8]
        ensures { result.now ≡ self.now }
    {
        &self.bytes[self.at..]
    }

    /// The first so many bytes, or all where there are fewer.
    pub fn first(&self, limit: usize) -> &[u8]
        ensures { result.now ≡ take limit self.now }
    {
        let bytes = self.as_slice();
        if bytes.len() < limit {
            bytes
        } else {
            &bytes[..limit]
        }
    }

    /// How many bytes are held.
    pub fn len(&self) -> usize
        ensures len { result ≡ length self.now }
        ensures bound { result < 2 ^ 63 }
    {
        self.bytes.len() - self.at
    }

    /// Uses the first bytes.
    pub fn skip(&mut self, n: usize)
        requires { n ≤ length self.old }
        ensures { self.new ≡ drop n self.old }
    {
        self.at += n;
    }

    /// Adds bytes, and gives back the room of those that were used.
    pub fn extend(&mut self, piece: &[u8]) -> Result<(), Memory>
        ensures ok { OnOk result (self.new ≡ self.old ++ piece.now) }
        ensures err { OnErr result (self.new ≡ self.old) }
    {
        drop_front(&mut self.bytes, self.at);
        self.at = 0;
        match self.bytes.extend_from_slice(piece) {
            Ok(()) => Ok(()),
            Err(_) => Err(Memory),
        }
    }
}
