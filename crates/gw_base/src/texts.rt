// A text and bytes, each seen by contracts as what it holds.
ghost use Rattle.std.specs.Prelude.{◌≡◌, ◌==◌, ◌<◌, ◌^◌, length, List, ℕ, IfOk};
ghost use Rattle.std.specs.String.{string_bytes};

use crate::outside::Memory;
use std::alloc::Global;
use std::marker::Model;

/// A `String`, which a contract sees as its bytes.
#[derive(Drop)]
pub struct Text {
    inner: String,
}

impl Model for Text {
    ghost Value = { List ℕ };

    ghost view = { λ t. string_bytes t.inner };
}

impl Text {
    /// Wraps a string, without memory.
    pub fn of(inner: String) -> Self
        ensures { result ≡ string_bytes inner }
    {
        Text { inner }
    }

    /// The string, without memory.
    pub fn into_inner(self) -> String
        ensures { string_bytes result ≡ self }
    {
        let Text { inner } = self;
        inner
    }

    /// The text, lent.
    pub fn as_str(&self) -> &str
        ensures { result.now ≡ self.now }
    {
        self.inner.as_str()
    }

    /// Its length in bytes.
    pub fn len(&self) -> usize
        ensures value { result ≡ length self.now }
        ensures small { result < 2 ^ 63 }
    {
        self.inner.len()
    }

    /// Whether it has no byte.
    pub fn is_empty(&self) -> bool
        ensures { result ≡ (length self.now == 0) }
    {
        self.inner.is_empty()
    }

    /// The same text once more.
    pub fn copy(&self, alloc: Global) -> Result<Self, Memory>
        ensures { IfOk result (λ other. other ≡ self.now) }
    {
        Ok(Text {
            inner: String::from_str(alloc, self.as_str())?,
        })
    }
}

/// A `Vec<u8>`, which a contract sees as its list.
#[derive(Drop)]
pub struct Bytes {
    inner: Vec<u8>,
}

impl Model for Bytes {
    ghost Value = { List ℕ };

    ghost view = { λ b. b.inner.items };
}

impl Bytes {
    /// Wraps a vector, without memory.
    pub fn of(inner: Vec<u8>) -> Self
        ensures { result ≡ inner.items }
    {
        Bytes { inner }
    }

    /// The vector, without memory.
    pub fn into_inner(self) -> Vec<u8>
        ensures { result.items ≡ self }
    {
        let Bytes { inner } = self;
        inner
    }

    /// The bytes, lent.
    pub fn as_slice(&self) -> &[u8]
        ensures { result.now ≡ self.now }
    {
        self.inner.as_slice()
    }

    /// The same bytes once more.
    pub fn copy(&self, alloc: Global) -> Result<Self, Memory>
        ensures { IfOk result (λ other. other ≡ self.now) }
    {
        Ok(Bytes {
            inner: Vec::from_slice(alloc, self.as_slice())?,
        })
    }
}
