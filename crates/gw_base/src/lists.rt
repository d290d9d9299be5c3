// A list and a shared value, each seen by contracts as what it holds.
ghost use Rattle.std.specs.Prelude.{◌≡◌, [], ◌∷◌, ◌++◌, List, IfOk, OnOk, OnErr};
ghost use Rattle.std.specs.Arc.{arc_value};

use crate::outside::Memory;
use std::alloc::Global;
use std::marker::Model;
use std::sync::Arc;

/// A `Vec<T>`, which a contract sees as its items.
#[derive(Drop)]
pub struct Seq<T> {
    inner: Vec<T>,
}

impl<T> Model for Seq<T> {
    ghost use Rattle.std.specs.Prelude.{List};
    ghost use Rattle.std.specs.Coded.{coded_list};

    ghost Value = { List T };

    ghost coded = { coded_list T.code };

    ghost view = { λ s. s.inner.items };
}

impl<T> Seq<T> {
    /// No items, without memory.
    pub fn new(alloc: Global) -> Self
        ensures { result ≡ [] }
    {
        Seq {
            inner: Vec::new(alloc),
        }
    }

    /// Wraps a vector, without memory.
    pub fn of(inner: Vec<T>) -> Self
        ensures { result ≡ inner.items }
    {
        Seq { inner }
    }

    /// The vector, without memory.
    pub fn into_inner(self) -> Vec<T>
        ensures { result.items ≡ self }
    {
        let Seq { inner } = self;
        inner
    }

    /// The items, lent.
    pub fn as_slice(&self) -> &[T]
        ensures { result.now ≡ self.now }
    {
        self.inner.as_slice()
    }
}

impl<T: Drop> Seq<T> {
    /// Adds an item at the end. Where memory is wanting nothing changes.
    pub fn push(&mut self, item: T) -> Result<(), Memory>
        ensures ok { OnOk result (self.new ≡ self.old ++ item ∷ []) }
        ensures err { OnErr result (self.new ≡ self.old) }
    {
        self.inner.push(item)?;
        Ok(())
    }
}

/// An `Arc<T>`, which a contract sees as the value that is shared, whatever its address.
#[derive(Drop)]
pub struct Shared<T> {
    inner: Arc<T>,
}

impl<T> Model for Shared<T> {
    ghost Value = { T };

    ghost coded = { T.code };

    ghost view = { λ s. arc_value s.inner };
}

impl<T> Shared<T> {
    /// Wraps a counted pointer, without memory.
    pub fn of(inner: Arc<T>) -> Self
        ensures { result ≡ arc_value inner }
    {
        Shared { inner }
    }

    /// The value.
    pub fn value(&self) -> &T
        ensures { result.now ≡ self.now }
    {
        &self.inner
    }

    /// The same value, held once more. It takes memory only where the count of holders stands at its end.
    pub fn share(&self) -> Result<Self, Memory>
        ensures { IfOk result (λ other. other ≡ self.now) }
    {
        match Arc::try_clone(&self.inner) {
            Ok(inner) => Ok(Shared { inner }),
            Err(_) => Err(Memory),
        }
    }
}

impl<T: Drop> Shared<T> {
    /// Moves a value to where it can be shared.
    pub fn new(alloc: Global, value: T) -> Result<Self, Memory>
        ensures { IfOk result (λ shared. shared ≡ value) }
    {
        Ok(Shared {
            inner: Arc::new(alloc, value)?,
        })
    }
}
