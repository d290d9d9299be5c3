// Who keeps the tables of the machine's stores.
ghost use Rattle.std.specs.Prelude.{◌≡◌, nat_lt, IfOk};
ghost use Rattle.outside_core.specs.Stores.{IsUnused};

use keeper_core::Keeper;
use outside_core::KeeperStart;
use std::alloc::Global;

/// What opens the stores of a machine by their names.
pub trait Stores {
    /// Who keeps the tables of a store. Where it is dropped, the store is closed.
    type Keep: Keeper + Send + Drop;

    /// Opens the store of this name, or makes it: nothing is staged, and no call of its keeper has failed.
    fn open(&mut self, alloc: Global, name: &str) -> Result<Self::Keep, KeeperStart>
        ensures { IfOk result (λ keep. IsUnused (Self.Keep.facts keep)) };

    /// Whether a load of the keeper has failed.
    fn has_failed(keep: &Self::Keep) -> bool
        ensures { result ≡ nat_lt 0 ((Self.Keep.facts keep.now).loads) };
}
