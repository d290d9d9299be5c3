// Stores in memory, of which no call fails.
ghost use Rattle.std.specs.Prelude.{◌≡◌, [], true};
ghost use Rattle.keeper_core.specs.Keeping.{told_by};
ghost use Rattle.keeper_core.specs.Lists.{no_rows};

use gateway_machine::Stores;
use keeper_core::{JoinRow, KeepFault, Keeper, LoadFault, MemKeeper, Row, Table, Tables};
use outside_core::KeeperStart;
use std::alloc::Global;
use std::marker::Model;

/// A keeper in memory, which begins without rows and of which no call fails but where memory is wanting. What it keeps is lost
/// with it.
#[derive(Drop)]
pub struct PassingKeeper {
    keeper: MemKeeper,
}

impl Model for PassingKeeper {
    ghost use Rattle.keeper_core.specs.Keeping.{MemFacts};
    ghost use Rattle.tests_machine.specs.Passing.{NeverFails};

    ghost Value = { MemFacts };

    ghost view = { λ k. k.keeper };

    ghost invariant = { λ k. NeverFails k.keeper };
}

impl PassingKeeper {
    /// A keeper without rows. It takes no memory.
    pub fn new(alloc: Global) -> Self
        ensures { result ≡ record { lists = no_rows; staged = []; faults = 0; loads = 0; planned = record { fails = []; calls = 0 } } }
    {
        PassingKeeper {
            keeper: MemKeeper::new(Tables::new(alloc), Vec::new(alloc)),
        }
    }

    // So it adds nothing to the faults of who lent it.
    fn never_failed(&self)
        ensures { self.now.loads ≡ 0 }
    {
        let _ = &self.keeper;
    }
}

impl Keeper for PassingKeeper {
    const IN_PLACE: bool = true;

    ghost IN_PLACE = { true };

    ghost facts = { told_by };

    fn load(&mut self, alloc: Global) -> Result<Tables, LoadFault> {
        self.keeper.load(alloc)
    }

    fn put_row(&mut self, alloc: Global, row: &Row) -> Result<(), KeepFault> {
        self.keeper.put_row(alloc, row)
    }

    fn commit(&mut self, alloc: Global) -> Result<(), KeepFault> {
        self.keeper.commit(alloc)
    }

    fn rewrite(&mut self, alloc: Global, row: &JoinRow) -> Result<(), KeepFault> {
        self.keeper.rewrite(alloc, row)
    }
}

/// Stores in memory: those whose name begins with `x` can't be opened, and those whose name begins with `y` have a bad row.
#[derive(Drop)]
pub struct PassingStores;

impl Stores for PassingStores {
    type Keep = PassingKeeper;

    fn open(&mut self, alloc: Global, name: &str) -> Result<PassingKeeper, KeeperStart> {
        match name.as_bytes() {
            [b'x', ..] => Err(KeeperStart::StoreFault),
            [b'y', ..] => Err(KeeperStart::BadStore(Table::Stages, 7)),
            _ => Ok(PassingKeeper::new(alloc)),
        }
    }

    fn has_failed(keep: &PassingKeeper) -> bool {
        keep.never_failed();
        false
    }
}
