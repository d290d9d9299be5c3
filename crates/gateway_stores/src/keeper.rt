// The program's keeper, over the file of a store.
ghost use Rattle.std.specs.Prelude.{◌≡◌, [], ◌∷◌, ◌++◌, IfOk, IsSome, OnOk, OnErr};
ghost use Rattle.gateway_stores.specs.Keepers.{IsChange, IsLoad, IsRewrite};
ghost use Rattle.keeper_core.specs.Keeping.{HasKeepCause, HasLoadCause};
ghost use Rattle.keeper_sqlite.specs.Stands.{told_by};

use crate::path::StorePath;
use keeper_core::{JoinRow, KeepFault, Keeper, LoadFault, Row, Tables};
use keeper_sqlite::{SqliteKeeper, StartFault};
use sqlite::{File, FileStore};
use std::alloc::Global;

/// A keeper over the file of a store: a [`SqliteKeeper`] over a file of the machine. A contract sees that keeper.
pub struct FileKeeper {
    keeper: SqliteKeeper<FileStore<File>, StorePath>,
}

// Written by hand, so that what holds a keeper sees one call.
impl Drop for FileKeeper {
    fn drop(self) {
        let FileKeeper { keeper: _ } = self;
    }
}

impl FileKeeper {
    /// Opens the store in this file, or makes it.
    pub fn start(alloc: Global, file: StorePath) -> Result<FileKeeper, StartFault>
        ensures unused { IfOk result (λ made. (made.keeper.staged ≡ []) × (made.keeper.faults ≡ 0) × (made.keeper.loads ≡ 0)) }
        ensures open { IfOk result (λ made. IsSome made.keeper.link.conn × (made.keeper.link.owed ≡ [])) }
    {
        Ok(FileKeeper {
            keeper: SqliteKeeper::start(alloc, file)?,
        })
    }

    /// How often a load has failed, up to the count's greatest value.
    pub fn loads(&self) -> u64
        ensures { result ≡ self.now.keeper.loads }
    {
        self.keeper.loads()
    }
}

impl Keeper for FileKeeper {
    ghost use Rattle.std.specs.Prelude.{false};

    const IN_PLACE: bool = false;

    ghost IN_PLACE = { false };

    ghost facts = { λ k. told_by k.keeper };

    fn load(&mut self, alloc: Global) -> Result<Tables, LoadFault>
        ensures staged { self.new.keeper.staged ≡ self.old.keeper.staged }
        ensures cause { HasLoadCause (told_by self.old.keeper) (told_by self.new.keeper) result }
        ensures load { IsLoad self.old.keeper.link self.new.keeper.link result }
    {
        self.keeper.load(alloc)
    }

    fn put_row(&mut self, alloc: Global, row: &Row) -> Result<(), KeepFault>
        ensures ok { OnOk result (self.new.keeper.staged ≡ self.old.keeper.staged ++ row.now ∷ []) }
        ensures err { OnErr result (self.new.keeper.staged ≡ []) }
        ensures cause { HasKeepCause (told_by self.old.keeper) (told_by self.new.keeper) result }
        ensures link { self.new.keeper.link ≡ self.old.keeper.link }
    {
        self.keeper.put_row(alloc, row)
    }

    fn commit(&mut self, alloc: Global) -> Result<(), KeepFault>
        ensures staged { self.new.keeper.staged ≡ [] }
        ensures cause { HasKeepCause (told_by self.old.keeper) (told_by self.new.keeper) result }
        ensures change { IsChange self.old.keeper.staged self.old.keeper.link self.new.keeper.link result }
    {
        self.keeper.commit(alloc)
    }

    fn rewrite(&mut self, alloc: Global, row: &JoinRow) -> Result<(), KeepFault>
        requires { self.old.keeper.staged ≡ [] }
        ensures staged { self.new.keeper.staged ≡ [] }
        ensures cause { HasKeepCause (told_by self.old.keeper) (told_by self.new.keeper) result }
        ensures change { IsRewrite row.now self.old.keeper.link self.new.keeper.link result }
    {
        self.keeper.rewrite(alloc, row)
    }
}
