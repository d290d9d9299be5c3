// Stores in files.
ghost use Rattle.std.specs.Prelude.{◌≡◌, nat_lt};
ghost use Rattle.gateway_stores.specs.Starts.{start_by};
ghost use Rattle.keeper_sqlite.specs.Stands.{told_by};

use crate::keeper::FileKeeper;
use crate::path::StorePath;
use gateway_machine::Stores;
use keeper_sqlite::StartFault;
use outside_core::KeeperStart;
use std::alloc::Global;

/// Opens stores by their paths.
#[derive(Drop)]
pub struct FileStores<'r> {
    rt: &'r HostRuntime,
}

impl<'r> FileStores<'r> {
    /// The files of this runtime.
    pub fn new(rt: &'r HostRuntime) -> Self {
        FileStores { rt }
    }
}

/// Why no keeper is lent, where none was started.
pub fn start_of(fault: StartFault) -> KeeperStart
    ensures { result ≡ start_by fault }
{
    match fault {
        StartFault::BadStore(table, row) => KeeperStart::BadStore(table, row),
        StartFault::StoreFault => KeeperStart::StoreFault,
        StartFault::Memory => KeeperStart::Memory,
    }
}

impl<'r> Stores for FileStores<'r> {
    type Keep = FileKeeper;

    fn open(&mut self, alloc: Global, name: &str) -> Result<FileKeeper, KeeperStart> {
        let Ok(file) = StorePath::new(*self.rt, name) else {
            return Err(KeeperStart::Memory);
        };
        match FileKeeper::start(alloc, file) {
            Ok(keeper) => Ok(keeper),
            Err(fault) => Err(start_of(fault)),
        }
    }

    fn has_failed(keep: &FileKeeper) -> bool
        ensures { result ≡ nat_lt 0 (told_by keep.now.keeper).loads }
    {
        keep.loads() > 0
    }
}
