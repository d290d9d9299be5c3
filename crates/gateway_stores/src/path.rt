// The file of a store, by its path.
ghost use Rattle.gateway_stores.specs.Keepers.{IsFresh};

use gw_base::Memory;
use keeper_sqlite::StoreFile;
use sqlite::{Connection, Error, File, FileStore};

/// The file at a path, with its log beside it. Nothing is supposed of what it holds as it is opened.
#[derive(Drop)]
pub struct StorePath {
    rt: HostRuntime,
    path: String,
}

impl StorePath {
    /// The file at this path, which is opened later.
    pub fn new(rt: HostRuntime, path: &str) -> Result<StorePath, Memory> {
        Ok(StorePath {
            rt,
            path: String::from_str(rt.alloc(), path)?,
        })
    }
}

impl StoreFile for StorePath {
    type Conn = Connection<FileStore<File>>;

    ghost is_fresh = { λ conn. IsFresh conn };

    fn open(&mut self) -> Result<Connection<FileStore<File>>, Error> {
        Connection::open(&self.rt, self.path.as_str())
    }

    fn close(&mut self, conn: Connection<FileStore<File>>) {
        let _ = conn.close();
    }
}
