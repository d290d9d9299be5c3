// Where the file of a store comes from.
ghost use Rattle.std.specs.Prelude.{IfOk};

use sqlite::Error;

/// What opens the file of a store: when a keeper starts, and again after a failure of the disk has shut the connection.
pub trait StoreFile: Drop {
    /// A connection to the file.
    type Conn: Drop;

    /// What is known of a connection as it is opened.
    ghost is_fresh: { Self.Conn → Type 0 };

    /// Opens the file, or makes it. No connection to it is open then.
    fn open(&mut self) -> Result<Self::Conn, Error>
        ensures { IfOk result is_fresh };

    /// Closes the file.
    fn close(&mut self, conn: Self::Conn);
}
