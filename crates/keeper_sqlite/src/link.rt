// The connection to the file, which is opened anew after a failure of the disk has shut it.
ghost use Rattle.std.specs.Prelude.{◌≡◌, [], false, true, All, Some, IfOk, IsSome, OnOk, OnErr};
ghost use Rattle.sqlite.specs.Held.{state};
ghost use Rattle.keeper_sqlite.specs.Columns.{can_be_written};
ghost use Rattle.keeper_sqlite.specs.Links.{IsReopened, IsReady, IsNotReady, IsKeptOrOwed, IsChange, IsLoad};
ghost use Rattle.keeper_sqlite.specs.Steps.{IsInside};

use crate::changes::{is_open, undo_all, write_rows};
use crate::database::load_tables;
use crate::fault::keep_fault;
use crate::source::StoreFile;
use crate::undo::Undo;
use keeper_core::{KeepFault, LoadFault, Row, Tables};
use sqlite::{Alter, Connection, Error, ErrorCode};
use std::alloc::Global;
use std::marker::Model;

/// The connection, where one is open, and the changes that are owed to the file.
pub(crate) struct Link<B: Alter + Drop, F: StoreFile<Conn = Connection<B>>> {
    file: F,
    conn: Option<Connection<B>>,
    owed: Vec<Undo>,
}

impl<B: Alter + Drop, F: StoreFile<Conn = Connection<B>>> Model for Link<B, F> {
    ghost use Rattle.keeper_sqlite.specs.Links.{Linked, linked_code};

    ghost Value = { Linked B };

    ghost coded = { linked_code B.code };

    ghost use Rattle.keeper_sqlite.specs.Links.{IsSettled};

    ghost view = { λ k. record { conn = k.conn; owed = k.owed.items } };

    ghost invariant = { λ k. IsSettled (record { conn = k.conn; owed = k.owed.items }) };
}

impl<B: Alter + Drop, F: StoreFile<Conn = Connection<B>>> Link<B, F> {
    /// A connection that was just made ready, to this file.
    pub(crate) fn new(alloc: Global, file: F, conn: Connection<B>) -> Link<B, F>
        requires { conn.in_transaction ≡ false }
        ensures { result ≡ record { conn = Some conn; owed = [] } }
    {
        Link {
            file,
            conn: Some(conn),
            owed: Vec::new(alloc),
        }
    }

    /// Closes the file. What is owed is left as it is.
    pub(crate) fn close(self) {
        let Link {
            mut file,
            conn,
            owed: _,
        } = self;
        if let Some(conn) = conn {
            file.close(conn);
        }
    }

    // Opens the file anew where that is due, and undoes what is owed before anything else.
    fn make_ready(&mut self, alloc: Global) -> Result<(), KeepFault>
        ensures ok { OnOk result ((conn : _) × IsReady B.Store F.is_fresh self.old conn × (self.new ≡ record { conn = Some conn; owed = [] })) }
        ensures err { OnErr result (IsNotReady B.Store F.is_fresh self.old self.new) }
    {
        if self.conn.is_some() {
            return Ok(());
        }
        let conn = reopen(alloc, &mut self.file, &self.owed)?;
        self.owed.clear();
        self.conn = Some(conn);
        Ok(())
    }

    // Keeps the connection where it is still open. Else it is closed, and what these undo is owed.
    fn keep_or_owe(&mut self, mut conn: Connection<B>, undos: Vec<Undo>)
        requires { conn.in_transaction ≡ false }
        ensures { (to : _) × IsInside (state B.Store conn) (state B.Store to) × IsKeptOrOwed B.Store F.is_fresh undos.items to self.new }
    {
        if is_open(&mut conn) {
            self.owed.clear();
            self.conn = Some(conn);
            return;
        }
        self.owed = undos;
        self.owed.reverse();
        self.conn = None;
        self.file.close(conn);
    }

    fn write_open(&mut self, alloc: Global, rows: &[Row]) -> Result<(), KeepFault>
        requires fit { All (λ row. can_be_written row ≡ true) rows.now }
        requires open { IsSome self.old.conn }
        ensures { IsChange B.Store F.is_fresh rows.now self.old self.new result }
    {
        let Some(mut conn) = self.conn.take() else {
            return Err(KeepFault::Failed);
        };
        let mut undos = Vec::new(alloc);
        match write_rows(alloc, &mut conn, rows, &mut undos) {
            Ok(()) => {
                self.conn = Some(conn);
                Ok(())
            }
            Err(fault) => {
                self.keep_or_owe(conn, undos);
                Err(fault)
            }
        }
    }

    /// Writes the rows in one step, the first one first. What is owed is undone before.
    pub(crate) fn change(&mut self, alloc: Global, rows: &[Row]) -> Result<(), KeepFault>
        requires fit { All (λ row. can_be_written row ≡ true) rows.now }
        ensures { IsChange B.Store F.is_fresh rows.now self.old self.new result }
    {
        self.make_ready(alloc)?;
        self.write_open(alloc, rows)
    }

    // Reads the rows of all tables. A connection that a failure has shut is closed.
    fn load_open(&mut self, alloc: Global) -> Result<Tables, LoadFault>
        requires open { IsSome self.old.conn }
        ensures owed { self.new.owed ≡ [] }
        ensures open { OnOk result (IsSome self.new.conn) }
    {
        let Some(mut conn) = self.conn.take() else {
            return Err(LoadFault::Failed);
        };
        match load_tables(alloc, &mut conn) {
            Ok(tables) => {
                self.conn = Some(conn);
                Ok(tables)
            }
            Err(fault) => {
                self.keep_or_owe(conn, Vec::new(alloc));
                Err(fault)
            }
        }
    }

    /// Reads the rows of all tables. What is owed is undone before.
    pub(crate) fn load(&mut self, alloc: Global) -> Result<Tables, LoadFault>
        ensures { IsLoad B.Store F.is_fresh self.old self.new result }
    {
        match self.make_ready(alloc) {
            Ok(()) => self.load_open(alloc),
            Err(KeepFault::Failed) => Err(LoadFault::Failed),
            Err(KeepFault::Memory) => Err(LoadFault::Memory),
        }
    }
}

// Opens the file anew, and undoes what is owed.
fn reopen<B: Alter + Drop, F: StoreFile<Conn = Connection<B>>>(
    alloc: Global,
    file: &mut F,
    owed: &[Undo],
) -> Result<Connection<B>, KeepFault>
    ensures closed { IfOk result (λ conn. conn.in_transaction ≡ false) }
    ensures reopened { IfOk result (IsReopened B.Store F.is_fresh owed.now) }
{
    let mut conn = match open(file) {
        Ok(conn) => conn,
        Err(error) => return Err(keep_fault(error)),
    };
    match undo_all(alloc, &mut conn, owed) {
        Ok(()) => Ok(conn),
        Err(fault) => {
            file.close(conn);
            Err(fault)
        }
    }
}

/// Opens the file, or makes it.
pub(crate) fn open<B: Alter + Drop, F: StoreFile<Conn = Connection<B>>>(
    file: &mut F,
) -> Result<Connection<B>, Error>
    ensures closed { IfOk result (λ conn. conn.in_transaction ≡ false) }
    ensures fresh { IfOk result F.is_fresh }
{
    let conn = file.open()?;
    if conn.is_autocommit() {
        return Ok(conn);
    }
    file.close(conn);
    Err(Error::SqliteFailure(ErrorCode::CannotOpen))
}
