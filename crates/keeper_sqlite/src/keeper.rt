// A keeper over a file.
ghost use Rattle.std.specs.Prelude.{◌≡◌, ◌++◌, ◌∷◌, [], false, true, not, All, IfOk, IfErr, IsSome, OnOk, OnErr};
ghost use Rattle.keeper_core.specs.Keeping.{HasKeepCause, HasLoadCause, is_failed};
ghost use Rattle.gw_base.specs.Feed.{raised};
ghost use Rattle.keeper_sqlite.specs.Columns.{can_be_written as can_be_written_of};
ghost use Rattle.keeper_sqlite.specs.Links.{IsChange, IsLoad, IsRewrite};
ghost use Rattle.keeper_sqlite.specs.Stands.{told_by};
ghost use Rattle.keeper_sqlite.specs.Version.{IsOfMeta};

use crate::database::{is_new, make_tables};
use crate::fault::{StartFault, start_fault};
use crate::link::{Link, open};
use crate::source::StoreFile;
use crate::version::test_version;
use crate::writing::{can_be_written, join_can_be_written};
use gw_base::Memory;
use keeper_core::{JoinRow, KeepFault, Keeper, LoadFault, Row, Tables};
use sqlite::{Alter, Connection};
use std::alloc::Global;
use std::marker::Model;
use std::mem;

/// A keeper of tables in a file of SQLite.
///
/// A failure of the disk may shut the connection to the file. Then the next call opens the file anew, and undoes the change that
/// was refused, which may be there after all. Where that fails the call is refused, and the next one tries again.
pub struct SqliteKeeper<B: Alter + Drop, F: StoreFile<Conn = Connection<B>>> {
    link: Link<B, F>,
    staged: Vec<Row>,
    faults: u64,
    loads: u64,
}

// Written by hand, so that what holds a keeper sees one call. It copies the log into the file; where that fails, the log
// stays beside the file, and the next start reads both.
impl<B: Alter + Drop, F: StoreFile<Conn = Connection<B>>> Drop for SqliteKeeper<B, F> {
    fn drop(self) {
        let SqliteKeeper {
            link,
            staged: _,
            faults: _,
            loads: _,
        } = self;
        link.close();
    }
}

impl<B: Alter + Drop, F: StoreFile<Conn = Connection<B>>> Model for SqliteKeeper<B, F> {
    ghost use Rattle.std.specs.Prelude.{◌≡◌, true, All};
    ghost use Rattle.keeper_sqlite.specs.Columns.{can_be_written};
    ghost use Rattle.keeper_sqlite.specs.Stands.{StoreStand, stand_code};

    ghost Value = { StoreStand B };

    ghost coded = { stand_code B.code };

    ghost view = { λ k. record { staged = k.staged.items; faults = k.faults; loads = k.loads; link = k.link } };

    ghost invariant = { λ k. All (λ row. can_be_written row ≡ true) k.staged.items };
}

fn raise(count: u64) -> u64
    ensures { result ≡ raised count }
{
    count.saturating_add(1)
}

// Makes the tables of a new store, and tests the version of another.
fn prepare<S: Alter>(alloc: Global, conn: &mut Connection<S>) -> Result<(), StartFault>
    requires { conn.old.in_transaction ≡ false }
    ensures closed { conn.new.in_transaction ≡ false }
    ensures err { IfErr result IsOfMeta }
{
    if is_new(conn)? {
        make_tables(conn)
    } else {
        test_version(alloc, conn)
    }
}

impl<B: Alter + Drop, F: StoreFile<Conn = Connection<B>>> SqliteKeeper<B, F> {
    /// Opens the store in this file, or makes it.
    pub fn start(alloc: Global, mut file: F) -> Result<SqliteKeeper<B, F>, StartFault>
        ensures unused { IfOk result (λ keeper. (keeper.staged ≡ []) × (keeper.faults ≡ 0) × (keeper.loads ≡ 0)) }
        ensures open { IfOk result (λ keeper. IsSome keeper.link.conn × (keeper.link.owed ≡ [])) }
        ensures err { IfErr result IsOfMeta }
    {
        let mut conn = match open(&mut file) {
            Ok(conn) => conn,
            Err(error) => return Err(start_fault(error)),
        };
        match prepare(alloc, &mut conn) {
            Ok(()) => Ok(SqliteKeeper {
                link: Link::new(alloc, file, conn),
                staged: Vec::new(alloc),
                faults: 0,
                loads: 0,
            }),
            Err(fault) => {
                file.close(conn);
                Err(fault)
            }
        }
    }

    /// How often a call has failed, up to the count's greatest value.
    pub fn faults(&self) -> u64
        ensures { result ≡ self.now.faults }
    {
        self.faults
    }

    /// How often a load has failed, up to the count's greatest value.
    pub fn loads(&self) -> u64
        ensures { result ≡ self.now.loads }
    {
        self.loads
    }

    /// Stages a row, behind those that are staged. It fails exactly where a number of the row is above
    /// 9,223,372,036,854,775,807. On a refusal nothing stays staged.
    pub fn stage(&mut self, alloc: Global, row: &Row) -> Result<(), KeepFault>
        ensures ok { OnOk result (self.new.staged ≡ self.old.staged ++ row.now ∷ []) }
        ensures err { OnErr result (self.new.staged ≡ []) }
        ensures link { self.new.link ≡ self.old.link }
        ensures fails { is_failed result ≡ not (can_be_written_of row.now) }
        ensures cause { HasKeepCause (told_by self.old) (told_by self.new) result }
    {
        if !can_be_written(row) {
            self.staged.clear();
            self.faults = raise(self.faults);
            return Err(KeepFault::Failed);
        }
        if hold(alloc, &mut self.staged, row).is_err() {
            self.staged.clear();
            return Err(KeepFault::Memory);
        }
        Ok(())
    }

    // Counts a change that failed.
    fn count(&mut self, kept: Result<(), KeepFault>) -> Result<(), KeepFault>
        ensures same { result ≡ kept }
        ensures staged { self.new.staged ≡ self.old.staged }
        ensures link { self.new.link ≡ self.old.link }
        ensures cause { HasKeepCause (told_by self.old) (told_by self.new) result }
    {
        if matches!(kept, Err(KeepFault::Failed)) {
            self.faults = raise(self.faults);
        }
        kept
    }
}

fn hold(alloc: Global, staged: &mut Vec<Row>, row: &Row) -> Result<(), Memory>
    requires fits { can_be_written_of row.now ≡ true }
    requires fit { All (λ row. can_be_written_of row ≡ true) staged.old.items }
    ensures ok { OnOk result (staged.new.items ≡ staged.old.items ++ row.now ∷ []) }
    ensures fit { All (λ row. can_be_written_of row ≡ true) staged.new.items }
{
    staged.push(row.copy(alloc)?)?;
    Ok(())
}

impl<B: Alter + Drop, F: StoreFile<Conn = Connection<B>>> Keeper for SqliteKeeper<B, F> {
    const IN_PLACE: bool = false;

    ghost IN_PLACE = { false };

    ghost facts = { told_by };

    fn load(&mut self, alloc: Global) -> Result<Tables, LoadFault>
        ensures staged { self.new.staged ≡ self.old.staged }
        ensures cause { HasLoadCause (told_by self.old) (told_by self.new) result }
        ensures load { IsLoad B.Store F.is_fresh self.old.link self.new.link result }
    {
        let loaded = self.link.load(alloc);
        match &loaded {
            Ok(_) | Err(LoadFault::Memory) => {}
            Err(LoadFault::Failed | LoadFault::BadRow(_, _)) => {
                self.faults = raise(self.faults);
                self.loads = raise(self.loads);
            }
        }
        loaded
    }

    fn put_row(&mut self, alloc: Global, row: &Row) -> Result<(), KeepFault>
        ensures ok { OnOk result (self.new.staged ≡ self.old.staged ++ row.now ∷ []) }
        ensures err { OnErr result (self.new.staged ≡ []) }
        ensures cause { HasKeepCause (told_by self.old) (told_by self.new) result }
        ensures link { self.new.link ≡ self.old.link }
    {
        self.stage(alloc, row)
    }

    fn commit(&mut self, alloc: Global) -> Result<(), KeepFault>
        ensures staged { self.new.staged ≡ [] }
        ensures cause { HasKeepCause (told_by self.old) (told_by self.new) result }
        ensures change { IsChange B.Store F.is_fresh self.old.staged self.old.link self.new.link result }
    {
        let staged = mem::replace(&mut self.staged, Vec::new(alloc));
        let kept = self.link.change(alloc, &staged);
        self.count(kept)
    }

    fn rewrite(&mut self, alloc: Global, row: &JoinRow) -> Result<(), KeepFault>
        requires { self.old.staged ≡ [] }
        ensures staged { self.new.staged ≡ [] }
        ensures cause { HasKeepCause (told_by self.old) (told_by self.new) result }
        ensures change { IsRewrite B.Store F.is_fresh row.now self.old.link self.new.link result }
    {
        let kept = rewrite_in(alloc, &mut self.link, row);
        self.count(kept)
    }
}

fn rewrite_in<B: Alter + Drop, F: StoreFile<Conn = Connection<B>>>(
    alloc: Global,
    link: &mut Link<B, F>,
    row: &JoinRow,
) -> Result<(), KeepFault>
    ensures { IsRewrite B.Store F.is_fresh row.now link.old link.new result }
{
    if !join_can_be_written(row) {
        return Err(KeepFault::Failed);
    }
    let rows = [Row::Join(row.copy(alloc)?)];
    link.change(alloc, &rows)
}
