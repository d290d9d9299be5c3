// The tables of the patterns of one document, each pattern read once.
ghost use Rattle.std.specs.Prelude.{◌≡◌, true, false, IfErr, IfOk, OnOk, IfSome};
ghost use Rattle.std.specs.String.{string_bytes};
ghost use Rattle.status_table.specs.Keeping.{AreOfPatterns};
ghost use Rattle.status_table.specs.Statuses.{is_whole_pattern};

use crate::table::StatusTable;
use gw_base::{Memory, Shared};
use pattern_core::PatternFault;
use std::alloc::Global;
use std::collections::BTreeMap;
use std::marker::Model;

/// The tables that were asked for so far, by their patterns: a pattern that comes again is not read again, and its table
/// is shared. A contract sees nothing of it.
#[derive(Drop)]
pub struct StatusTables {
    tables: BTreeMap<String, Shared<StatusTable>>,
}

impl Model for StatusTables {
    ghost use Rattle.status_table.specs.Keeping.{AreOfPatterns};

    ghost Value = { Unit {0} };

    ghost view = { λ t. tt };

    ghost invariant = { λ t. AreOfPatterns t.tables };
}

impl StatusTables {
    /// No tables.
    pub fn new(alloc: Global) -> Self {
        StatusTables {
            tables: BTreeMap::new(alloc),
        }
    }

    /// The table of a pattern.
    ///
    /// # Errors
    ///
    /// Those of [`StatusTable::build`].
    pub fn table(
        &mut self,
        alloc: Global,
        pattern: &str,
    ) -> Result<Shared<StatusTable>, PatternFault>
        ensures pattern { IfOk result (λ table. table ≡ pattern.now) }
        ensures read { OnOk result (is_whole_pattern pattern.now ≡ true) }
        ensures bad { IfErr result (λ e. e ≡ PatternFault.BadPattern → is_whole_pattern pattern.now ≡ false) }
    {
        match self.known(pattern) {
            Ok(Some(table)) => Ok(table),
            Ok(None) => self.read(alloc, pattern),
            Err(_) => Err(PatternFault::Memory),
        }
    }

    // The table of a pattern that was asked for before.
    fn known(&self, pattern: &str) -> Result<Option<Shared<StatusTable>>, Memory>
        ensures table { IfOk result (λ found. IfSome found (λ table. table ≡ pattern.now)) }
        ensures read { IfOk result (λ found. IfSome found (λ _. is_whole_pattern pattern.now ≡ true)) }
    {
        match self.tables.get(pattern) {
            Some(table) => Ok(Some(table.share()?)),
            None => Ok(None),
        }
    }

    // Reads a pattern, and keeps its table.
    fn read(&mut self, alloc: Global, pattern: &str) -> Result<Shared<StatusTable>, PatternFault>
        ensures pattern { IfOk result (λ table. table ≡ pattern.now) }
        ensures read { OnOk result (is_whole_pattern pattern.now ≡ true) }
        ensures bad { IfErr result (λ e. e ≡ PatternFault.BadPattern → is_whole_pattern pattern.now ≡ false) }
    {
        let table = StatusTable::build(alloc, pattern)?;
        match self.keep(alloc, pattern, table) {
            Ok(table) => Ok(table),
            Err(_) => Err(PatternFault::Memory),
        }
    }

    // Keeps a table under its pattern, and shares it.
    fn keep(
        &mut self,
        alloc: Global,
        pattern: &str,
        table: StatusTable,
    ) -> Result<Shared<StatusTable>, Memory>
        requires pattern { table ≡ pattern.now }
        requires read { is_whole_pattern pattern.now ≡ true }
        ensures { IfOk result (λ shared. shared ≡ pattern.now) }
    {
        let shared = Shared::new(alloc, table)?;
        let kept = shared.share()?;
        let name = String::from_str(alloc, pattern)?;
        insert_table(&mut self.tables, name, kept)?;
        Ok(shared)
    }
}

// One table more among those that are kept.
fn insert_table(
    tables: &mut BTreeMap<String, Shared<StatusTable>>,
    pattern: String,
    table: Shared<StatusTable>,
) -> Result<(), Memory>
    requires kept { AreOfPatterns tables.old }
    requires pattern { table ≡ string_bytes pattern }
    requires read { is_whole_pattern (string_bytes pattern) ≡ true }
    ensures { AreOfPatterns tables.new }
{
    tables.insert(pattern, table)?;
    Ok(())
}
