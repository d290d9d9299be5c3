// What a refusal of the database means.
ghost use Rattle.std.specs.Prelude.{◌≡◌, ◌↔◌, true};
ghost use Rattle.keeper_core.specs.declared.table.Table.{Table as TableName};
ghost use Rattle.keeper_sqlite.specs.Answers.{IsOfTable};
ghost use Rattle.keeper_sqlite.specs.Version.{IsOfMeta};
ghost use Rattle.keeper_sqlite.specs.declared.fault.StartFault.TheVariants.{Memory as no_memory_to_start};

use gw_base::Memory;
use keeper_core::{KeepFault, LoadFault, Table};
use sqlite::{Error, ErrorCode};

/// Why no keeper was started.
#[derive(Clone, Copy, Debug, PartialEq, Eq)]
pub enum StartFault {
    /// This row of this table of the file, counted from 0, is none that can be. At the start the table is `meta`.
    BadStore(Table, u64),
    /// The file can't be opened, is no store, or is open elsewhere.
    StoreFault,
    /// Memory is wanting.
    Memory,
}

impl From<Memory> for StartFault {
    ghost from_gives = { λ _ e. e ≡ no_memory_to_start };

    fn from(_: Memory) -> Self {
        StartFault::Memory
    }
}

fn wants_memory(error: Error) -> bool
    ensures { (result ≡ true) ↔ (error ≡ Error.SqliteFailure ErrorCode.OutOfMemory) }
{
    matches!(error, Error::SqliteFailure(ErrorCode::OutOfMemory))
}

/// Want of memory is told as such, and every other refusal is a fault.
pub(crate) fn start_fault(error: Error) -> StartFault
    ensures memory { (result ≡ StartFault.Memory) ↔ (error ≡ Error.SqliteFailure ErrorCode.OutOfMemory) }
    ensures names { IsOfMeta result }
{
    if wants_memory(error) {
        StartFault::Memory
    } else {
        StartFault::StoreFault
    }
}

pub(crate) fn keep_fault(error: Error) -> KeepFault
    ensures memory { (result ≡ KeepFault.Memory) ↔ (error ≡ Error.SqliteFailure ErrorCode.OutOfMemory) }
{
    if wants_memory(error) {
        KeepFault::Memory
    } else {
        KeepFault::Failed
    }
}

pub(crate) fn load_fault(error: Error) -> LoadFault
    ensures memory { (result ≡ LoadFault.Memory) ↔ (error ≡ Error.SqliteFailure ErrorCode.OutOfMemory) }
    ensures names { (table : TableName) → IsOfTable table result }
{
    if wants_memory(error) {
        LoadFault::Memory
    } else {
        LoadFault::Failed
    }
}
