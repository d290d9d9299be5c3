// Who keeps the tables.
ghost use Rattle.std.specs.Prelude.{◌≡◌, ◌++◌, ◌∷◌, [], false, None, IfOk, IfSome, OnOk, OnErr, IsTrue};
ghost use Rattle.keeper_core.specs.Keeping.{KeeperFacts, IsPlanned, HasKeepCause, HasLoadCause, HasJoin, is_failed, wants_memory, is_failed_load, load_wants_memory, is_bad_row, with_rows};
ghost use Rattle.keeper_core.specs.declared.keeper.KeepFault.TheVariants.{Memory as no_memory};
ghost use Rattle.keeper_core.specs.declared.keeper.LoadFault.TheVariants.{Memory as no_memory_to_load};
ghost use Rattle.keeper_core.specs.declared.rows.Row.TheVariants.{Join as join};

use crate::rows::{JoinRow, Row};
use crate::table::Table;
use crate::tables::Tables;
use gw_base::Memory;
use std::alloc::Global;

/// Why nothing was kept.
#[derive(Clone, Copy, Debug, PartialEq, Eq)]
pub enum KeepFault {
    /// The keeper failed: its count of faults rose.
    Failed,
    /// Memory is wanting.
    Memory,
}

/// Why the tables were not loaded.
#[derive(Clone, Copy, Debug, PartialEq, Eq)]
pub enum LoadFault {
    /// This row of this table, counted from 0, is none that can be: the counts of faults and of loads rose.
    BadRow(Table, u64),
    /// The keeper failed: its counts of faults and of loads rose.
    Failed,
    /// Memory is wanting.
    Memory,
}

impl From<Memory> for KeepFault {
    ghost from_gives = { λ _ e. e ≡ no_memory };

    fn from(_: Memory) -> Self {
        KeepFault::Memory
    }
}

impl From<Memory> for LoadFault {
    ghost from_gives = { λ _ e. e ≡ no_memory_to_load };

    fn from(_: Memory) -> Self {
        LoadFault::Memory
    }
}

/// Who keeps the tables. Rows are staged one by one, and a commit keeps all of them at once or none.
///
/// A keeper counts its faults, and a call fails only where that count rose. Where it tells its tables, or which of its
/// calls fail, contracts say what the calls make of them.
pub trait Keeper {
    ghost use Rattle.std.specs.Prelude.{Bool};
    ghost use Rattle.keeper_core.specs.Keeping.{KeeperFacts};

    /// Whether a join row is rewritten in its place, for which no memory is wanted.
    const IN_PLACE: bool;

    ghost IN_PLACE: { Bool };

    /// What contracts see of it.
    ghost facts: { Self → KeeperFacts };

    /// The tables as they are kept.
    fn load(&mut self, alloc: Global) -> Result<Tables, LoadFault>
        ensures loaded { IfOk result (λ tables. IfSome (facts self.old).tables (λ told. tables.lists ≡ told)) }
        ensures tables { (facts self.new).tables ≡ (facts self.old).tables }
        ensures staged { (facts self.new).staged ≡ (facts self.old).staged }
        ensures cause { HasLoadCause (facts self.old) (facts self.new) result }
        ensures good_rows { IfSome (facts self.old).tables (λ _. is_bad_row result ≡ false) }
        ensures planned { IsPlanned (facts self.old).planned (is_failed_load result) (load_wants_memory result) (facts self.new).planned };

    /// Stages a row, behind those that are staged. On a refusal nothing stays staged.
    fn put_row(&mut self, alloc: Global, row: &Row) -> Result<(), KeepFault>
        ensures ok { OnOk result ((facts self.new).staged ≡ (facts self.old).staged ++ row.now ∷ []) }
        ensures err { OnErr result ((facts self.new).staged ≡ []) }
        ensures tables { (facts self.new).tables ≡ (facts self.old).tables }
        ensures cause { HasKeepCause (facts self.old) (facts self.new) result }
        ensures planned { IsPlanned (facts self.old).planned (is_failed result) (wants_memory result) (facts self.new).planned };

    /// Keeps all staged rows at once, the first one first. On a refusal the tables are as before. Either way nothing
    /// stays staged.
    fn commit(&mut self, alloc: Global) -> Result<(), KeepFault>
        ensures ok { OnOk result ((facts self.new).tables ≡ with_rows (facts self.old).staged (facts self.old).tables) }
        ensures err { OnErr result ((facts self.new).tables ≡ (facts self.old).tables) }
        ensures staged { (facts self.new).staged ≡ [] }
        ensures cause { HasKeepCause (facts self.old) (facts self.new) result }
        ensures planned { IsPlanned (facts self.old).planned (is_failed result) (wants_memory result) (facts self.new).planned }
        ensures memory { IfSome (facts self.old).planned (λ _. wants_memory result ≡ false) };

    /// Keeps a join row in the place of the row of its key. On a refusal the tables are as before.
    fn rewrite(&mut self, alloc: Global, row: &JoinRow) -> Result<(), KeepFault>
        requires nothing_staged { (facts self.old).staged ≡ [] }
        requires there { HasJoin (facts self.old).tables row.now }
        ensures ok { OnOk result ((facts self.new).tables ≡ with_rows (join row.now ∷ []) (facts self.old).tables) }
        ensures err { OnErr result ((facts self.new).tables ≡ (facts self.old).tables) }
        ensures staged { (facts self.new).staged ≡ [] }
        ensures cause { HasKeepCause (facts self.old) (facts self.new) result }
        ensures planned { IsPlanned (facts self.old).planned (is_failed result) (wants_memory result) (facts self.new).planned }
        ensures memory { IsTrue IN_PLACE → wants_memory result ≡ false };
}
