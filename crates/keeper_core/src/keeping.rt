// A row is kept, and a join is kept in its place.
ghost use Rattle.std.specs.Prelude.{◌≡◌, ◌∷◌, [], ◌<◌, false, length, IfSome, IsTrue, OnOk, OnErr};
ghost use Rattle.keeper_core.specs.Joins.{join_at, with_numbers};
ghost use Rattle.keeper_core.specs.Keeping.{HasKeepCause, IsKeptAsPlanned, IsPlanned, is_failed, wants_memory, with_rows};
ghost use Rattle.keeper_core.specs.Lists.{put};
ghost use Rattle.keeper_core.specs.declared.rows.Row.TheVariants.{Join as join};

use crate::keeper::{KeepFault, Keeper};
use crate::numbers::JoinNumbers;
use crate::rows::Row;
use crate::tables::Tables;
use std::alloc::Global;

/// Keeps one row: stages it, and commits. On a refusal the tables are as before. Either way nothing stays staged.
pub fn keep<K: Keeper>(keeper: &mut K, alloc: Global, row: &Row) -> Result<(), KeepFault>
    requires nothing_staged { (K.facts keeper.old).staged ≡ [] }
    ensures ok { OnOk result ((K.facts keeper.new).tables ≡ with_rows (row.now ∷ []) (K.facts keeper.old).tables) }
    ensures err { OnErr result ((K.facts keeper.new).tables ≡ (K.facts keeper.old).tables) }
    ensures staged { (K.facts keeper.new).staged ≡ [] }
    ensures cause { HasKeepCause (K.facts keeper.old) (K.facts keeper.new) result }
    ensures planned { IsKeptAsPlanned (K.facts keeper.old).planned (is_failed result) (wants_memory result) (K.facts keeper.new).planned }
{
    keeper.put_row(alloc, row)?;
    keeper.commit(alloc)
}

/// Keeps other numbers of the join at this place of the tables, counted from 0. They are written into the row before the keeper is
/// asked, and the earlier ones are written back where it refuses, so no row is copied. On a refusal all tables are as before.
pub fn rewrite_at<K: Keeper>(
    keeper: &mut K,
    alloc: Global,
    tables: &mut Tables,
    at: usize,
    numbers: JoinNumbers,
) -> Result<(), KeepFault>
    requires inside { at < length tables.old.lists.joins }
    requires told { IfSome (K.facts keeper.old).tables (λ lists. lists ≡ tables.old.lists) }
    requires nothing_staged { (K.facts keeper.old).staged ≡ [] }
    ensures ok { OnOk result (tables.new.lists ≡ put (join (with_numbers (join_at tables.old.lists at) numbers)) tables.old.lists) }
    ensures err { OnErr result (tables.new.lists ≡ tables.old.lists) }
    ensures kept { OnOk result ((K.facts keeper.new).tables ≡ with_rows (join (with_numbers (join_at tables.old.lists at) numbers) ∷ []) (K.facts keeper.old).tables) }
    ensures left { OnErr result ((K.facts keeper.new).tables ≡ (K.facts keeper.old).tables) }
    ensures staged { (K.facts keeper.new).staged ≡ [] }
    ensures cause { HasKeepCause (K.facts keeper.old) (K.facts keeper.new) result }
    ensures planned { IsPlanned (K.facts keeper.old).planned (is_failed result) (wants_memory result) (K.facts keeper.new).planned }
    ensures memory { IsTrue K.IN_PLACE → wants_memory result ≡ false }
{
    let earlier = tables.join_at(at).numbers();
    tables.write_join(at, numbers);
    let kept = keeper.rewrite(alloc, tables.join_at(at));
    if kept.is_err() {
        tables.write_join(at, earlier);
    }
    kept
}
