// The table `meta`.
ghost use Rattle.std.specs.Prelude.{◌≡◌, reverse, None, OnOk, IfErr};
ghost use Rattle.book_rules.specs.Good.{refused_by, takes_meta as takes_meta_of};
ghost use Rattle.book_opening.specs.Faults.{IsFirstIn};

use crate::fault::OpenFault;
use keeper_core::{MetaRow, Table};

/// The version of the store's layout.
const STORE_VERSION: u64 = 1;

#[tactic(auto, unfolding(book_rules::specs::Good::store_version))]
fn takes_meta(before: &[MetaRow], row: &MetaRow) -> bool
    ensures { result ≡ takes_meta_of (reverse before.now) row.now }
{
    before.is_empty() && row.id == 0 && row.version == STORE_VERSION
}

/// Tests the rows of `meta`.
pub(crate) fn test_metas(rows: &[MetaRow]) -> Result<(), OpenFault>
    ensures taken { OnOk result (refused_by takes_meta_of rows.now ≡ None) }
    ensures refused { IfErr result (IsFirstIn Table.Meta (refused_by takes_meta_of rows.now)) }
{
    for (i, row) in rows.iter().enumerate() {
        if !takes_meta(&rows[..i], row) {
            return Err(OpenFault::BadRow(Table::Meta, i as u64));
        }
    }
    Ok(())
}
