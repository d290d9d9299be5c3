// The tables, tested and read.
ghost use Rattle.std.specs.Prelude.{◌≡◌, None, OnOk, IfOk, IfErr};
ghost use Rattle.book_rules.specs.Good.{bad_row};
ghost use Rattle.book_opening.specs.Faults.{IsBadRowOf};
ghost use Rattle.book_opening.specs.Ready.{AreReady};

use crate::definitions::open_apis;
use crate::deployments::open_deployments;
use crate::fault::OpenFault;
use crate::joins::test_joins;
use crate::keys::open_keys;
use crate::metas::test_metas;
use crate::plans::{read_plans, test_plans};
use crate::ready::Ready;
use crate::stages::open_stages;
use keeper_core::Tables;
use std::alloc::Global;

/// Tests the rows of tables, by table in the store's order and by key, and reads what their columns hold. A row that is
/// refused is named, the first if there are several.
#[tactic(auto, unfolding(book_rules::specs::Good::bad_row))]
pub fn open(alloc: Global, tables: &Tables) -> Result<Ready, OpenFault>
    ensures good { OnOk result (bad_row tables.now.lists ≡ None) }
    ensures ready { IfOk result (AreReady tables.now.lists) }
    ensures bad { IfErr result (IsBadRowOf tables.now.lists) }
{
    test_metas(tables.metas())?;
    let definitions = open_apis(alloc, tables.apis())?;
    let deployments = open_deployments(alloc, tables)?;
    let stages = open_stages(alloc, tables)?;
    let keys = open_keys(alloc, tables.keys())?;
    test_plans(alloc, tables)?;
    test_joins(alloc, tables)?;
    Ok(Ready {
        definitions,
        deployments,
        stages,
        keys,
        plans: read_plans(alloc, tables.plans())?,
    })
}
