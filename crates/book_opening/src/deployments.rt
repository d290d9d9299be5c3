// The table `deployments`.
ghost use Rattle.std.specs.Prelude.{◌≡◌, ◌==◌, ◌≤◌, true, reverse, map, None, IfOk, OnOk, IfErr};
ghost use Rattle.book_rules.specs.Good.{refused_by, next_number, takes_deployment, is_deployed as is_deployed_of};
ghost use Rattle.book_rules.specs.Stored.{deployed_of};
ghost use Rattle.book_opening.specs.Faults.{IsFirstIn};
ghost use Rattle.book_opening.specs.Ready.{if_taken};

use crate::definitions::read_definition;
use crate::fault::OpenFault;
use api_model::Api;
use gw_base::{Memory, Shared};
use keeper_core::{DeploymentRow, Table, Tables};
use std::alloc::Global;

/// The most deployments of an API.
const MOST_DEPLOYMENTS: u64 = 1024;

/// Whether a deployment of a stage stands.
#[tactic(auto, unfolding(book_rules::specs::Limits::most_deployments))]
pub(crate) fn is_deployed(tables: &Tables, api: &str, number: u64) -> bool
    ensures value { result ≡ is_deployed_of tables.now.lists api.now number }
    ensures small { result ≡ true → number ≤ 1024 }
{
    number <= MOST_DEPLOYMENTS && tables.deployment(api, number).is_some()
}

// Whether a row has the number that comes next among the deployments of its API, from 1.
fn is_next(before: &[DeploymentRow], row: &DeploymentRow) -> bool
    ensures { result ≡ (row.now.number == next_number row.now.api (reverse before.now)) }
{
    match before.last() {
        Some(last) if last.api.as_str() == row.api.as_str() => row.number > 0
            && row.number - 1 == last.number,
        _ => row.number == 1,
    }
}

// The definition of a row, where the row is taken.
#[tactic(auto, unfolding(book_rules::specs::Limits::most_deployments))]
fn read_deployment(
    alloc: Global,
    tables: &Tables,
    before: &[DeploymentRow],
    row: &DeploymentRow,
) -> Result<Option<Shared<Api>>, Memory>
    ensures { IfOk result (λ api. api ≡ if_taken (takes_deployment tables.now.lists (reverse before.now) row.now) (deployed_of row.now)) }
{
    if tables.api(row.api.as_str()).is_none()
        || !is_next(before, row)
        || row.number > MOST_DEPLOYMENTS
    {
        return Ok(None);
    }
    read_definition(alloc, row.text, row.source.as_str())
}

/// Tests the deployments, and reads their definitions.
pub(crate) fn open_deployments(
    alloc: Global,
    tables: &Tables,
) -> Result<Vec<Shared<Api>>, OpenFault>
    ensures taken { OnOk result (refused_by (takes_deployment tables.now.lists) tables.now.lists.deployments ≡ None) }
    ensures read { IfOk result (λ deployments. deployments.items ≡ map deployed_of tables.now.lists.deployments) }
    ensures refused { IfErr result (IsFirstIn Table.Deployments (refused_by (takes_deployment tables.now.lists) tables.now.lists.deployments)) }
{
    let rows = tables.deployments();
    let mut deployments = Vec::new(alloc);
    for (i, row) in rows.iter().enumerate() {
        let Some(deployment) = read_deployment(alloc, tables, &rows[..i], row)? else {
            return Err(OpenFault::BadRow(Table::Deployments, i as u64));
        };
        deployments.push(deployment)?;
    }
    Ok(deployments)
}
