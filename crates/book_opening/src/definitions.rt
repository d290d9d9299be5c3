// The table `apis`, and the definitions of rows.
ghost use Rattle.std.specs.Prelude.{◌≡◌, ◌≢◌, reverse, map, None, IfOk, OnOk, IfErr};
ghost use Rattle.std.specs.Result.{result_ok};
ghost use Rattle.book_rules.specs.Good.{refused_by, takes_api};
ghost use Rattle.book_rules.specs.Stored.{definition_of};
ghost use Rattle.book_opening.specs.Faults.{IsFirstIn};
ghost use Rattle.book_opening.specs.Ready.{if_taken, definition_in};

use crate::fault::OpenFault;
use api_model::{Api, ApiCause, ApiFault};
use gw_base::{Memory, Shared, is_name};
use keeper_core::{ApiRow, Table};
use std::alloc::Global;

/// The most APIs.
const MOST_APIS: usize = 256;

// What was read, ready to be shared, where it wasn't refused.
fn share(alloc: Global, read: Result<Api, ApiFault>) -> Result<Option<Shared<Api>>, Memory>
    ensures api { IfOk result (λ api. api ≡ result_ok read) }
    ensures refused { OnOk result (IfErr read (λ fault. fault.cause ≢ ApiCause.Memory)) }
{
    match read {
        Ok(api) => Ok(Some(Shared::new(alloc, api)?)),
        Err(
            ApiFault {
                cause: ApiCause::Memory,
                ..
            },
        ) => Err(Memory),
        Err(_) => Ok(None),
    }
}

/// The definition of two columns, where it is read.
pub(crate) fn read_definition(
    alloc: Global,
    text: u64,
    source: &str,
) -> Result<Option<Shared<Api>>, Memory>
    ensures { IfOk result (λ api. api ≡ definition_in text source.now) }
{
    match text {
        0 => share(alloc, Api::read(alloc, source.as_bytes())),
        1 => share(alloc, Api::text(alloc, source)),
        _ => Ok(None),
    }
}

// The definition of a row, where the row is taken.
#[tactic(auto, unfolding(book_rules::specs::Limits::most_apis))]
fn read_api(alloc: Global, before: &[ApiRow], row: &ApiRow) -> Result<Option<Shared<Api>>, Memory>
    ensures { IfOk result (λ api. api ≡ if_taken (takes_api (reverse before.now) row.now) (definition_of row.now)) }
{
    if before.len() >= MOST_APIS || !is_name(row.api.as_str()) {
        return Ok(None);
    }
    read_definition(alloc, row.text, row.source.as_str())
}

/// Tests the APIs, and reads their definitions.
pub(crate) fn open_apis(alloc: Global, rows: &[ApiRow]) -> Result<Vec<Shared<Api>>, OpenFault>
    ensures taken { OnOk result (refused_by takes_api rows.now ≡ None) }
    ensures read { IfOk result (λ definitions. definitions.items ≡ map definition_of rows.now) }
    ensures refused { IfErr result (IsFirstIn Table.Apis (refused_by takes_api rows.now)) }
{
    let mut definitions = Vec::new(alloc);
    for (i, row) in rows.iter().enumerate() {
        let Some(definition) = read_api(alloc, &rows[..i], row)? else {
            return Err(OpenFault::BadRow(Table::Apis, i as u64));
        };
        definitions.push(definition)?;
    }
    Ok(definitions)
}
