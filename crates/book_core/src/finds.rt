// Rows by their keys, with what they hold.
ghost use Rattle.std.specs.Prelude.{◌≡◌, Some, IfSome};
ghost use Rattle.std.specs.Option.{option_map, option_copied};
ghost use Rattle.keeper_core.specs.Lists.{Ascends, api_row, deployment_row, key_behind, key_row, stage_row};
ghost use Rattle.keeper_core.specs.Places.{row_at};
ghost use Rattle.book_rules.specs.Stored.{definition_of, deployed_of};
ghost use Rattle.book_rules.specs.PlanCommands.{key_with};
ghost use Rattle.book_opening.specs.Ready.{AreReady, standing_of};

use api_model::Api;
use book_opening::{Ready, Standing};
use gw_base::Shared;
use keeper_core::{KeyRow, Place, Tables};

// The item at the place of a row, in a list that goes beside the rows.
fn item_at<T>(items: &[T], place: Place) -> Option<&T>
    ensures { option_copied result ≡ row_at place items.now }
{
    match place {
        Place::At(i) => items.get(i),
        Place::Before(_) => None,
    }
}

/// The definition of an API.
pub fn find_definition<'a>(tables: &Tables, ready: &'a Ready, api: &str) -> Option<&'a Shared<Api>>
    requires ready { AreReady tables.now.lists ready.now }
    ensures { option_copied result ≡ option_map definition_of (api_row tables.now.lists api.now) }
{
    item_at(&ready.definitions, tables.place_of_api(api))
}

/// A deployment of an API.
pub fn find_deployment<'a>(
    tables: &Tables,
    ready: &'a Ready,
    api: &str,
    number: u64,
) -> Option<&'a Shared<Api>>
    requires ready { AreReady tables.now.lists ready.now }
    ensures { option_copied result ≡ option_map deployed_of (deployment_row tables.now.lists api.now number) }
{
    item_at(&ready.deployments, tables.place_of_deployment(api, number))
}

/// A stage that stands.
pub fn find_stage<'a>(
    tables: &Tables,
    ready: &'a Ready,
    api: &str,
    stage: &str,
) -> Option<&'a Standing>
    requires ready { AreReady tables.now.lists ready.now }
    ensures { option_copied result ≡ option_map standing_of (stage_row tables.now.lists api.now stage.now) }
{
    item_at(&ready.stages, tables.place_of_stage(api, stage))
}

/// The key of this value.
pub fn find_key<'a>(tables: &'a Tables, ready: &Ready, value: &str) -> Option<&'a KeyRow>
    requires ready { AreReady tables.now.lists ready.now }
    ensures value { option_copied result ≡ key_with tables.now.lists value.now }
    ensures row { IfSome (option_copied result) (λ row. key_row tables.now.lists row.key ≡ Some row) }
{
    if tables.keys().is_empty() {
        return None;
    }
    match ready.keys.find(value) {
        Some(key) => tables.key(key.as_str()),
        None => None,
    }
}

/// The keys stand in the order of their names. Nothing is done.
pub fn keys_ascend(tables: &Tables)
    ensures { Ascends (λ row. key_behind row.key) tables.now.lists.keys }
{
    let _ = tables.keys();
}
