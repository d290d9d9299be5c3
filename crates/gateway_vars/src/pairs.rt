// Maps of names and values: parameters, and header fields.
ghost use Rattle.std.specs.Prelude.{◌≡◌, IfOk, OnOk};
ghost use Rattle.gateway_vars.specs.Input.{named_map as named_map_of, header_map as header_map_of};

use crate::texts::{found_value, made_value, text_value};
use call_facts::{first_value, header_value};
use gw_base::{Memory, Text, lower};
use std::alloc::Global;
use vtl_values::{MapMaker, Value};

/// The map of the names, each with the value of its first.
#[tactic(auto, unfolding(crate::specs::Input::named_map))]
pub(crate) fn named_map(alloc: Global, pairs: &[(Text, Text)]) -> Result<Value, Memory>
    ensures { IfOk result (λ v. v ≡ named_map_of pairs.now) }
{
    let mut map = MapMaker::new(alloc);
    for pair in pairs {
        let name = text_value(alloc, pair.0.as_str())?;
        let value = found_value(alloc, first_value(pairs, pair.0.as_str()))?;
        map.put(&name, value)?;
    }
    map.close(alloc)
}

/// The map of the names of header fields in lower case, each with the value of its first.
#[tactic(auto, unfolding(crate::specs::Input::header_map))]
pub(crate) fn header_map(alloc: Global, headers: &[(Text, Text)]) -> Result<Value, Memory>
    ensures { IfOk result (λ v. v ≡ header_map_of headers.now) }
{
    let mut map = MapMaker::new(alloc);
    for header in headers {
        let name = made_value(lower(alloc, header.0.as_str())?)?;
        let value = found_value(alloc, header_value(headers, header.0.as_str()))?;
        map.put(&name, value)?;
    }
    map.close(alloc)
}
