// Which of the parameters that a method requires a request lacks.
ghost use Rattle.std.specs.Prelude.{◌≡◌, ℕ, List, map, IfOk};
ghost use Rattle.std.specs.Borrow.{Bor};
ghost use Rattle.std.specs.Option.{option_map};
ghost use Rattle.method_checks.specs.Missing.{is_lacking as is_lacking_of, is_missing as is_missing_of, missing_names as missing_names_of, value_in};

use api_model::{Parameter, ParameterPlace};
use call_facts::{Request, Target, first_value, header_value};
use gw_base::{Memory, Text};
use media_types::are_blank;
use resource_tree::Found;
use std::alloc::Global;

fn value_of<'a>(
    parameter: &Parameter,
    request: &'a Request,
    target: &'a Target,
    found: &'a Found,
) -> Option<&'a Text>
    ensures { option_map (λ v. v.now) result ≡ value_in request.now target.now found.now parameter.now.name parameter.now.place }
{
    let name = parameter.name.as_str();
    match parameter.place {
        ParameterPlace::Path => first_value(found.params.as_slice(), name),
        ParameterPlace::Query => first_value(target.query.as_slice(), name),
        ParameterPlace::Header => header_value(request.headers.as_slice(), name),
    }
}

fn is_lacking(value: Option<&Text>) -> bool
    ensures { result ≡ is_lacking_of (option_map (λ v. v.now) value.entry) }
{
    match value {
        Some(value) => are_blank(value.as_str()),
        None => true,
    }
}

fn is_missing(parameter: &Parameter, request: &Request, target: &Target, found: &Found) -> bool
    ensures { result ≡ is_missing_of request.now target.now found.now parameter.now }
{
    parameter.required && is_lacking(value_of(parameter, request, target, found))
}

/// The names of the parameters that are required and missing, in the order of the definition.
pub fn missing_names<'a>(
    alloc: Global,
    parameters: &'a [Parameter],
    request: &Request,
    target: &Target,
    found: &Found,
) -> Result<Vec<&'a str>, Memory>
    ensures { IfOk result (λ names. map (λ (name : Bor (List ℕ)). name.now) names.items ≡ missing_names_of request.now target.now found.now parameters.now) }
{
    let mut names = Vec::new(alloc);
    for parameter in parameters {
        if is_missing(parameter, request, target, found) {
            names.push(parameter.name.as_str())?;
        }
    }
    Ok(names)
}
