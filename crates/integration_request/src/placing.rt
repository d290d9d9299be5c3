// The values of a uri's placeholders.
ghost use Rattle.std.specs.Prelude.{◌≡◌, ◌++◌, IfOk, OnOk, map};
ghost use Rattle.std.specs.List.{list_any};
ghost use Rattle.integration_request.specs.PathValues.{has_greedy as has_greedy_of, is_greedy as is_greedy_of, is_greedy_at as is_greedy_at_of, is_greedy_part as is_greedy_part_of, over_mapped as over_mapped_of, path_value as path_value_of, plain as plain_of};

use api_model::{Mapping, Origin, ParameterPlace};
use gw_base::{Memory, Seq, Text};
use resource_tree::{Part, read_parts};
use std::alloc::Global;
use wire_text::PathValue;

fn is_greedy_part(part: &Part, name: &str) -> bool
    ensures { result ≡ is_greedy_part_of name.now part.now }
{
    match part {
        Part::Literal(_) => false,
        Part::Parameter(_) => false,
        Part::Greedy(other) => other.as_str() == name,
    }
}

fn any_greedy(parts: &[Part], name: &str) -> bool
    ensures { result ≡ list_any (is_greedy_part_of name.now) parts.now }
{
    parts.iter().any(|part| is_greedy_part(part, name))
}

fn has_greedy(alloc: Global, resource: &str, name: &str) -> Result<bool, Memory>
    ensures { IfOk result (λ greedy. greedy ≡ has_greedy_of resource.now name.now) }
{
    match read_parts(alloc, resource)? {
        Some(parts) => Ok(any_greedy(&parts, name)),
        None => Ok(false),
    }
}

fn is_greedy_at(
    alloc: Global,
    resource: &str,
    place: ParameterPlace,
    name: &str,
) -> Result<bool, Memory>
    ensures { IfOk result (λ greedy. greedy ≡ is_greedy_at_of resource.now place name.now) }
{
    match place {
        ParameterPlace::Path => has_greedy(alloc, resource, name),
        ParameterPlace::Query => Ok(false),
        ParameterPlace::Header => Ok(false),
    }
}

// Whether a source is the parameter of the path that the resource has as `{N+}`.
fn is_greedy(alloc: Global, resource: &str, origin: &Origin) -> Result<bool, Memory>
    ensures { IfOk result (λ greedy. greedy ≡ is_greedy_of resource.now origin.now) }
{
    match origin {
        Origin::Parameter(place, name) => is_greedy_at(alloc, resource, *place, name.as_str()),
        Origin::Static(_) => Ok(false),
        Origin::Body(_) => Ok(false),
        Origin::ReplyHeader(_) => Ok(false),
        Origin::Context(_) => Ok(false),
        Origin::StageVariable(_) => Ok(false),
    }
}

/// The value of a placeholder that a mapping of a method of this resource gives.
pub fn path_value(
    alloc: Global,
    resource: &str,
    mapping: &Mapping,
    value: Option<Text>,
) -> Result<Option<PathValue>, Memory>
    ensures { IfOk result (λ made. made ≡ path_value_of resource.now mapping.now value) }
{
    match value {
        Some(value) => Ok(Some(PathValue {
            name: mapping.name.copy(alloc)?,
            value,
            greedy: is_greedy(alloc, resource, &mapping.origin)?,
        })),
        None => Ok(None),
    }
}

fn plain(alloc: Global, over: &(Text, Text)) -> Result<PathValue, Memory>
    ensures { IfOk result (λ made. made ≡ plain_of over.now) }
{
    Ok(PathValue {
        name: over.0.copy(alloc)?,
        value: over.1.copy(alloc)?,
        greedy: false,
    })
}

fn copy(alloc: Global, value: &PathValue) -> Result<PathValue, Memory>
    ensures { IfOk result (λ made. made ≡ value.now) }
{
    Ok(PathValue {
        name: value.name.copy(alloc)?,
        value: value.value.copy(alloc)?,
        greedy: value.greedy,
    })
}

fn plain_values(alloc: Global, overs: &[(Text, Text)]) -> Result<Vec<PathValue>, Memory>
    ensures { IfOk result (λ made. made.items ≡ map plain_of overs.now) }
{
    let mut made = Vec::new(alloc);
    for over in overs {
        made.push(plain(alloc, over)?)?;
    }
    Ok(made)
}

fn push_all(alloc: Global, made: &mut Vec<PathValue>, values: &[PathValue]) -> Result<(), Memory>
    ensures { OnOk result (made.new.items ≡ made.old.items ++ values.now) }
{
    for value in values {
        made.push(copy(alloc, value)?)?;
    }
    Ok(())
}

/// What a template writes over, before what is mapped.
pub fn over_mapped(
    alloc: Global,
    overs: &[(Text, Text)],
    mapped: &[PathValue],
) -> Result<Seq<PathValue>, Memory>
    ensures { IfOk result (λ made. made ≡ over_mapped_of overs.now mapped.now) }
{
    let mut made = plain_values(alloc, overs)?;
    push_all(alloc, &mut made, mapped)?;
    Ok(Seq::of(made))
}
