// What is mapped into a request.
ghost use Rattle.std.specs.Prelude.{◌≡◌, IfOk};
ghost use Rattle.integration_request.specs.Mapping.{is_onto as is_onto_of, mapped as mapped_of, mapped_pair as mapped_pair_of, mapped_pairs as mapped_pairs_of, mapped_value as mapped_value_of, mapped_values as mapped_values_of, name_onto as name_onto_of};

use crate::asking::Asking;
use crate::placing::path_value;
use api_model::{Mapping, ParameterPlace};
use gw_base::{Memory, Seq, Text, lower};
use std::alloc::Global;
use wire_text::PathValue;

/// What mappings write into a request, those that have a value, in their order: headers with their names in lower case, pairs
/// of the query, and values of the uri's placeholders.
#[derive(Drop)]
pub struct Mapped {
    pub headers: Seq<(Text, Text)>,
    pub query: Seq<(Text, Text)>,
    pub path: Seq<PathValue>,
}

#[tactic(auto, unfolding(crate::specs::Mapping::is_onto))]
fn is_onto(place: ParameterPlace, other: ParameterPlace) -> bool
    ensures { result ≡ is_onto_of place other }
{
    match (place, other) {
        (ParameterPlace::Path, ParameterPlace::Path) => true,
        (ParameterPlace::Query, ParameterPlace::Query) => true,
        (ParameterPlace::Header, ParameterPlace::Header) => true,
        _ => false,
    }
}

fn name_onto(alloc: Global, place: ParameterPlace, name: &Text) -> Result<Text, Memory>
    ensures { IfOk result (λ made. made ≡ name_onto_of place name.now) }
{
    match place {
        ParameterPlace::Path => name.copy(alloc),
        ParameterPlace::Query => name.copy(alloc),
        ParameterPlace::Header => Ok(Text::of(lower(alloc, name.as_str())?)),
    }
}

fn mapped_pair(
    alloc: Global,
    place: ParameterPlace,
    asking: &Asking,
    mapping: &Mapping,
) -> Result<Option<(Text, Text)>, Memory>
    ensures { IfOk result (λ pair. pair ≡ mapped_pair_of place asking.now mapping.now) }
{
    if !is_onto(place, mapping.place) {
        return Ok(None);
    }
    match asking.value(alloc, &mapping.origin)? {
        Some(value) => Ok(Some((name_onto(alloc, place, &mapping.name)?, value))),
        None => Ok(None),
    }
}

fn mapped_pairs(
    alloc: Global,
    place: ParameterPlace,
    asking: &Asking,
    mappings: &[Mapping],
) -> Result<Vec<(Text, Text)>, Memory>
    ensures { IfOk result (λ made. made.items ≡ mapped_pairs_of place asking.now mappings.now) }
{
    let mut made = Vec::new(alloc);
    for mapping in mappings {
        if let Some(pair) = mapped_pair(alloc, place, asking, mapping)? {
            made.push(pair)?;
        }
    }
    Ok(made)
}

fn mapped_value(
    alloc: Global,
    resource: &str,
    asking: &Asking,
    mapping: &Mapping,
) -> Result<Option<PathValue>, Memory>
    ensures { IfOk result (λ value. value ≡ mapped_value_of resource.now asking.now mapping.now) }
{
    if !is_onto(ParameterPlace::Path, mapping.place) {
        return Ok(None);
    }
    let value = asking.value(alloc, &mapping.origin)?;
    path_value(alloc, resource, mapping, value)
}

fn mapped_values(
    alloc: Global,
    resource: &str,
    asking: &Asking,
    mappings: &[Mapping],
) -> Result<Vec<PathValue>, Memory>
    ensures { IfOk result (λ made. made.items ≡ mapped_values_of resource.now asking.now mappings.now) }
{
    let mut made = Vec::new(alloc);
    for mapping in mappings {
        if let Some(value) = mapped_value(alloc, resource, asking, mapping)? {
            made.push(value)?;
        }
    }
    Ok(made)
}

/// What the mappings of a method of the resource of this path give.
pub fn map_parts(
    alloc: Global,
    resource: &str,
    asking: &Asking,
    mappings: &[Mapping],
) -> Result<Mapped, Memory>
    ensures { IfOk result (λ made. made ≡ mapped_of resource.now asking.now mappings.now) }
{
    Ok(Mapped {
        headers: Seq::of(mapped_pairs(alloc, ParameterPlace::Header, asking, mappings)?),
        query: Seq::of(mapped_pairs(alloc, ParameterPlace::Query, asking, mappings)?),
        path: Seq::of(mapped_values(alloc, resource, asking, mappings)?),
    })
}
