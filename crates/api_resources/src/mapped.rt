// Mappings.
ghost use Rattle.std.specs.Prelude.{◌≡◌, ◌++◌, ◌∷◌, [], IfOk, MatchResult};
ghost use Rattle.std.specs.Option.{option_map};
ghost use Rattle.json_subset.specs.Documents.{IsPart, part};
ghost use Rattle.api_parts.specs.Reading.{Reads, ReadsAs};
ghost use Rattle.api_resources.specs.Mapped as says;

use api_mappings::{request_source, request_target, response_source, response_target};
use api_parts::{ApiCause, ApiFault, Mapping, Origin, ParameterPlace, below, no_memory};
use api_reading::defer_bad_mapping;
use api_reading::values::{copy, member_at, object, text};
use gw_base::{Memory, Seq};
use json_subset::{Doc, NodeId};
use std::alloc::Global;

/// The message that values are mapped into.
#[derive(Clone, Copy, Debug, PartialEq, Eq)]
pub enum Side {
    /// A backend's request.
    Request,
    /// An answer.
    Response,
}

/// The mappings that are read, and the first fault of theirs that waits.
#[derive(Drop)]
pub struct MappingsRead {
    pub list: Seq<Mapping>,
    pub waiting: Option<ApiFault>,
}

fn target(side: Side, text: &str) -> Option<(ParameterPlace, &str)>
    ensures { option_map (λ s. (s.0, s.1.now)) result ≡ says.target_of side text.now }
{
    match side {
        Side::Request => request_target(text),
        Side::Response => response_target(text),
    }
}

fn source(alloc: Global, side: Side, path: &str, text: &str) -> Result<Option<Origin>, Memory>
    ensures { IfOk result (λ o. o ≡ says.source_of side path.now text.now) }
{
    match side {
        Side::Request => request_source(alloc, path, text),
        Side::Response => response_source(alloc, text),
    }
}

fn list_mapping(
    alloc: Global,
    list: &mut Seq<Mapping>,
    place: ParameterPlace,
    name: &str,
    origin: Origin,
) -> Result<(), ApiFault>
    ensures { MatchResult result (λ _. list.new ≡ list.old ++ (record { place = place; name = name.now; origin = origin }) ∷ []) (λ e. e.cause ≡ ApiCause.Memory) }
{
    let name = copy(alloc, name)?;
    match list.push(Mapping {
        place,
        name,
        origin,
    }) {
        Ok(()) => Ok(()),
        Err(_) => Err(no_memory(alloc)),
    }
}

fn with_mapping(
    alloc: Global,
    side: Side,
    read: &mut MappingsRead,
    name: &str,
    origin: Option<Origin>,
) -> Result<(), ApiFault>
    ensures { MatchResult result (λ _. read.new ≡ says.with_mapping read.old name.now (says.target_of side name.now) origin) (λ e. e.cause ≡ ApiCause.Memory) }
{
    match target(side, name) {
        Some((place, target)) => match origin {
            Some(origin) => list_mapping(alloc, &mut read.list, place, target, origin),
            None => defer_bad_mapping(alloc, &mut read.waiting, name),
        },
        None => defer_bad_mapping(alloc, &mut read.waiting, name),
    }
}

fn add_mapping(
    alloc: Global,
    doc: &Doc,
    side: Side,
    path: &str,
    read: &mut MappingsRead,
    name: &str,
    id: NodeId,
) -> Result<(), ApiFault>
    requires { IsPart doc.now id }
    ensures { ReadsAs (λ (_ : Unit {0}). read.new) (says.mappings_member side path.now read.old name.now (part doc.now id)) result }
{
    let text = text(alloc, doc, name, id)?;
    match source(alloc, side, path, text.as_str()) {
        Ok(origin) => with_mapping(alloc, side, read, name, origin),
        Err(_) => Err(no_memory(alloc)),
    }
}

/// The mappings of a method of the resource of this path.
pub fn read_mappings(
    alloc: Global,
    doc: &Doc,
    side: Side,
    path: &str,
    name: &str,
    id: NodeId,
) -> Result<MappingsRead, ApiFault>
    requires { IsPart doc.now id }
    ensures { Reads (says.mappings_in side path.now name.now (part doc.now id)) result }
{
    let mut read = MappingsRead {
        list: Seq::new(alloc),
        waiting: None,
    };
    let count = object(alloc, doc, name, id)?;
    for i in 0..count {
        let (member, value) = member_at(doc, id, i);
        if let Err(fault) = add_mapping(alloc, doc, side, path, &mut read, member, value) {
            return Err(below(alloc, member, fault));
        }
    }
    Ok(read)
}
