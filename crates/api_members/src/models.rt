// Models.
ghost use Rattle.std.specs.Prelude.{◌≡◌, ◌⊎◌, map, MatchResult, Ok, Err};
ghost use Rattle.json_subset.specs.Documents.{IsPart, part};
ghost use Rattle.api_parts.specs.Reading.{ReadsAs};
ghost use Rattle.schema_draft4.specs.Faults.{FaultNamesPart};
ghost use Rattle.api_members.specs.Models as says;
ghost use Rattle.api_members.specs.Causes.{IsCauseOf};

use api_parts::{ApiCause, ApiFault, ModelFault, below, no_memory};
use api_reading::values::{bad_member, copy, fault_here, member_at, object, unknown_member};
use gw_base::{Seq, Text, is_name};
use json_subset::{Doc, NodeId};
use schema_draft4::{Schema, SchemaFault};
use std::alloc::Global;

/// The most models of an API.
const MODELS: u32 = 300;

// The cause of a fault of a schema.
fn cause(alloc: Global, doc: &Doc, fault: &SchemaFault) -> Result<ApiCause, ApiFault>
    requires { FaultNamesPart doc.now fault.now }
    ensures { MatchResult result (λ c. IsCauseOf doc.now fault.now c) (λ e. e.cause ≡ ApiCause.Memory) }
{
    match fault {
        SchemaFault::BadKeyword(at) => Ok(ApiCause::Model(ModelFault::BadKeyword(doc.place(*at)))),
        SchemaFault::BadPattern(at) => Ok(ApiCause::Model(ModelFault::BadPattern(doc.place(*at)))),
        SchemaFault::Unsupported(name) => Ok(ApiCause::Model(ModelFault::Unsupported(copy(
            alloc,
            name.as_str(),
        )?))),
        SchemaFault::RefMissing(name) => Ok(ApiCause::Model(ModelFault::RefMissing(copy(
            alloc,
            name.as_str(),
        )?))),
        SchemaFault::RefCycle(name) => Ok(ApiCause::Model(ModelFault::RefCycle(copy(
            alloc,
            name.as_str(),
        )?))),
        SchemaFault::Memory => Err(no_memory(alloc)),
    }
}

#[tactic(auto, unfolding(crate::specs::Models::model_in), using(crate::proofs::Led::none_back, crate::proofs::Causes::refused))]
fn model(alloc: Global, doc: &Doc, id: NodeId) -> Result<Schema, ApiFault>
    requires { IsPart doc.now id }
    ensures { ReadsAs says.schemas_in (says.model_in (part doc.now id)) result }
{
    match Schema::read(alloc, doc, id) {
        Ok(schema) => Ok(schema),
        Err(fault) => match cause(alloc, doc, &fault) {
            Ok(cause) => Err(fault_here(alloc, cause)),
            Err(fault) => Err(fault),
        },
    }
}

fn add_model(
    alloc: Global,
    doc: &Doc,
    read: &mut Seq<(Text, Schema)>,
    name: &str,
    id: NodeId,
) -> Result<(), ApiFault>
    requires { IsPart doc.now id }
    ensures { ReadsAs (λ (_ : Unit {0}). map says.model_seen read.new) (says.models_member (map says.model_seen read.old) name.now (part doc.now id)) result }
{
    if !is_name(name) {
        return Err(unknown_member(alloc, name));
    }
    let schema = model(alloc, doc, id)?;
    let name = copy(alloc, name)?;
    match read.push((name, schema)) {
        Ok(()) => Ok(()),
        Err(_) => Err(no_memory(alloc)),
    }
}

/// The models, by their names.
pub fn read_models(
    alloc: Global,
    doc: &Doc,
    name: &str,
    id: NodeId,
) -> Result<Seq<(Text, Schema)>, ApiFault>
    requires { IsPart doc.now id }
    ensures { ReadsAs (map says.model_seen) (says.models_in name.now (part doc.now id)) result }
{
    let mut read = Seq::new(alloc);
    let count = object(alloc, doc, name, id)?;
    if count > MODELS {
        return Err(bad_member(alloc, name));
    }
    for i in 0..count {
        let (member, value) = member_at(doc, id, i);
        if let Err(fault) = add_model(alloc, doc, &mut read, member, value) {
            return Err(below(alloc, member, fault));
        }
    }
    Ok(read)
}
