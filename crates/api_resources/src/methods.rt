// Methods.
ghost use Rattle.std.specs.Prelude.{◌≡◌, ◌++◌, ◌∷◌, [], codes, MatchResult, Some};
ghost use Rattle.json_subset.specs.Documents.{IsPart, form, part, root_tree};
ghost use Rattle.json_values.specs.Parts.{entries_of};
ghost use Rattle.api_parts.specs.Reading.{Reads, ReadsAs};
ghost use Rattle.api_resources.specs.Methods as says;

use crate::integrations::read_integration;
use api_mappings::parameter;
use api_parts::{
    ApiCause, ApiFault, Integration, Method, Parameter, ParameterPlace, below, no_memory,
};
use api_reading::values::{
    copy, entry_count, fault_here, flag, member_at, missing_member, object, text, unknown_member,
};
use api_reading::{defer, defer_bad_mapping};
use gw_base::{Seq, Text};
use json_subset::{Doc, NodeId};
use status_table::StatusTables;
use std::alloc::Global;

/// What is read of a method so far.
#[derive(Drop)]
pub struct MethodRead {
    pub api_key_required: bool,
    pub authorizer: Option<u32>,
    pub validator: Option<u32>,
    pub parameters: Seq<Parameter>,
    pub models: Seq<(Text, u32)>,
    pub integration: Option<Integration>,
    pub waiting: Option<ApiFault>,
}

/// The parameters that are read, and the first fault of theirs that waits.
#[derive(Drop)]
pub struct ParametersRead {
    pub list: Seq<Parameter>,
    pub waiting: Option<ApiFault>,
}

/// The media types that are read, each with the number of its model, and the first fault of theirs that waits.
#[derive(Drop)]
pub struct NamedRead {
    pub list: Seq<(Text, u32)>,
    pub waiting: Option<ApiFault>,
}

// The number of the first member of this name.
fn number_in(doc: &Doc, id: NodeId, name: &str) -> Option<u32>
    requires { IsPart doc.now id }
    ensures { result ≡ says.number_from 0 (entries_of (form (part doc.now id))) name.now }
{
    let count = entry_count(doc, id);
    for i in 0..count {
        let (member, _) = member_at(doc, id, i);
        if member == name {
            return Some(i);
        }
    }
    None
}

// The number by which something is defined under this name, in this member of the document.
#[tactic(auto, unfolding(crate::specs::Methods::number_among))]
fn number_among(doc: &Doc, member: &str, name: &str) -> Option<u32>
    ensures { result ≡ says.number_among (root_tree doc.now) member.now name.now }
{
    match doc.member(doc.root(), member) {
        Some(id) => number_in(doc, id, name),
        None => None,
    }
}

fn defer_no_such(
    alloc: Global,
    waiting: &mut Option<ApiFault>,
    name: &str,
    other: Text,
) -> Result<(), ApiFault>
    ensures { MatchResult result (λ _. waiting.new ≡ says.no_such waiting.old name.now other) (λ e. e.cause ≡ ApiCause.Memory) }
{
    let fault = fault_here(alloc, ApiCause::NoSuch(other));
    defer(alloc, waiting, name, Some(fault))
}

fn add_parameter(
    alloc: Global,
    doc: &Doc,
    path: &str,
    read: &mut ParametersRead,
    name: &str,
    id: NodeId,
) -> Result<(), ApiFault>
    requires { IsPart doc.now id }
    ensures { ReadsAs (λ (_ : Unit {0}). read.new) (says.parameters_member path.now read.old name.now (part doc.now id)) result }
{
    let required = flag(alloc, doc, name, id)?;
    let found = match parameter(alloc, path, name) {
        Ok(found) => found,
        Err(_) => return Err(no_memory(alloc)),
    };
    match found {
        Some((place, spot)) => with_parameter(alloc, read, place, spot, required),
        None => defer_bad_mapping(alloc, &mut read.waiting, name),
    }
}

fn with_parameter(
    alloc: Global,
    read: &mut ParametersRead,
    place: ParameterPlace,
    name: &str,
    required: bool,
) -> Result<(), ApiFault>
    ensures { MatchResult result (λ _. read.new ≡ says.with_parameter read.old [] required (Some (place, name.now))) (λ e. e.cause ≡ ApiCause.Memory) }
{
    let name = copy(alloc, name)?;
    match read.list.push(Parameter {
        place,
        name,
        required,
    }) {
        Ok(()) => Ok(()),
        Err(_) => Err(no_memory(alloc)),
    }
}

fn read_parameters(
    alloc: Global,
    doc: &Doc,
    path: &str,
    name: &str,
    id: NodeId,
) -> Result<ParametersRead, ApiFault>
    requires { IsPart doc.now id }
    ensures { Reads (says.parameters_in path.now name.now (part doc.now id)) result }
{
    let mut read = ParametersRead {
        list: Seq::new(alloc),
        waiting: None,
    };
    let count = object(alloc, doc, name, id)?;
    for i in 0..count {
        let (member, value) = member_at(doc, id, i);
        if let Err(fault) = add_parameter(alloc, doc, path, &mut read, member, value) {
            return Err(below(alloc, member, fault));
        }
    }
    Ok(read)
}

fn list_model(
    alloc: Global,
    list: &mut Seq<(Text, u32)>,
    name: &str,
    number: u32,
) -> Result<(), ApiFault>
    ensures { MatchResult result (λ _. list.new ≡ list.old ++ (name.now, number) ∷ []) (λ e. e.cause ≡ ApiCause.Memory) }
{
    let name = copy(alloc, name)?;
    match list.push((name, number)) {
        Ok(()) => Ok(()),
        Err(_) => Err(no_memory(alloc)),
    }
}

fn add_model(
    alloc: Global,
    doc: &Doc,
    read: &mut NamedRead,
    name: &str,
    id: NodeId,
) -> Result<(), ApiFault>
    requires { IsPart doc.now id }
    ensures { ReadsAs (λ (_ : Unit {0}). read.new) (says.named_models_member (root_tree doc.now) read.old name.now (part doc.now id)) result }
{
    let other = text(alloc, doc, name, id)?;
    match number_among(doc, "models", other.as_str()) {
        Some(number) => list_model(alloc, &mut read.list, name, number),
        None => defer_no_such(alloc, &mut read.waiting, name, other),
    }
}

fn read_models(alloc: Global, doc: &Doc, name: &str, id: NodeId) -> Result<NamedRead, ApiFault>
    requires { IsPart doc.now id }
    ensures { Reads (says.named_models_in (root_tree doc.now) name.now (part doc.now id)) result }
{
    let mut read = NamedRead {
        list: Seq::new(alloc),
        waiting: None,
    };
    let count = object(alloc, doc, name, id)?;
    for i in 0..count {
        let (member, value) = member_at(doc, id, i);
        if let Err(fault) = add_model(alloc, doc, &mut read, member, value) {
            return Err(below(alloc, member, fault));
        }
    }
    Ok(read)
}

fn add_authorizer(
    alloc: Global,
    doc: &Doc,
    read: &mut MethodRead,
    name: &str,
    other: Text,
) -> Result<(), ApiFault>
    ensures { MatchResult result (λ _. read.new ≡ says.with_authorizer read.old name.now other (says.number_among (root_tree doc.now) (codes "authorizers") other)) (λ e. e.cause ≡ ApiCause.Memory) }
{
    match number_among(doc, "authorizers", other.as_str()) {
        Some(number) => {
            read.authorizer = Some(number);
            Ok(())
        }
        None => defer_no_such(alloc, &mut read.waiting, name, other),
    }
}

fn add_validator(
    alloc: Global,
    doc: &Doc,
    read: &mut MethodRead,
    name: &str,
    other: Text,
) -> Result<(), ApiFault>
    ensures { MatchResult result (λ _. read.new ≡ says.with_validator read.old name.now other (says.number_among (root_tree doc.now) (codes "validators") other)) (λ e. e.cause ≡ ApiCause.Memory) }
{
    match number_among(doc, "validators", other.as_str()) {
        Some(number) => {
            read.validator = Some(number);
            Ok(())
        }
        None => defer_no_such(alloc, &mut read.waiting, name, other),
    }
}

fn add_member(
    alloc: Global,
    doc: &Doc,
    tables: &mut StatusTables,
    path: &str,
    read: &mut MethodRead,
    name: &str,
    id: NodeId,
) -> Result<(), ApiFault>
    requires { IsPart doc.now id }
    ensures { ReadsAs (λ (_ : Unit {0}). read.new) (says.method_member (root_tree doc.now) path.now read.old name.now (part doc.now id)) result }
{
    if name == "apiKeyRequired" {
        read.api_key_required = flag(alloc, doc, name, id)?;
        return Ok(());
    }
    if name == "authorizer" {
        let other = text(alloc, doc, name, id)?;
        return add_authorizer(alloc, doc, read, name, other);
    }
    if name == "validator" {
        let other = text(alloc, doc, name, id)?;
        return add_validator(alloc, doc, read, name, other);
    }
    add_inner(alloc, doc, tables, path, read, name, id)
}

#[tactic(auto, unfolding(crate::specs::Methods::parameters_member_in))]
fn add_parameters(
    alloc: Global,
    doc: &Doc,
    path: &str,
    read: &mut MethodRead,
    name: &str,
    id: NodeId,
) -> Result<(), ApiFault>
    requires { IsPart doc.now id }
    ensures { ReadsAs (λ (_ : Unit {0}). read.new) (says.parameters_member_in path.now read.old name.now (part doc.now id)) result }
{
    let ParametersRead { list, waiting } = read_parameters(alloc, doc, path, name, id)?;
    defer(alloc, &mut read.waiting, name, waiting)?;
    read.parameters = list;
    Ok(())
}

#[tactic(auto, unfolding(crate::specs::Methods::models_member_in))]
fn add_models(
    alloc: Global,
    doc: &Doc,
    read: &mut MethodRead,
    name: &str,
    id: NodeId,
) -> Result<(), ApiFault>
    requires { IsPart doc.now id }
    ensures { ReadsAs (λ (_ : Unit {0}). read.new) (says.models_member_in (root_tree doc.now) read.old name.now (part doc.now id)) result }
{
    let NamedRead { list, waiting } = read_models(alloc, doc, name, id)?;
    defer(alloc, &mut read.waiting, name, waiting)?;
    read.models = list;
    Ok(())
}

#[tactic(auto, unfolding(crate::specs::Methods::integration_member_in))]
fn add_integration(
    alloc: Global,
    doc: &Doc,
    tables: &mut StatusTables,
    path: &str,
    read: &mut MethodRead,
    name: &str,
    id: NodeId,
) -> Result<(), ApiFault>
    requires { IsPart doc.now id }
    ensures { ReadsAs (λ (_ : Unit {0}). read.new) (says.integration_member_in path.now read.old name.now (part doc.now id)) result }
{
    let (integration, fault) = read_integration(alloc, doc, tables, path, name, id)?;
    defer(alloc, &mut read.waiting, name, fault)?;
    read.integration = Some(integration);
    Ok(())
}

// Parameters, models and the integration.
fn add_inner(
    alloc: Global,
    doc: &Doc,
    tables: &mut StatusTables,
    path: &str,
    read: &mut MethodRead,
    name: &str,
    id: NodeId,
) -> Result<(), ApiFault>
    requires { IsPart doc.now id }
    ensures { ReadsAs (λ (_ : Unit {0}). read.new) (says.inner_member (root_tree doc.now) path.now read.old name.now (part doc.now id)) result }
{
    if name == "parameters" {
        return add_parameters(alloc, doc, path, read, name, id);
    }
    if name == "models" {
        return add_models(alloc, doc, read, name, id);
    }
    if name == "integration" {
        return add_integration(alloc, doc, tables, path, read, name, id);
    }
    Err(unknown_member(alloc, name))
}

fn method_of(
    alloc: Global,
    verb: &str,
    read: MethodRead,
) -> Result<(Method, Option<ApiFault>), ApiFault>
    ensures { Reads (says.method_of verb.now read) result }
{
    let MethodRead {
        api_key_required,
        authorizer,
        validator,
        parameters,
        models,
        integration,
        waiting,
    } = read;
    let Some(integration) = integration else {
        return Err(missing_member(alloc, "integration"));
    };
    let verb = copy(alloc, verb)?;
    let method = Method {
        verb,
        api_key_required,
        authorizer,
        validator,
        parameters,
        models,
        integration,
    };
    Ok((method, waiting))
}

/// The method of this verb, of the resource of this path.
pub fn read_method(
    alloc: Global,
    doc: &Doc,
    tables: &mut StatusTables,
    path: &str,
    verb: &str,
    id: NodeId,
) -> Result<(Method, Option<ApiFault>), ApiFault>
    requires { IsPart doc.now id }
    ensures { Reads (says.method_in (root_tree doc.now) path.now verb.now (part doc.now id)) result }
{
    let mut read = MethodRead {
        api_key_required: false,
        authorizer: None,
        validator: None,
        parameters: Seq::new(alloc),
        models: Seq::new(alloc),
        integration: None,
        waiting: None,
    };
    let count = object(alloc, doc, verb, id)?;
    for i in 0..count {
        let (member, value) = member_at(doc, id, i);
        if let Err(fault) = add_member(alloc, doc, tables, path, &mut read, member, value) {
            return Err(below(alloc, member, fault));
        }
    }
    method_of(alloc, verb, read)
}
