// Reads the members of a document.
ghost use Rattle.std.specs.Prelude.{◌≡◌, map, IfOk, OnOk};
ghost use Rattle.json_subset.specs.Documents.{IsPart, part, root_tree};
ghost use Rattle.api_parts.specs.Reading.{ReadsAs};
ghost use Rattle.api_resources.specs.Paths.{IsTree};
ghost use Rattle.api_resources.specs.Resources.{path_of};
ghost use Rattle.api_model.specs.Document as says;
ghost use Rattle.api_model.specs.Views.{IsPlanted, read_parts, top_of};

use api_members::{
    AuthorizersRead, GatewaysRead, read_authorizers, read_gateways, read_models, read_validators,
};
use api_parts::{ApiFault, GatewayRule, Method, Resource, TokenAuthorizer, Validator, below};
use api_reading::defer;
use api_reading::values::{member_at, missing_member, number, object, unknown_member};
use api_resources::{ResourcesRead, read_resources};
use gw_base::{Seq, Text};
use json_subset::{Doc, NodeId};
use resource_tree::Tree;
use schema_draft4::Schema;
use std::alloc::Global;

/// What is read of a document so far: whether its version and its resources stand, its parts, the tree of the paths, and
/// the fault that waits.
#[derive(Drop)]
pub struct TopRead {
    pub version: bool,
    pub listed: bool,
    pub models: Seq<(Text, Schema)>,
    pub validators: Seq<(Text, Validator)>,
    pub authorizers: Seq<TokenAuthorizer>,
    pub resources: Seq<Resource>,
    pub methods: Seq<Method>,
    pub gateway: Seq<(Text, GatewayRule)>,
    pub tree: Option<Tree>,
    pub waiting: Option<ApiFault>,
}

/// The parts of a document, and the tree of its paths.
#[derive(Drop)]
pub struct PartsRead {
    pub models: Seq<(Text, Schema)>,
    pub validators: Seq<(Text, Validator)>,
    pub authorizers: Seq<TokenAuthorizer>,
    pub resources: Seq<Resource>,
    pub methods: Seq<Method>,
    pub gateway: Seq<(Text, GatewayRule)>,
    pub tree: Tree,
}

// The resources.
#[tactic(auto, using(crate::proofs::Planted::planted_more))]
fn add_resources(
    alloc: Global,
    doc: &Doc,
    read: &mut TopRead,
    name: &str,
    id: NodeId,
) -> Result<(), ApiFault>
    requires { IsPart doc.now id }
    ensures read { ReadsAs (λ (_ : Unit {0}). top_of read.new) (says.resources_added (root_tree doc.now) (top_of read.old) name.now (part doc.now id)) result }
    ensures planted { OnOk result (IsPlanted read.new) }
{
    let (resources, tree) = read_resources(alloc, doc, name, id)?;
    let ResourcesRead {
        list,
        methods,
        waiting,
    } = resources;
    defer(alloc, &mut read.waiting, name, waiting)?;
    read.listed = true;
    read.resources = list;
    read.methods = methods;
    read.tree = tree;
    Ok(())
}

// The gateway's own answers.
#[tactic(auto, using(crate::proofs::Planted::planted_waits))]
fn add_gateways(
    alloc: Global,
    doc: &Doc,
    read: &mut TopRead,
    name: &str,
    id: NodeId,
) -> Result<(), ApiFault>
    requires part { IsPart doc.now id }
    requires planted { IsPlanted read.old }
    ensures read { ReadsAs (λ (_ : Unit {0}). top_of read.new) (says.gateways_added (top_of read.old) name.now (part doc.now id)) result }
    ensures planted { OnOk result (IsPlanted read.new) }
{
    let GatewaysRead { list, waiting } = read_gateways(alloc, doc, name, id)?;
    defer(alloc, &mut read.waiting, name, waiting)?;
    read.gateway = list;
    Ok(())
}

#[tactic(auto, using(crate::proofs::Planted::planted_waits))]
fn add_authorizers(
    alloc: Global,
    doc: &Doc,
    read: &mut TopRead,
    name: &str,
    id: NodeId,
) -> Result<(), ApiFault>
    requires part { IsPart doc.now id }
    requires planted { IsPlanted read.old }
    ensures read { ReadsAs (λ (_ : Unit {0}). top_of read.new) (says.authorizers_added (top_of read.old) name.now (part doc.now id)) result }
    ensures planted { OnOk result (IsPlanted read.new) }
{
    let AuthorizersRead { list, waiting } = read_authorizers(alloc, doc, name, id)?;
    defer(alloc, &mut read.waiting, name, waiting)?;
    read.authorizers = list;
    Ok(())
}

fn add_member(
    alloc: Global,
    doc: &Doc,
    read: &mut TopRead,
    name: &str,
    id: NodeId,
) -> Result<(), ApiFault>
    requires part { IsPart doc.now id }
    requires planted { IsPlanted read.old }
    ensures read { ReadsAs (λ (_ : Unit {0}). top_of read.new) (says.document_member (root_tree doc.now) (top_of read.old) name.now (part doc.now id)) result }
    ensures planted { OnOk result (IsPlanted read.new) }
{
    if name == "version" {
        let _one = number(alloc, doc, 1, 1, name, id)?;
        read.version = true;
        return Ok(());
    }
    if name == "models" {
        read.models = read_models(alloc, doc, name, id)?;
        return Ok(());
    }
    if name == "validators" {
        read.validators = read_validators(alloc, doc, name, id)?;
        return Ok(());
    }
    if name == "authorizers" {
        return add_authorizers(alloc, doc, read, name, id);
    }
    if name == "resources" {
        return add_resources(alloc, doc, read, name, id);
    }
    if name == "gatewayResponses" {
        return add_gateways(alloc, doc, read, name, id);
    }
    Err(unknown_member(alloc, name))
}

// The parts, where all that must stand is there, and no fault waits.
fn settle(alloc: Global, read: TopRead) -> Result<PartsRead, ApiFault>
    requires { IsPlanted read }
    ensures read { ReadsAs read_parts (says.parts_of (top_of read)) result }
    ensures tree { IfOk result (λ r. IsTree (map path_of r.resources) r.tree) }
{
    let TopRead {
        version,
        listed,
        models,
        validators,
        authorizers,
        resources,
        methods,
        gateway,
        tree,
        waiting,
    } = read;
    if !version {
        return Err(missing_member(alloc, "version"));
    }
    if !listed {
        return Err(missing_member(alloc, "resources"));
    }
    match waiting {
        Some(fault) => Err(fault),
        None => match tree {
            Some(tree) => Ok(PartsRead {
                models,
                validators,
                authorizers,
                resources,
                methods,
                gateway,
                tree,
            }),
            None => unreachable!(),
        },
    }
}

// No part.
fn nothing_read(alloc: Global) -> TopRead
    ensures top { top_of result ≡ says.nothing_read }
    ensures planted { IsPlanted result }
{
    TopRead {
        version: false,
        listed: false,
        models: Seq::new(alloc),
        validators: Seq::new(alloc),
        authorizers: Seq::new(alloc),
        resources: Seq::new(alloc),
        methods: Seq::new(alloc),
        gateway: Seq::new(alloc),
        tree: None,
        waiting: None,
    }
}

/// The parts of a document, or its first fault.
#[tactic(auto, unfolding(crate::specs::Document::stated_by))]
pub fn read_document(alloc: Global, doc: &Doc) -> Result<PartsRead, ApiFault>
    ensures read { ReadsAs read_parts (says.stated_by (root_tree doc.now)) result }
    ensures tree { IfOk result (λ r. IsTree (map path_of r.resources) r.tree) }
{
    let id = doc.root();
    let mut read = nothing_read(alloc);
    let count = object(alloc, doc, "", id)?;
    for i in 0..count {
        let (member, value) = member_at(doc, id, i);
        if let Err(fault) = add_member(alloc, doc, &mut read, member, value) {
            return Err(below(alloc, member, fault));
        }
    }
    settle(alloc, read)
}
