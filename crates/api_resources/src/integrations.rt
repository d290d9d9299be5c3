// Integrations.
ghost use Rattle.std.specs.Prelude.{◌≡◌, codes, map, IfOk, IfSome, MatchResult, Some};
ghost use Rattle.std.specs.List.{list_all};
ghost use Rattle.std.specs.Option.{option_map};
ghost use Rattle.json_subset.specs.Documents.{IsPart, form, member_named, part};
ghost use Rattle.api_mappings.specs.Uris.{uri_of};
ghost use Rattle.api_parts.specs.Reading.{Reads, ReadsAs, first_of};
ghost use Rattle.api_resources.specs.Integrations as says;

use crate::mapped::{MappingsRead, Side, read_mappings};
use crate::rules::{RulesRead, read_rules};
use api_mappings::read_uri;
use api_parts::{
    ApiCause, ApiFault, Integration, IntegrationKind, Mapping, Passthrough, Piece, ResponseRule,
    Uri, below, no_memory,
};
use api_reading::values::{
    bad_member, fault_here, member_at, missing_member, number, object, text, unknown_member,
};
use api_reading::{defer, defer_bad_mapping, read_templates};
use gw_base::{Memory, Seq, Text};
use json_subset::{Doc, NodeId};
use status_table::StatusTables;
use std::alloc::Global;
use vtl_reader::Template;

/// What is read of an integration so far.
#[derive(Drop)]
pub struct IntegrationRead {
    pub method: Option<Text>,
    pub uri: Option<(Text, Uri)>,
    pub passthrough: Passthrough,
    pub parameters: Seq<Mapping>,
    pub templates: Seq<(Text, Template)>,
    pub responses: Seq<ResponseRule>,
    pub timeout: u32,
    pub waiting: Option<ApiFault>,
}

fn kind_named(name: &str) -> Option<IntegrationKind>
    ensures { result ≡ says.kind_named (Some name.now) }
{
    if name == "MOCK" {
        Some(IntegrationKind::Mock)
    } else if name == "HTTP" {
        Some(IntegrationKind::Http)
    } else if name == "HTTP_PROXY" {
        Some(IntegrationKind::HttpProxy)
    } else {
        None
    }
}

// What the `type` of an integration names.
fn kind_of(doc: &Doc, id: NodeId) -> Option<IntegrationKind>
    requires { IsPart doc.now id }
    ensures { result ≡ says.kind_of (part doc.now id) }
{
    match doc.member(id, "type") {
        Some(value) => match doc.text(value) {
            Some(name) => kind_named(name),
            None => None,
        },
        None => None,
    }
}

fn is_one_of(names: &[&str], name: &str) -> bool
    ensures { result ≡ says.is_one_of (map (λ n. n.now) names.now) name.now }
{
    for other in names {
        if *other == name {
            return true;
        }
    }
    false
}

// Whether an integration of this kind may have the member.
#[tactic(auto, unfolding(crate::specs::Integrations::may_have))]
fn may_have(kind: Option<IntegrationKind>, name: &str) -> bool
    ensures { result ≡ says.may_have kind name.now }
{
    match kind {
        Some(IntegrationKind::Mock) => !is_one_of(&["method", "uri", "parameters"], name),
        Some(IntegrationKind::Http) => true,
        Some(IntegrationKind::HttpProxy) => !is_one_of(
            &["templates", "passthrough", "responses"],
            name,
        ),
        None => true,
    }
}

/// Whether it is a verb.
#[tactic(auto, unfolding(crate::specs::Integrations::is_verb))]
pub fn is_verb(name: &str) -> bool
    ensures { result ≡ says.is_verb name.now }
{
    is_one_of(
        &["GET", "HEAD", "POST", "PUT", "PATCH", "DELETE", "OPTIONS"],
        name,
    )
}

fn read_method(alloc: Global, doc: &Doc, name: &str, id: NodeId) -> Result<Text, ApiFault>
    requires { IsPart doc.now id }
    ensures { Reads (says.verb_in name.now (part doc.now id)) result }
{
    let method = text(alloc, doc, name, id)?;
    if is_verb(method.as_str()) {
        Ok(method)
    } else {
        Err(bad_member(alloc, name))
    }
}

fn read_passthrough(
    alloc: Global,
    doc: &Doc,
    name: &str,
    id: NodeId,
) -> Result<Passthrough, ApiFault>
    requires { IsPart doc.now id }
    ensures { Reads (says.passthrough_in name.now (part doc.now id)) result }
{
    let text = text(alloc, doc, name, id)?;
    if text.as_str() == "WHEN_NO_MATCH" {
        Ok(Passthrough::WhenNoMatch)
    } else if text.as_str() == "WHEN_NO_TEMPLATES" {
        Ok(Passthrough::WhenNoTemplates)
    } else if text.as_str() == "NEVER" {
        Ok(Passthrough::Never)
    } else {
        Err(bad_member(alloc, name))
    }
}

// Whether a value is mapped onto this name of the path.
fn is_mapped(
    alloc: Global,
    doc: &Doc,
    parameters: Option<NodeId>,
    name: &str,
) -> Result<bool, Memory>
    requires { IfSome parameters (IsPart doc.now) }
    ensures { IfOk result (λ b. b ≡ says.is_mapped (option_map (part doc.now) parameters) name.now) }
{
    let Some(parameters) = parameters else {
        return Ok(false);
    };
    match format!(in alloc; "integration.request.path.{name}") {
        Ok(target) => Ok(doc.member(parameters, target.as_str()).is_some()),
        Err(_) => Err(Memory),
    }
}

fn has_mapping(
    alloc: Global,
    doc: &Doc,
    parameters: Option<NodeId>,
    piece: &Piece,
) -> Result<bool, Memory>
    requires { IfSome parameters (IsPart doc.now) }
    ensures { IfOk result (λ b. b ≡ says.has_mapping (option_map (part doc.now) parameters) piece.now) }
{
    match piece {
        Piece::Literal(_) => Ok(true),
        Piece::Variable(_) => Ok(true),
        Piece::Placeholder(name) => is_mapped(alloc, doc, parameters, name.as_str()),
    }
}

fn have_mappings(
    alloc: Global,
    doc: &Doc,
    parameters: Option<NodeId>,
    pieces: &[Piece],
) -> Result<bool, Memory>
    requires { IfSome parameters (IsPart doc.now) }
    ensures { IfOk result (λ b. b ≡ list_all (says.has_mapping (option_map (part doc.now) parameters)) pieces.now) }
{
    for piece in pieces {
        if !has_mapping(alloc, doc, parameters, piece)? {
            return Ok(false);
        }
    }
    Ok(true)
}

fn defer_unmapped(
    alloc: Global,
    doc: &Doc,
    parameters: Option<NodeId>,
    waiting: &mut Option<ApiFault>,
    name: &str,
    path: &[Piece],
) -> Result<(), ApiFault>
    requires { IfSome parameters (IsPart doc.now) }
    ensures { MatchResult result (λ _. waiting.new ≡ first_of waiting.old (says.uri_waiting (option_map (part doc.now) parameters) name.now path.now)) (λ e. e.cause ≡ ApiCause.Memory) }
{
    match have_mappings(alloc, doc, parameters, path) {
        Ok(true) => defer(alloc, waiting, name, None),
        Ok(false) => defer_bad_mapping(alloc, waiting, name),
        Err(_) => Err(no_memory(alloc)),
    }
}

fn add_uri(
    alloc: Global,
    doc: &Doc,
    parameters: Option<NodeId>,
    read: &mut IntegrationRead,
    name: &str,
    text: Text,
) -> Result<(), ApiFault>
    requires { IfSome parameters (IsPart doc.now) }
    ensures { ReadsAs (λ (_ : Unit {0}). read.new) (says.with_uri (option_map (part doc.now) parameters) read.old name.now text (uri_of text)) result }
{
    match read_uri(alloc, text.as_str()) {
        Ok(Some(uri)) => {
            let path = uri.path.as_slice();
            defer_unmapped(alloc, doc, parameters, &mut read.waiting, name, path)?;
            read.uri = Some((text, uri));
            Ok(())
        }
        Ok(None) => Err(fault_here(alloc, ApiCause::BadUri)),
        Err(_) => Err(no_memory(alloc)),
    }
}

#[tactic(auto, unfolding(crate::specs::Integrations::mappings_row))]
fn add_mappings(
    alloc: Global,
    doc: &Doc,
    path: &str,
    read: &mut IntegrationRead,
    name: &str,
    id: NodeId,
) -> Result<(), ApiFault>
    requires { IsPart doc.now id }
    ensures { ReadsAs (λ (_ : Unit {0}). read.new) (says.mappings_row path.now read.old name.now (part doc.now id)) result }
{
    let MappingsRead { list, waiting } = read_mappings(alloc, doc, Side::Request, path, name, id)?;
    defer(alloc, &mut read.waiting, name, waiting)?;
    read.parameters = list;
    Ok(())
}

#[tactic(auto, unfolding(crate::specs::Integrations::templates_row))]
fn add_templates(
    alloc: Global,
    doc: &Doc,
    read: &mut IntegrationRead,
    name: &str,
    id: NodeId,
) -> Result<(), ApiFault>
    requires { IsPart doc.now id }
    ensures { ReadsAs (λ (_ : Unit {0}). read.new) (says.templates_row read.old name.now (part doc.now id)) result }
{
    read.templates = read_templates(alloc, doc, name, id)?;
    Ok(())
}

#[tactic(auto, unfolding(crate::specs::Integrations::rules_row))]
fn add_rules(
    alloc: Global,
    doc: &Doc,
    tables: &mut StatusTables,
    read: &mut IntegrationRead,
    name: &str,
    id: NodeId,
) -> Result<(), ApiFault>
    requires { IsPart doc.now id }
    ensures { ReadsAs (λ (_ : Unit {0}). read.new) (says.rules_row read.old name.now (part doc.now id)) result }
{
    let rules = read_rules(alloc, doc, tables, name, id)?;
    let RulesRead {
        list,
        has_default: _,
        waiting,
    } = rules;
    defer(alloc, &mut read.waiting, name, waiting)?;
    read.responses = list;
    Ok(())
}

// Mappings, templates, rules and the timeout.
fn add_inner(
    alloc: Global,
    doc: &Doc,
    tables: &mut StatusTables,
    path: &str,
    read: &mut IntegrationRead,
    name: &str,
    id: NodeId,
) -> Result<(), ApiFault>
    requires { IsPart doc.now id }
    ensures { ReadsAs (λ (_ : Unit {0}). read.new) (says.inner_row path.now read.old name.now (part doc.now id)) result }
{
    if name == "parameters" {
        return add_mappings(alloc, doc, path, read, name, id);
    }
    if name == "templates" {
        return add_templates(alloc, doc, read, name, id);
    }
    if name == "responses" {
        return add_rules(alloc, doc, tables, read, name, id);
    }
    if name == "timeout" {
        read.timeout = number(alloc, doc, 50, 29_000, name, id)?;
        return Ok(());
    }
    Err(unknown_member(alloc, name))
}

/// What is known of an integration before its members are read: what its type names, its `parameters`, and the path of
/// its resource.
#[derive(Clone, Copy)]
pub struct Around<'a> {
    pub kind: Option<IntegrationKind>,
    pub parameters: Option<NodeId>,
    pub path: &'a str,
}

fn add_row(
    alloc: Global,
    doc: &Doc,
    tables: &mut StatusTables,
    around: &Around<'_>,
    read: &mut IntegrationRead,
    name: &str,
    id: NodeId,
) -> Result<(), ApiFault>
    requires part { IsPart doc.now id }
    requires parameters { IfSome around.now.parameters (IsPart doc.now) }
    ensures { ReadsAs (λ (_ : Unit {0}). read.new) (says.integration_row around.now.kind (option_map (part doc.now) around.now.parameters) around.now.path.now read.old name.now (part doc.now id)) result }
{
    if name == "type" {
        return if around.kind.is_some() {
            Ok(())
        } else {
            Err(bad_member(alloc, name))
        };
    }
    if name == "method" {
        read.method = Some(read_method(alloc, doc, name, id)?);
        return Ok(());
    }
    if name == "uri" {
        let text = text(alloc, doc, name, id)?;
        return add_uri(alloc, doc, around.parameters, read, name, text);
    }
    if name == "passthrough" {
        read.passthrough = read_passthrough(alloc, doc, name, id)?;
        return Ok(());
    }
    add_inner(alloc, doc, tables, around.path, read, name, id)
}

fn add_member(
    alloc: Global,
    doc: &Doc,
    tables: &mut StatusTables,
    around: &Around<'_>,
    read: &mut IntegrationRead,
    name: &str,
    id: NodeId,
) -> Result<(), ApiFault>
    requires part { IsPart doc.now id }
    requires parameters { IfSome around.now.parameters (IsPart doc.now) }
    ensures { ReadsAs (λ (_ : Unit {0}). read.new) (says.integration_member around.now.kind (option_map (part doc.now) around.now.parameters) around.now.path.now read.old name.now (part doc.now id)) result }
{
    if may_have(around.kind, name) {
        add_row(alloc, doc, tables, around, read, name, id)
    } else {
        Err(unknown_member(alloc, name))
    }
}

fn make(
    kind: IntegrationKind,
    read: IntegrationRead,
    method: Text,
    uri: Text,
    backend: Option<Uri>,
) -> (Integration, Option<ApiFault>)
    ensures { result ≡ says.made kind read method uri backend }
{
    let IntegrationRead {
        method: _,
        uri: _,
        passthrough,
        parameters,
        templates,
        responses,
        timeout,
        waiting,
    } = read;
    (
        Integration {
            kind,
            method,
            uri,
            backend,
            passthrough,
            parameters,
            templates,
            responses,
            timeout,
        },
        waiting,
    )
}

fn with_backend(
    alloc: Global,
    kind: IntegrationKind,
    read: IntegrationRead,
) -> Result<(Integration, Option<ApiFault>), ApiFault>
    ensures { Reads (says.with_backend kind read) result }
{
    let mut read = read;
    let Some(method) = read.method.take() else {
        return Err(missing_member(alloc, "method"));
    };
    let Some((uri, backend)) = read.uri.take() else {
        return Err(missing_member(alloc, "uri"));
    };
    Ok(make(kind, read, method, uri, Some(backend)))
}

fn integration_of(
    alloc: Global,
    kind: Option<IntegrationKind>,
    read: IntegrationRead,
) -> Result<(Integration, Option<ApiFault>), ApiFault>
    ensures { Reads (says.integration_of kind read) result }
{
    match kind {
        Some(IntegrationKind::Mock) => Ok(make(
            IntegrationKind::Mock,
            read,
            Text::of(String::new(alloc)),
            Text::of(String::new(alloc)),
            None,
        )),
        Some(IntegrationKind::Http) => with_backend(alloc, IntegrationKind::Http, read),
        Some(IntegrationKind::HttpProxy) => with_backend(alloc, IntegrationKind::HttpProxy, read),
        None => Err(missing_member(alloc, "type")),
    }
}

fn parameters_of(doc: &Doc, id: NodeId) -> Option<NodeId>
    requires { IsPart doc.now id }
    ensures part { IfSome result (IsPart doc.now) }
    ensures value { option_map (part doc.now) result ≡ member_named (form (part doc.now id)) (codes "parameters") }
{
    match doc.member(id, "parameters") {
        Some(parameters) => Some(parameters),
        None => None,
    }
}

/// The integration of a method of the resource of this path.
#[tactic(auto, unfolding(crate::specs::Integrations::integration_in))]
pub fn read_integration(
    alloc: Global,
    doc: &Doc,
    tables: &mut StatusTables,
    path: &str,
    name: &str,
    id: NodeId,
) -> Result<(Integration, Option<ApiFault>), ApiFault>
    requires { IsPart doc.now id }
    ensures { Reads (says.integration_in path.now name.now (part doc.now id)) result }
{
    let around = Around {
        kind: kind_of(doc, id),
        parameters: parameters_of(doc, id),
        path,
    };
    let mut read = IntegrationRead {
        method: None,
        uri: None,
        passthrough: Passthrough::WhenNoMatch,
        parameters: Seq::new(alloc),
        templates: Seq::new(alloc),
        responses: Seq::new(alloc),
        timeout: 29_000,
        waiting: None,
    };
    let count = object(alloc, doc, name, id)?;
    for i in 0..count {
        let (member, value) = member_at(doc, id, i);
        if let Err(fault) = add_member(alloc, doc, tables, &around, &mut read, member, value) {
            return Err(below(alloc, member, fault));
        }
    }
    integration_of(alloc, around.kind, read)
}
