// The gateway's own answers.
ghost use Rattle.std.specs.Prelude.{◌≡◌, ◌++◌, ◌∷◌, [], bytes_eq, map, MatchResult};
ghost use Rattle.std.specs.List.{list_any};
ghost use Rattle.json_subset.specs.Documents.{IsPart, part};
ghost use Rattle.api_mappings.specs.Mappings.{gateway_target as gateway_target_of};
ghost use Rattle.api_parts.specs.Reading.{Reads, ReadsAs};
ghost use Rattle.api_members.specs.Gateway as says;

use crate::small::small_template;
use api_mappings::{gateway_target, plain_source};
use api_parts::{ApiCause, ApiFault, GatewayRule, Origin, below, no_memory};
use api_reading::values::{copy, member_at, number, object, text, unknown_member};
use api_reading::{defer, defer_bad_mapping};
use gw_base::{Seq, Text};
use json_subset::{Doc, NodeId};
use std::alloc::Global;
use vtl_reader::Template;

/// The headers that are read, and the first fault of theirs that waits.
#[derive(Drop)]
pub struct HeadersRead {
    pub list: Seq<(Text, Origin)>,
    pub waiting: Option<ApiFault>,
}

/// What is read of an answer so far.
#[derive(Drop)]
pub struct GatewayRead {
    pub status: Option<u16>,
    pub headers: Seq<(Text, Origin)>,
    pub template: Option<Template>,
    pub waiting: Option<ApiFault>,
}

/// The answers that are read, and the first fault of theirs that waits.
#[derive(Drop)]
pub struct GatewaysRead {
    pub list: Seq<(Text, GatewayRule)>,
    pub waiting: Option<ApiFault>,
}

/// The kinds of the gateway's own answers, and all of the client's and of the server's errors.
const KINDS: [&str; 19] = [
    "ACCESS_DENIED",
    "API_CONFIGURATION_ERROR",
    "AUTHORIZER_CONFIGURATION_ERROR",
    "AUTHORIZER_FAILURE",
    "BAD_REQUEST_PARAMETERS",
    "BAD_REQUEST_BODY",
    "INTEGRATION_FAILURE",
    "INTEGRATION_TIMEOUT",
    "INVALID_API_KEY",
    "MISSING_AUTHENTICATION_TOKEN",
    "QUOTA_EXCEEDED",
    "REQUEST_TOO_LARGE",
    "STORE_FAILURE",
    "THROTTLED",
    "UNAUTHORIZED",
    "UNKNOWN_STAGE",
    "UNSUPPORTED_MEDIA_TYPE",
    "DEFAULT_4XX",
    "DEFAULT_5XX",
];

fn is_among(names: &[&str], name: &str) -> bool
    ensures { result ≡ list_any (λ k. bytes_eq k name.now) (map (λ k. k.now) names.now) }
{
    for other in names {
        if *other == name {
            return true;
        }
    }
    false
}

#[tactic(auto, unfolding(crate::specs::Gateway::is_kind))]
fn is_kind(name: &str) -> bool
    ensures { result ≡ says.is_kind name.now }
{
    is_among(&KINDS, name)
}

// One header more, with its source.
fn list_header(
    alloc: Global,
    list: &mut Seq<(Text, Origin)>,
    name: &str,
    origin: Origin,
) -> Result<(), ApiFault>
    ensures { MatchResult result (λ _. list.new ≡ list.old ++ (name.now, origin) ∷ []) (λ e. e.cause ≡ ApiCause.Memory) }
{
    let name = copy(alloc, name)?;
    match list.push((name, origin)) {
        Ok(()) => Ok(()),
        Err(_) => Err(no_memory(alloc)),
    }
}

fn with_header(
    alloc: Global,
    read: &mut HeadersRead,
    name: &str,
    origin: Option<Origin>,
) -> Result<(), ApiFault>
    ensures { MatchResult result (λ _. read.new ≡ says.with_header read.old name.now (gateway_target_of name.now) origin) (λ e. e.cause ≡ ApiCause.Memory) }
{
    match gateway_target(name) {
        Some(_) => match origin {
            Some(origin) => list_header(alloc, &mut read.list, name, origin),
            None => defer_bad_mapping(alloc, &mut read.waiting, name),
        },
        None => defer_bad_mapping(alloc, &mut read.waiting, name),
    }
}

fn add_header(
    alloc: Global,
    doc: &Doc,
    read: &mut HeadersRead,
    name: &str,
    id: NodeId,
) -> Result<(), ApiFault>
    requires { IsPart doc.now id }
    ensures { ReadsAs (λ (_ : Unit {0}). read.new) (says.headers_member read.old name.now (part doc.now id)) result }
{
    let source = text(alloc, doc, name, id)?;
    match plain_source(alloc, source.as_str()) {
        Ok(origin) => with_header(alloc, read, name, origin),
        Err(_) => Err(no_memory(alloc)),
    }
}

fn read_headers(alloc: Global, doc: &Doc, name: &str, id: NodeId) -> Result<HeadersRead, ApiFault>
    requires { IsPart doc.now id }
    ensures { Reads (says.headers_in name.now (part doc.now id)) result }
{
    let mut read = HeadersRead {
        list: Seq::new(alloc),
        waiting: None,
    };
    let count = object(alloc, doc, name, id)?;
    for i in 0..count {
        let (member, value) = member_at(doc, id, i);
        if let Err(fault) = add_header(alloc, doc, &mut read, member, value) {
            return Err(below(alloc, member, fault));
        }
    }
    Ok(read)
}

fn add_member(
    alloc: Global,
    doc: &Doc,
    read: &mut GatewayRead,
    name: &str,
    id: NodeId,
) -> Result<(), ApiFault>
    requires { IsPart doc.now id }
    ensures { ReadsAs (λ (_ : Unit {0}). read.new) (says.gateway_member read.old name.now (part doc.now id)) result }
{
    if name == "status" {
        let status = number(alloc, doc, 400, 599, name, id)?;
        read.status = Some(status as u16);
        return Ok(());
    }
    if name == "headers" {
        let HeadersRead { list, waiting } = read_headers(alloc, doc, name, id)?;
        defer(alloc, &mut read.waiting, name, waiting)?;
        read.headers = list;
        return Ok(());
    }
    if name == "template" {
        read.template = Some(small_template(alloc, doc, name, id)?);
        return Ok(());
    }
    Err(unknown_member(alloc, name))
}

fn read_gateway(alloc: Global, doc: &Doc, name: &str, id: NodeId) -> Result<GatewayRead, ApiFault>
    requires { IsPart doc.now id }
    ensures { Reads (says.gateway_in name.now (part doc.now id)) result }
{
    let mut read = GatewayRead {
        status: None,
        headers: Seq::new(alloc),
        template: None,
        waiting: None,
    };
    let count = object(alloc, doc, name, id)?;
    for i in 0..count {
        let (member, value) = member_at(doc, id, i);
        if let Err(fault) = add_member(alloc, doc, &mut read, member, value) {
            return Err(below(alloc, member, fault));
        }
    }
    Ok(read)
}

fn list_rule(
    alloc: Global,
    list: &mut Seq<(Text, GatewayRule)>,
    name: &str,
    rule: GatewayRule,
) -> Result<(), ApiFault>
    ensures { MatchResult result (λ _. list.new ≡ list.old ++ (name.now, rule) ∷ []) (λ e. e.cause ≡ ApiCause.Memory) }
{
    let name = copy(alloc, name)?;
    match list.push((name, rule)) {
        Ok(()) => Ok(()),
        Err(_) => Err(no_memory(alloc)),
    }
}

fn add_gateway(
    alloc: Global,
    doc: &Doc,
    read: &mut GatewaysRead,
    name: &str,
    id: NodeId,
) -> Result<(), ApiFault>
    requires { IsPart doc.now id }
    ensures { ReadsAs (λ (_ : Unit {0}). read.new) (says.gateways_member read.old name.now (part doc.now id)) result }
{
    if !is_kind(name) {
        return Err(unknown_member(alloc, name));
    }
    let GatewayRead {
        status,
        headers,
        template,
        waiting,
    } = read_gateway(alloc, doc, name, id)?;
    defer(alloc, &mut read.waiting, name, waiting)?;
    let rule = GatewayRule {
        status,
        headers,
        template,
    };
    list_rule(alloc, &mut read.list, name, rule)
}

/// The gateway's own answers, by their kinds.
pub fn read_gateways(
    alloc: Global,
    doc: &Doc,
    name: &str,
    id: NodeId,
) -> Result<GatewaysRead, ApiFault>
    requires { IsPart doc.now id }
    ensures { Reads (says.gateways_in name.now (part doc.now id)) result }
{
    let mut read = GatewaysRead {
        list: Seq::new(alloc),
        waiting: None,
    };
    let count = object(alloc, doc, name, id)?;
    for i in 0..count {
        let (member, value) = member_at(doc, id, i);
        if let Err(fault) = add_gateway(alloc, doc, &mut read, member, value) {
            return Err(below(alloc, member, fault));
        }
    }
    Ok(read)
}
