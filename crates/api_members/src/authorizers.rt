// Authorizers.
ghost use Rattle.std.specs.Prelude.{◌≡◌, MatchResult};
ghost use Rattle.json_subset.specs.Documents.{IsPart, part};
ghost use Rattle.api_parts.specs.Reading.{Reads, ReadsAs, first_of};
ghost use Rattle.api_members.specs.Authorizers as says;

use api_mappings::is_plain;
use api_parts::{ApiCause, ApiFault, Authorizer, TokenAuthorizer, below, no_memory};
use api_reading::values::{
    copy, fault_here, member_at, missing_member, number, object, text, unknown_member,
};
use api_reading::{defer, defer_bad_mapping, token_pattern};
use gw_base::{Seq, Text, is_name, is_token};
use json_subset::{Doc, NodeId};
use pattern_core::Pattern;
use std::alloc::Global;

/// What is read of an authorizer so far.
#[derive(Drop)]
pub struct AuthorizerRead {
    pub header: Option<Text>,
    pub pattern: Option<Text>,
    pub whole: Option<Pattern>,
    pub uri: Option<Text>,
    pub ttl: u32,
    pub timeout: u32,
    pub waiting: Option<ApiFault>,
}

/// The authorizers that are read, and the first fault of theirs that waits.
#[derive(Drop)]
pub struct AuthorizersRead {
    pub list: Seq<TokenAuthorizer>,
    pub waiting: Option<ApiFault>,
}

fn defer_header(
    alloc: Global,
    waiting: &mut Option<ApiFault>,
    name: &str,
    header: &str,
) -> Result<(), ApiFault>
    ensures { MatchResult result (λ _. waiting.new ≡ first_of waiting.old (says.header_waiting name.now header.now)) (λ e. e.cause ≡ ApiCause.Memory) }
{
    if is_token(header) {
        defer(alloc, waiting, name, None)
    } else {
        defer_bad_mapping(alloc, waiting, name)
    }
}

fn plain_uri(alloc: Global, text: Text) -> Result<Text, ApiFault>
    ensures { Reads (says.plain_uri text) result }
{
    match is_plain(alloc, text.as_str()) {
        Ok(true) => Ok(text),
        Ok(false) => Err(fault_here(alloc, ApiCause::BadUri)),
        Err(_) => Err(no_memory(alloc)),
    }
}

fn add_header(
    alloc: Global,
    read: &mut AuthorizerRead,
    name: &str,
    header: Text,
) -> Result<(), ApiFault>
    ensures { MatchResult result (λ _. read.new ≡ says.with_header read.old name.now header) (λ e. e.cause ≡ ApiCause.Memory) }
{
    defer_header(alloc, &mut read.waiting, name, header.as_str())?;
    read.header = Some(header);
    Ok(())
}

fn add_member(
    alloc: Global,
    doc: &Doc,
    read: &mut AuthorizerRead,
    name: &str,
    id: NodeId,
) -> Result<(), ApiFault>
    requires { IsPart doc.now id }
    ensures { ReadsAs (λ (_ : Unit {0}). read.new) (says.authorizer_member read.old name.now (part doc.now id)) result }
{
    if name == "header" {
        let header = text(alloc, doc, name, id)?;
        return add_header(alloc, read, name, header);
    }
    if name == "pattern" {
        let (pattern, whole) = token_pattern(alloc, doc, name, id)?;
        read.pattern = Some(pattern);
        read.whole = Some(whole);
        return Ok(());
    }
    if name == "uri" {
        let uri = text(alloc, doc, name, id)?;
        read.uri = Some(plain_uri(alloc, uri)?);
        return Ok(());
    }
    if name == "ttl" {
        read.ttl = number(alloc, doc, 0, 3600, name, id)?;
        return Ok(());
    }
    if name == "timeout" {
        read.timeout = number(alloc, doc, 50, 29_000, name, id)?;
        return Ok(());
    }
    Err(unknown_member(alloc, name))
}

fn authorizer_of(
    alloc: Global,
    name: &str,
    read: AuthorizerRead,
) -> Result<(TokenAuthorizer, Option<ApiFault>), ApiFault>
    ensures { Reads (says.authorizer_of name.now read) result }
{
    let AuthorizerRead {
        header,
        pattern,
        whole,
        uri,
        ttl,
        timeout,
        waiting,
    } = read;
    let Some(header) = header else {
        return Err(missing_member(alloc, "header"));
    };
    let Some(uri) = uri else {
        return Err(missing_member(alloc, "uri"));
    };
    let name = copy(alloc, name)?;
    let authorizer = Authorizer {
        name,
        header,
        pattern,
        uri,
        ttl,
        timeout,
    };
    Ok((TokenAuthorizer { authorizer, whole }, waiting))
}

fn read_authorizer(
    alloc: Global,
    doc: &Doc,
    name: &str,
    id: NodeId,
) -> Result<(TokenAuthorizer, Option<ApiFault>), ApiFault>
    requires { IsPart doc.now id }
    ensures { Reads (says.authorizer_in name.now (part doc.now id)) result }
{
    let mut read = AuthorizerRead {
        header: None,
        pattern: None,
        whole: None,
        uri: None,
        ttl: 300,
        timeout: 29_000,
        waiting: None,
    };
    let count = object(alloc, doc, name, id)?;
    for i in 0..count {
        let (member, value) = member_at(doc, id, i);
        if let Err(fault) = add_member(alloc, doc, &mut read, member, value) {
            return Err(below(alloc, member, fault));
        }
    }
    authorizer_of(alloc, name, read)
}

fn add_authorizer(
    alloc: Global,
    doc: &Doc,
    read: &mut AuthorizersRead,
    name: &str,
    id: NodeId,
) -> Result<(), ApiFault>
    requires { IsPart doc.now id }
    ensures { ReadsAs (λ (_ : Unit {0}). read.new) (says.authorizers_member read.old name.now (part doc.now id)) result }
{
    if !is_name(name) {
        return Err(unknown_member(alloc, name));
    }
    let (authorizer, fault) = read_authorizer(alloc, doc, name, id)?;
    defer(alloc, &mut read.waiting, name, fault)?;
    match read.list.push(authorizer) {
        Ok(()) => Ok(()),
        Err(_) => Err(no_memory(alloc)),
    }
}

/// The authorizers, each with its name.
pub fn read_authorizers(
    alloc: Global,
    doc: &Doc,
    name: &str,
    id: NodeId,
) -> Result<AuthorizersRead, ApiFault>
    requires { IsPart doc.now id }
    ensures { Reads (says.authorizers_in name.now (part doc.now id)) result }
{
    let mut read = AuthorizersRead {
        list: Seq::new(alloc),
        waiting: None,
    };
    let count = object(alloc, doc, name, id)?;
    for i in 0..count {
        let (member, value) = member_at(doc, id, i);
        if let Err(fault) = add_authorizer(alloc, doc, &mut read, member, value) {
            return Err(below(alloc, member, fault));
        }
    }
    Ok(read)
}
