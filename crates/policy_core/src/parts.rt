// What a reply without a fault says.
ghost use Rattle.std.specs.Prelude.{◌≡◌, IfOk, codes, false, [], map};
ghost use Rattle.json_subset.specs.Documents.{IsPart, form, member_named, part};
ghost use Rattle.policy_core.specs.Replies as says;

use crate::children::{entry, entry_count, item, item_count};
use crate::policy::{Policy, Statement};
use gw_base::{Memory, Seq, Text};
use json_subset::{Doc, Kind, NodeId};
use std::alloc::Global;

/// The policy of a reply.
#[tactic(auto, unfolding(crate::specs::Replies::policy_of))]
pub fn policy_of(alloc: Global, doc: &Doc, node: NodeId) -> Result<Policy, Memory>
    requires { IsPart doc.now node }
    ensures { IfOk result (λ policy. policy ≡ says.policy_of doc.now.text (part doc.now node)) }
{
    Ok(Policy {
        principal: member_text(alloc, doc, node, "principalId")?,
        statements: member_document(alloc, doc, node, "policyDocument")?,
        context: member_context(alloc, doc, node, "context")?,
    })
}

/// The statements of the policy document that is the member of this name.
fn member_document(
    alloc: Global,
    doc: &Doc,
    node: NodeId,
    name: &str,
) -> Result<Seq<Statement>, Memory>
    requires { IsPart doc.now node }
    ensures { IfOk result (λ list. list ≡ says.in_member [] says.document_statements (member_named (form (part doc.now node)) name.now)) }
{
    match doc.member(node, name) {
        Some(document) => member_statements(alloc, doc, document, "Statement"),
        None => Ok(Seq::new(alloc)),
    }
}

fn member_statements(
    alloc: Global,
    doc: &Doc,
    node: NodeId,
    name: &str,
) -> Result<Seq<Statement>, Memory>
    requires { IsPart doc.now node }
    ensures { IfOk result (λ list. list ≡ says.in_member [] says.statements_of (member_named (form (part doc.now node)) name.now)) }
{
    match doc.member(node, name) {
        Some(value) => statements_in(alloc, doc, value),
        None => Ok(Seq::new(alloc)),
    }
}

/// A statement, or each statement of a list.
fn statements_in(alloc: Global, doc: &Doc, node: NodeId) -> Result<Seq<Statement>, Memory>
    requires { IsPart doc.now node }
    ensures { IfOk result (λ list. list ≡ says.statements_of (part doc.now node)) }
{
    let mut statements = Seq::new(alloc);
    match doc.kind(node) {
        Kind::List(_) => each_statement(alloc, doc, node),
        Kind::Object(_) => {
            statements.push(statement_of(alloc, doc, node)?)?;
            Ok(statements)
        }
        Kind::Null | Kind::Bool(_) | Kind::Whole(_) | Kind::Decimal | Kind::Wide | Kind::Text => {
            Ok(statements)
        }
    }
}

fn each_statement(alloc: Global, doc: &Doc, node: NodeId) -> Result<Seq<Statement>, Memory>
    requires { IsPart doc.now node }
    ensures { IfOk result (λ list. list ≡ map says.statement_of (says.items (form (part doc.now node)))) }
{
    let mut statements = Seq::new(alloc);
    for i in 0..item_count(doc, node) {
        let Some(statement) = item(doc, node, i) else {
            return Ok(statements);
        };
        statements.push(statement_of(alloc, doc, statement)?)?;
    }
    Ok(statements)
}

#[tactic(auto, unfolding(crate::specs::Replies::statement_of))]
fn statement_of(alloc: Global, doc: &Doc, node: NodeId) -> Result<Statement, Memory>
    requires { IsPart doc.now node }
    ensures { IfOk result (λ statement. statement ≡ says.statement_of (part doc.now node)) }
{
    Ok(Statement {
        allow: allows(doc, node),
        actions: member_texts(alloc, doc, node, "Action")?,
        resources: member_texts(alloc, doc, node, "Resource")?,
    })
}

fn allows(doc: &Doc, node: NodeId) -> bool
    requires { IsPart doc.now node }
    ensures { result ≡ says.in_member false says.allows (member_named (form (part doc.now node)) (codes "Effect")) }
{
    match doc.member(node, "Effect") {
        Some(effect) => doc.text(effect) == Some("Allow"),
        None => false,
    }
}

fn member_texts(alloc: Global, doc: &Doc, node: NodeId, name: &str) -> Result<Seq<Text>, Memory>
    requires { IsPart doc.now node }
    ensures { IfOk result (λ list. list ≡ says.in_member [] says.texts_of (member_named (form (part doc.now node)) name.now)) }
{
    match doc.member(node, name) {
        Some(value) => texts_of(alloc, doc, value),
        None => Ok(Seq::new(alloc)),
    }
}

/// A text, or each text of a list.
fn texts_of(alloc: Global, doc: &Doc, node: NodeId) -> Result<Seq<Text>, Memory>
    requires { IsPart doc.now node }
    ensures { IfOk result (λ list. list ≡ says.texts_of (part doc.now node)) }
{
    let mut texts = Seq::new(alloc);
    match doc.kind(node) {
        Kind::Text => {
            texts.push(text_of(alloc, doc, node)?)?;
            Ok(texts)
        }
        Kind::List(_) => each_text(alloc, doc, node),
        Kind::Null
        | Kind::Bool(_)
        | Kind::Whole(_)
        | Kind::Decimal
        | Kind::Wide
        | Kind::Object(_) => Ok(texts),
    }
}

fn each_text(alloc: Global, doc: &Doc, node: NodeId) -> Result<Seq<Text>, Memory>
    requires { IsPart doc.now node }
    ensures { IfOk result (λ list. list ≡ map says.text_of (says.items (form (part doc.now node)))) }
{
    let mut texts = Seq::new(alloc);
    for i in 0..item_count(doc, node) {
        let Some(text) = item(doc, node, i) else {
            return Ok(texts);
        };
        texts.push(text_of(alloc, doc, text)?)?;
    }
    Ok(texts)
}

/// The names and texts of the context that is the member of this name.
fn member_context(
    alloc: Global,
    doc: &Doc,
    node: NodeId,
    name: &str,
) -> Result<Seq<(Text, Text)>, Memory>
    requires { IsPart doc.now node }
    ensures { IfOk result (λ list. list ≡ says.in_member [] (says.context_of doc.now.text) (member_named (form (part doc.now node)) name.now)) }
{
    match doc.member(node, name) {
        Some(context) => each_kept(alloc, doc, context),
        None => Ok(Seq::new(alloc)),
    }
}

fn each_kept(alloc: Global, doc: &Doc, node: NodeId) -> Result<Seq<(Text, Text)>, Memory>
    requires { IsPart doc.now node }
    ensures { IfOk result (λ list. list ≡ says.context_of doc.now.text (part doc.now node)) }
{
    let mut kept = Seq::new(alloc);
    for i in 0..entry_count(doc, node) {
        let Some(member) = entry(doc, node, i) else {
            return Ok(kept);
        };
        kept.push((copied(alloc, member.0)?, kept_text(alloc, doc, member.1)?))?;
    }
    Ok(kept)
}

/// A value of a context as its text: the text of a string, and the source text of another value.
fn kept_text(alloc: Global, doc: &Doc, node: NodeId) -> Result<Text, Memory>
    requires { IsPart doc.now node }
    ensures { IfOk result (λ text. text ≡ says.kept_text doc.now.text (part doc.now node)) }
{
    match doc.text(node) {
        Some(text) => copied(alloc, text),
        None => copied(alloc, doc.span(node)),
    }
}

fn member_text(alloc: Global, doc: &Doc, node: NodeId, name: &str) -> Result<Text, Memory>
    requires { IsPart doc.now node }
    ensures { IfOk result (λ text. text ≡ says.in_member [] says.text_of (member_named (form (part doc.now node)) name.now)) }
{
    match doc.member(node, name) {
        Some(value) => text_of(alloc, doc, value),
        None => Ok(Text::of(String::new(alloc))),
    }
}

fn text_of(alloc: Global, doc: &Doc, node: NodeId) -> Result<Text, Memory>
    requires { IsPart doc.now node }
    ensures { IfOk result (λ text. text ≡ says.text_of (part doc.now node)) }
{
    match doc.text(node) {
        Some(text) => copied(alloc, text),
        None => Ok(Text::of(String::new(alloc))),
    }
}

fn copied(alloc: Global, text: &str) -> Result<Text, Memory>
    ensures { IfOk result (λ copy. copy ≡ text.now) }
{
    Ok(Text::of(String::from_str(alloc, text)?))
}
