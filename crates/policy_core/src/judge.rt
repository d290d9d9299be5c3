// The first fault of a reply, in the order of the document. It takes no memory.
ghost use Rattle.std.specs.Prelude.{◌≡◌};
ghost use Rattle.json_subset.specs.Documents.{IsPart, form, kind as kind_of, part, place};
ghost use Rattle.policy_core.specs.Replies as says;

use crate::children::{entry, entry_count, item, item_count};
use json_subset::{Doc, Kind, NodeId};

/// The first fault of a reply: an object with a `principalId`, a `policyDocument` and perhaps a
/// `context`.
#[tactic(auto, unfolding(crate::specs::Replies::reply_fault))]
pub fn reply_fault(doc: &Doc, node: NodeId) -> Option<usize>
    requires { IsPart doc.now node }
    ensures { result ≡ says.reply_fault (part doc.now node) }
{
    if !is_object(doc, node) {
        return Some(doc.place(node));
    }
    match reply_members_fault(doc, node) {
        Some(at) => Some(at),
        None => lacks_either(doc, node, "principalId", "policyDocument"),
    }
}

fn reply_members_fault(doc: &Doc, node: NodeId) -> Option<usize>
    requires { IsPart doc.now node }
    ensures { result ≡ says.first_of says.reply_member_fault (says.entries (form (part doc.now node))) }
{
    for i in 0..entry_count(doc, node) {
        if let Some(at) = reply_member_fault(doc, node, i) {
            return Some(at);
        }
    }
    None
}

fn reply_member_fault(doc: &Doc, node: NodeId, i: u32) -> Option<usize>
    requires { IsPart doc.now node }
    ensures { result ≡ says.at_place says.reply_member_fault (says.entries (form (part doc.now node))) i }
{
    let Some((name, value)) = entry(doc, node, i) else {
        return None;
    };
    match name {
        "principalId" => text_fault(doc, value),
        "policyDocument" => document_fault(doc, value),
        "context" => context_fault(doc, value),
        _ => None,
    }
}

/// The first fault of a policy document: an object with a `Statement`.
#[tactic(auto, unfolding(crate::specs::Replies::document_fault))]
fn document_fault(doc: &Doc, node: NodeId) -> Option<usize>
    requires { IsPart doc.now node }
    ensures { result ≡ says.document_fault (part doc.now node) }
{
    if !is_object(doc, node) {
        return Some(doc.place(node));
    }
    match document_members_fault(doc, node) {
        Some(at) => Some(at),
        None => lacking(doc, node, "Statement"),
    }
}

fn document_members_fault(doc: &Doc, node: NodeId) -> Option<usize>
    requires { IsPart doc.now node }
    ensures { result ≡ says.first_of says.document_member_fault (says.entries (form (part doc.now node))) }
{
    for i in 0..entry_count(doc, node) {
        if let Some(at) = document_member_fault(doc, node, i) {
            return Some(at);
        }
    }
    None
}

fn document_member_fault(doc: &Doc, node: NodeId, i: u32) -> Option<usize>
    requires { IsPart doc.now node }
    ensures { result ≡ says.at_place says.document_member_fault (says.entries (form (part doc.now node))) i }
{
    let Some((name, value)) = entry(doc, node, i) else {
        return None;
    };
    if name == "Statement" {
        statements_fault(doc, value)
    } else {
        None
    }
}

/// The first fault of a statement, or of a list of statements.
#[tactic(auto, unfolding(crate::specs::Replies::statements_fault))]
fn statements_fault(doc: &Doc, node: NodeId) -> Option<usize>
    requires { IsPart doc.now node }
    ensures { result ≡ says.statements_fault (part doc.now node) }
{
    match doc.kind(node) {
        Kind::List(_) => each_statement_fault(doc, node),
        Kind::Object(_) => statement_fault(doc, node),
        Kind::Null | Kind::Bool(_) | Kind::Whole(_) | Kind::Decimal | Kind::Wide | Kind::Text => {
            Some(doc.place(node))
        }
    }
}

fn each_statement_fault(doc: &Doc, node: NodeId) -> Option<usize>
    requires { IsPart doc.now node }
    ensures { result ≡ says.first_of says.statement_fault (says.items (form (part doc.now node))) }
{
    for i in 0..item_count(doc, node) {
        if let Some(at) = statement_item_fault(doc, node, i) {
            return Some(at);
        }
    }
    None
}

fn statement_item_fault(doc: &Doc, node: NodeId, i: u32) -> Option<usize>
    requires { IsPart doc.now node }
    ensures { result ≡ says.at_place says.statement_fault (says.items (form (part doc.now node))) i }
{
    match item(doc, node, i) {
        Some(statement) => statement_fault(doc, statement),
        None => None,
    }
}

/// The first fault of a statement: an object with an `Effect`, an `Action` and a `Resource`.
#[tactic(auto, unfolding(crate::specs::Replies::statement_fault))]
fn statement_fault(doc: &Doc, node: NodeId) -> Option<usize>
    requires { IsPart doc.now node }
    ensures { result ≡ says.statement_fault (part doc.now node) }
{
    if !is_object(doc, node) {
        return Some(doc.place(node));
    }
    if let Some(at) = statement_members_fault(doc, node) {
        return Some(at);
    }
    match lacking(doc, node, "Effect") {
        Some(at) => Some(at),
        None => lacks_either(doc, node, "Action", "Resource"),
    }
}

fn statement_members_fault(doc: &Doc, node: NodeId) -> Option<usize>
    requires { IsPart doc.now node }
    ensures { result ≡ says.first_of (says.statement_member_fault (place (part doc.now node))) (says.entries (form (part doc.now node))) }
{
    for i in 0..entry_count(doc, node) {
        if let Some(at) = statement_member_fault(doc, node, i) {
            return Some(at);
        }
    }
    None
}

fn statement_member_fault(doc: &Doc, node: NodeId, i: u32) -> Option<usize>
    requires { IsPart doc.now node }
    ensures { result ≡ says.at_place (says.statement_member_fault (place (part doc.now node))) (says.entries (form (part doc.now node))) i }
{
    let Some((name, value)) = entry(doc, node, i) else {
        return None;
    };
    match name {
        "Effect" => effect_fault(doc, value),
        "Action" => texts_fault(doc, value),
        "Resource" => texts_fault(doc, value),
        "Condition" | "NotAction" | "NotResource" => Some(doc.place(node)),
        _ => None,
    }
}

fn effect_fault(doc: &Doc, node: NodeId) -> Option<usize>
    requires { IsPart doc.now node }
    ensures { result ≡ says.effect_fault (part doc.now node) }
{
    match doc.text(node) {
        Some("Allow") | Some("Deny") => None,
        _ => Some(doc.place(node)),
    }
}

/// The first fault of a text, or of a list of texts.
fn texts_fault(doc: &Doc, node: NodeId) -> Option<usize>
    requires { IsPart doc.now node }
    ensures { result ≡ says.texts_fault (part doc.now node) }
{
    match doc.kind(node) {
        Kind::Text => None,
        Kind::List(_) => each_text_fault(doc, node),
        Kind::Null
        | Kind::Bool(_)
        | Kind::Whole(_)
        | Kind::Decimal
        | Kind::Wide
        | Kind::Object(_) => Some(doc.place(node)),
    }
}

fn each_text_fault(doc: &Doc, node: NodeId) -> Option<usize>
    requires { IsPart doc.now node }
    ensures { result ≡ says.first_of says.text_fault (says.items (form (part doc.now node))) }
{
    for i in 0..item_count(doc, node) {
        if let Some(at) = text_item_fault(doc, node, i) {
            return Some(at);
        }
    }
    None
}

fn text_item_fault(doc: &Doc, node: NodeId, i: u32) -> Option<usize>
    requires { IsPart doc.now node }
    ensures { result ≡ says.at_place says.text_fault (says.items (form (part doc.now node))) i }
{
    match item(doc, node, i) {
        Some(text) => text_fault(doc, text),
        None => None,
    }
}

fn text_fault(doc: &Doc, node: NodeId) -> Option<usize>
    requires { IsPart doc.now node }
    ensures { result ≡ says.text_fault (part doc.now node) }
{
    match doc.text(node) {
        Some(_) => None,
        None => Some(doc.place(node)),
    }
}

/// The first fault of a context: an object of texts, numbers and booleans.
#[tactic(auto, unfolding(crate::specs::Replies::context_fault))]
fn context_fault(doc: &Doc, node: NodeId) -> Option<usize>
    requires { IsPart doc.now node }
    ensures { result ≡ says.context_fault (part doc.now node) }
{
    if !is_object(doc, node) {
        return Some(doc.place(node));
    }
    context_members_fault(doc, node)
}

fn context_members_fault(doc: &Doc, node: NodeId) -> Option<usize>
    requires { IsPart doc.now node }
    ensures { result ≡ says.first_of says.kept_fault (says.entries (form (part doc.now node))) }
{
    for i in 0..entry_count(doc, node) {
        if let Some(at) = kept_fault(doc, node, i) {
            return Some(at);
        }
    }
    None
}

fn kept_fault(doc: &Doc, node: NodeId, i: u32) -> Option<usize>
    requires { IsPart doc.now node }
    ensures { result ≡ says.at_place says.kept_fault (says.entries (form (part doc.now node))) i }
{
    let Some((_, value)) = entry(doc, node, i) else {
        return None;
    };
    match doc.kind(value) {
        Kind::Null | Kind::List(_) | Kind::Object(_) => Some(doc.place(value)),
        Kind::Bool(_) | Kind::Whole(_) | Kind::Decimal | Kind::Wide | Kind::Text => None,
    }
}

fn is_object(doc: &Doc, node: NodeId) -> bool
    requires { IsPart doc.now node }
    ensures { result ≡ says.is_object (kind_of (form (part doc.now node))) }
{
    matches!(doc.kind(node), Kind::Object(_))
}

/// The place of an object that has no member of this name.
fn lacking(doc: &Doc, node: NodeId, name: &str) -> Option<usize>
    requires { IsPart doc.now node }
    ensures { result ≡ says.lacking (part doc.now node) name.now }
{
    match doc.member(node, name) {
        Some(_) => None,
        None => Some(doc.place(node)),
    }
}

fn lacks_either(doc: &Doc, node: NodeId, first: &str, second: &str) -> Option<usize>
    requires { IsPart doc.now node }
    ensures { result ≡ says.or_else (says.lacking (part doc.now node) first.now) (says.lacking (part doc.now node) second.now) }
{
    match lacking(doc, node, first) {
        Some(at) => Some(at),
        None => lacking(doc, node, second),
    }
}
