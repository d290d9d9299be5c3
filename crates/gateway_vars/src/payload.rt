// A body, and what paths select of it.
ghost use Rattle.std.specs.Prelude.{◌≡◌, ◌++◌, ◌∷◌, [], false, IfOk, OnOk, IfSome, All, Some, map};
ghost use Rattle.std.specs.Option.{option_map};
ghost use Rattle.std.specs.String.{string_bytes};
ghost use Rattle.json_subset.specs.Documents.{IsPart, part, root_tree};
ghost use Rattle.jsonpath_core.specs.Selecting.{select};
ghost use Rattle.jsonpath_core.specs.Steps.{starred as starred_of};
ghost use Rattle.gateway_vars.specs.Documents.{document, path, value_of, node_text, parted, one_text as one_text_of, all_texts as all_texts_of, one_value as one_value_of, all_values as all_values_of, selected_text as selected_text_of, selected_value as selected_value_of, json_at, value_at};

use crate::documents::{node_value, read_document};
use gw_base::{Memory, Text};
use json_subset::{Doc, NodeId};
use jsonpath_core::{Path, PathFault};
use std::alloc::Global;
use std::marker::Model;
use vtl_values::{ListMaker, Value};

/// A body, and the document that it is.
#[derive(Drop)]
pub struct Payload<'a> {
    bytes: &'a [u8],
    doc: Option<Doc>,
}

impl<'a> Model for Payload<'a> {
    ghost use Rattle.std.specs.Prelude.{List, ℕ};
    ghost use Rattle.gateway_vars.specs.Read.{IsReading};

    ghost Value = { List ℕ };

    ghost view = { λ p. p.bytes.now };

    ghost invariant = { λ p. IsReading p.bytes.now p.doc };
}

/// The path that a text is.
#[tactic(auto, unfolding(crate::specs::Documents::path))]
fn read_path(alloc: Global, text: &str) -> Result<Option<Path>, Memory>
    ensures { IfOk result (λ found. found ≡ path text.now) }
{
    match Path::read(alloc, text) {
        Ok(path) => Ok(Some(path)),
        Err(PathFault::BadPath(_)) => Ok(None),
        Err(PathFault::Memory) => Err(Memory),
    }
}

fn two_quotes(alloc: Global) -> Result<String, Memory>
    ensures { IfOk result (λ made. string_bytes made ≡ 34 ∷ 34 ∷ []) }
{
    Ok(String::from_str(alloc, "\"\"")?)
}

fn one_text(alloc: Global, doc: &Doc, path: &Path) -> Result<String, Memory>
    requires { starred_of path.now ≡ false }
    ensures { IfOk result (λ made. string_bytes made ≡ one_text_of doc.now.text (select path.now (root_tree doc.now))) }
{
    match path.one(doc) {
        Some(id) => doc.compact(alloc, id),
        None => two_quotes(alloc),
    }
}

// The texts of these nodes.
fn texts_of(alloc: Global, doc: &Doc, nodes: &[NodeId]) -> Result<Vec<Text>, Memory>
    requires { All (IsPart doc.now) nodes.now }
    ensures { IfOk result (λ made. made.items ≡ map (λ k. node_text doc.now.text (part doc.now k)) nodes.now) }
{
    let mut texts = Vec::new(alloc);
    for node in nodes {
        texts.push(Text::of(doc.compact(alloc, *node)?))?;
    }
    Ok(texts)
}

fn push_parted(made: &mut String, texts: &[Text]) -> Result<(), Memory>
    ensures { OnOk result (string_bytes made.new ≡ string_bytes made.old ++ parted texts.now) }
{
    let Some((first, others)) = texts.split_first() else {
        return Ok(());
    };
    made.push_str(first.as_str())?;
    for other in others {
        push_behind_comma(made, other.as_str())?;
    }
    Ok(())
}

fn push_behind_comma(made: &mut String, text: &str) -> Result<(), Memory>
    ensures { OnOk result (string_bytes made.new ≡ string_bytes made.old ++ 44 ∷ text.now) }
{
    made.push_str(",")?;
    made.push_str(text)?;
    Ok(())
}

fn selected_texts(alloc: Global, doc: &Doc, path: &Path) -> Result<Vec<Text>, Memory>
    ensures { IfOk result (λ made. made.items ≡ map (node_text doc.now.text) (select path.now (root_tree doc.now))) }
{
    let nodes = path.all(alloc, doc)?;
    texts_of(alloc, doc, &nodes)
}

fn all_texts(alloc: Global, doc: &Doc, path: &Path) -> Result<String, Memory>
    ensures { IfOk result (λ made. string_bytes made ≡ all_texts_of doc.now.text (select path.now (root_tree doc.now))) }
{
    let texts = selected_texts(alloc, doc, path)?;
    let mut made = String::from_str(alloc, "[")?;
    push_parted(&mut made, &texts)?;
    made.push_str("]")?;
    Ok(made)
}

fn selected_text(alloc: Global, doc: &Doc, path: &Path) -> Result<String, Memory>
    ensures { IfOk result (λ made. string_bytes made ≡ selected_text_of doc.now.text (Some (root_tree doc.now)) (Some path.now)) }
{
    if path.starred() {
        all_texts(alloc, doc, path)
    } else {
        one_text(alloc, doc, path)
    }
}

fn one_value(alloc: Global, doc: &Doc, path: &Path) -> Result<Value, Memory>
    requires { starred_of path.now ≡ false }
    ensures { IfOk result (λ v. v ≡ one_value_of (select path.now (root_tree doc.now))) }
{
    match path.one(doc) {
        Some(id) => node_value(alloc, doc, id),
        None => Ok(Value::null()),
    }
}

fn values_of(alloc: Global, doc: &Doc, nodes: &[NodeId]) -> Result<ListMaker, Memory>
    requires { All (IsPart doc.now) nodes.now }
    ensures { IfOk result (λ made. made ≡ map (λ k. value_of (part doc.now k)) nodes.now) }
{
    let mut values = ListMaker::new(alloc);
    for node in nodes {
        values.push(node_value(alloc, doc, *node)?)?;
    }
    Ok(values)
}

// A list of the values of these nodes, and null where there is none.
#[tactic(auto, using(crate::proofs::Values::some_values))]
fn values_or_null(alloc: Global, doc: &Doc, nodes: &[NodeId]) -> Result<Value, Memory>
    requires { All (IsPart doc.now) nodes.now }
    ensures { IfOk result (λ v. v ≡ all_values_of (map (λ k. value_of (part doc.now k)) nodes.now)) }
{
    if nodes.is_empty() {
        return Ok(Value::null());
    }
    values_of(alloc, doc, nodes)?.close(alloc)
}

fn all_values(alloc: Global, doc: &Doc, path: &Path) -> Result<Value, Memory>
    ensures { IfOk result (λ v. v ≡ all_values_of (map value_of (select path.now (root_tree doc.now)))) }
{
    let nodes = path.all(alloc, doc)?;
    values_or_null(alloc, doc, &nodes)
}

fn selected_value(alloc: Global, doc: &Doc, path: &Path) -> Result<Value, Memory>
    ensures { IfOk result (λ v. v ≡ selected_value_of (Some (root_tree doc.now)) (Some path.now)) }
{
    if path.starred() {
        all_values(alloc, doc, path)
    } else {
        one_value(alloc, doc, path)
    }
}

impl<'a> Payload<'a> {
    /// Reads the document that a body is.
    pub fn new(alloc: Global, bytes: &'a [u8]) -> Result<Self, Memory>
        ensures { IfOk result (λ payload. payload ≡ bytes.now) }
    {
        let doc = read_document(alloc, bytes)?;
        Ok(Payload { bytes, doc })
    }

    /// The body.
    pub fn bytes(&self) -> &'a [u8]
        ensures { result.now ≡ self.now }
    {
        self.bytes
    }

    /// The text that a path selects of the body.
    #[tactic(auto, unfolding(crate::specs::Documents::json_at))]
    pub fn json(&self, alloc: Global, path: &str) -> Result<String, Memory>
        ensures { IfOk result (λ made. string_bytes made ≡ json_at self.now path.now) }
    {
        let Some(doc) = &self.doc else {
            return two_quotes(alloc);
        };
        let Some(path) = read_path(alloc, path)? else {
            return two_quotes(alloc);
        };
        selected_text(alloc, doc, &path)
    }

    /// The value that a path selects of the body.
    #[tactic(auto, unfolding(crate::specs::Documents::value_at))]
    pub fn path(&self, alloc: Global, path: &str) -> Result<Value, Memory>
        ensures { IfOk result (λ v. v ≡ value_at self.now path.now) }
    {
        let Some(doc) = &self.doc else {
            return Ok(Value::null());
        };
        let Some(path) = read_path(alloc, path)? else {
            return Ok(Value::null());
        };
        selected_value(alloc, doc, &path)
    }
}
