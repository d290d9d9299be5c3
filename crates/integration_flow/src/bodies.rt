// A body, and the texts that paths select of it.
ghost use Rattle.std.specs.Prelude.{◌≡◌, ◌++◌, ◌∷◌, false, All, IfOk, OnOk, Some, map};
ghost use Rattle.std.specs.String.{string_bytes};
ghost use Rattle.gateway_vars.specs.Documents.{all_texts as all_texts_of, node_text, parted};
ghost use Rattle.integration_flow.specs.Bodies.{first_text as first_text_of, own_text as own_text_of, selected as selected_of, text_at};
ghost use Rattle.json_subset.specs.Documents.{IsPart, part, root_tree};
ghost use Rattle.jsonpath_core.specs.Selecting.{select};
ghost use Rattle.jsonpath_core.specs.Steps.{starred as starred_of};

use gateway_vars::read_document;
use gw_base::{Memory, Text};
use json_subset::{Doc, NodeId};
use jsonpath_core::Path;
use std::alloc::Global;
use std::marker::Model;

/// A body, with the document that it is.
#[derive(Drop)]
pub struct ReadBody<'a> {
    bytes: &'a [u8],
    doc: Option<Doc>,
}

impl<'a> Model for ReadBody<'a> {
    ghost use Rattle.std.specs.Prelude.{List, ℕ};
    ghost use Rattle.gateway_vars.specs.Read.{IsReading};

    ghost Value = { List ℕ };

    ghost view = { λ b. b.bytes.now };

    ghost invariant = { λ b. IsReading b.bytes.now b.doc };
}

fn own_text(alloc: Global, doc: &Doc, id: NodeId) -> Result<Text, Memory>
    requires { IsPart doc.now id }
    ensures { IfOk result (λ made. made ≡ own_text_of doc.now.text (part doc.now id)) }
{
    match doc.text(id) {
        Some(text) => Ok(Text::of(String::from_str(alloc, text)?)),
        None => Ok(Text::of(doc.compact(alloc, id)?)),
    }
}

fn first_text(alloc: Global, doc: &Doc, path: &Path) -> Result<Option<Text>, Memory>
    requires { starred_of path.now ≡ false }
    ensures { IfOk result (λ made. made ≡ first_text_of doc.now.text (select path.now (root_tree doc.now))) }
{
    match path.one(doc) {
        Some(id) => Ok(Some(own_text(alloc, doc, id)?)),
        None => Ok(None),
    }
}

// The texts of these nodes.
fn texts_of(alloc: Global, doc: &Doc, nodes: &[NodeId]) -> Result<Vec<Text>, Memory>
    requires { All (IsPart doc.now) nodes.now }
    ensures { IfOk result (λ made. made.items ≡ map (λ k. node_text doc.now.text (part doc.now k)) nodes.now) }
{
    let mut texts = Vec::new(alloc);
    for node in nodes {
        texts.push(Text::of(doc.compact(alloc, *node)?))?;
    }
    Ok(texts)
}

fn selected_texts(alloc: Global, doc: &Doc, path: &Path) -> Result<Vec<Text>, Memory>
    ensures { IfOk result (λ made. made.items ≡ map (node_text doc.now.text) (select path.now (root_tree doc.now))) }
{
    let nodes = path.all(alloc, doc)?;
    texts_of(alloc, doc, &nodes)
}

fn push_behind_comma(made: &mut String, text: &str) -> Result<(), Memory>
    ensures { OnOk result (string_bytes made.new ≡ string_bytes made.old ++ 44 ∷ text.now) }
{
    made.push_str(",")?;
    made.push_str(text)?;
    Ok(())
}

fn push_parted(made: &mut String, texts: &[Text]) -> Result<(), Memory>
    ensures { OnOk result (string_bytes made.new ≡ string_bytes made.old ++ parted texts.now) }
{
    let Some((first, others)) = texts.split_first() else {
        return Ok(());
    };
    made.push_str(first.as_str())?;
    for other in others {
        push_behind_comma(made, other.as_str())?;
    }
    Ok(())
}

fn all_texts(alloc: Global, doc: &Doc, path: &Path) -> Result<Text, Memory>
    ensures { IfOk result (λ made. made ≡ all_texts_of doc.now.text (select path.now (root_tree doc.now))) }
{
    let texts = selected_texts(alloc, doc, path)?;
    let mut made = String::from_str(alloc, "[")?;
    push_parted(&mut made, &texts)?;
    made.push_str("]")?;
    Ok(Text::of(made))
}

fn selected(alloc: Global, doc: &Doc, path: &Path) -> Result<Option<Text>, Memory>
    ensures { IfOk result (λ made. made ≡ selected_of doc.now.text path.now (root_tree doc.now)) }
{
    if path.starred() {
        Ok(Some(all_texts(alloc, doc, path)?))
    } else {
        first_text(alloc, doc, path)
    }
}

impl<'a> ReadBody<'a> {
    /// Reads the document that the bytes are.
    pub fn new(alloc: Global, bytes: &'a [u8]) -> Result<Self, Memory>
        ensures { IfOk result (λ made. made ≡ bytes.now) }
    {
        let doc = read_document(alloc, bytes)?;
        Ok(ReadBody { bytes, doc })
    }

    /// The text that a path selects of the body: of a string its own text, of another node its source without the white space
    /// outside strings, and of a path with a star the list of all; `None` where it selects nothing, or the body is no document.
    #[tactic(auto, unfolding(crate::specs::Bodies::text_at))]
    pub fn text_at(&self, alloc: Global, path: &Path) -> Result<Option<Text>, Memory>
        ensures { IfOk result (λ made. made ≡ text_at self.now path.now) }
    {
        match &self.doc {
            Some(doc) => selected(alloc, doc, path),
            None => Ok(None),
        }
    }
}
