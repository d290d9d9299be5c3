// A document that was read.
ghost use Rattle.std.specs.Prelude.{◌≡◌, ◌<◌, length, IfOk, MatchOption, None, Some};
ghost use Rattle.json_subset.specs.Bare.{IsSameBare};
ghost use Rattle.json_subset.specs.Grammar.{Spells};
ghost use Rattle.json_subset.specs.Nodes.{AreSound, tree_of};
ghost use Rattle.json_subset.specs.Tree.{Tree};
ghost use Rattle.std.specs.String.{string_bytes};
ghost use Rattle.json_subset.specs.Documents.{part, root_tree, IsPart, IsWithin, form, place as place_of, span as span_of, kind as kind_of, decoded, item_at, entry_at, member_named};
ghost use Rattle.json_subset.specs.Compact.{compacted};

use crate::compact::compact_text;
use crate::node::Node;
use crate::parts;
use gw_base::Memory;
use std::alloc::Global;
use std::marker::Model;

/// A part of a document, by its number in that document.
#[derive(Clone, Copy)]
pub struct NodeId {
    index: usize,
}

impl Model for NodeId {
    ghost use Rattle.std.specs.Prelude.{ℕ};

    ghost Value = { ℕ };

    ghost view = { λ n. n.index };

    ghost inverse = { λ k. record { index = k } };
}

/// What a part of a document is (RFC 8259, section 3).
#[derive(Clone, Copy, PartialEq, Eq, Debug)]
pub enum Kind {
    Null,
    Bool(bool),
    /// A number with neither fraction nor exponent that fits 64 signed bits (section 6).
    Whole(i64),
    /// A number with a fraction, no exponent, and at most 18 digits before the point.
    Decimal,
    /// Any other number.
    Wide,
    Text,
    /// A list, and how many items it has.
    List(u32),
    /// An object, and how many members it has.
    Object(u32),
}

/// A document: its text, and its parts by their numbers.
#[derive(Drop)]
pub struct Doc {
    text: String,
    nodes: Vec<Node>,
    root: usize,
}

impl Model for Doc {
    ghost use Rattle.std.specs.Coded.{codes};
    ghost use Rattle.std.specs.String.{string_bytes};
    ghost use Rattle.json_subset.specs.Documents.{Document, IsDocument};
    ghost use Rattle.json_subset.specs.contracts.node.Node as node;

    ghost Value = { Document };

    ghost coded = { Prim.hlevel (codes, node.the_row.coded) };

    ghost view = { λ d. record { text = string_bytes d.text; nodes = d.nodes.items; root = d.root } };

    ghost invariant = { λ d. IsDocument (record { text = string_bytes d.text; nodes = d.nodes.items; root = d.root }) };
}

impl Doc {
    // A document of this text and these nodes.
    pub(crate) fn of(text: String, nodes: Vec<Node>, root: usize) -> Doc
        requires sound { AreSound (string_bytes text) nodes.items }
        requires root { root < length nodes.items }
        requires spelled { Spells (string_bytes text) (tree_of (string_bytes text) nodes.items root) }
        ensures { result ≡ record { text = string_bytes text; nodes = nodes.items; root = root } }
    {
        Doc { text, nodes, root }
    }

    /// The value of the whole document.
    pub fn root(&self) -> NodeId
        ensures part { IsPart self.now result }
        ensures root { part self.now result ≡ root_tree self.now }
    {
        NodeId { index: self.root }
    }

    /// What this part is.
    pub fn kind(&self, id: NodeId) -> Kind
        requires { IsPart self.now id }
        ensures { result ≡ kind_of (form (part self.now id)) }
    {
        parts::kind(self.text.as_str(), &self.nodes, id.index)
    }

    /// The place of the first byte of this part, counted from the start of the document.
    pub fn place(&self, id: NodeId) -> usize
        requires { IsPart self.now id }
        ensures { result ≡ place_of (part self.now id) }
    {
        parts::place(self.text.as_str(), &self.nodes, id.index)
    }

    /// The source text of this part, from its first byte to its last.
    pub fn span(&self, id: NodeId) -> &str
        requires { IsPart self.now id }
        ensures { result.now ≡ span_of self.now.text (part self.now id) }
    {
        parts::span(self.text.as_str(), &self.nodes, id.index)
    }

    /// The decoded text of a string, and `None` of any other part.
    pub fn text(&self, id: NodeId) -> Option<&str>
        requires { IsPart self.now id }
        ensures { MatchOption result (decoded (form (part self.now id)) ≡ None) (λ t. decoded (form (part self.now id)) ≡ Some t.now) }
    {
        parts::text(self.text.as_str(), &self.nodes, id.index)
    }

    /// The item of a list at this place, counted from 0, and `None` where there is none.
    pub fn item(&self, id: NodeId, i: u32) -> Option<NodeId>
        requires { IsPart self.now id }
        ensures { MatchOption result (item_at (form (part self.now id)) i ≡ None) (λ k. IsPart self.now k × (item_at (form (part self.now id)) i ≡ Some (part self.now k))) }
    {
        match parts::item(self.text.as_str(), &self.nodes, id.index, i as usize) {
            Some(index) => Some(NodeId { index }),
            None => None,
        }
    }

    /// The member of an object at this place, counted from 0: its name and its value.
    pub fn entry(&self, id: NodeId, i: u32) -> Option<(&str, NodeId)>
        requires { IsPart self.now id }
        ensures { MatchOption result (entry_at (form (part self.now id)) i ≡ None) (λ p. IsPart self.now p.1 × (entry_at (form (part self.now id)) i ≡ Some (p.0.now, part self.now p.1))) }
    {
        match parts::entry(self.text.as_str(), &self.nodes, id.index, i as usize) {
            Some((name, index)) => Some((name, NodeId { index })),
            None => None,
        }
    }

    /// The value of the first member of this name.
    pub fn member(&self, id: NodeId, name: &str) -> Option<NodeId>
        requires { IsPart self.now id }
        ensures { MatchOption result (member_named (form (part self.now id)) name.now ≡ None) (λ k. IsPart self.now k × (member_named (form (part self.now id)) name.now ≡ Some (part self.now k))) }
    {
        match parts::member(self.text.as_str(), &self.nodes, id.index, name) {
            Some(index) => Some(NodeId { index }),
            None => None,
        }
    }

    /// The source text of this part without the white space outside strings, which spells the same
    /// tree but for places.
    pub fn compact(&self, alloc: Global, id: NodeId) -> Result<String, Memory>
        requires { IsPart self.now id }
        ensures text { IfOk result (λ s. string_bytes s ≡ compacted (span_of self.now.text (part self.now id))) }
        ensures spells { IfOk result (λ s. IsWithin (part self.now id) (root_tree self.now) → (u : Tree) × Spells (string_bytes s) u × IsSameBare (part self.now id) u) }
    {
        match compact_text(
            alloc,
            parts::span(self.text.as_str(), &self.nodes, id.index),
        ) {
            Ok(text) => Ok(text),
            Err(_) => Err(Memory),
        }
    }
}
