// The parts of a document, by the numbers of its nodes.
ghost use Rattle.std.specs.Prelude.{◌≡◌, ◌<◌, length, MatchOption, None, Some};
ghost use Rattle.std.specs.Str.{IsUtf8};
ghost use Rattle.json_subset.specs.Nodes.{tree_of, made, AreSound, IsSound};
ghost use Rattle.json_subset.specs.Numbered.{number_named, IsIndexOf};
ghost use Rattle.json_subset.specs.Documents.{form, place as place_of, span as span_of, kind as kind_of, decoded, item_at, entry_at, member_named};

use crate::doc::Kind;
use crate::node::{Form, Node, ObjectMembers};
use crate::number::Number;

fn node_at<'a>(text: &str, nodes: &'a [Node], k: usize) -> &'a Node
    requires sound { AreSound text.now nodes.now }
    requires stands { k < length nodes.now }
    ensures opened { tree_of text.now nodes.now k ≡ made text.now (tree_of text.now nodes.now) result.now }
    ensures sound { IsSound text.now k result.now }
{
    &nodes[k]
}

/// What a part is.
pub fn kind(text: &str, nodes: &[Node], k: usize) -> Kind
    requires sound { AreSound text.now nodes.now }
    requires stands { k < length nodes.now }
    ensures { result ≡ kind_of (form (tree_of text.now nodes.now k)) }
{
    let node = node_at(text, nodes, k);
    match &node.form {
        Form::Null => Kind::Null,
        Form::Bool(b) => Kind::Bool(*b),
        Form::Number(Number::Whole(z)) => Kind::Whole(*z),
        Form::Number(Number::Decimal) => Kind::Decimal,
        Form::Number(Number::Wide) => Kind::Wide,
        Form::Text(_) => Kind::Text,
        Form::List(ids) => Kind::List(ids.len() as u32),
        Form::Object(members) => Kind::Object(members.list.len() as u32),
    }
}

/// The place of the first byte of a part.
pub fn place(text: &str, nodes: &[Node], k: usize) -> usize
    requires sound { AreSound text.now nodes.now }
    requires stands { k < length nodes.now }
    ensures { result ≡ place_of (tree_of text.now nodes.now k) }
{
    node_at(text, nodes, k).first
}

/// The source text of a part.
pub fn span<'a>(text: &'a str, nodes: &[Node], k: usize) -> &'a str
    requires sound { AreSound text.now nodes.now }
    requires stands { k < length nodes.now }
    ensures { result.now ≡ span_of text.now (tree_of text.now nodes.now k) }
{
    let node = node_at(text, nodes, k);
    &text[node.first..node.past]
}

/// The decoded text of a string.
pub fn text<'a>(text: &str, nodes: &'a [Node], k: usize) -> Option<&'a str>
    requires sound { AreSound text.now nodes.now }
    requires stands { k < length nodes.now }
    ensures { MatchOption result (decoded (form (tree_of text.now nodes.now k)) ≡ None) (λ t. decoded (form (tree_of text.now nodes.now k)) ≡ Some t.now) }
{
    let node = node_at(text, nodes, k);
    match &node.form {
        Form::Text(t) => Some(t.as_str()),
        Form::Null | Form::Bool(_) | Form::Number(_) | Form::List(_) | Form::Object(_) => None,
    }
}

/// The number of a list's item.
pub fn item(text: &str, nodes: &[Node], k: usize, i: usize) -> Option<usize>
    requires sound { AreSound text.now nodes.now }
    requires stands { k < length nodes.now }
    ensures { MatchOption result (item_at (form (tree_of text.now nodes.now k)) i ≡ None) (λ j. (j < length nodes.now) × (item_at (form (tree_of text.now nodes.now k)) i ≡ Some (tree_of text.now nodes.now j))) }
{
    let node = node_at(text, nodes, k);
    match &node.form {
        Form::List(ids) => { if i < ids.len() { Some(ids[i]) } else { None } }
        Form::Null | Form::Bool(_) | Form::Number(_) | Form::Text(_) | Form::Object(_) => None,
    }
}

/// The name and the value's number of an object's member.
pub fn entry<'a>(text: &str, nodes: &'a [Node], k: usize, i: usize) -> Option<(&'a str, usize)>
    requires sound { AreSound text.now nodes.now }
    requires stands { k < length nodes.now }
    ensures { MatchOption result (entry_at (form (tree_of text.now nodes.now k)) i ≡ None) (λ p. (p.1 < length nodes.now) × (entry_at (form (tree_of text.now nodes.now k)) i ≡ Some (p.0.now, tree_of text.now nodes.now p.1))) }
{
    let node = node_at(text, nodes, k);
    match &node.form {
        Form::Object(members) => {
            if i < members.list.len() {
                let member = &members.list[i];
                Some((member.0.as_str(), member.1))
            } else {
                None
            }
        }
        Form::Null | Form::Bool(_) | Form::Number(_) | Form::Text(_) | Form::List(_) => None,
    }
}

// The value's number of the first member of this name.
fn first_named(members: &[(String, usize)], name: &str) -> Option<usize>
    ensures { result ≡ number_named members.now name.now }
{
    for member in members {
        if member.0.as_str() == name {
            return Some(member.1);
        }
    }
    None
}

// The same, by the index where there is one.
fn number_of(members: &ObjectMembers, name: &str) -> Option<usize>
    requires { IsIndexOf members.now.list.items members.now.index }
    ensures { result ≡ number_named members.now.list.items name.now }
{
    match &members.index {
        Some(index) => match index.get(name) {
            Some(place) => Some(members.list[*place].1),
            None => None,
        },
        None => first_named(&members.list, name),
    }
}

/// The number of the value of an object's first member of this name.
pub fn member(text: &str, nodes: &[Node], k: usize, name: &str) -> Option<usize>
    requires sound { AreSound text.now nodes.now }
    requires stands { k < length nodes.now }
    ensures { MatchOption result (member_named (form (tree_of text.now nodes.now k)) name.now ≡ None) (λ j. (j < length nodes.now) × (member_named (form (tree_of text.now nodes.now k)) name.now ≡ Some (tree_of text.now nodes.now j))) }
{
    let node = node_at(text, nodes, k);
    match &node.form {
        Form::Object(members) => number_of(members, name),
        Form::Null | Form::Bool(_) | Form::Number(_) | Form::Text(_) | Form::List(_) => None,
    }
}
