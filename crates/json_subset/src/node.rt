// The nodes of a document, each named by its number.
ghost use Rattle.std.specs.Prelude.{◌≡◌, []};
ghost use Rattle.json_subset.specs.Numbered.{names_in, HasPlaces, IsIndexOf};

use crate::number::Number;
use std::alloc::Global;
use std::collections::BTreeMap;

/// The most members of an object that has no index: so few are walked as fast as they are looked up,
/// and need no second copy of their names.
const FEW: usize = 16;

/// The members of an object.
#[derive(Drop)]
pub struct ObjectMembers {
    /// In their order: the decoded name, and the value's number.
    pub list: Vec<(String, usize)>,
    /// Of a large object, the place of each name.
    pub index: Option<BTreeMap<String, usize>>,
}

impl ObjectMembers {
    /// No members.
    pub fn none(alloc: Global) -> ObjectMembers
        ensures list { result.list.items ≡ [] }
        ensures index { IsIndexOf result.list.items result.index }
    {
        ObjectMembers {
            list: Vec::new(alloc),
            index: None,
        }
    }

    /// The members of an object, of which these are the places of the names.
    pub fn of(list: Vec<(String, usize)>, places: BTreeMap<String, usize>) -> ObjectMembers
        requires { HasPlaces (names_in list.items) places }
        ensures list { result.list ≡ list }
        ensures index { IsIndexOf result.list.items result.index }
    {
        let index = if list.len() > FEW { Some(places) } else { None };
        ObjectMembers { list, index }
    }
}

/// What a node is; its parts are named by their numbers.
#[derive(Drop)]
pub enum Form {
    Null,
    Bool(bool),
    Number(Number),
    /// The decoded text.
    Text(String),
    List(Vec<usize>),
    Object(ObjectMembers),
}

/// A value of the document, from the place of its first byte to the place behind its last.
#[derive(Drop)]
pub struct Node {
    pub first: usize,
    pub past: usize,
    pub form: Form,
}
