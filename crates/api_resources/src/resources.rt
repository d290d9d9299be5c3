// Resources.
ghost use Rattle.std.specs.Prelude.{◌≡◌, ◌<◌, ◌+◌, ◌++◌, ◌∷◌, [], length, map, IfOk, OnOk, MatchResult};
ghost use Rattle.json_subset.specs.Documents.{IsPart, form, part, root_tree};
ghost use Rattle.json_values.specs.Parts.{entries_of};
ghost use Rattle.api_parts.specs.Reading.{Reads, ReadsAs, each, first_of};
ghost use Rattle.api_resources.specs.Resources as says;
ghost use Rattle.api_resources.specs.Paths.{HasTree, IsTold, IsTreeFor, own_fault as own_fault_of};

use crate::integrations::is_verb;
use crate::methods::read_method;
use api_parts::{ApiCause, ApiFault, Method, Resource, below, no_memory};
use api_reading::defer;
use api_reading::values::{bad_member, copy, fault_here, member_at, object, unknown_member};
use gw_base::{Seq, Text};
use json_subset::{Doc, NodeId};
use resource_tree::{Tree, TreeFault};
use status_table::StatusTables;
use std::alloc::Global;
use std::mem;

/// The most resources of an API.
const RESOURCES: u32 = 300;

/// The verbs of a resource that are read, all methods so far, and the first fault of the resource that waits.
#[derive(Drop)]
pub struct VerbsRead {
    pub verbs: Seq<(Text, u32)>,
    pub methods: Seq<Method>,
    pub waiting: Option<ApiFault>,
}

/// The resources that are read, their methods, and the first fault of theirs that waits.
#[derive(Drop)]
pub struct ResourcesRead {
    pub list: Seq<Resource>,
    pub methods: Seq<Method>,
    pub waiting: Option<ApiFault>,
}

fn is_entry(name: &str) -> bool
    ensures { result ≡ says.is_entry name.now }
{
    is_verb(name) || name == "ANY"
}

fn with_method(
    alloc: Global,
    read: &mut VerbsRead,
    name: &str,
    method: Method,
    fault: Option<ApiFault>,
) -> Result<(), ApiFault>
    ensures { MatchResult result (λ _. read.new ≡ says.with_method read.old name.now (method, fault)) (λ e. e.cause ≡ ApiCause.Memory) }
{
    defer(alloc, &mut read.waiting, name, fault)?;
    let Ok(number) = u32::try_from(read.methods.as_slice().len()) else {
        return Err(no_memory(alloc));
    };
    let name = copy(alloc, name)?;
    let Ok(()) = read.verbs.push((name, number)) else {
        return Err(no_memory(alloc));
    };
    match read.methods.push(method) {
        Ok(()) => Ok(()),
        Err(_) => Err(no_memory(alloc)),
    }
}

fn add_method(
    alloc: Global,
    doc: &Doc,
    tables: &mut StatusTables,
    path: &str,
    read: &mut VerbsRead,
    name: &str,
    id: NodeId,
) -> Result<(), ApiFault>
    requires { IsPart doc.now id }
    ensures { ReadsAs (λ (_ : Unit {0}). read.new) (says.verbs_member (root_tree doc.now) path.now read.old name.now (part doc.now id)) result }
{
    if !is_entry(name) {
        return Err(unknown_member(alloc, name));
    }
    let (method, fault) = read_method(alloc, doc, tables, path, name, id)?;
    with_method(alloc, read, name, method, fault)
}

fn read_verbs(
    alloc: Global,
    doc: &Doc,
    tables: &mut StatusTables,
    methods: Seq<Method>,
    path: &str,
    id: NodeId,
) -> Result<VerbsRead, ApiFault>
    requires { IsPart doc.now id }
    ensures { Reads (says.verbs_in (root_tree doc.now) methods path.now (part doc.now id)) result }
{
    let mut read = VerbsRead {
        verbs: Seq::new(alloc),
        methods,
        waiting: None,
    };
    let count = object(alloc, doc, path, id)?;
    for i in 0..count {
        let (member, value) = member_at(doc, id, i);
        if let Err(fault) = add_method(alloc, doc, tables, path, &mut read, member, value) {
            return Err(below(alloc, member, fault));
        }
    }
    Ok(read)
}

// What waits for the path of a resource.
fn path_waiting(alloc: Global, fault: Option<TreeFault>) -> Option<ApiFault>
    ensures { result ≡ says.path_waiting fault }
{
    match fault {
        Some(fault) => Some(fault_here(alloc, ApiCause::Tree(fault))),
        None => None,
    }
}

// The first of two faults that wait.
fn or_later(first: Option<ApiFault>, later: Option<ApiFault>) -> Option<ApiFault>
    ensures { result ≡ first_of first later }
{
    match first {
        Some(fault) => Some(fault),
        None => later,
    }
}

fn with_resource(
    alloc: Global,
    all: &mut ResourcesRead,
    path: &str,
    fault: Option<TreeFault>,
    verbs: VerbsRead,
) -> Result<(), ApiFault>
    ensures { MatchResult result (λ _. all.new ≡ says.with_resource all.old path.now fault verbs) (λ e. e.cause ≡ ApiCause.Memory) }
{
    let VerbsRead {
        verbs,
        methods,
        waiting,
    } = verbs;
    all.methods = methods;
    let inner = or_later(path_waiting(alloc, fault), waiting);
    defer(alloc, &mut all.waiting, path, inner)?;
    let path = copy(alloc, path)?;
    match all.list.push(Resource { path, verbs }) {
        Ok(()) => Ok(()),
        Err(_) => Err(no_memory(alloc)),
    }
}

// The fault of the path at this place, where the first fault of all paths is this.
fn own_fault(first: &Option<TreeFault>, i: u32) -> Option<TreeFault>
    ensures { result ≡ own_fault_of first.now i }
{
    match first {
        Some(TreeFault::BadPart(at)) => if *at == i {
            Some(TreeFault::BadPart(*at))
        } else {
            None
        },
        Some(TreeFault::Clash(at)) => if *at == i {
            Some(TreeFault::Clash(*at))
        } else {
            None
        },
        Some(TreeFault::GreedyNotLast(at)) => if *at == i {
            Some(TreeFault::GreedyNotLast(*at))
        } else {
            None
        },
        Some(TreeFault::Memory) => None,
        None => None,
    }
}

// The names of the members of an object.
fn names(alloc: Global, doc: &Doc, id: NodeId, count: u32) -> Result<Vec<Text>, ApiFault>
    requires part { IsPart doc.now id }
    requires count { count ≡ length (entries_of (form (part doc.now id))) }
    ensures { MatchResult result (λ v. (v.items ≡ says.paths_of (entries_of (form (part doc.now id)))) × (count ≡ length v.items)) (λ e. e.cause ≡ ApiCause.Memory) }
{
    let mut names = Vec::new(alloc);
    for i in 0..count {
        let (member, _) = member_at(doc, id, i);
        let name = copy(alloc, member)?;
        let Ok(()) = names.push(name) else {
            return Err(no_memory(alloc));
        };
    }
    Ok(names)
}

/// The tree of paths, or the first fault of theirs.
#[derive(Drop)]
pub struct TreeRead {
    pub tree: Option<Tree>,
    pub fault: Option<TreeFault>,
}

fn build(alloc: Global, paths: &[Text]) -> Result<TreeRead, ApiFault>
    ensures { MatchResult result (λ r. IsTreeFor paths.now r.tree r.fault) (λ e. e.cause ≡ ApiCause.Memory) }
{
    match Tree::build(alloc, paths) {
        Ok(tree) => Ok(TreeRead {
            tree: Some(tree),
            fault: None,
        }),
        Err(TreeFault::Memory) => Err(no_memory(alloc)),
        Err(fault) => Ok(TreeRead {
            tree: None,
            fault: Some(fault),
        }),
    }
}

// A resource more, which stands at this place.
fn add_resource(
    alloc: Global,
    doc: &Doc,
    tables: &mut StatusTables,
    fault: Option<TreeFault>,
    all: &mut ResourcesRead,
    name: &str,
    id: NodeId,
) -> Result<(), ApiFault>
    requires { IsPart doc.now id }
    ensures { ReadsAs (λ (_ : Unit {0}). all.new) (says.resource_added (root_tree doc.now) fault all.old name.now (part doc.now id)) result }
{
    let methods = mem::replace(&mut all.methods, Seq::new(alloc));
    let verbs = read_verbs(alloc, doc, tables, methods, name, id)?;
    with_resource(alloc, all, name, fault, verbs)
}

/// A member of the resources: its place among them, counted from 0, its name, and its value.
#[derive(Clone, Copy)]
pub struct Entry<'a> {
    pub place: u32,
    pub name: &'a str,
    pub value: NodeId,
}

// The resource of this member, where the first fault of all paths is this.
fn next_resource(
    alloc: Global,
    doc: &Doc,
    tables: &mut StatusTables,
    paths: &[Text],
    built: &TreeRead,
    all: &mut ResourcesRead,
    member: Entry<'_>,
) -> Result<(), ApiFault>
    requires part { IsPart doc.now member.value }
    requires told { IsTold paths.now built.now.fault member.place all.old.waiting }
    requires place { member.place ≡ length all.old.list }
    requires within { member.place < length paths.now }
    ensures read { ReadsAs (λ (_ : Unit {0}). all.new) (says.resources_member (root_tree doc.now) paths.now all.old member.entry.name.now (part doc.now member.entry.value)) result }
    ensures told { OnOk result (IsTold paths.now built.now.fault (member.entry.place + 1) all.new.waiting) }
    ensures place { OnOk result (member.entry.place + 1 ≡ length all.new.list) }
    ensures path { OnOk result (map says.path_of all.new.list ≡ map says.path_of all.old.list ++ member.entry.name.now ∷ []) }
{
    let fault = own_fault(&built.fault, member.place);
    add_resource(alloc, doc, tables, fault, all, member.name, member.value)
}

/// The resources, and the tree of their paths; it is there where no fault waits.
pub fn read_resources(
    alloc: Global,
    doc: &Doc,
    name: &str,
    id: NodeId,
) -> Result<(ResourcesRead, Option<Tree>), ApiFault>
    requires { IsPart doc.now id }
    ensures read { ReadsAs (λ r. r.0) (says.resources_in (root_tree doc.now) name.now (part doc.now id)) result }
    ensures tree { IfOk result (λ r. HasTree (map says.path_of r.0.list) r.0.waiting r.1) }
{
    let count = object(alloc, doc, name, id)?;
    if count > RESOURCES {
        return Err(bad_member(alloc, name));
    }
    let paths = names(alloc, doc, id, count)?;
    let built = build(alloc, &paths)?;
    let mut tables = StatusTables::new(alloc);
    let read = read_each(alloc, doc, &mut tables, &paths, &built, id, count)?;
    Ok((read, built.tree))
}

fn read_each(
    alloc: Global,
    doc: &Doc,
    tables: &mut StatusTables,
    paths: &[Text],
    built: &TreeRead,
    id: NodeId,
    count: u32,
) -> Result<ResourcesRead, ApiFault>
    requires part { IsPart doc.now id }
    requires built { IsTreeFor paths.now built.now.tree built.now.fault }
    requires count { count ≡ length (entries_of (form (part doc.now id))) }
    requires paths { paths.now ≡ says.paths_of (entries_of (form (part doc.now id))) }
    requires many { count ≡ length paths.now }
    ensures read { Reads (each (says.resources_member (root_tree doc.now) paths.now) says.no_resources (entries_of (form (part doc.now id)))) result }
    ensures told { IfOk result (λ r. IsTold paths.now built.now.fault count r.waiting) }
    ensures path { IfOk result (λ r. map says.path_of r.list ≡ paths.now) }
{
    let mut read = ResourcesRead {
        list: Seq::new(alloc),
        methods: Seq::new(alloc),
        waiting: None,
    };
    for i in 0..count {
        let (member, value) = member_at(doc, id, i);
        let entry = Entry {
            place: i,
            name: member,
            value,
        };
        if let Err(fault) = next_resource(alloc, doc, tables, paths, built, &mut read, entry) {
            return Err(below(alloc, member, fault));
        }
    }
    Ok(read)
}
