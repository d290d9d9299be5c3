// A schema that was read.
ghost use Rattle.std.specs.Prelude.{◌≡◌, ◌<◌, length, map, IfErr, IfOk, Ok};
ghost use Rattle.json_subset.specs.Documents.{root_tree};
ghost use Rattle.schema_draft4.specs.Cycles.{NoneBack, linked, reading_order};
ghost use Rattle.schema_draft4.specs.Links.{IsBackFault};
ghost use Rattle.schema_rules.specs.Made.{AreWellMade};
ghost use Rattle.schema_rules.specs.Order.{IsOrdered};
ghost use Rattle.schema_rules.specs.Verdict.{verdict};
ghost use Rattle.schema_rules.specs.Views.{AreSoundNodes, NamesPart, named_schema, rules_in, verdict_of};
ghost use Rattle.schema_draft4.specs.Faults.{FaultNamesPart};
ghost use Rattle.schema_draft4.specs.Compiled.{compiled_schemas, linked_schemas, IsFaultOf};
ghost use Rattle.json_subset.specs.Documents.{IsPart, part};

use crate::cycle::{Links, cycle_fault};
use crate::definitions::read_definitions;
use crate::fault::SchemaFault;
use crate::link::{link, set_ranks, steps};
use crate::read::read_schema;
use gw_base::Memory;
use json_subset::{Doc, NodeId};
use json_values::{Members, read_part};
use schema_order::order;
use schema_rules::{Case, Node, Verdict, are_sound, judge_value};
use std::alloc::Global;
use std::marker::Model;

/// A schema with all that it names. A contract sees it as its schemas by their numbers, and its own number.
#[derive(Drop)]
pub struct Schema {
    nodes: Vec<Node>,
    targets: Vec<usize>,
    root: usize,
}

impl Model for Schema {
    ghost use Rattle.std.specs.Prelude.{◌<◌, length};
    ghost use Rattle.schema_draft4.specs.Compiled.{Compiled};
    ghost use Rattle.schema_rules.specs.Views.{AreSoundNodes};
    ghost use Rattle.schema_rules.specs.contracts.rule.Node as node;
    ghost use Rattle.std.specs.Coded.{codes};

    ghost Value = { Compiled };

    ghost coded = { Prim.hlevel (codes, node.the_row.coded) };

    ghost view = { λ s. record { nodes = s.nodes.items; targets = s.targets.items; root = s.root } };

    ghost invariant = { λ s. AreSoundNodes s.nodes.items s.targets.items × (s.root < length s.nodes.items) };
}

impl Schema {
    // The schema of this number among these.
    pub(crate) fn of(nodes: Vec<Node>, targets: Vec<usize>, root: usize) -> Schema
        requires sound { AreSoundNodes nodes.items targets.items }
        requires root { root < length nodes.items }
        ensures { result ≡ record { nodes = nodes.items; targets = targets.items; root = root } }
    {
        Schema {
            nodes,
            targets,
            root,
        }
    }

    /// The schema that this part of a document is, with all that it names; or the first fault in reading order, and
    /// `RefCycle` where there is no other.
    pub fn read(alloc: Global, doc: &Doc, id: NodeId) -> Result<Schema, SchemaFault>
        requires { IsPart doc.now id }
        ensures read { IfOk result (λ s. linked_schemas (part doc.now id) ≡ Ok (compiled_schemas s, s.root)) }
        ensures straight { IfOk result (λ s. NoneBack (compiled_schemas s) (reading_order (compiled_schemas s))) }
        ensures part { IfErr result (λ e. FaultNamesPart doc.now e) }
        ensures fault { IfErr result (λ e. IsFaultOf doc.now e (part doc.now id)) }
    {
        let definitions = read_definitions(alloc, doc, id)?;
        let mut nodes = Vec::new(alloc);
        let root = read_schema(alloc, doc, &definitions, &mut nodes, true, id)?;
        compile(alloc, nodes, root, &definitions)
    }

    /// Its schemas come in an order.
    pub(crate) fn ordered(&self)
        ensures { IsOrdered (compiled_schemas self.now) }
    {
        let _root = self.root;
    }

    /// The verdict of the schema on a document: valid, or the first failing part and its keyword, in the schema's
    /// written order. It costs at most one verdict for each schema and each part of the document.
    pub fn check(&self, alloc: Global, doc: &Doc) -> Result<Verdict, Memory>
        ensures says { IfOk result (λ v. verdict_of doc.now v ≡ verdict (compiled_schemas self.now) (root_tree doc.now) self.now.root) }
        ensures part { IfOk result (λ v. NamesPart doc.now v) }
    {
        let mut values = Vec::new(alloc);
        let value = read_part(alloc, doc, &mut values, doc.root())?;
        let case = Case {
            nodes: &self.nodes,
            targets: &self.targets,
            doc,
            values: &values,
        };
        judge_value(alloc, &case, value, self.root)
    }
}

// The schemas with what their references name, if none comes back.
fn compile(
    alloc: Global,
    nodes: Vec<Node>,
    root: usize,
    definitions: &Members,
) -> Result<Schema, SchemaFault>
    requires made { AreWellMade nodes.items }
    ensures schemas { IfOk result (λ s. compiled_schemas s ≡ linked (map rules_in nodes.items) root) }
    ensures root { IfOk result (λ s. s.root ≡ root) }
    ensures straight { IfOk result (λ s. NoneBack (compiled_schemas s) (reading_order (compiled_schemas s))) }
    ensures fault { IfErr result (IsBackFault (linked (map rules_in nodes.items) root) (map named_schema definitions.now.list.items)) }
{
    let mut nodes = nodes;
    let targets = link(alloc, &nodes, root)?;
    let steps = steps(alloc, &nodes, &targets)?;
    match order(alloc, &steps)? {
        Some(ranks) => {
            set_ranks(&mut nodes, &ranks);
            if root < nodes.len() && are_sound(&nodes, &targets) {
                Ok(Schema::of(nodes, targets, root))
            } else {
                Err(SchemaFault::Memory)
            }
        }
        None => {
            let links = Links {
                nodes: &nodes,
                targets: &targets,
                steps: &steps,
            };
            Err(cycle_fault(alloc, &links, definitions))
        }
    }
}
