// Templates of the gateway's own answers.
ghost use Rattle.std.specs.Prelude.{◌≡◌, ◌<◌, length, nat_le};
ghost use Rattle.json_subset.specs.Documents.{IsPart, part};
ghost use Rattle.vtl_reader.specs.Nodes.{AllBelow, item_of, items_made};
ghost use Rattle.api_parts.specs.Reading.{Reads};
ghost use Rattle.api_members.specs.Small as says;
ghost use Rattle.api_members.specs.Nodes.{is_output_node};

use api_parts::ApiFault;
use api_reading::read_template;
use api_reading::values::{bad_member, text};
use json_subset::{Doc, NodeId};
use std::alloc::Global;
use vtl_reader::{Arena, ItemNode, Template};

/// The most bytes of a template of the gateway's own answers, and the most references in it.
const SMALL_LIMIT: usize = 4096;

const REFERENCES: usize = 64;

fn is_output(node: &ItemNode) -> bool
    ensures { result ≡ is_output_node node.now }
{
    matches!(node, ItemNode::Output(_, _, _))
}

// Whether so many items have at most so many references.
#[tactic(auto, using(crate::proofs::Outputs::output_made))]
fn has_few(arena: &Arena, items: &[usize]) -> bool
    requires { AllBelow (length arena.now.items) items.now }
    ensures { result ≡ nat_le (says.outputs (items_made (item_of arena.now) items.now)) 64 }
{
    let mut count = 0;
    let mut rest = items;
    while let [k, more @ ..] = rest {
        if is_output(arena.item(*k)) {
            count += 1;
        }
        rest = more;
    }
    count <= REFERENCES
}

#[tactic(auto, unfolding(crate::specs::Small::is_small))]
fn is_small(template: &Template) -> bool
    ensures { result ≡ says.is_small template.now }
{
    let (arena, items) = template.parts();
    template.simple() && has_few(arena, items)
}

/// A template of the gateway's own answers.
pub fn small_template(
    alloc: Global,
    doc: &Doc,
    name: &str,
    id: NodeId,
) -> Result<Template, ApiFault>
    requires { IsPart doc.now id }
    ensures { Reads (says.small_template_in name.now (part doc.now id)) result }
{
    let source = text(alloc, doc, name, id)?;
    if source.len() > SMALL_LIMIT {
        return Err(bad_member(alloc, name));
    }
    let template = read_template(alloc, source.as_str())?;
    if is_small(&template) {
        Ok(template)
    } else {
        Err(bad_member(alloc, name))
    }
}
