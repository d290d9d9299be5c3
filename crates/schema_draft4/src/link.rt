// What the schemas that were read name, and their ranks.
ghost use Rattle.std.specs.Prelude.{◌≡◌, ◌∷◌, ◌++◌, map, slice_index, IfOk, OnOk};
ghost use Rattle.schema_order.specs.Leads.{lists_of};
ghost use Rattle.schema_draft4.specs.Cycles.{all_defined, all_in_place, defined, in_place, rules_at};
ghost use Rattle.schema_draft4.specs.Cycles.{steps as steps_for};
ghost use Rattle.schema_rules.specs.Made.{AreWellMade};
ghost use Rattle.schema_rules.specs.Views.{named_schema, rule_of, rules_in, schemas_of};

use gw_base::Memory;
use schema_rules::{Node, Rule};
use std::alloc::Global;

/// The keywords of a schema, if it stands.
pub fn rules_below(nodes: &[Node], k: usize) -> &[Rule]
    ensures { map rule_of result.now ≡ rules_at (map rules_in nodes.now) k }
{
    if k < nodes.len() {
        &nodes[k].rules
    } else {
        &[]
    }
}

// The numbers of what a rule defines.
fn add_defined(targets: &mut Vec<usize>, rule: &Rule) -> Result<(), Memory>
    ensures { OnOk result (targets.new.items ≡ targets.old.items ++ defined (rule_of rule.now)) }
{
    match rule {
        Rule::Defines(parts) => add_numbers(targets, parts),
        Rule::Test(_)
        | Rule::Properties(_)
        | Rule::AdditionalProperties(_, _)
        | Rule::Items(_)
        | Rule::ItemsEach(_)
        | Rule::AdditionalItems(_, _)
        | Rule::AllOf(_)
        | Rule::AnyOf(_)
        | Rule::OneOf(_)
        | Rule::Not(_)
        | Rule::Refer(_) => Ok(()),
    }
}

fn add_numbers(targets: &mut Vec<usize>, parts: &[(String, usize)]) -> Result<(), Memory>
    ensures { OnOk result (targets.new.items ≡ targets.old.items ++ map (λ p. p.1) (map named_schema parts.now)) }
{
    for part in parts {
        targets.push(part.1)?;
    }
    Ok(())
}

/// The numbers of what a `$ref` can name: the root, and its definitions.
pub fn link(alloc: Global, nodes: &[Node], root: usize) -> Result<Vec<usize>, Memory>
    ensures { IfOk result (λ ts. ts.items ≡ root ∷ all_defined (rules_at (map rules_in nodes.now) root)) }
{
    let mut targets = Vec::new(alloc);
    targets.push(root)?;
    add_all(&mut targets, rules_below(nodes, root))?;
    Ok(targets)
}

fn add_all(targets: &mut Vec<usize>, rules: &[Rule]) -> Result<(), Memory>
    ensures { OnOk result (targets.new.items ≡ targets.old.items ++ all_defined (map rule_of rules.now)) }
{
    for rule in rules {
        add_defined(targets, rule)?;
    }
    Ok(())
}

/// The number of what a `$ref` names.
pub fn target_at(targets: &[usize], t: usize) -> usize
    ensures { result ≡ slice_index targets.now t }
{
    if t < targets.len() { targets[t] } else { 0 }
}

// What a rule names for the same value.
fn add_steps(steps: &mut Vec<usize>, targets: &[usize], rule: &Rule) -> Result<(), Memory>
    ensures { OnOk result (steps.new.items ≡ steps.old.items ++ in_place targets.now (rule_of rule.now)) }
{
    match rule {
        Rule::AllOf(ids) | Rule::AnyOf(ids) | Rule::OneOf(ids) => {
            steps.extend_from_slice(ids)?;
        }
        Rule::Not(s) => steps.push(*s)?,
        Rule::Refer(t) => steps.push(target_at(targets, *t))?,
        Rule::Test(_)
        | Rule::Properties(_)
        | Rule::AdditionalProperties(_, _)
        | Rule::Items(_)
        | Rule::ItemsEach(_)
        | Rule::AdditionalItems(_, _)
        | Rule::Defines(_) => {}
    }
    Ok(())
}

// What a schema names for the same value.
fn steps_of(alloc: Global, targets: &[usize], rules: &[Rule]) -> Result<Vec<usize>, Memory>
    ensures { IfOk result (λ s. s.items ≡ all_in_place targets.now (map rule_of rules.now)) }
{
    let mut steps = Vec::new(alloc);
    for rule in rules {
        add_steps(&mut steps, targets, rule)?;
    }
    Ok(steps)
}

/// For each schema those that it names for the same value.
pub fn steps(alloc: Global, nodes: &[Node], targets: &[usize]) -> Result<Vec<Vec<usize>>, Memory>
    ensures { IfOk result (λ s. lists_of s.items ≡ steps_for (schemas_of nodes.now targets.now)) }
{
    let mut steps = Vec::new(alloc);
    for node in nodes {
        steps.push(steps_of(alloc, targets, &node.rules)?)?;
    }
    Ok(steps)
}

// Gives a schema its rank.
fn set_rank(nodes: &mut Vec<Node>, k: usize, rank: usize)
    requires { AreWellMade nodes.old.items }
    ensures rules { map rules_in nodes.new.items ≡ map rules_in nodes.old.items }
    ensures made { AreWellMade nodes.new.items }
{
    if k < nodes.len() {
        nodes[k].rank = rank;
    }
}

/// Gives each schema its rank.
pub fn set_ranks(nodes: &mut Vec<Node>, ranks: &[usize])
    requires { AreWellMade nodes.old.items }
    ensures rules { map rules_in nodes.new.items ≡ map rules_in nodes.old.items }
    ensures made { AreWellMade nodes.new.items }
{
    for k in 0..ranks.len() {
        set_rank(nodes, k, ranks[k]);
    }
}
