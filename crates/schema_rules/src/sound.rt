// Whether schemas stand in an order.
ghost use Rattle.std.specs.Prelude.{◌≡◌, length, true};
ghost use Rattle.json_subset.specs.Nodes.{AllBelow, AllValuesBelow};
ghost use Rattle.schema_rules.specs.Made.{AllWellMade, AreWellMade, IsWellMade};
ghost use Rattle.schema_rules.specs.Views.{AllBefore, AreOthersBelow, AreSoundNodes, AreSoundRules, IsBefore, IsSoundNode, IsSoundRule, IsTargetBefore};

use crate::rule::{Node, Others, Rule};

// Whether a schema stands and comes before one of this rank.
fn is_before(nodes: &[Node], rank: usize, s: usize) -> bool
    ensures { result ≡ true → IsBefore nodes.now rank s }
{
    s < nodes.len() && nodes[s].rank < rank
}

fn are_before(nodes: &[Node], rank: usize, ids: &[usize]) -> bool
    ensures { result ≡ true → AllBefore nodes.now rank ids.now }
{
    let mut ids = ids;
    loop {
        match ids {
            [] => return true,
            [s, more @ ..] => {
                if !is_before(nodes, rank, *s) {
                    return false;
                }
                ids = more;
            }
        }
    }
}

fn are_below(nodes: &[Node], ids: &[usize]) -> bool
    ensures { result ≡ true → AllBelow (length nodes.now) ids.now }
{
    let mut ids = ids;
    loop {
        match ids {
            [] => return true,
            [s, more @ ..] => {
                if *s >= nodes.len() {
                    return false;
                }
                ids = more;
            }
        }
    }
}

fn are_named_below(nodes: &[Node], parts: &[(String, usize)]) -> bool
    ensures { result ≡ true → AllValuesBelow (length nodes.now) parts.now }
{
    let mut parts = parts;
    loop {
        match parts {
            [] => return true,
            [part, more @ ..] => {
                if part.1 >= nodes.len() {
                    return false;
                }
                parts = more;
            }
        }
    }
}

fn are_others_below(nodes: &[Node], others: Others) -> bool
    ensures { result ≡ true → AreOthersBelow (length nodes.now) others }
{
    match others {
        Others::Refused => true,
        Others::By(s) => s < nodes.len(),
    }
}

fn is_target_before(nodes: &[Node], targets: &[usize], rank: usize, t: usize) -> bool
    ensures { result ≡ true → IsTargetBefore nodes.now targets.now rank t }
{
    t < targets.len() && is_before(nodes, rank, targets[t])
}

// Whether what a rule of a schema of this rank names stands, and comes before it where it is named for the same value.
fn is_sound_rule(nodes: &[Node], targets: &[usize], rank: usize, rule: &Rule) -> bool
    requires { IsWellMade rule.now }
    ensures { result ≡ true → IsSoundRule nodes.now targets.now rank rule.now }
{
    match rule {
        Rule::Test(_) => true,
        Rule::Properties(parts) => are_named_below(nodes, parts),
        Rule::AdditionalProperties(_, others) => are_others_below(nodes, *others),
        Rule::Items(s) => *s < nodes.len(),
        Rule::ItemsEach(ids) => are_below(nodes, ids),
        Rule::AdditionalItems(_, others) => are_others_below(nodes, *others),
        Rule::AllOf(ids) => are_before(nodes, rank, ids),
        Rule::AnyOf(ids) => are_before(nodes, rank, ids),
        Rule::OneOf(ids) => are_before(nodes, rank, ids),
        Rule::Not(s) => is_before(nodes, rank, *s),
        Rule::Defines(_) => true,
        Rule::Refer(t) => is_target_before(nodes, targets, rank, *t),
    }
}

fn are_sound_rules(nodes: &[Node], targets: &[usize], rank: usize, rules: &[Rule]) -> bool
    requires { AllWellMade rules.now }
    ensures { result ≡ true → AreSoundRules nodes.now targets.now rank rules.now }
{
    let mut rules = rules;
    loop {
        match rules {
            [] => return true,
            [rule, more @ ..] => {
                if !is_sound_rule(nodes, targets, rank, rule) {
                    return false;
                }
                rules = more;
            }
        }
    }
}

fn is_sound_node(nodes: &[Node], targets: &[usize], node: &Node) -> bool
    requires { AllWellMade node.now.rules.items }
    ensures { result ≡ true → IsSoundNode nodes.now targets.now node.now }
{
    node.rank < nodes.len() && are_sound_rules(nodes, targets, node.rank, &node.rules)
}

/// Whether each schema comes behind all that it names for the same value, and all that is named stands.
pub fn are_sound(nodes: &[Node], targets: &[usize]) -> bool
    requires { AreWellMade nodes.now }
    ensures { result ≡ true → AreSoundNodes nodes.now targets.now }
{
    for k in 0..nodes.len() {
        if !is_sound_node(nodes, targets, &nodes[k]) {
            return false;
        }
    }
    true
}
