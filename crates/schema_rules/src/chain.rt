// The schemas of one value that a schema stands on.
use crate::case::Case;
use crate::memo::Memo;
use crate::rule::Rule;
use gw_base::Memory;
use std::alloc::Global;
use std::collections::BTreeSet;

// The schemas that this rule names for the same value, each behind its rank.
fn add_in_place(
    case: &Case<'_>,
    todo: &mut BTreeSet<(usize, usize)>,
    rule: &Rule,
) -> Result<(), Memory> {
    match rule {
        Rule::AllOf(ids) | Rule::AnyOf(ids) | Rule::OneOf(ids) => {
            for s in ids {
                add_schema(case, todo, *s)?;
            }
            Ok(())
        }
        Rule::Not(s) => add_schema(case, todo, *s),
        Rule::Refer(t) => match case.targets.get(*t) {
            Some(s) => add_schema(case, todo, *s),
            None => Ok(()),
        },
        Rule::Test(_)
        | Rule::Properties(_)
        | Rule::AdditionalProperties(_, _)
        | Rule::Items(_)
        | Rule::ItemsEach(_)
        | Rule::AdditionalItems(_, _)
        | Rule::Defines(_) => Ok(()),
    }
}

// A schema behind its rank.
fn add_schema(
    case: &Case<'_>,
    todo: &mut BTreeSet<(usize, usize)>,
    schema: usize,
) -> Result<(), Memory> {
    if let Some(node) = case.nodes.get(schema) {
        todo.insert((node.rank, schema))?;
    }
    Ok(())
}

/// The schemas of the same value, from the last in order to the first, that this one stands on and that have no verdict yet.
pub fn chain_of(
    alloc: Global,
    case: &Case<'_>,
    memo: &Memo,
    value: usize,
    schema: usize,
) -> Result<Vec<usize>, Memory> {
    let mut todo = BTreeSet::new(alloc);
    add_schema(case, &mut todo, schema)?;
    let mut chain = Vec::new(alloc);
    for _ in 0..case.nodes.len() {
        let k = match todo.pop_last() {
            Some((_, k)) => k,
            None => return Ok(chain),
        };
        if !memo.contains_key(&(value, k)) {
            if let Some(node) = case.nodes.get(k) {
                for rule in &node.rules {
                    add_in_place(case, &mut todo, rule)?;
                }
            }
            chain.push(k)?;
        }
    }
    Ok(chain)
}
