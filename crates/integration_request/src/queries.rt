// The query of a request.
ghost use Rattle.std.specs.Prelude.{◌≡◌, IfOk};
ghost use Rattle.call_facts.specs.Target.{past};
ghost use Rattle.integration_request.specs.Queries.{is_named as is_named_of, others as others_of, over_pairs as over_pairs_of, proxied as proxied_of, replaced as replaced_of};

use crate::copies::{copies, copy, push_all, text};
use gw_base::{Memory, Text};
use std::alloc::Global;
use wire_text::query_text;

// The pairs, with one in the place of those of just its name.
fn replaced(
    alloc: Global,
    pairs: &[(Text, Text)],
    over: &(Text, Text),
) -> Result<Vec<(Text, Text)>, Memory>
    ensures { IfOk result (λ made. made.items ≡ replaced_of pairs.now over.now) }
{
    let mut made = Vec::new(alloc);
    let mut stands = false;
    for pair in pairs {
        if pair.0.as_str() != over.0.as_str() {
            made.push(copy(alloc, pair)?)?;
        } else if !stands {
            made.push(copy(alloc, over)?)?;
            stands = true;
        }
    }
    if !stands {
        made.push(copy(alloc, over)?)?;
    }
    Ok(made)
}

/// The pairs, over which these are written one after another.
pub fn over_pairs(
    alloc: Global,
    pairs: &[(Text, Text)],
    overs: &[(Text, Text)],
) -> Result<Vec<(Text, Text)>, Memory>
    ensures { IfOk result (λ made. made.items ≡ over_pairs_of pairs.now overs.now) }
{
    let mut made = copies(alloc, pairs)?;
    for over in overs {
        made = replaced(alloc, &made, over)?;
    }
    Ok(made)
}

fn is_named(pairs: &[(Text, Text)], pair: &(Text, Text)) -> bool
    ensures { result ≡ is_named_of pairs.now pair.now }
{
    pairs
        .iter()
        .any(|other| other.0.as_str() == pair.0.as_str())
}

// The pairs whose names no mapped one has.
fn others(
    alloc: Global,
    asked: &[(Text, Text)],
    mapped: &[(Text, Text)],
) -> Result<Vec<(Text, Text)>, Memory>
    ensures { IfOk result (λ made. made.items ≡ others_of asked.now mapped.now) }
{
    let mut made = Vec::new(alloc);
    for pair in asked {
        if !is_named(mapped, pair) {
            made.push(copy(alloc, pair)?)?;
        }
    }
    Ok(made)
}

/// The query of a target, as it is written.
#[tactic(auto, unfolding(call_facts::specs::Target::past))]
pub fn raw_query(target: &str) -> &str
    ensures { result.now ≡ past 63 target.now }
{
    match target.split_once('?') {
        Some((_, query)) => query,
        None => "",
    }
}

/// The query that a proxy sends of this one of the client's, and of its pairs.
pub fn proxied(
    alloc: Global,
    raw: &str,
    asked: &[(Text, Text)],
    mapped: &[(Text, Text)],
) -> Result<Text, Memory>
    ensures { IfOk result (λ query. query ≡ proxied_of raw.now asked.now mapped.now) }
{
    if mapped.is_empty() {
        return text(alloc, raw);
    }
    let mut pairs = others(alloc, asked, mapped)?;
    push_all(alloc, &mut pairs, mapped)?;
    query_text(alloc, &pairs)
}
