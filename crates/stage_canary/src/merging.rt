// The variables of a call that is taken to a canary.
ghost use Rattle.std.specs.Prelude.{◌≡◌, ◌++◌, IfOk, OnOk, unwrap_or};
ghost use Rattle.std.specs.List.{list_any};
ghost use Rattle.std.specs.Str.{bytes_eq};
ghost use Rattle.call_facts.specs.Pairs.{first_value as first_value_of};
ghost use Rattle.stage_canary.specs.Canaries.{is_named as is_named_of, merged_pairs, other_pairs, overridden_pairs};

use call_facts::{Vars, first_value};
use gw_base::{Memory, Seq, Text};
use std::alloc::Global;

fn is_named(pairs: &[(Text, Text)], name: &str) -> bool
    ensures { result ≡ is_named_of pairs.now name.now }
{
    pairs.iter().any(|pair| pair.0.as_str() == name)
}

// A pair of the stage, with the canary's value where it has one.
fn overridden(
    alloc: Global,
    canary: &[(Text, Text)],
    pair: &(Text, Text),
) -> Result<(Text, Text), Memory>
    ensures { IfOk result (λ made. made ≡ (pair.now.0, unwrap_or (first_value_of canary.now pair.now.0) pair.now.1)) }
{
    let value = first_value(canary, pair.0.as_str()).unwrap_or(&pair.1);
    Ok((pair.0.copy(alloc)?, value.copy(alloc)?))
}

// The pairs of the stage, each with the canary's value where it has one.
fn override_all(
    alloc: Global,
    stage: &[(Text, Text)],
    canary: &[(Text, Text)],
) -> Result<Vec<(Text, Text)>, Memory>
    ensures { IfOk result (λ made. made.items ≡ overridden_pairs stage.now canary.now) }
{
    let mut pairs = Vec::new(alloc);
    for pair in stage {
        pairs.push(overridden(alloc, canary, pair)?)?;
    }
    Ok(pairs)
}

// Adds the pairs that the canary alone names.
fn add_others(
    alloc: Global,
    pairs: &mut Vec<(Text, Text)>,
    stage: &[(Text, Text)],
    canary: &[(Text, Text)],
) -> Result<(), Memory>
    ensures { OnOk result (pairs.new.items ≡ pairs.old.items ++ other_pairs stage.now canary.now) }
{
    for pair in canary {
        if !is_named(stage, pair.0.as_str()) {
            pairs.push((pair.0.copy(alloc)?, pair.1.copy(alloc)?))?;
        }
    }
    Ok(())
}

/// The variables of a stage with those of its canary: the stage's in their order, each with the canary's value where the canary names it,
/// and then those that the canary alone names.
pub fn merged(alloc: Global, stage: &Vars, canary: &Vars) -> Result<Vars, Memory>
    ensures { IfOk result (λ made. made.pairs ≡ merged_pairs stage.now.pairs canary.now.pairs) }
{
    let (stage, canary) = (stage.pairs.as_slice(), canary.pairs.as_slice());
    let mut pairs = override_all(alloc, stage, canary)?;
    add_others(alloc, &mut pairs, stage, canary)?;
    Ok(Vars {
        pairs: Seq::of(pairs),
    })
}
