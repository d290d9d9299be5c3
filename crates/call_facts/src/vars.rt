// The variables of a stage.
ghost use Rattle.std.specs.Prelude.{◌≡◌, false, IfOk};
ghost use Rattle.std.specs.List.{list_any};
ghost use Rattle.std.specs.Str.{bytes_eq};
ghost use Rattle.call_facts.specs.Pairs.{each_once as each_once_of, once as once_of};

use gw_base::{Memory, Seq, Shared, Text};
use std::alloc::Global;

/// The variables of a stage: names and values, in their order.
#[derive(Drop)]
pub struct Vars {
    pub pairs: Seq<(Text, Text)>,
}

fn is_named(pairs: &[(Text, Text)], name: &str) -> bool
    ensures { result ≡ list_any (λ p. bytes_eq p.0 name.now) pairs.now }
{
    pairs.iter().any(|pair| pair.0.as_str() == name)
}

// Whether a name stands twice.
fn repeats(pairs: &[(Text, Text)]) -> bool
    ensures { result ≡ false → each_once_of pairs.now ≡ pairs.now }
{
    for (i, pair) in pairs.iter().enumerate() {
        if is_named(&pairs[i + 1..], pair.0.as_str()) {
            return true;
        }
    }
    false
}

// Of each name the last pair, in its place.
fn each_once(alloc: Global, pairs: &[(Text, Text)]) -> Result<Vec<(Text, Text)>, Memory>
    ensures { IfOk result (λ made. made.items ≡ each_once_of pairs.now) }
{
    let mut made = Vec::new(alloc);
    for (i, pair) in pairs.iter().enumerate() {
        if !is_named(&pairs[i + 1..], pair.0.as_str()) {
            made.push((pair.0.copy(alloc)?, pair.1.copy(alloc)?))?;
        }
    }
    Ok(made)
}

impl Vars {
    /// Each name once: of a repeated name the earlier pairs go, and the last keeps its place. Where none is repeated the
    /// variables are shared.
    pub fn once(alloc: Global, variables: &Shared<Vars>) -> Result<Shared<Vars>, Memory>
        ensures { IfOk result (λ made. made ≡ once_of variables.now) }
    {
        let pairs = variables.value().pairs.as_slice();
        if !repeats(pairs) {
            return variables.share();
        }
        let pairs = Seq::of(each_once(alloc, pairs)?);
        Shared::new(alloc, Vars { pairs })
    }
}
