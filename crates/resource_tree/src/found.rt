// What a request's path gives: its resource, and the parameters.
ghost use Rattle.std.specs.Prelude.{◌≡◌, ◌∷◌, ◌++◌, ℕ, List, true, IfOk, IsSome, OnOk};
ghost use Rattle.std.specs.List.{join_with_byte};
ghost use Rattle.std.specs.String.{string_bytes};
ghost use Rattle.resource_tree.specs.Matching.{IsBest, params, path_at};
ghost use Rattle.resource_tree.specs.Parameters.{has_parameter, value_at};

use crate::part::Part;
use crate::tree::{Hit, Tree};
use gw_base::{Memory, Seq, Text};
use std::alloc::Global;

/// A resource that was found, and the parameters of its path.
#[derive(Drop)]
pub struct Found {
    /// The index of the resource's path.
    pub resource: u32,
    /// The name of each parameter with what it takes: a `{name}` its segment, and a `{name+}` its
    /// segments, joined by `/`. They come in the order of the path. A name may stand in it twice.
    pub params: Seq<(Text, Text)>,
}

impl Found {
    /// Fills in the parameters of what [`Tree::find`] gave for these segments.
    ///
    /// # Errors
    ///
    /// [`Memory`] where there is no memory for them.
    pub fn fill(alloc: Global, tree: &Tree, hit: Hit, segments: &[Text]) -> Result<Self, Memory>
        requires { IsBest tree.now segments.now hit.resource }
        ensures resource { IfOk result (λ found. found.resource ≡ hit.resource) }
        ensures params { IfOk result (λ found. found.params ≡ params (path_at tree.now hit.resource) segments.now) }

        // Each parameter of the path has a value.
        ensures each { IfOk result (λ found. (name : List ℕ) → has_parameter name (path_at tree.now hit.resource) ≡ true → IsSome (value_at found.params name)) }
    {
        let params = params_of(alloc, tree.path(hit), segments)?;
        Ok(Found {
            resource: hit.resource,
            params: Seq::of(params),
        })
    }
}

/// The parameters of a path that takes the segments.
fn params_of(alloc: Global, parts: &[Part], segments: &[Text]) -> Result<Vec<(Text, Text)>, Memory>
    ensures { IfOk result (λ found. found.items ≡ params parts.now segments.now) }
{
    let mut found = Vec::new(alloc);
    let mut rest = segments;
    for part in parts {
        let Some((segment, behind)) = rest.split_first() else {
            return Ok(found);
        };
        match part {
            Part::Literal(_) => {}
            Part::Parameter(name) => found.push((name.copy(alloc)?, segment.copy(alloc)?))?,
            Part::Greedy(name) => {
                found.push((name.copy(alloc)?, join(alloc, rest)?))?;
                return Ok(found);
            }
        }
        rest = behind;
    }
    Ok(found)
}

/// The segments, joined by `/`.
fn join(alloc: Global, segments: &[Text]) -> Result<Text, Memory>
    ensures { IfOk result (λ text. text ≡ join_with_byte 47 segments.now) }
{
    let Some((first, others)) = segments.split_first() else {
        return Ok(Text::of(String::new(alloc)));
    };
    let mut text = String::from_str(alloc, first.as_str())?;
    for segment in others {
        text.push('/')?;
        text.push_str(segment.as_str())?;
    }
    Ok(Text::of(text))
}
