// The parts of a path, and how they are compared.
ghost use Rattle.std.specs.Prelude.{◌≡◌, ◌<◌, ◌≤◌, false, length, slice_index_or, take};
ghost use Rattle.resource_tree.specs.declared.part.Part.{Part};
ghost use Rattle.std.specs.List.{list_any};
ghost use Rattle.std.specs.Cmp.Lexicographic.{slice_cmp};
ghost use Rattle.resource_tree.specs.Matching.{rank as rank_of};
ghost use Rattle.resource_tree.specs.Nodes.{literal_of, part_cmp};
ghost use Rattle.resource_tree.specs.Parameters.{has_name as has_name_of, has_parameter as has_parameter_of};
ghost use Rattle.resource_tree.specs.Sharing.{clashes as clashes_of, greedy_last, is_greedy as is_greedy_of, renames as renames_of, same_part as same_part_of};

use gw_base::Text;
use std::cmp::Ordering;

/// A part of a path, which stands behind a `/`.
#[derive(Drop)]
pub enum Part {
    /// A literal, as `orders`. It takes a segment of the same text.
    Literal(Text),
    /// `{name}`, by its name. It takes one segment.
    Parameter(Text),
    /// `{name+}`, by its name. It stands last, and takes all segments that are left.
    Greedy(Text),
}

impl Part {
    /// How early the part comes among those that match: 0 for a literal, 1 for `{name}` and 2 for
    /// `{name+}`.
    fn rank(&self) -> u8
        ensures { result ≡ rank_of self.now }
    {
        match self {
            Part::Literal(_) => 0,
            Part::Parameter(_) => 1,
            Part::Greedy(_) => 2,
        }
    }

    /// The text of a literal, and nothing of a parameter.
    fn literal(&self) -> &[u8]
        ensures { result.now ≡ literal_of self.now }
    {
        match self {
            Part::Literal(text) => text.as_str().as_bytes(),
            Part::Parameter(_) | Part::Greedy(_) => b"",
        }
    }

    /// Whether it is a `{name+}`.
    pub fn is_greedy(&self) -> bool
        ensures { result ≡ is_greedy_of self.now }
    {
        matches!(self, Part::Greedy(_))
    }

    /// Whether it is a `{name}` or a `{name+}` of this name.
    fn has_name(&self, name: &str) -> bool
        ensures { result ≡ has_name_of name.now self.now }
    {
        match self {
            Part::Literal(_) => false,
            Part::Parameter(other) => other.as_str() == name,
            Part::Greedy(other) => other.as_str() == name,
        }
    }
}

/// Whether one of the parts is a `{name}` or a `{name+}` of this name.
pub fn has_parameter(parts: &[Part], name: &str) -> bool
    ensures { result ≡ has_parameter_of name.now parts.now }
{
    parts.iter().any(|part| part.has_name(name))
}

/// Whether the two are the same part.
#[tactic(auto, unfolding(crate::specs::Sharing::same_part))]
fn same_part(first: &Part, second: &Part) -> bool
    ensures { result ≡ same_part_of first.now second.now }
{
    match (first, second) {
        (Part::Literal(first), Part::Literal(second)) => first.as_str() == second.as_str(),
        (Part::Parameter(first), Part::Parameter(second)) => first.as_str() == second.as_str(),
        (Part::Greedy(first), Part::Greedy(second)) => first.as_str() == second.as_str(),
        _ => false,
    }
}

/// Whether the two are parameters of one kind and of different names.
#[tactic(auto, unfolding(crate::specs::Sharing::renames))]
fn renames(first: &Part, second: &Part) -> bool
    ensures { result ≡ renames_of first.now second.now }
{
    match (first, second) {
        (Part::Parameter(first), Part::Parameter(second)) => first.as_str() != second.as_str(),
        (Part::Greedy(first), Part::Greedy(second)) => first.as_str() != second.as_str(),
        _ => false,
    }
}

/// Whether the paths are the same, or the same up to a parameter that they name differently.
pub fn clashes(first: &[Part], second: &[Part]) -> bool
    ensures { result ≡ clashes_of first.now second.now }
{
    for (p, q) in first.iter().zip(second) {
        if renames(p, q) {
            return true;
        }
        if !same_part(p, q) {
            return false;
        }
    }
    first.len() == second.len()
}

/// Whether no `{name+}` stands before the last part.
#[tactic(auto, unfolding(crate::specs::Sharing::greedy_last))]
pub fn is_greedy_last(parts: &[Part]) -> bool
    ensures { result ≡ greedy_last parts.now }
{
    !any_greedy(&parts[..parts.len().saturating_sub(1)])
}

fn any_greedy(parts: &[Part]) -> bool
    ensures { result ≡ list_any is_greedy_of parts.now }
{
    parts.iter().any(|part| part.is_greedy())
}

/// The order in which two paths are tried: by the ranks of their parts, and literals by their text.
pub fn compare(first: &[Part], second: &[Part]) -> Ordering
    ensures { result ≡ slice_cmp part_cmp first.now second.now }
{
    for (p, q) in first.iter().zip(second) {
        let order = compare_parts(p, q);
        if order != Ordering::Equal {
            return order;
        }
    }
    first.len().cmp(&second.len())
}

fn compare_parts(first: &Part, second: &Part) -> Ordering
    ensures { result ≡ part_cmp first.now second.now }
{
    let order = first.rank().cmp(&second.rank());
    if order != Ordering::Equal {
        return order;
    }
    first.literal().cmp(second.literal())
}

/// How many parts at the front the two paths share.
pub fn shared_len(first: &[Part], second: &[Part]) -> usize
    ensures first { result ≤ length first.now }
    ensures second { result ≤ length second.now }
    ensures same { take result first.now ≡ take result second.now }
    ensures most { (p q : Part) → result < length first.now → result < length second.now → same_part_of (slice_index_or first.now result p) (slice_index_or second.now result q) ≡ false }
{
    let mut shared = 0;
    for (p, q) in first.iter().zip(second) {
        if !same_part(p, q) {
            return shared;
        }
        shared += 1;
    }
    shared
}
