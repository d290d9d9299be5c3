// Whether a path takes a request's segments, none of which is empty.
ghost use Rattle.std.specs.Prelude.{◌≡◌, ◌≤◌, ◌-◌, length, true};
ghost use Rattle.std.specs.List.{list_all};
ghost use Rattle.resource_tree.specs.Nodes.{takes as takes_of, takes_all as takes_all_of, takes_front, ends_greedy as ends_greedy_of};
ghost use Rattle.resource_tree.specs.Spelling.{has_bytes};

use crate::part::Part;
use gw_base::Text;

/// Whether no segment is empty.
pub fn none_is_empty(segments: &[Text]) -> bool
    ensures { result ≡ list_all has_bytes segments.now }
{
    segments.iter().all(|segment| !segment.is_empty())
}

/// Whether so many parts take the first segments, where all parts but the last of these do.
pub fn takes_last(parts: &[Part], count: usize, segments: &[Text]) -> bool
    requires within { count ≤ length parts.now }
    requires others { takes_front (count - 1) parts.now segments.now ≡ true }
    ensures { result ≡ takes_front count parts.now segments.now }
{
    if count == 0 {
        return true;
    }
    count <= segments.len() && takes(&parts[count - 1], &segments[count - 1])
}

fn takes(part: &Part, segment: &Text) -> bool
    ensures { result ≡ takes_of part.now segment.now }
{
    match part {
        Part::Literal(text) => text.as_str() == segment.as_str(),
        Part::Parameter(_) | Part::Greedy(_) => true,
    }
}

/// Whether no segments are left behind the last part.
pub fn takes_all(parts: &[Part], segments: &[Text]) -> bool
    ensures { result ≡ takes_all_of parts.now segments.now }
{
    parts.len() == segments.len() || ends_greedy(parts)
}

fn ends_greedy(parts: &[Part]) -> bool
    ensures { result ≡ ends_greedy_of parts.now }
{
    !parts.is_empty() && parts[parts.len() - 1].is_greedy()
}
