// The search for the best path over the nodes of a tree.
ghost use Rattle.std.specs.Prelude.{IfSome, IfNone};
ghost use Rattle.resource_tree.specs.Matching.{IsBest, IsTable, MatchesNone};
ghost use Rattle.resource_tree.specs.Nodes.{IsIndex};

use crate::matching::{none_is_empty, takes_all, takes_last};
use crate::node::Node;
use crate::part::Part;
use gw_base::{Seq, Text};

/// The index of the best of the paths that match. Each node is looked at once at most, by one
/// comparison of a text, and those below a node that doesn't take its segment not at all.
pub fn best_path(
    paths: &[Seq<Part>],
    nodes: &[Node],
    ends: &[usize],
    segments: &[Text],
) -> Option<usize>
    requires table { IsTable paths.now }
    requires index { IsIndex paths.now nodes.now ends.now }
    ensures best { IfSome result (λ at. IsBest paths.now segments.now at) }
    ensures none { IfNone result (MatchesNone paths.now segments.now) }
{
    if !none_is_empty(segments) {
        return None;
    }
    let mut at = 0;
    while at < nodes.len() {
        let node = nodes[at];
        let parts = paths[node.path].as_slice();
        if !takes_last(parts, node.depth, segments) {
            at = ends[at];
        } else if node.depth == parts.len() && takes_all(parts, segments) {
            return Some(node.path);
        } else {
            at += 1;
        }
    }
    None
}
