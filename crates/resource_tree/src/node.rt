// The nodes of a tree, in preorder.
ghost use Rattle.std.specs.Prelude.{◌≡◌, ℕ, ◌<◌, ◌≤◌, length, IfOk, OnOk, slice_index};
ghost use Rattle.resource_tree.specs.Matching.{path_at};
ghost use Rattle.resource_tree.specs.Nodes.{AreTriedBefore, CanFollow, EndsAtNode, IsEndOf, IsGrown, IsPreorder};

use crate::order::in_order;
use crate::part::{Part, shared_len};
use gw_base::{Memory, Seq};
use std::alloc::Global;

/// A node of a tree: the first parts of a path.
#[derive(Clone, Copy)]
pub struct Node {
    /// The index of a path that goes through the node, and of the one that ends here, if one does.
    pub path: usize,
    /// How many parts of the path lead to the node.
    pub depth: usize,
}

/// The nodes of the paths, in preorder. Each path shares the nodes at its front with the path that
/// is tried before it.
pub fn nodes_of(alloc: Global, paths: &[Seq<Part>]) -> Result<Vec<Node>, Memory>
    ensures preorder { IfOk result (λ nodes. IsPreorder paths.now nodes.items) }
    ensures covered { IfOk result (λ nodes. (path : ℕ) → path < length paths.now → EndsAtNode paths.now nodes.items path) }
{
    let entries = in_order(alloc, paths)?;
    let mut nodes = Vec::new(alloc);
    for entry in &entries {
        add_path(&mut nodes, paths, entry.path)?;
    }
    Ok(nodes)
}

/// Adds the nodes of a path that is tried no earlier than those before it.
fn add_path(nodes: &mut Vec<Node>, paths: &[Seq<Part>], path: usize) -> Result<(), Memory>
    requires path { path < length paths.now }
    requires preorder { IsPreorder paths.now nodes.old.items }
    requires order { AreTriedBefore paths.now nodes.old.items (path_at paths.now path) }
    ensures grown { OnOk result (IsGrown paths.now nodes.old.items nodes.new.items path) }
    ensures ends { OnOk result (EndsAtNode paths.now nodes.new.items path) }
{
    let first = first_depth(nodes.as_slice(), paths, path);
    let last = paths[path].as_slice().len();
    for depth in first..last {
        nodes.push(Node { path, depth })?;
    }
    nodes.push(Node { path, depth: last })?;
    Ok(())
}

/// The depth of the first node of the path that is not shared with the last node.
fn first_depth(nodes: &[Node], paths: &[Seq<Part>], path: usize) -> usize
    requires path { path < length paths.now }
    requires preorder { IsPreorder paths.now nodes.now }
    ensures within { result ≤ length (path_at paths.now path) }
    ensures follows { CanFollow paths.now nodes.now path result }
{
    let parts = paths[path].as_slice();
    if nodes.is_empty() {
        return parts.len().min(1);
    }
    let last = nodes[nodes.len() - 1];
    let before = paths[last.path].as_slice();
    let shared = shared_len(&before[..last.depth], parts);
    parts.len().min(shared + 1)
}

/// For each node, the place behind the nodes below it.
pub fn ends_of(alloc: Global, nodes: &[Node]) -> Result<Vec<usize>, Memory>
    ensures count { IfOk result (λ ends. length ends.items ≡ length nodes.now) }
    ensures ends { IfOk result (λ ends. (at : ℕ) → at < length nodes.now → IsEndOf nodes.now at (slice_index ends.items at)) }
{
    let mut ends = Vec::new(alloc);
    for at in 0..nodes.len() {
        ends.push(end_of(nodes, at))?;
    }
    Ok(ends)
}

/// The place behind the nodes below this one.
fn end_of(nodes: &[Node], at: usize) -> usize
    requires { at < length nodes.now }
    ensures { IsEndOf nodes.now at result }
{
    let depth = nodes[at].depth;
    let mut end = at + 1;
    while end < nodes.len() && nodes[end].depth > depth {
        end += 1;
    }
    end
}
