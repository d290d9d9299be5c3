// The paths of an API, and the best of those that match.
ghost use Rattle.std.specs.Prelude.{◌≡◌, ◌≢◌, ◌↔◌, ℕ, map, true, Some, None, IfOk, OnOk, IfErr, IfSome, IsNone, IsSomeAnd, ◌<◌, length};
ghost use Rattle.resource_tree.specs.Faults.{HasNoFault, IsFirstFault};
ghost use Rattle.resource_tree.specs.Matching.{IsBest, MatchesNone, path_at};
ghost use Rattle.resource_tree.specs.Reading.{parts_of};
ghost use Rattle.resource_tree.specs.Sharing.{greedy_last};

use crate::fault::TreeFault;
use crate::node::{Node, ends_of, nodes_of};
use crate::part::Part;
use crate::paths::read_paths;
use crate::search::best_path;
use gw_base::{Seq, Text};
use std::alloc::Global;
use std::marker::Model;

/// The paths of an API's resources. A contract sees it as the parts of each path, in order.
#[derive(Drop)]
pub struct Tree {
    paths: Vec<Seq<Part>>,
    nodes: Vec<Node>,
    ends: Vec<usize>,
}

impl Model for Tree {
    ghost use Rattle.std.specs.Prelude.{List};
    ghost use Rattle.resource_tree.specs.declared.part.Part.{Part};
    ghost use Rattle.resource_tree.specs.Nodes.{IsTreeOf};

    ghost Value = { List (List Part) };

    ghost view = { λ tree. tree.paths.items };

    ghost invariant = { λ tree. IsTreeOf tree.paths.items tree.nodes.items tree.ends.items };
}

/// The resource that was found.
#[derive(Clone, Copy, Debug, PartialEq, Eq)]
pub struct Hit {
    /// The index of its path.
    pub resource: u32,
}

impl Tree {
    /// Builds the tree of the paths. It is built by comparing each path with those before it; the
    /// time that this takes is not promised.
    ///
    /// # Errors
    ///
    /// The fault of the first path that has one, in the order of the list:
    ///
    /// - [`TreeFault::BadPart`] where it is written with no parts;
    /// - [`TreeFault::GreedyNotLast`] where a `{name+}` stands before its last part;
    /// - [`TreeFault::Clash`] where it clashes with an earlier one.
    ///
    /// [`TreeFault::Memory`] where there is no memory for the tree.
    pub fn build(alloc: Global, paths: &[Text]) -> Result<Self, TreeFault>
        ensures parts { IfOk result (λ tree. map (λ parts. Some parts) tree ≡ map parts_of paths.now) }
        ensures sound { OnOk result (HasNoFault paths.now) }
        ensures fault { IfErr result (λ fault. fault ≢ TreeFault.Memory → IsFirstFault paths.now fault) }
    {
        let paths = read_paths(alloc, paths)?;
        let nodes = nodes_of(alloc, paths.as_slice())?;
        let ends = ends_of(alloc, nodes.as_slice())?;
        Ok(Tree { paths, nodes, ends })
    }

    /// The best of the paths that match the segments, which are decoded. It takes no memory.
    pub fn find(&self, segments: &[Text]) -> Option<Hit>
        ensures best { IfSome result (λ hit. IsBest self.now segments.now hit.resource) }
        ensures only { (at : ℕ) → IsBest self.now segments.now at → IsSomeAnd result (λ hit. hit.resource ≡ at) }
        ensures none { IsNone result ↔ MatchesNone self.now segments.now }
    {
        let at = best_path(
            self.paths.as_slice(),
            self.nodes.as_slice(),
            self.ends.as_slice(),
            segments,
        )?;
        Some(Hit {
            resource: at as u32,
        })
    }

    /// The parts of the path that was found.
    pub(crate) fn path(&self, hit: Hit) -> &[Part]
        requires { hit.resource < length self.now }
        ensures parts { result.now ≡ path_at self.now hit.resource }
        ensures last { greedy_last result.now ≡ true }
    {
        self.paths[hit.resource as usize].as_slice()
    }
}
