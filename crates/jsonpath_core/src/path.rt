ghost use Rattle.std.specs.Prelude.{◌≡◌, ◌∷◌, [], ℕ, List, All, map, IfOk, IfSome, IsErrOf, MatchOption, MatchResult, false};
ghost use Rattle.json_subset.specs.Documents.{IsPart, IsWithin, part, root_tree};
ghost use Rattle.jsonpath_core.specs.Faults.{IsBadAt};
ghost use Rattle.jsonpath_core.specs.Reading.{path_of};
ghost use Rattle.jsonpath_core.specs.Selecting.{select};
ghost use Rattle.jsonpath_core.specs.Spelling.{IsPath};
ghost use Rattle.jsonpath_core.specs.Steps.{Step as StepOf, starred as starred_of};
ghost use Rattle.jsonpath_core.specs.Views.{Gives};

use crate::fault::PathFault;
use crate::reader::read_path;
use crate::selector::{select_all, select_one};
use crate::step::{Step, starred};
use gw_base::Memory;
use json_subset::{Doc, NodeId};
use std::alloc::Global;
use std::marker::Model;

/// A path into a JSON document. A contract sees it as its steps.
#[derive(Drop)]
pub struct Path {
    steps: Vec<Step>,
}

impl Model for Path {
    ghost use Rattle.std.specs.Prelude.{List};
    ghost use Rattle.jsonpath_core.specs.Steps.{Step as StepOf};
    ghost use Rattle.jsonpath_core.specs.Views.{AreKept, steps_view};

    ghost Value = { List StepOf };

    ghost view = { λ p. steps_view p.steps.items };

    ghost invariant = { λ p. AreKept p.steps.items };
}

impl Path {
    /// Reads a path.
    ///
    /// A path is `$`, and then steps: `.name`, whose name is of ASCII letters, digits, `_`, `-` and
    /// characters past ASCII; `['name']` or `["name"]`, which have no escapes; `[n]`; `[*]` or `.*`.
    ///
    /// # Errors
    ///
    /// - [`PathFault::BadPath`] at the first byte that cannot go on, or at the length of the text
    ///   where more would have to follow.
    /// - [`PathFault::Memory`] where there is no memory for the path.
    pub fn read(alloc: Global, text: &str) -> Result<Path, PathFault>
        // What is read is a path of these steps, and what is a path is read, but for want of memory.
        ensures spelled { IfOk result (λ p. IsPath text.now p) }
        ensures only { (steps : List StepOf) → IsPath text.now steps → MatchResult result (λ p. p ≡ steps) (λ fault. fault ≡ PathFault.Memory) }

        // Each fault is told just where it is.
        ensures refused { (at : ℕ) → IsErrOf result (PathFault.BadPath at) → IsBadAt text.now at }

        // The same by the function that reads.
        ensures gives { Gives (λ p. p) result (path_of text.now) }
    {
        match read_path(alloc, text) {
            Ok(steps) => Ok(Path { steps }),
            Err(fault) => Err(fault),
        }
    }

    /// Whether a star stands in the path.
    pub fn starred(&self) -> bool
        ensures { result ≡ starred_of self.now }
    {
        starred(&self.steps)
    }

    /// The node that a path without a star selects, and `None` where it selects none.
    pub fn one(&self, doc: &Doc) -> Option<NodeId>
        requires { starred_of self.now ≡ false }
        ensures selected { MatchOption result (select self.now (root_tree doc.now) ≡ []) (λ k. IsPart doc.now k × (select self.now (root_tree doc.now) ≡ part doc.now k ∷ [])) }
        ensures within { IfSome result (λ k. IsWithin (part doc.now k) (root_tree doc.now)) }
    {
        select_one(&self.steps, doc, doc.root())
    }

    /// The nodes that the path selects, in the order of the document.
    ///
    /// # Errors
    ///
    /// [`Memory`] where there is no memory for the list.
    pub fn all(&self, alloc: Global, doc: &Doc) -> Result<Vec<NodeId>, Memory>
        ensures parts { IfOk result (λ v. All (IsPart doc.now) v.items) }
        ensures selected { IfOk result (λ v. map (part doc.now) v.items ≡ select self.now (root_tree doc.now)) }
        ensures within { IfOk result (λ v. All (λ k. IsWithin (part doc.now k) (root_tree doc.now)) v.items) }
    {
        select_all(alloc, &self.steps, doc, doc.root())
    }
}
