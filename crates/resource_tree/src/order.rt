// The order in which paths are tried, and their nodes in that order.
ghost use Rattle.std.specs.Prelude.{◌≡◌, ◌<◌, ℕ, length, IfOk, All};
ghost use Rattle.resource_tree.specs.Matching.{path_at};
ghost use Rattle.resource_tree.specs.Order.{AreTriedInOrder, HasPath};

use crate::part::{Part, compare};
use gw_base::{Memory, Seq};
use std::alloc::Global;

/// A path, and its index.
#[derive(Clone, Copy)]
pub struct Entry<'a> {
    /// Its index.
    pub path: usize,
    /// Its parts.
    pub parts: &'a [Part],
}

/// The paths in the order in which they are tried.
pub fn in_order(alloc: Global, paths: &[Seq<Part>]) -> Result<Vec<Entry<'_>>, Memory>
    ensures each { IfOk result (λ entries. All (λ entry. (entry.path < length paths.now) × (entry.parts.now ≡ path_at paths.now entry.path)) entries.items) }
    ensures all { IfOk result (λ entries. (path : ℕ) → path < length paths.now → HasPath entries.items path) }
    ensures ordered { IfOk result (λ entries. AreTriedInOrder entries.items) }
{
    let mut entries = Vec::new(alloc);
    for (path, parts) in paths.iter().enumerate() {
        entries.push(Entry {
            path,
            parts: parts.as_slice(),
        })?;
    }
    entries.sort_unstable_by(|first, second| compare(first.parts, second.parts));
    Ok(entries)
}
