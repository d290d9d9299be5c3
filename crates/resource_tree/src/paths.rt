// Reads the paths of a list, each beside those before it.
ghost use Rattle.std.specs.Prelude.{◌≡◌, ◌≢◌, map, Some, None, IfOk, OnOk, IfErr};
ghost use Rattle.std.specs.List.{list_any};
ghost use Rattle.resource_tree.specs.Faults.{fault_behind, HasNoFault, IsFirstFault};
ghost use Rattle.resource_tree.specs.Matching.{IsTable};
ghost use Rattle.resource_tree.specs.Reading.{parts_of};
ghost use Rattle.resource_tree.specs.Sharing.{clashes as clashes_of};

use crate::fault::TreeFault;
use crate::part::{Part, clashes, is_greedy_last};
use crate::reading::read_parts;
use gw_base::{Seq, Text};
use std::alloc::Global;

/// The parts of each path.
pub fn read_paths(alloc: Global, paths: &[Text]) -> Result<Vec<Seq<Part>>, TreeFault>
    ensures parts { IfOk result (λ read. map (λ parts. Some parts) read.items ≡ map parts_of paths.now) }
    ensures sound { OnOk result (HasNoFault paths.now) }
    ensures table { IfOk result (λ read. IsTable read.items) }
    ensures fault { IfErr result (λ fault. fault ≢ TreeFault.Memory → IsFirstFault paths.now fault) }
{
    let mut read = Vec::new(alloc);
    for (i, path) in paths.iter().enumerate() {
        let Ok(at) = u32::try_from(i) else {
            return Err(TreeFault::Memory);
        };
        let parts = read_path(alloc, read.as_slice(), path.as_str(), at)?;
        read.push(parts)?;
    }
    Ok(read)
}

/// The parts of a path, which stands at this index behind the earlier ones.
#[tactic(auto, unfolding(crate::specs::Faults::fault_of_parts))]
fn read_path(
    alloc: Global,
    earlier: &[Seq<Part>],
    path: &str,
    at: u32,
) -> Result<Seq<Part>, TreeFault>
    ensures parts { IfOk result (λ parts. parts_of path.now ≡ Some parts) }
    ensures sound { OnOk result (fault_behind earlier.now at (parts_of path.now) ≡ None) }
    ensures fault { IfErr result (λ fault. fault ≢ TreeFault.Memory → fault_behind earlier.now at (parts_of path.now) ≡ Some fault) }
{
    let Some(parts) = read_parts(alloc, path)? else {
        return Err(TreeFault::BadPart(at));
    };
    if !is_greedy_last(parts.as_slice()) {
        return Err(TreeFault::GreedyNotLast(at));
    }
    if clashes_with_one(earlier, parts.as_slice()) {
        return Err(TreeFault::Clash(at));
    }
    Ok(Seq::of(parts))
}

fn clashes_with_one(earlier: &[Seq<Part>], parts: &[Part]) -> bool
    ensures { result ≡ list_any (λ other. clashes_of other parts.now) earlier.now }
{
    earlier.iter().any(|other| clashes(other.as_slice(), parts))
}
