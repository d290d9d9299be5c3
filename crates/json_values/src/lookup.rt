// The member of a name.
ghost use Rattle.std.specs.Prelude.{◌≡◌, ◌<◌, IfSome};
ghost use Rattle.json_subset.specs.Nodes.{AllValuesBelow};
ghost use Rattle.json_subset.specs.Numbered.{number_named};
ghost use Rattle.json_values.specs.Values.{IsIndexed};

use crate::value::Members;

/// The number of the first member of this name; at most the logarithm of the number of members in look-ups.
pub fn named(k: usize, members: &Members, name: &str) -> Option<usize>
    requires below { AllValuesBelow k members.now.list.items }
    requires indexed { IsIndexed members.now.list.items members.now.index }
    ensures value { result ≡ number_named members.now.list.items name.now }
    ensures below { IfSome result (λ i. i < k) }
{
    members.index.get(name).copied()
}
