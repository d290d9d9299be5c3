use gw_base::Memory;
use std::alloc::AllocFailed;

/// Why a tree is not built. The number is the index of the first path that has a fault.
#[derive(Clone, Copy, Debug, PartialEq, Eq)]
pub enum TreeFault {
    /// The path is not of the form: it does not begin with `/`, or a part of it is none.
    BadPart(u32),
    /// The path equals an earlier one, or shares an earlier one's parts up to a place where both
    /// have a `{name}`, or both a `{name+}`, of different names.
    Clash(u32),
    /// The path is of the form, but for a `{name+}` before its last part.
    GreedyNotLast(u32),
    /// There was no memory for the tree, or no index for a path: a tree holds 2^32 at most.
    Memory,
}

impl From<Memory> for TreeFault {
    ghost use Rattle.std.specs.Prelude.{◌≡◌};
    ghost use Rattle.resource_tree.specs.declared.fault.TreeFault.TheVariants.{Memory as memory};

    ghost from_gives = { λ _ fault. fault ≡ memory };

    fn from(_: Memory) -> Self {
        TreeFault::Memory
    }
}

impl<T: Drop> From<AllocFailed<T>> for TreeFault {
    ghost use Rattle.std.specs.Prelude.{◌≡◌};
    ghost use Rattle.resource_tree.specs.declared.fault.TreeFault.TheVariants.{Memory as memory};

    ghost from_gives = { λ _ fault. fault ≡ memory };

    fn from(_: AllocFailed<T>) -> Self {
        TreeFault::Memory
    }
}
