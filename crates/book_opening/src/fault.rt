// Why tables are refused.
use gw_base::Memory;
use keeper_core::Table;
use std::alloc::{AllocError, AllocFailed};

/// Why a book does not start from its tables.
#[derive(Clone, Copy, Debug, PartialEq, Eq)]
pub enum OpenFault {
    /// The first row that is refused: its table, and its place there by key, counted from 0.
    BadRow(Table, u64),
    /// Memory is wanting.
    Memory,
}

impl From<Memory> for OpenFault {
    ghost use Rattle.std.specs.Prelude.{◌≡◌};
    ghost use Rattle.book_opening.specs.declared.fault.OpenFault.TheVariants.{Memory as no_memory};

    ghost from_gives = { λ _ fault. fault ≡ no_memory };

    fn from(_: Memory) -> Self {
        OpenFault::Memory
    }
}

impl From<AllocError> for OpenFault {
    ghost use Rattle.std.specs.Prelude.{◌≡◌};
    ghost use Rattle.book_opening.specs.declared.fault.OpenFault.TheVariants.{Memory as no_memory};

    ghost from_gives = { λ _ fault. fault ≡ no_memory };

    fn from(_: AllocError) -> Self {
        OpenFault::Memory
    }
}

impl<T: Drop> From<AllocFailed<T>> for OpenFault {
    ghost use Rattle.std.specs.Prelude.{◌≡◌};
    ghost use Rattle.book_opening.specs.declared.fault.OpenFault.TheVariants.{Memory as no_memory};

    ghost from_gives = { λ _ fault. fault ≡ no_memory };

    fn from(_: AllocFailed<T>) -> Self {
        OpenFault::Memory
    }
}
