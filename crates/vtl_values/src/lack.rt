// What a call lacked.
ghost use Rattle.std.specs.Prelude.{◌≡◌};
ghost use Rattle.vtl_values.specs.declared.lack.Lack.TheVariants.{Memory as no_memory};

use gw_base::Memory;
use std::alloc::{AllocError, AllocFailed};

/// Why a call made no text.
#[derive(Clone, Copy, Debug, PartialEq, Eq)]
pub enum Lack {
    /// The text would be longer than there is room for.
    Room,
    /// Memory is wanting.
    Memory,
}

impl From<AllocError> for Lack {
    ghost from_gives = { λ _ e. e ≡ no_memory };

    fn from(_: AllocError) -> Self {
        Lack::Memory
    }
}

impl From<Memory> for Lack {
    ghost from_gives = { λ _ e. e ≡ no_memory };

    fn from(_: Memory) -> Self {
        Lack::Memory
    }
}

impl<T: Drop> From<AllocFailed<T>> for Lack {
    ghost from_gives = { λ _ e. e ≡ no_memory };

    fn from(_: AllocFailed<T>) -> Self {
        Lack::Memory
    }
}
