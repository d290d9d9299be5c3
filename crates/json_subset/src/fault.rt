// What stands against a document.
use std::alloc::{AllocError, AllocFailed};

/// Why bytes are no document. Places count bytes from 0.
#[derive(Clone, Copy, PartialEq, Eq, Debug, Drop)]
pub enum JsonFault {
    /// The least place such that no document begins with the bytes up to and including it, or the
    /// length of the input where it ends too early (RFC 8259, section 2 and on).
    Syntax(usize),
    /// The bracket that opens level 65 (RFC 8259, section 9, leaves the limit to the reader).
    Depth(usize),
    /// The opening quote of a member's name that an earlier member of the object has (section 4).
    Repeated(usize),
    /// The length of the longest front of the input that is UTF-8 (section 8.1).
    NotUtf8(usize),
    /// Memory ran out.
    Memory,
}

impl From<AllocError> for JsonFault {
    ghost use Rattle.std.specs.Prelude.{◌≡◌};
    ghost use Rattle.json_subset.specs.declared.fault.JsonFault.TheVariants.{Memory};

    ghost from_gives = { λ _ e. e ≡ Memory };

    fn from(_error: AllocError) -> JsonFault {
        JsonFault::Memory
    }
}

impl<T: Drop> From<AllocFailed<T>> for JsonFault {
    ghost use Rattle.std.specs.Prelude.{◌≡◌};
    ghost use Rattle.json_subset.specs.declared.fault.JsonFault.TheVariants.{Memory};

    ghost from_gives = { λ _ e. e ≡ Memory };

    fn from(_error: AllocFailed<T>) -> JsonFault {
        JsonFault::Memory
    }
}
