// Why a reply is no policy.
use gw_base::Memory;
use std::alloc::{AllocError, AllocFailed};
use std::error::Error;
use std::fmt;

/// Why a reply is not read as a policy. The place counts bytes from 0.
#[derive(Clone, Copy, PartialEq, Eq, Debug, Drop)]
pub enum PolicyFault {
    /// The first fault of the reply. It is [`LIMIT`](crate::LIMIT) where the reply is longer; else the
    /// place of the JSON document's fault; else the first byte of the innermost value that is not of
    /// its form, of the object that lacks a member, or of the statement that has a member it must not.
    Malformed(usize),
    /// There was no memory for the policy.
    Memory,
}

/// Prints `Malformed(0)` or `Memory`.
impl fmt::Display for PolicyFault {
    ghost use Rattle.std.specs.Prelude.{Some};
    ghost use Rattle.policy_core.specs.Printed.{printed};

    ghost output = { λ fault. Some (printed fault) };

    fn fmt<W: fmt::Write>(&self, f: &mut fmt::Formatter<W>) -> fmt::Result {
        match self {
            PolicyFault::Malformed(at) => write!(f, "Malformed({at})"),
            PolicyFault::Memory => f.write_str("Memory"),
        }
    }
}

impl Error for PolicyFault {}

impl From<AllocError> for PolicyFault {
    ghost use Rattle.std.specs.Prelude.{◌≡◌};
    ghost use Rattle.policy_core.specs.declared.fault.PolicyFault.TheVariants.{Memory as memory};

    ghost from_gives = { λ _ fault. fault ≡ memory };

    fn from(_: AllocError) -> Self {
        PolicyFault::Memory
    }
}

impl<T: Drop> From<AllocFailed<T>> for PolicyFault {
    ghost use Rattle.std.specs.Prelude.{◌≡◌};
    ghost use Rattle.policy_core.specs.declared.fault.PolicyFault.TheVariants.{Memory as memory};

    ghost from_gives = { λ _ fault. fault ≡ memory };

    fn from(_: AllocFailed<T>) -> Self {
        PolicyFault::Memory
    }
}

impl From<Memory> for PolicyFault {
    ghost use Rattle.std.specs.Prelude.{◌≡◌};
    ghost use Rattle.policy_core.specs.declared.fault.PolicyFault.TheVariants.{Memory as memory};

    ghost from_gives = { λ _ fault. fault ≡ memory };

    fn from(_: Memory) -> Self {
        PolicyFault::Memory
    }
}
